//! How the lines below a scenario are written.

/// How the lines of logs are written.
#[derive(Clone, Copy)]
pub enum LogFormat {
    /// As text, in the words of a listing.
    Text,
    /// As objects of JSON, one a line.
    Json,
}
