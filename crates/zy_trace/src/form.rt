//! How the steps of a run are written.

/// How a step of a run is written.
#[derive(Clone, Copy)]
pub enum StepForm {
    /// Its line, and below it, behind two spaces, the lines of the state that it changed.
    Lines,
    /// One object of JSON.
    Object,
    /// One object of JSON, with the lines of the state that it changed.
    TracedObject,
}
