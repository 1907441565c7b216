//! What an order is looked for by.

use crate::log_format::LogFormat;
use zy_engine::Wording;
use zy_order::End;

/// What an order is looked for by.
#[derive(Clone, Copy)]
pub struct OrderOptions {
    /// How the scenario is written that goes out.
    pub wording: Wording,
    /// How the lines of logs are written.
    pub logs: LogFormat,
    /// The most steps that a gap of a log stands for.
    pub gap: u16,
    /// What is asked of the last state of an order.
    pub end: End,
    /// The most states that may be reached.
    pub most: u32,
}
