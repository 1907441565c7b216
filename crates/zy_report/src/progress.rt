//! The line that says how far a search is.

use std::time::{Clock, Instant};
use zy_search::Watch;

/// Says on standard error how far a search is, once a second, in a line that is written over the last one. Where that
/// is no terminal it says nothing.
#[derive(Drop)]
pub struct Progress<'a, R> {
    rt: &'a R,
    started: Option<Instant>,
    /// The second of the last line; 0 before the first one.
    last: u64,
}

impl<'a, R: Eprint + Clock> Progress<'a, R> {
    /// No line yet.
    pub fn new(rt: &'a R, is_terminal: bool) -> Progress<'a, R> {
        let started = if is_terminal {
            Instant::now(rt).ok()
        } else {
            None
        };
        Progress {
            rt,
            started,
            last: 0,
        }
    }

    /// Takes the line away, if there is one.
    pub fn clear(&self) {
        if self.last > 0 {
            let _ = eprint!(self.rt; "\r\x1b[K");
        }
    }
}

impl<R: Eprint + Clock> Watch for Progress<'_, R> {
    fn look(&mut self, states: usize, depth: usize) {
        let Some(started) = self.started else {
            return;
        };
        let Ok(passed) = started.elapsed(self.rt) else {
            return;
        };
        let second = passed.as_secs();
        if second <= self.last {
            return;
        }
        self.last = second;
        let rate = states as u64 / second;
        let _ = eprint!(self.rt;
            "\r{states} states, {depth} choices deep, {rate} states a second\x1b[K"
        );
    }
}
