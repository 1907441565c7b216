//! The lines of a listing, a module for each kind.

pub mod final_state;
pub mod link;
pub mod locked;
pub mod mode;
pub mod node;
pub mod page;
pub mod rows;
pub mod serial;
pub mod step;
pub(crate) mod taken;
pub mod txn;
pub mod words;
