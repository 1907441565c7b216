//! What the step table speaks of: pages and low keys, locks, messages and modes, and the mode table: what a node
//! does with a message, and when a migration starts and finishes, by the modes alone.
#![tactic(auto)]

pub mod kind;
pub mod lock;
pub mod mode;
pub mod table;

pub use crate::kind::Kind;
pub use crate::lock::{Lock, LockKind};
pub use crate::mode::NodeMode;
pub use crate::table::{FinishLine, MessageLine};
