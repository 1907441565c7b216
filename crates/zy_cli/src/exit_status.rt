//! The exit statuses that are not those of a fault of the input.

/// The exit status where all went well.
pub const DONE: u8 = 0;

/// The exit status of a command line that is not understood.
pub const COMMAND_LINE: u8 = 2;

/// The exit status where the input is not the listing that it should be.
pub const NOT_TABLE: u8 = 4;

/// The exit status where no schedule, or no state of a run, shows what is looked for, and where the logs have no order.
pub const NOWHERE: u8 = 4;

/// The exit status where a search came to no end, and where a scenario has no room for the choices that end its migration.
pub const SPENT: u8 = 6;

/// The exit status where the logs have orders, and none with the end that is asked for.
pub const OTHER_END: u8 = 7;
