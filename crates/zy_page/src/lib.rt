//! Leaf pages, with their rows in them, and lists of rows in key order.
#![tactic(auto)]

pub mod finding;
pub mod page;
pub mod page_rows;
pub mod row_list;

pub use crate::page::Page;
pub use crate::page_rows::PageRows;
pub use crate::row_list::RowList;
