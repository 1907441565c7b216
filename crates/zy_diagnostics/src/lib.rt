//! Advice on a rejected input: what is wrong with it, what to write, and where. A function here reads the input's bytes
//! again, beside the reader that rejected them, so the only proof about it is that it is safe and ends. None of them takes
//! memory.
#![tactic(auto)]

mod bad_command;
mod command;
mod end_advice;
mod header_advice;
mod header_statement;
mod image_advice;
mod instruction_words;
mod program_advice;
mod statement_form;
mod statement_order;
mod text_advice;
mod unknown_word;
mod word_advice;

pub use crate::bad_command::BadCommand;
pub use crate::command::CommandName;
pub use crate::image_advice::ImageAdvice;
pub use crate::text_advice::TextAdvice;
