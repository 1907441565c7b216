//! A module has the name of what it tests.

mod faults;
mod image;
mod lines;
mod modes;
mod threads;
mod tree;
mod word;
