//! Tests of what no contract says and no script over the built program reaches: the step table against tables written by
//! hand, a tree of pages against a plain scan, the words of faults, a stream that fails in each call, and runs by three threads that wait
//! for one another. They are in a crate of their own, since a crate with tests is proved twice.
#![tactic(auto)]

#[cfg(test)]
mod tests;
