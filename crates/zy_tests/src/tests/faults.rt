//! The words of the faults that no script sees.

use std::alloc::Global;
use std::fmt::Display;
use zy_io::{ReadFault, TextFault, WriteFault};
use zy_isa::{ProgramFault, ScenarioFault};
use zy_wire::WireFault;

/// Whether these are the words of a fault.
fn says<F: Display + Copy>(alloc: Global, fault: F, words: &str) -> bool {
    match format!(in alloc; "{fault}") {
        Ok(text) => text.as_str() == words,
        Err(_) => false,
    }
}

#[test]
fn of_a_program(rt: HostRuntime) {
    let (empty, target) = (ProgramFault::Empty, ProgramFault::Target(3));
    assert!(rt; says(rt.alloc(), empty, "a program needs an instruction"));
    let words = "the target of instruction 3 is the number of an instruction";
    assert!(rt; says(rt.alloc(), target, words));
}

#[test]
fn of_a_scenario(rt: HostRuntime) {
    let (rows, choice) = (ScenarioFault::RowCount, ScenarioFault::Choice(9));
    let words = "the rows are at most 256 and open with at most `pages` pages";
    assert!(rt; says(rt.alloc(), rows, words));
    let words = "choice 9 names a transaction that exists";
    assert!(rt; says(rt.alloc(), choice, words));
}

#[test]
fn of_a_wireframe(rt: HostRuntime) {
    let (full, memory) = (WireFault::Full, WireFault::Memory);
    let words = "the wireframe has as many pages as it may have";
    assert!(rt; says(rt.alloc(), full, words));
    assert!(rt; says(rt.alloc(), memory, "there is no memory for one page more"));
}

#[test]
fn of_an_input(rt: HostRuntime) {
    let alloc = rt.alloc();
    assert!(rt; says(alloc, ReadFault::Read, "the input could not be read"));
    let words = "the input has at most 4194304 bytes";
    assert!(rt; says(alloc, ReadFault::TooLong, words));
    let words = "there is no memory for the input";
    assert!(rt; says(alloc, ReadFault::Memory, words));
}

#[test]
fn of_an_output(rt: HostRuntime) {
    let alloc = rt.alloc();
    let words = "the output could not be written";
    assert!(rt; says(alloc, WriteFault, words));
    assert!(rt; says(alloc, TextFault::Write, words));
    let words = "there is no memory for a line of the output";
    assert!(rt; says(alloc, TextFault::Memory, words));
}
