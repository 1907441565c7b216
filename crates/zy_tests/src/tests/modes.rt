//! Every pair of mode and kind, and every pair of modes, against tables written by hand.
use std::process::Abort;
use zy_isa::{Node, Version};
use zy_model::table::{home_of, on_finish, on_message, on_start};
use zy_model::{FinishLine, Kind, MessageLine, NodeMode};

const MODES: [NodeMode; 8] = [
    NodeMode::Empty,
    NodeMode::Normal,
    NodeMode::SInit,
    NodeMode::SDual,
    NodeMode::SFinish,
    NodeMode::DInit,
    NodeMode::DDual,
    NodeMode::DFinish,
];

const KINDS: [Kind; 7] = [
    Kind::Wire,
    Kind::Ready,
    Kind::Dual,
    Kind::Pull,
    Kind::Page,
    Kind::Finish,
    Kind::Done,
];

/// While pages are missing, a line for each mode and a column for each kind: the number of the new mode in MODES, or a
/// dot.
const MISSING: [&[u8; 7]; 8] = [
    b"5......", b".......", b".3.....", b"...3...", b"...4..0", b"..6....", b"....67.", b"....7..",
];

/// Where all pages are here, a line for each mode and a column for each kind, as in MISSING.
const ALL_HERE: [&[u8; 7]; 8] = [
    b"5......", b".......", b".3.....", b"...3...", b"...4..0", b"..6....", b"....61.", b"....1..",
];

fn digit(mode: NodeMode) -> u8 {
    match mode {
        NodeMode::Empty => b'0',
        NodeMode::Normal => b'1',
        NodeMode::SInit => b'2',
        NodeMode::SDual => b'3',
        NodeMode::SFinish => b'4',
        NodeMode::DInit => b'5',
        NodeMode::DDual => b'6',
        NodeMode::DFinish => b'7',
    }
}

/// What a node sends that turns to this mode at a message of this kind.
fn sent(kind: Kind, mode: NodeMode) -> Option<Kind> {
    match kind {
        Kind::Wire => Some(Kind::Ready),
        Kind::Ready => Some(Kind::Dual),
        Kind::Pull => Some(Kind::Page),
        _ if mode == NodeMode::Normal => Some(Kind::Done),
        _ => None,
    }
}

/// Whether a line is what the table has.
fn is_line(row: MessageLine, kind: Kind, want: u8) -> bool {
    match row {
        MessageLine::Stray => want == b'.',
        MessageLine::Turns(mode, told) => want == digit(mode) && told == sent(kind, mode),
    }
}

fn check_messages(rt: &impl Abort, table: &[&[u8; 7]; 8], all_here: bool) {
    for (mode, line) in MODES.iter().zip(table) {
        for (kind, want) in KINDS.iter().zip(line.iter()) {
            assert!(rt;
                is_line(
                    on_message(*mode, *kind, all_here, Version::One),
                    *kind,
                    *want
                ),
                "{line:?}, {want}"
            );
        }
    }
}

#[test]
fn every_message_in_every_mode(rt: HostRuntime) {
    check_messages(&rt, &MISSING, false);
    check_messages(&rt, &ALL_HERE, true);
}

#[test]
fn finish_in_every_mode(rt: HostRuntime) {
    for mode in &MODES {
        let lines = (on_finish(*mode, false), on_finish(*mode, true));
        let is_right = if *mode == NodeMode::SDual {
            matches!(lines, (FinishLine::Finishing, FinishLine::Active))
        } else {
            matches!(lines, (FinishLine::BadMode, FinishLine::BadMode))
        };
        assert!(rt; is_right, "{}", digit(*mode));
    }
}

/// A line for each mode of A, a column for each mode of B: where a transaction begins, or a dot.
const HOMES: [&[u8; 8]; 8] = [
    b".BB..BBB",
    b"AAAAAAAA",
    b"AAAAAAAA",
    b".BB..BBB",
    b".BB..BBB",
    b"ABBAAAAA",
    b"ABBAAAAA",
    b"ABBAAAAA",
];

fn letter(node: Option<Node>) -> u8 {
    match node {
        Some(Node::A) => b'A',
        Some(Node::B) => b'B',
        None => b'.',
    }
}

#[test]
fn every_pair_of_modes(rt: HostRuntime) {
    for (a, line) in MODES.iter().zip(&HOMES) {
        for (b, want) in MODES.iter().zip(line.iter()) {
            let starts = *a == NodeMode::Normal && *b == NodeMode::Empty;
            let start = if starts { b'A' } else { b'.' };
            assert!(rt; letter(home_of(*a, *b)) == *want, "{line:?}, {want}");
            assert!(rt;
                letter(on_start(*a, *b, Version::One)) == start,
                "{line:?}, {want}"
            );
            let turned = *a == NodeMode::Empty && *b == NodeMode::Normal;
            let start = if turned { b'B' } else { start };
            assert!(rt;
                letter(on_start(*a, *b, Version::Two)) == start,
                "{line:?}, {want}"
            );
        }
    }
}
