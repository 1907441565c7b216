//! Words written by hand, and bytes that are no word.
use zy_isa::word::{decode, encode};
use zy_isa::{Instr, Reg};

#[test]
fn each_instruction_has_its_word(rt: HostRuntime) {
    for (instr, word) in [
        (Instr::Set(Reg::R7, 0x0102_03ff), [0, 7, 0, 0, 1, 2, 3, 255]),
        (
            Instr::Set(Reg::R0, 4_294_967_295),
            [0, 0, 0, 0, 255, 255, 255, 255],
        ),
        (Instr::Read(Reg::R1, Reg::R2), [1, 1, 2, 0, 0, 0, 0, 0]),
        (Instr::Write(Reg::R3, Reg::R4), [2, 3, 4, 0, 0, 0, 0, 0]),
        (Instr::Insert(Reg::R5, Reg::R6), [3, 5, 6, 0, 0, 0, 0, 0]),
        (Instr::Add(Reg::R7, Reg::R0), [4, 7, 0, 0, 0, 0, 0, 0]),
        (Instr::Beq(Reg::R6, Reg::R5, 258), [5, 6, 5, 0, 0, 0, 1, 2]),
        (Instr::Commit, [6, 0, 0, 0, 0, 0, 0, 0]),
        (Instr::Abort, [7, 0, 0, 0, 0, 0, 0, 0]),
        (Instr::Sum(Reg::R0, Reg::R1), [8, 0, 1, 0, 0, 0, 0, 0]),
    ] {
        assert_eq!(rt; encode(instr), word);
        assert!(rt;
            matches!(decode(word), Some(found) if encode(found) == word),
            "{word:?}"
        );
    }
}

#[test]
fn other_bytes_are_no_word(rt: HostRuntime) {
    for word in [
        [0, 8, 0, 0, 0, 0, 0, 1],
        [0, 1, 1, 0, 0, 0, 0, 1],
        [0, 1, 0, 1, 0, 0, 0, 1],
        [1, 8, 2, 0, 0, 0, 0, 0],
        [1, 1, 8, 0, 0, 0, 0, 0],
        [1, 1, 2, 0, 0, 0, 0, 1],
        [2, 3, 4, 0, 1, 0, 0, 0],
        [3, 5, 255, 0, 0, 0, 0, 0],
        [4, 7, 0, 1, 0, 0, 0, 0],
        [4, 7, 0, 0, 0, 0, 1, 0],
        [5, 6, 8, 0, 0, 0, 0, 2],
        [5, 6, 5, 2, 0, 0, 0, 2],
        [6, 1, 0, 0, 0, 0, 0, 0],
        [6, 0, 1, 0, 0, 0, 0, 0],
        [6, 0, 0, 0, 0, 0, 0, 1],
        [7, 1, 0, 0, 0, 0, 0, 0],
        [7, 0, 0, 0, 0, 1, 0, 0],
        [8, 1, 2, 0, 0, 0, 0, 1],
        [9, 0, 0, 0, 0, 0, 0, 0],
        [255, 255, 255, 255, 255, 255, 255, 255],
    ] {
        assert!(rt; decode(word).is_none(), "{word:?}");
    }
}
