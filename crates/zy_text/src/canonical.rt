//! The canonical text of each value of a scenario.
ghost use Rattle.std.specs.Prelude.{◌≡◌, [], ◌∷◌, map};
ghost use Rattle.zy_isa.specs.Operations.{mnemonic};
ghost use Rattle.zy_isa.specs.Versions.{word};
ghost use Rattle.zy_text.specs.Words.{spaced};
ghost use Rattle.zy_text.specs.Canon.{node_text, rule_text, reg_text, row_text, instr_text, choice_text};

use std::alloc::AllocError;
use zy_io::{Decimal, Line, LineBuffer, Piece, PieceLines, joined};
use zy_isa::{
    Choice, Instr, JumpOperation, LoneOperation, Node, NumberOperation, Operation, PairOperation,
    Parts, Reg, Row, Rule, Version, Word,
};

/// A value, as its canonical text.
#[derive(Clone, Copy)]
pub struct Canonical<T>(pub T);

impl Piece for Canonical<Version> {
    ghost text = { λ c. word c.0 };

    ghost most = { 1 };

    #[inline(always)]
    fn put_behind(self, bytes: Vec<u8>) -> Vec<u8> {
        (&[self.0.digit()]).put_behind(bytes)
    }
}

impl Piece for Canonical<Rule> {
    ghost text = { λ c. rule_text c.0 };

    ghost most = { 5 };

    #[inline(always)]
    fn put_behind(self, bytes: Vec<u8>) -> Vec<u8> {
        match self.0 {
            Rule::Held => b"held".put_behind(bytes),
            Rule::Loose => b"loose".put_behind(bytes),
        }
    }
}

impl Piece for Canonical<Row> {
    ghost text = { λ c. row_text c.0 };

    ghost most = { 45 };

    #[inline(always)]
    fn put_behind(self, bytes: Vec<u8>) -> Vec<u8> {
        let Row { key, value } = self.0;
        joined!(b"row ", Decimal(key), b" ", Decimal(value)).put_behind(bytes)
    }
}

/// The sign behind the `r` of a register.
#[inline(always)]
fn digit(register: Reg) -> u8
    ensures { reg_text register ≡ 114 ∷ result ∷ [] }
{
    match register {
        Reg::R0 => b'0',
        Reg::R1 => b'1',
        Reg::R2 => b'2',
        Reg::R3 => b'3',
        Reg::R4 => b'4',
        Reg::R5 => b'5',
        Reg::R6 => b'6',
        Reg::R7 => b'7',
    }
}

/// Two registers, each behind a space.
#[derive(Clone, Copy)]
struct Registers(Reg, Reg);

impl Piece for Registers {
    ghost text = { λ p. 32 ∷ spaced (reg_text p.0 ∷ reg_text p.1 ∷ []) };

    ghost most = { 6 };

    #[inline(always)]
    fn put_behind(self, bytes: Vec<u8>) -> Vec<u8> {
        (&[b' ', b'r', digit(self.0), b' ', b'r', digit(self.1)]).put_behind(bytes)
    }
}

impl Piece for Canonical<Operation> {
    ghost text = { λ c. mnemonic c.0 };

    ghost most = { 6 };

    #[inline(always)]
    fn put_behind(self, bytes: Vec<u8>) -> Vec<u8> {
        match self.0 {
            Operation::Number(NumberOperation::Set) => b"set".put_behind(bytes),
            Operation::Pair(PairOperation::Read) => b"read".put_behind(bytes),
            Operation::Pair(PairOperation::Write) => b"write".put_behind(bytes),
            Operation::Pair(PairOperation::Insert) => b"insert".put_behind(bytes),
            Operation::Pair(PairOperation::Add) => b"add".put_behind(bytes),
            Operation::Pair(PairOperation::Sum) => b"sum".put_behind(bytes),
            Operation::Jump(JumpOperation::Beq) => b"beq".put_behind(bytes),
            Operation::Lone(LoneOperation::Commit) => b"commit".put_behind(bytes),
            Operation::Lone(LoneOperation::Abort) => b"abort".put_behind(bytes),
        }
    }
}

impl Piece for Canonical<Instr> {
    ghost text = { λ c. instr_text c.0 };

    ghost most = { 34 };

    #[inline(always)]
    fn put_behind(self, bytes: Vec<u8>) -> Vec<u8> {
        match self.0.parts() {
            Parts::Number(operation, a, number) => joined!(
                Canonical(Operation::Number(operation)),
                &[b' ', b'r', digit(a), b' '],
                Decimal(number),
            )
            .put_behind(bytes),
            Parts::Pair(operation, a, b) => {
                joined!(Canonical(Operation::Pair(operation)), Registers(a, b)).put_behind(bytes)
            }
            Parts::Jump(operation, a, b, target) => joined!(
                Canonical(Operation::Jump(operation)),
                Registers(a, b),
                b" @",
                Decimal(target),
            )
            .put_behind(bytes),
            Parts::Lone(operation) => Canonical(Operation::Lone(operation)).put_behind(bytes),
        }
    }
}

impl Piece for Canonical<Node> {
    ghost text = { λ c. node_text c.0 };

    ghost most = { 1 };

    #[inline(always)]
    fn put_behind(self, bytes: Vec<u8>) -> Vec<u8> {
        match self.0 {
            Node::A => b"A".put_behind(bytes),
            Node::B => b"B".put_behind(bytes),
        }
    }
}

impl Line for Canonical<Node> {
    ghost text = { λ c. node_text c.0 };

    #[inline(always)]
    fn append(&self, line: &mut LineBuffer) -> Result<(), AllocError> {
        line.push_piece(*self)
    }
}

/// A listing has two for each step.
impl Piece for Canonical<Choice> {
    ghost text = { λ c. choice_text c.0 };

    ghost most = { 28 };

    #[inline(always)]
    fn put_behind(self, bytes: Vec<u8>) -> Vec<u8> {
        match self.0 {
            Choice::Start => b"C start".put_behind(bytes),
            Choice::Begin(t) => joined!(b"C begin ", Decimal(t)).put_behind(bytes),
            Choice::Kill(t) => joined!(b"C kill ", Decimal(t)).put_behind(bytes),
            Choice::Run(node, t) => {
                joined!(Canonical(node), b" run ", Decimal(t)).put_behind(bytes)
            }
            Choice::Take(node) => joined!(Canonical(node), b" take").put_behind(bytes),
            Choice::Finish(node) => joined!(Canonical(node), b" finish").put_behind(bytes),
            Choice::Push(node) => joined!(Canonical(node), b" push").put_behind(bytes),
        }
    }
}

/// A line for each value, its canonical text.
#[derive_where(Clone, Copy)]
pub struct Each<'a, T>(pub &'a [T]);

impl PieceLines for Each<'_, Row> {
    type Text = Canonical<Row>;

    ghost texts = { λ s. map row_text s.0.now };

    fn len(&self) -> usize {
        self.0.len()
    }

    #[inline(always)]
    fn line(&self, place: usize) -> Canonical<Row> {
        Canonical(self.0[place])
    }
}

impl PieceLines for Each<'_, Word> {
    type Text = Canonical<Instr>;

    ghost texts = { λ s. map instr_text s.0.now };

    fn len(&self) -> usize {
        self.0.len()
    }

    #[inline(always)]
    fn line(&self, place: usize) -> Canonical<Instr> {
        Canonical(self.0[place].instr())
    }
}

impl PieceLines for Each<'_, Choice> {
    type Text = Canonical<Choice>;

    ghost texts = { λ s. map choice_text s.0.now };

    fn len(&self) -> usize {
        self.0.len()
    }

    #[inline(always)]
    fn line(&self, place: usize) -> Canonical<Choice> {
        Canonical(self.0[place])
    }
}
