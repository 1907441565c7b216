//! The forms of statements: which words a statement takes, and how to write it.

use std::fmt::{self, Formatter, Write};
use zy_isa::{Operation, PairOperation, Version};
use zy_source_words::label::operation_at;
use zy_source_words::nearest_word::is_one_of;
use zy_source_words::{Bytes, Statement};

/// The actions of the client.
pub const CLIENT_ACTIONS: [&'static str; 3] = ["start", "begin", "kill"];

/// The actions of a node.
pub const NODE_ACTIONS: [&'static str; 4] = ["run", "take", "push", "finish"];

/// What follows the first word of a statement, or the second word of a choice.
#[derive(Clone, Copy)]
pub enum Shape {
    /// A key and a value.
    Row,
    /// A number or a name.
    Txn,
    /// A register and a number.
    Number,
    /// Two registers, on which this operation works.
    Pair(PairOperation),
    /// Two registers and a target.
    Jump,
    /// Nothing.
    Lone,
    /// An action of the client.
    Client,
    /// An action of a node.
    Node,
    /// A transaction, and perhaps how often.
    OnTxn,
    /// No transaction, and perhaps how often.
    Plain,
}

/// A statement below the header: which words it takes, and how to write it.
#[derive(Clone, Copy)]
pub struct StatementForm<'a> {
    pub shape: Shape,
    /// The number of its first word in its line: 1 behind a label, else 0.
    pub at: usize,
    first: &'a [u8],
    second: &'a [u8],
}

impl<'a> StatementForm<'a> {
    /// The form of a line, if this version knows its first words.
    pub fn of(version: Version, statement: Statement<'a>) -> Option<StatementForm<'a>> {
        let at = operation_at(statement);
        let first = statement.text(at);
        let second = statement.text(at.saturating_add(1));
        Some(StatementForm {
            shape: shape_of(version, first, second)?,
            at,
            first,
            second,
        })
    }

    /// The number of its words, without a label and without `x N`.
    pub fn words(self) -> usize {
        match self.shape {
            Shape::Lone => 1,
            Shape::Txn | Shape::Client | Shape::Node | Shape::Plain => 2,
            Shape::Row | Shape::Number | Shape::Pair(_) | Shape::OnTxn => 3,
            Shape::Jump => 4,
        }
    }

    /// Whether it is a choice.
    pub fn is_choice(self) -> bool {
        matches!(
            self.shape,
            Shape::Client | Shape::Node | Shape::OnTxn | Shape::Plain
        )
    }

    /// Whether the word of this number in its line is a value other than a key, or a register that holds one.
    pub fn has_value_at(self, at: usize) -> bool {
        let is_second = at == self.at.saturating_add(2);
        match self.shape {
            Shape::Jump => true,
            Shape::Pair(PairOperation::Add) => true,
            Shape::Number | Shape::Row => is_second,
            Shape::Pair(PairOperation::Write | PairOperation::Insert) => is_second,
            _ => false,
        }
    }

    /// How to write it.
    pub fn pattern(self) -> Pattern<'a> {
        Pattern(self)
    }

    /// Says this, and how to write the statement.
    pub fn tell<W: Write>(self, f: &mut Formatter<W>, what: &str) -> fmt::Result {
        write!(f, "{what}: {}", self.pattern())
    }
}

/// The shape of a statement that begins with these words.
fn shape_of(version: Version, first: &[u8], second: &[u8]) -> Option<Shape> {
    if let Some(operation) = Operation::named_in(version, first) {
        return Some(match operation {
            Operation::Number(_) => Shape::Number,
            Operation::Pair(pair) => Shape::Pair(pair),
            Operation::Jump(_) => Shape::Jump,
            Operation::Lone(_) => Shape::Lone,
        });
    }
    match first {
        b"row" => Some(Shape::Row),
        b"txn" => Some(Shape::Txn),
        b"end" => Some(Shape::Lone),
        b"C" => Some(client_shape(second)),
        b"A" | b"B" => Some(node_shape(second)),
        _ => None,
    }
}

/// The shape of the client's choice with this action; `Client` if it has no such action.
fn client_shape(action: &[u8]) -> Shape {
    match action {
        b"begin" | b"kill" => Shape::OnTxn,
        b"start" => Shape::Plain,
        _ => Shape::Client,
    }
}

/// The shape of a node's choice with this action; `Node` if it has no such action.
fn node_shape(action: &[u8]) -> Shape {
    match action {
        b"run" => Shape::OnTxn,
        _ if is_one_of(action, &NODE_ACTIONS) => Shape::Plain,
        _ => Shape::Node,
    }
}

/// What it takes, and how to write it.
impl fmt::Display for StatementForm<'_> {
    fn fmt<W: Write>(&self, f: &mut Formatter<W>) -> fmt::Result {
        let (first, takes) = (Bytes(self.first), self.shape.takes());
        match self.shape {
            Shape::Client | Shape::Node => write!(f, "behind {first} comes {takes}")?,
            Shape::OnTxn | Shape::Plain => {
                write!(f, "{first} {} takes {takes}", Bytes(self.second))?
            }
            _ => write!(f, "{first} takes {takes}")?,
        }
        write!(f, ": {}", self.pattern())
    }
}

impl Shape {
    /// What follows the first word, or the second word of a choice.
    fn takes(self) -> &'static str {
        match self {
            Shape::Row => "a key and a value",
            Shape::Txn => "one number or name",
            Shape::Number => "a register and a number",
            Shape::Pair(_) => "two registers",
            Shape::Jump => "two registers and a target",
            Shape::Client | Shape::Node => "an action",
            Shape::OnTxn => "one transaction",
            Shape::Plain => "no transaction",
            Shape::Lone => "nothing",
        }
    }
}

/// How to write a statement.
#[derive(Clone, Copy)]
pub struct Pattern<'a>(StatementForm<'a>);

impl fmt::Display for Pattern<'_> {
    fn fmt<W: Write>(&self, f: &mut Formatter<W>) -> fmt::Result {
        let Pattern(form) = *self;
        let (first, second) = (Bytes(form.first), Bytes(form.second));
        match form.shape {
            Shape::Row => f.write_str("row K V"),
            Shape::Txn => f.write_str("txn T"),
            Shape::Number => write!(f, "{first} rA N"),
            Shape::Pair(_) => write!(f, "{first} rA rB"),
            Shape::Jump => write!(f, "{first} rA rB LABEL, or {first} rA rB @N"),
            Shape::Lone => write!(f, "{first}"),
            Shape::Client => f.write_str("C start, C begin T or C kill T"),
            Shape::Node => {
                write!(
                    f,
                    "{first} run T, {first} take, {first} push or {first} finish"
                )
            }
            Shape::OnTxn => write!(f, "{first} {second} T, or {first} {second} T x N"),
            Shape::Plain => write!(f, "{first} {second}, or {first} {second} x N"),
        }
    }
}
