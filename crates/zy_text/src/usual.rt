//! The lines that most schedules have most of, which are cut at fixed places.
ghost use Rattle.std.specs.Prelude.{◌≡◌, ◌<◌, ◌≤◌, ◌+◌, ◌∷◌, [], IfSome, codes, true};
ghost use Rattle.std.specs.Fmt.{decimal};
ghost use Rattle.zy_text.specs.Words.{words_of};
ghost use Rattle.zy_text.specs.Lines.{first_line};
ghost use Rattle.zy_text.specs.Canon.{node_text};
ghost use Rattle.zy_text.specs.Usual.{IsUsual, IsBelow};

use zy_isa::{Choice, Node};

/// A line that is a choice's canonical text, and what is below it.
#[derive(Clone, Copy)]
pub struct UsualLine<'a> {
    /// The choice.
    pub choice: Choice,
    /// What is below the line.
    pub below: &'a [u8],
}

/// A text's first line, if it is the canonical text of `C begin`, `run`, `take` or `push`, ends with a line feed, and names
/// a transaction below `count` and 100, or none.
#[inline(always)]
pub fn usual_line(count: usize, text: &[u8]) -> Option<UsualLine<'_>>
    ensures line { IfSome result (λ r. IsUsual count (words_of (first_line text.entry.now)) r.choice) }
    ensures below { IfSome result (λ r. IsBelow text.entry.now r.below.now) }
{
    match text {
        [b'C', b' ', rest @ ..] => client_line(count, rest),
        [letter, b' ', rest @ ..] => node_line(node_of(*letter)?, count, rest),
        _ => None,
    }
}

/// The node that a letter names.
#[inline(always)]
fn node_of(letter: u8) -> Option<Node>
    ensures { IfSome result (λ n. node_text n ≡ letter ∷ []) }
{
    match letter {
        b'A' => Some(Node::A),
        b'B' => Some(Node::B),
        _ => None,
    }
}

/// The choice of the client whose words behind `C` are a text's first line.
#[inline(always)]
fn client_line(count: usize, text: &[u8]) -> Option<UsualLine<'_>>
    ensures line { IfSome result (λ r. IsUsual count (codes "C" ∷ words_of (first_line text.entry.now)) r.choice) }
    ensures below { IfSome result (λ r. IsBelow text.entry.now r.below.now) }
{
    let [b'b', b'e', b'g', b'i', b'n', b' ', rest @ ..] = text else {
        return None;
    };
    let number = last_number(count, rest)?;
    Some(UsualLine {
        choice: Choice::Begin(number.value),
        below: number.below,
    })
}

/// The choice of a node whose words behind the node are a text's first line.
#[inline(always)]
fn node_line(node: Node, count: usize, text: &[u8]) -> Option<UsualLine<'_>>
    ensures line { IfSome result (λ r. IsUsual count (node_text node ∷ words_of (first_line text.entry.now)) r.choice) }
    ensures below { IfSome result (λ r. IsBelow text.entry.now r.below.now) }
{
    let [a, b, c, d, rest @ ..] = text else {
        return None;
    };
    let action = [*a, *b, *c, *d];
    if are_same(action, *b"run ") {
        let number = last_number(count, rest)?;
        return Some(UsualLine {
            choice: Choice::Run(node, number.value),
            below: number.below,
        });
    }
    let [b'\n', below @ ..] = rest else {
        return None;
    };
    let choice = if are_same(action, *b"take") {
        Choice::Take(node)
    } else if are_same(action, *b"push") {
        Choice::Push(node)
    } else {
        return None;
    };
    Some(UsualLine { choice, below })
}

/// Whether four bytes are the same as four others, by one comparison.
#[inline(always)]
fn are_same(bytes: [u8; 4], others: [u8; 4]) -> bool
    ensures { result ≡ true → bytes ≡ others }
{
    u32::from_le_bytes(bytes) == u32::from_le_bytes(others)
}

/// A number that ends its line, and what is below the line.
#[derive(Clone, Copy)]
struct LastNumber<'a> {
    value: u8,
    below: &'a [u8],
}

/// The number below `count` that is a text's first line, if it has one digit, or two of which the first is not 0, and a line
/// feed is behind it.
#[inline(always)]
fn last_number(count: usize, text: &[u8]) -> Option<LastNumber<'_>>
    ensures words { IfSome result (λ r. words_of (first_line text.entry.now) ≡ decimal r.value ∷ []) }
    ensures named { IfSome result (λ r. r.value < count) }
    ensures below { IfSome result (λ r. IsBelow text.entry.now r.below.now) }
{
    match text {
        [ones, b'\n', below @ ..] => {
            let value = if_below(count, digit_from(b'0', *ones)?)?;
            Some(LastNumber { value, below })
        }
        [tens, ones, b'\n', below @ ..] => {
            let tens = digit_from(b'1', *tens)?;
            let ones = digit_from(b'0', *ones)?;
            let value = if_below(count, 10 * tens + ones)?;
            Some(LastNumber { value, below })
        }
        _ => None,
    }
}

/// The number, if it is below `count`.
#[inline(always)]
fn if_below(count: usize, number: u8) -> Option<u8>
    ensures { IfSome result (λ r. (r ≡ number) × (number < count)) }
{
    if usize::from(number) < count {
        Some(number)
    } else {
        None
    }
}

/// The value of a digit that is not below the least one.
#[inline(always)]
fn digit_from(least: u8, byte: u8) -> Option<u8>
    requires { 48 ≤ least }
    ensures { IfSome result (λ d. (byte ≡ 48 + d) × ((d ≤ 9) × (least ≤ byte))) }
{
    if least <= byte && byte <= b'9' {
        Some(byte - b'0')
    } else {
        None
    }
}
