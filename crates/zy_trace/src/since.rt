//! The lines of a state that are shown, since a state before it.
ghost use Rattle.std.specs.Prelude.{◌≡◌, ◌++◌, ◌&&◌, not, IfOk, OnOk, length, map};
ghost use Rattle.std.specs.Str.{bytes_eq};
ghost use Rattle.zy_table.specs.Database.{newest};
ghost use Rattle.zy_listing.specs.Listing.{below};
ghost use Rattle.zy_trace.specs.declared.subject.Subject.TheVariants.{Page, Txn};
ghost use Rattle.zy_trace.specs.Kept.{AreRests};
ghost use Rattle.zy_trace.specs.Subjects.{HasLine, line_in, subjects, shown_text, shown_texts};

use crate::kept::{Rests, is_kept, rests_at};
use crate::subject::Subject;
use std::alloc::{AllocError, Global};
use zy_io::{Line, LineBuffer};
use zy_isa::Node;
use zy_listing::ModeLine;
use zy_listing::lines::link::link_line;
use zy_listing::lines::locked::page_reply;
use zy_listing::lines::txn::txn_line;
use zy_machine::Machine;

/// The texts of a line in two states.
#[derive(Drop)]
pub(crate) struct Texts {
    old: LineBuffer,
    new: LineBuffer,
}

impl Texts {
    /// No texts. It takes no memory.
    pub(crate) fn new(alloc: Global) -> Texts {
        Texts {
            old: LineBuffer::new(alloc),
            new: LineBuffer::new(alloc),
        }
    }

    /// Whether they are the same.
    fn are_same(&self) -> bool
        ensures { result ≡ bytes_eq self.now.old self.now.new }
    {
        self.old.as_bytes() == self.new.as_bytes()
    }
}

/// Appends the line of a subject, without its end.
fn append_line(machine: &Machine, subject: Subject, line: &mut LineBuffer) -> Result<(), AllocError>
    requires { HasLine machine.now.state subject }
    ensures { OnOk result (line.new ≡ line.old ++ line_in machine.now.state subject) }
{
    match subject {
        Subject::Mode(node) => {
            let mode = machine.mode(node);
            ModeLine { node, mode }.append(line)
        }
        Subject::Page(p) => page_reply(machine, p, line),
        Subject::Link(node) => link_line(machine, node, line),
        Subject::Txn(t) => txn_line(machine, t, line),
    }
}

/// What stands before a line that is shown, and behind it.
#[derive(Clone, Copy)]
pub(crate) struct Marks {
    pub before: &'static str,
    pub behind: &'static str,
}

/// Two states of one run, whether all lines of the later one are shown or only those that are not what they were, and their marks.
#[derive(Clone, Copy)]
pub(crate) struct Since<'a> {
    pub before: &'a Machine,
    pub after: &'a Machine,
    pub all: bool,
    pub marks: Marks,
}

/// Whether the line of a subject is what it was.
fn is_same(since: &Since<'_>, subject: Subject, texts: &mut Texts) -> Result<bool, AllocError>
    requires before { HasLine since.now.before.now.state subject }
    requires after { HasLine since.now.after.now.state subject }
    ensures { IfOk result (λ b. b ≡ bytes_eq (line_in since.now.before.now.state subject)
        (line_in since.now.after.now.state subject)) }
{
    texts.old.clear();
    texts.new.clear();
    append_line(since.before, subject, &mut texts.old)?;
    append_line(since.after, subject, &mut texts.new)?;
    Ok(texts.are_same())
}

/// Whether the line of a subject is left out.
fn is_left_out(since: &Since<'_>, subject: Subject, texts: &mut Texts) -> Result<bool, AllocError>
    requires before { HasLine since.now.before.now.state subject }
    requires after { HasLine since.now.after.now.state subject }
    ensures { IfOk result
        (λ b. b ≡ (not since.now.all && bytes_eq (line_in since.now.before.now.state subject)
        (line_in since.now.after.now.state subject))) }
{
    if since.all {
        return Ok(false);
    }
    is_same(since, subject, texts)
}

/// Appends the line of a subject between the marks, where it is shown.
fn append_shown(
    since: &Since<'_>,
    subject: Subject,
    texts: &mut Texts,
    line: &mut LineBuffer,
) -> Result<(), AllocError>
    requires before { HasLine since.now.before.now.state subject }
    requires after { HasLine since.now.after.now.state subject }
    ensures { OnOk result (line.new ≡ line.old ++ shown_text since.now.marks since.now.all since.now.before.now.state
        since.now.after.now.state subject) }
{
    if is_left_out(since, subject, texts)? {
        return Ok(());
    }
    line.push_str(since.marks.before)?;
    append_line(since.after, subject, line)?;
    line.push_str(since.marks.behind)
}

/// Appends a page where it is shown; `a` and `b` are the locks of the nodes that differ. The texts are made where the
/// page is not seen to be what it was.
fn append_page(
    since: &Since<'_>,
    a: Rests<'_>,
    b: Rests<'_>,
    p: u16,
    texts: &mut Texts,
    line: &mut LineBuffer,
) -> Result<(), AllocError>
    requires a { AreRests since.now.before.now.state.a.locks since.now.after.now.state.a.locks a }
    requires b { AreRests since.now.before.now.state.b.locks since.now.after.now.state.b.locks b }
    ensures { OnOk result (line.new ≡ line.old ++ shown_text since.now.marks since.now.all since.now.before.now.state
        since.now.after.now.state (Page p)) }
{
    if !since.all && is_kept(since.before, since.after, a, b, p) {
        return Ok(());
    }
    append_shown(since, Subject::Page(p), texts, line)
}

/// Appends the pages that are shown.
fn append_pages(
    since: &Since<'_>,
    texts: &mut Texts,
    line: &mut LineBuffer,
) -> Result<(), AllocError>
    ensures { OnOk result (line.new ≡ line.old
        ++ shown_texts since.now.marks since.now.all since.now.before.now.state since.now.after.now.state
        (map Page (below (length (newest since.now.after.now.state))))) }
{
    let a = rests_at(since.before, since.after, Node::A);
    let b = rests_at(since.before, since.after, Node::B);
    for p in 0..since.after.page_count() {
        append_page(since, a, b, p, texts, line)?;
    }
    Ok(())
}

/// Appends the transactions that are shown.
fn append_txns(
    since: &Since<'_>,
    texts: &mut Texts,
    line: &mut LineBuffer,
) -> Result<(), AllocError>
    requires { length since.now.before.now.state.txns ≡ length since.now.after.now.state.txns }
    ensures { OnOk result (line.new ≡ line.old
        ++ shown_texts since.now.marks since.now.all since.now.before.now.state since.now.after.now.state
        (map Txn (below (length since.now.after.now.state.txns)))) }
{
    for t in 0..since.after.txn_count() {
        append_shown(since, Subject::Txn(t as u8), texts, line)?;
    }
    Ok(())
}

/// Appends the lines that are shown.
pub(crate) fn append_since(
    since: &Since<'_>,
    texts: &mut Texts,
    line: &mut LineBuffer,
) -> Result<(), AllocError>
    requires { length since.now.before.now.state.txns ≡ length since.now.after.now.state.txns }
    ensures { OnOk result (line.new ≡ line.old
        ++ shown_texts since.now.marks since.now.all since.now.before.now.state since.now.after.now.state
        (subjects since.now.after.now.state)) }
{
    append_shown(since, Subject::Mode(Node::A), texts, line)?;
    append_shown(since, Subject::Mode(Node::B), texts, line)?;
    append_pages(since, texts, line)?;
    append_shown(since, Subject::Link(Node::A), texts, line)?;
    append_shown(since, Subject::Link(Node::B), texts, line)?;
    append_txns(since, texts, line)?;
    Ok(())
}
