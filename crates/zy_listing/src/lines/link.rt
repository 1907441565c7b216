//! A link between the nodes, with the messages that are on their way.
ghost use Rattle.zy_io.specs.Writing.{Appended};
ghost use Rattle.zy_links.specs.Messages.{message_of, messages_of};
ghost use Rattle.zy_table.specs.State.{facing};
ghost use Rattle.zy_listing.specs.Texts.{link_text, message_text, messages_text};

use crate::lines::words::LinkText;
use std::alloc::AllocError;
use zy_io::{Decimal, Line, LineBuffer, joined};
use zy_isa::Node;
use zy_links::{Link, Message};
use zy_machine::Machine;

/// A message: its kind, and the number of the page that it asks for or brings.
#[derive(Clone, Copy)]
struct MessageText<'a>(&'a Message);

impl Line for MessageText<'_> {
    ghost text = { λ m. message_text (message_of m.0.now) };

    fn append(&self, line: &mut LineBuffer) -> Result<(), AllocError> {
        match self.0 {
            Message::Wire(_) => " wire".append(line),
            Message::Ready => " ready".append(line),
            Message::Dual => " dual".append(line),
            Message::Pull(page) => joined!(" pull:", Decimal(*page)).append(line),
            Message::Page(page) => joined!(" page:", Decimal(page.number())).append(line),
            Message::Finish => " finish".append(line),
            Message::Done => " done".append(line),
        }
    }
}

/// The messages of a link, front first.
#[derive(Clone, Copy)]
struct Messages<'a>(&'a Link);

impl Line for Messages<'_> {
    ghost text = { λ m. messages_text (messages_of m.0.now.messages) };

    fn append(&self, line: &mut LineBuffer) -> Result<(), AllocError> {
        for i in 0..self.0.len() {
            MessageText(self.0.message_at(i)).append(line)?;
        }
        Ok(())
    }
}

/// The link from a node.
#[derive(Clone, Copy)]
pub(crate) struct LinkLine<'a> {
    pub node: Node,
    pub link: &'a Link,
}

impl Line for LinkLine<'_> {
    ghost text = { λ l. link_text l.node (messages_of l.link.now.messages) };

    fn append(&self, line: &mut LineBuffer) -> Result<(), AllocError> {
        joined!("link ", LinkText(self.node), Messages(self.link)).append(line)
    }
}

/// Appends the line of the link from a node, without its end. At an error a prefix of it may be there.
pub fn link_line(machine: &Machine, n: Node, line: &mut LineBuffer) -> Result<(), AllocError>
    ensures { Appended result line.old line.new (link_text n (facing n machine.now.state).outbox) }
{
    LinkLine {
        node: n,
        link: machine.link(n),
    }
    .append(line)
}
