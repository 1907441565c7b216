//! What one node sends to the other.
ghost use Rattle.std.specs.Prelude.{◌≡◌, IfOk};
ghost use Rattle.zy_model.specs.Messages.{kind_of};
ghost use Rattle.zy_links.specs.Messages.{limit_of, message_of};

use std::alloc::{AllocError, Global};
use zy_model::Kind;
use zy_page::Page;
use zy_wire::Wire;

/// A message, with what it brings: a wireframe and a page are moved into it and out of it.
#[derive(Drop)]
pub enum Message {
    /// This is the wireframe: the low keys of all pages.
    Wire(Wire),
    /// The wireframe was taken.
    Ready,
    /// Transactions may run at the destination.
    Dual,
    /// The page of this number is asked for.
    Pull(u16),
    /// This page is handed over.
    Page(Page),
    /// The source runs no transaction any more.
    Finish,
    /// The destination has all pages.
    Done,
}

impl Message {
    /// What kind of message it is.
    pub fn kind(&self) -> Kind
        ensures { result ≡ kind_of (message_of self.now) }
    {
        match self {
            Message::Wire(_) => Kind::Wire,
            Message::Ready => Kind::Ready,
            Message::Dual => Kind::Dual,
            Message::Pull(_) => Kind::Pull,
            Message::Page(_) => Kind::Page,
            Message::Finish => Kind::Finish,
            Message::Done => Kind::Done,
        }
    }

    /// A copy of the message, with a wireframe or a page of its own; the wireframe may have less room.
    pub fn copy(&self, alloc: Global) -> Result<Message, AllocError>
        ensures message { IfOk result (λ copy. message_of copy ≡ message_of self.now) }
        ensures limit { IfOk result (λ copy. limit_of copy ≡ limit_of self.now) }
    {
        let copy = match self {
            Message::Wire(wire) => Message::Wire(wire.copy(alloc)?),
            Message::Ready => Message::Ready,
            Message::Dual => Message::Dual,
            Message::Pull(page) => Message::Pull(*page),
            Message::Page(page) => Message::Page(page.copy()),
            Message::Finish => Message::Finish,
            Message::Done => Message::Done,
        };
        Ok(copy)
    }
}
