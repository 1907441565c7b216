//! The link from one node to the other.
ghost use Rattle.std.specs.Prelude.{◌≡◌, ◌==◌, ◌+◌, ◌<◌, ◌≤◌, ◌++◌, ◌∷◌, [], IfOk, IsOk, OnErr, OnOk, drop, length};
ghost use Rattle.std.specs.Prelude.{option_copied, slice_get, slice_index_or};
ghost use Rattle.zy_links.specs.Messages.{limits, messages_of};

use crate::message::Message;
use std::alloc::{AllocError, Global};
use std::collections::VecDeque;
use std::marker::Model;

/// The messages on their way to one node: what was sent first is taken first.
#[derive(Drop)]
pub struct Link {
    queue: VecDeque<Message>,
}

impl Model for Link {
    ghost use Rattle.std.specs.Prelude.{◌-◌, length};
    ghost use Rattle.std.specs.VecDeque.{deque_capacity};
    ghost use Rattle.zy_links.specs.Links.{InTransit};

    ghost Value = { InTransit };

    ghost view = { λ a. record { messages = a.queue.items; spare = deque_capacity a.queue - length a.queue.items } };
}

impl Link {
    /// A link with no message. It takes no memory.
    pub fn new(alloc: Global) -> Link
        ensures { result ≡ record { messages = []; spare = 0 } }
    {
        Link {
            queue: VecDeque::from_vec(Vec::new(alloc)),
        }
    }

    /// Makes room for one message more.
    pub fn reserve(&mut self) -> Result<(), AllocError>
        ensures messages { self.new.messages ≡ self.old.messages }
        ensures room { OnOk result (1 ≤ self.new.spare) }
        ensures grows { self.old.spare ≤ self.new.spare }
        ensures kept { OnErr result (self.new ≡ self.old) }
        ensures succeeds { 1 ≤ self.old.spare → IsOk result }
    {
        let len = self.len();
        if len < self.queue.capacity() {
            return Ok(());
        }
        // Each growth doubles the room. The queue's own `reserve` does not say that the room stays where memory is
        // refused.
        self.queue.reserve_exact(len.max(4))
    }

    /// Sends a message. It takes no memory.
    pub fn send(&mut self, message: Message)
        requires { 1 ≤ self.old.spare }
        ensures messages { self.new.messages ≡ self.old.messages ++ message ∷ [] }
        ensures room { self.old.spare ≡ self.new.spare + 1 }
    {
        self.queue.push_back_reserved(message);
    }

    /// The message that is taken next.
    pub fn front(&self) -> Option<&Message>
        ensures { option_copied result ≡ slice_get self.now.messages 0 }
    {
        self.queue.front()
    }

    /// Moves the front out.
    pub fn take(&mut self) -> Option<Message>
        ensures front { result ≡ slice_get self.old.messages 0 }
        ensures messages { self.new.messages ≡ drop 1 self.old.messages }
        ensures room { length self.new.messages + self.new.spare ≡ length self.old.messages + self.old.spare }
    {
        self.queue.pop_front()
    }

    /// How many messages there are.
    pub fn len(&self) -> usize
        ensures { result ≡ length self.now.messages }
    {
        self.queue.len()
    }

    /// Whether there are no messages.
    pub fn is_empty(&self) -> bool
        ensures { result ≡ (length self.now.messages == 0) }
    {
        self.queue.is_empty()
    }

    /// The message at place `i` from the front.
    pub fn message_at(&self, i: usize) -> &Message
        requires { i < length self.now.messages }
        ensures { result.now ≡ slice_index_or self.now.messages i result.now }
    {
        &self.queue[i]
    }

    /// A copy of the messages, with wireframes and pages of their own, which may have less room.
    pub fn copy(&self, alloc: Global) -> Result<Link, AllocError>
        ensures messages { IfOk result (λ copy. messages_of copy.messages ≡ messages_of self.now.messages) }
        ensures limits { IfOk result (λ copy. limits copy.messages ≡ limits self.now.messages) }
    {
        let mut queue = VecDeque::with_capacity(alloc, self.len())?;
        for message in self.queue.iter() {
            queue.push_back_reserved(message.copy(alloc)?);
        }
        Ok(Link { queue })
    }
}
