//! How far each actor is in its log.
ghost use Rattle.std.specs.Prelude.{◌≡◌, ◌<◌, false, true};
ghost use Rattle.zy_isa.specs.declared.node.Actor.{Actor as AnActor};
ghost use Rattle.zy_isa.specs.Integers.{max_u16};
ghost use Rattle.zy_order.specs.Ways as spec;

use crate::tellers::Tellers;
use zy_isa::Actor;

/// How far an actor is in its log.
#[derive(Clone, Copy, PartialEq, Eq)]
pub(crate) struct Cursor {
    /// How many lines are matched, which is the index of the next one.
    pub lines: u16,
    /// How many steps that the log lacks were made after them.
    pub missing: u16,
}

impl Cursor {
    /// No line is matched, and no step was made.
    fn at_start() -> Cursor
        ensures { result ≡ spec.log_start }
    {
        Cursor {
            lines: 0,
            missing: 0,
        }
    }

    /// One line more is matched.
    fn passed(self) -> Cursor
        requires { self.lines < max_u16 }
        ensures { result ≡ spec.passed self }
    {
        Cursor {
            lines: self.lines + 1,
            missing: 0,
        }
    }

    /// One step more was made that the log lacks.
    fn filled(self) -> Cursor
        requires { self.missing < max_u16 }
        ensures { result ≡ spec.filled self }
    {
        Cursor {
            lines: self.lines,
            missing: self.missing + 1,
        }
    }

    /// A number that differs from those of other cursors.
    pub(crate) fn code(self) -> u64 {
        (u64::from(self.lines) << 16) ^ u64::from(self.missing)
    }
}

/// How far each actor is in its log.
#[derive(Clone, Copy, PartialEq, Eq)]
pub(crate) struct Cursors {
    /// The client.
    pub c: Cursor,
    /// A.
    pub a: Cursor,
    /// B.
    pub b: Cursor,
}

impl Cursors {
    /// No line is matched.
    pub(crate) fn at_start() -> Cursors
        ensures { result ≡ spec.at_start }
    {
        Cursors {
            c: Cursor::at_start(),
            a: Cursor::at_start(),
            b: Cursor::at_start(),
        }
    }

    /// The cursor of an actor.
    pub(crate) fn of(self, actor: Actor) -> Cursor
        ensures { result ≡ spec.cursor_of actor self }
    {
        match actor {
            Actor::C => self.c,
            Actor::A => self.a,
            Actor::B => self.b,
        }
    }

    /// The cursors where an actor has this one.
    fn with(self, actor: Actor, cursor: Cursor) -> Cursors
        ensures { result ≡ spec.with_cursor actor cursor self }
    {
        let Cursors { c, a, b } = self;
        match actor {
            Actor::C => Cursors { c: cursor, a, b },
            Actor::A => Cursors { c, a: cursor, b },
            Actor::B => Cursors { c, a, b: cursor },
        }
    }

    /// The cursors where one line more of an actor is matched.
    fn advanced(self, actor: Actor) -> Cursors
        requires { spec.cursor actor self < max_u16 }
        ensures { result ≡ spec.advanced actor self }
    {
        self.with(actor, self.of(actor).passed())
    }

    /// The cursors where one line more of the logs that tell a step is matched.
    pub(crate) fn advanced_by(self, by: Tellers) -> Cursors
        requires { (x : AnActor) → spec.Tells by x → spec.cursor x self < max_u16 }
        ensures { result ≡ spec.advanced_by by self }
    {
        match by {
            Tellers::One(actor) => self.advanced(actor),
            Tellers::Both(node) => self.advanced(Actor::C).advanced(Actor::of(node)),
        }
    }

    /// The cursors where an actor has made one step more that its log lacks.
    pub(crate) fn with_missing(self, actor: Actor) -> Cursors
        requires { (spec.cursor_of actor self).missing < max_u16 }
        ensures { result ≡ spec.with_missing actor self }
    {
        self.with(actor, self.of(actor).filled())
    }

    /// Whether these cursors are the same as those. Where it answers yes they are.
    pub(crate) fn is(self, other: Cursors) -> bool
        ensures { result ≡ true → self ≡ other }
    {
        self == other
    }

    /// How many lines of A and B together are matched.
    fn of_nodes(self) -> u32
        ensures { result ≡ spec.of_nodes self }
    {
        u32::from(self.a.lines) + u32::from(self.b.lines)
    }

    /// Whether these cursors are further than those: more lines of A and B are matched, or as many and fewer of the
    /// client. A client's line fits nearly anywhere, so one that is matched early says little.
    pub(crate) fn is_further(self, other: Cursors) -> bool
        ensures yes { result ≡ true → spec.IsNoFurther other self }
        ensures no { result ≡ false → spec.IsNoFurther self other }
    {
        if self.of_nodes() == other.of_nodes() {
            self.c.lines < other.c.lines
        } else {
            other.of_nodes() < self.of_nodes()
        }
    }
}
