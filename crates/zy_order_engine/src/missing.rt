//! Where steps may be missing from logs.
ghost use Rattle.std.specs.Prelude.{◌≡◌, ◌≤◌, ◌+◌, ◌++◌, ℕ, List, IfOk};
ghost use Rattle.zy_isa.specs.Limits.{max_choices};
ghost use Rattle.zy_logs.specs.Logs.{steps_in, steps_of};
ghost use Rattle.zy_order_engine.specs.Missing.{and_then, gaps_from, is_of, AreGapsIn};

use std::alloc::{AllocError, Global};
use zy_isa::Actor;
use zy_logs::{Logged, NumberedLine};
use zy_order::Gaps;

/// Whether the second actor is the first.
fn is_same(actor: Actor, other: Actor) -> bool
    ensures { result ≡ is_of actor other }
{
    other == actor
}

/// How many steps of an actor may be missing behind a line, where `missing` may be before it: a line of its log ends the gap,
/// which is added, and a gap of its own adds to it.
fn add(
    gaps: &mut Vec<u16>,
    gap: u16,
    actor: Actor,
    missing: u16,
    logged: Logged,
) -> Result<u16, AllocError>
    requires { missing + steps_of gap logged ≤ max_choices }
    ensures gaps { IfOk result (λ m. (rest : ℕ → List ℕ) → gaps.new.items ++ rest m
        ≡ gaps.old.items ++ and_then gap actor missing logged rest) }
    ensures few { IfOk result (λ m. m ≤ missing + steps_of gap logged) }
{
    match logged {
        Logged::Step(line) => {
            if !is_same(actor, line.log) {
                return Ok(missing);
            }
            gaps.push(missing)?;
            Ok(0)
        }
        Logged::Gap(of) => {
            if is_same(actor, of) {
                Ok(missing + gap)
            } else {
                Ok(missing)
            }
        }
    }
}

/// How many steps of an actor may be missing before each line of its log, and behind the last.
fn gaps_of(
    alloc: Global,
    gap: u16,
    lines: &[NumberedLine],
    actor: Actor,
) -> Result<Vec<u16>, AllocError>
    requires { steps_in gap lines.now ≤ max_choices }
    ensures { IfOk result (λ v. v.items ≡ gaps_from gap actor 0 lines.now) }
{
    let mut gaps = Vec::new(alloc);
    let mut missing = 0;
    let mut rest = lines;
    while let [line, below @ ..] = rest {
        missing = add(&mut gaps, gap, actor, missing, line.logged)?;
        rest = below;
    }
    gaps.push(missing)?;
    Ok(gaps)
}

/// The gaps of lines, each of which stands for at most `gap` steps.
pub(crate) fn gaps(alloc: Global, gap: u16, lines: &[NumberedLine]) -> Result<Gaps, AllocError>
    requires { steps_in gap lines.now ≤ max_choices }
    ensures { IfOk result (AreGapsIn gap lines.now) }
{
    let c = gaps_of(alloc, gap, lines, Actor::C)?;
    let a = gaps_of(alloc, gap, lines, Actor::A)?;
    let b = gaps_of(alloc, gap, lines, Actor::B)?;
    Ok(Gaps { c, a, b })
}
