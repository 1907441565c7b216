//! What an instruction does, once its registers are read.
ghost use Rattle.std.specs.Prelude.{◌≡◌};
ghost use Rattle.zy_table.specs.Change as table_change;
ghost use Rattle.zy_table.specs.Effects as table_effects;

use crate::access::Access;
use zy_isa::{Instr, REGISTERS, Reg};

/// What an instruction does, once its registers are read.
#[derive(Clone, Copy)]
pub enum Effect {
    /// The register gets this value.
    Sets(Reg, u32),
    /// Goes to this instruction if the jump is taken, else to the next.
    Jumps(bool, u32),
    /// Reads, writes or inserts at this key.
    Accesses(Access, u32),
    /// The register gets the sum of the values at the keys from the first to the last.
    Sums(Reg, u32, u32),
    /// The transaction commits.
    Commits,
    /// The transaction aborts.
    Aborts,
}

/// Evaluates an expression with the effect of an instruction bound to a name. The expression stands in an arm for each
/// instruction, so it is compiled with the variant of the effect known.
#[macro_export]
macro_rules! with_effect {
    ($instr:expr, $regs:expr, |$effect:ident| $then:expr) => {{
        let regs = $regs;
        $crate::with_effect!(@match $instr, $effect, $then,
            Instr::Set(r, value) => $crate::Effect::Sets(r, value),
            Instr::Read(r, q) => $crate::Effect::Accesses($crate::Access::Reads(r), $crate::reg(regs, q)),
            Instr::Write(r, q) => {
                $crate::Effect::Accesses($crate::Access::Writes($crate::reg(regs, q)), $crate::reg(regs, r))
            },
            Instr::Insert(r, q) => {
                $crate::Effect::Accesses($crate::Access::Inserts($crate::reg(regs, q)), $crate::reg(regs, r))
            },
            Instr::Add(r, q) => $crate::Effect::Sets(r, $crate::reg(regs, r).wrapping_add($crate::reg(regs, q))),
            Instr::Sum(r, q) => $crate::Effect::Sums(r, $crate::reg(regs, r), $crate::reg(regs, q)),
            Instr::Beq(r, q, target) => $crate::Effect::Jumps($crate::reg(regs, r) == $crate::reg(regs, q), target),
            Instr::Commit => $crate::Effect::Commits,
            Instr::Abort => $crate::Effect::Aborts,
        )
    }};
    (@match $instr:expr, $effect:ident, $then:expr, $($pattern:pat => $value:expr,)*) => {
        match $instr {
            $($pattern => {
                let $effect = $value;
                $then
            })*
        }
    };
}

/// What an instruction does with these registers.
#[inline(always)]
pub fn effect_of(instr: Instr, regs: &[u32; REGISTERS]) -> Effect
    ensures { result ≡ table_effects.effect_of instr regs.now }
{
    with_effect!(instr, regs, |effect| effect)
}

/// The value of a register.
#[inline(always)]
pub fn reg(regs: &[u32; REGISTERS], r: Reg) -> u32
    ensures { result ≡ table_change.reg regs.now r }
{
    regs[r.index()]
}
