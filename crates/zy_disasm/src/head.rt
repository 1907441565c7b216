//! What is before the choices: the header, the rows and the programs.
ghost use Rattle.zy_disasm.specs.Lines.{program_parts, head_texts};

use crate::lines::{RuleLine, VersionLine};
use zy_io::{
    AllParts, AllPieces, Decimal, LineBuffer, One, Parts, Section, Sink, TextFault, joined,
    sections,
};
use zy_isa::{Program, Scenario};
use zy_text::Each;

/// The header, the rows and the programs of a scenario.
#[derive(Clone, Copy)]
pub struct ScenarioHead<'a>(pub &'a Scenario);

impl Section for ScenarioHead<'_> {
    ghost texts = { λ s. head_texts s.0.now };

    fn write<K: Sink>(&self, sink: &mut K, line: &mut LineBuffer) -> Result<(), TextFault> {
        let scenario = self.0;
        sections!(
            One(VersionLine(scenario.version())),
            One(joined!("cap ", Decimal(scenario.cap()))),
            One(joined!("pages ", Decimal(scenario.pages()))),
            One(RuleLine(scenario.rule())),
            AllPieces(Each(scenario.rows())),
            AllParts(Programs(scenario.programs())),
        )
        .write(sink, line)
    }
}

/// The programs, each under its number.
#[derive(Clone, Copy)]
struct Programs<'a>(&'a [Program]);

impl Parts for Programs<'_> {
    ghost parts = { λ s. program_parts 0 s.0.now };

    fn len(&self) -> usize {
        self.0.len()
    }

    fn write_part<K: Sink>(
        &self,
        place: usize,
        sink: &mut K,
        line: &mut LineBuffer,
    ) -> Result<(), TextFault> {
        let title = joined!("txn ", Decimal(place));
        sections!(One(title), AllPieces(Each(self.0[place].words()))).write(sink, line)
    }
}
