//! What the engines write of a scenario.
ghost use Rattle.std.specs.Prelude.{◌<◌};
ghost use Rattle.zy_listing.specs.Run.{WroteOutput, WroteRun};
ghost use Rattle.zy_engine.specs.Outputs.{output_of, shown_of};
ghost use Rattle.zy_engine.specs.declared.output.SourceFormat.TheVariants.{Image};

use std::alloc::Global;
use zy_disasm::text::write_text;
use zy_image::save::save;
use zy_io::{Sink, TextFault};
use zy_isa::Scenario;
use zy_listing::run::write_run;
use zy_machine::Machine;
use zy_trace::form::StepForm;
use zy_trace::trace::{write_each_step, write_trace};

/// What can be written of a scenario's run.
#[derive(Clone, Copy)]
pub enum RunFormat {
    /// The listing.
    Listing,
    /// The trace.
    Trace,
    /// Its steps, each as an object of JSON.
    Objects,
    /// Its steps, each as an object of JSON with the lines of the state that it changed.
    TracedObjects,
}

impl RunFormat {
    /// Makes the choices of a scenario, writes it, or a prefix of it, and gives the machine that has made them.
    pub fn write<K: Sink>(
        self,
        alloc: Global,
        scenario: Scenario,
        sink: &mut K,
    ) -> Result<Machine, TextFault>
        requires { (K.sent sink.old).failures < u64.MAX }
        ensures { WroteRun (shown_of self) scenario (K.sent sink.old) (K.sent sink.new) result }
    {
        match self {
            RunFormat::Listing => write_run(alloc, scenario, sink),
            RunFormat::Trace => write_trace(alloc, scenario, sink),
            RunFormat::Objects => write_each_step(StepForm::Object, alloc, scenario, sink),
            RunFormat::TracedObjects => {
                write_each_step(StepForm::TracedObject, alloc, scenario, sink)
            }
        }
    }
}

/// What can be written of a scenario without its run.
#[derive(Clone, Copy)]
pub enum SourceFormat {
    /// Its image.
    Image,
    /// Its canonical text.
    Text,
}

impl SourceFormat {
    /// Writes it, or a prefix of it.
    pub fn write<K: Sink>(
        self,
        alloc: Global,
        scenario: Scenario,
        sink: &mut K,
    ) -> Result<(), TextFault>
        requires { (K.sent sink.old).failures < u64.MAX }
        ensures { WroteOutput (output_of self) scenario (K.sent sink.old) (K.sent sink.new) result }
    {
        match self {
            SourceFormat::Image => write_image(alloc, &scenario, sink),
            SourceFormat::Text => write_text(alloc, &scenario, sink),
        }
    }
}

/// Writes its image, or a prefix of it.
fn write_image<K: Sink>(alloc: Global, scenario: &Scenario, sink: &mut K) -> Result<(), TextFault>
    requires { (K.sent sink.old).failures < u64.MAX }
    ensures { WroteOutput (output_of Image) scenario.now (K.sent sink.old) (K.sent sink.new) result }
{
    let image = save(alloc, scenario)?;
    sink.put_all(image.as_slice())?;
    Ok(())
}
