//! The state at the end.
ghost use Rattle.zy_listing.specs.Listing.{final_texts};

use crate::lines::link::LinkLine;
use crate::lines::mode::ModeLine;
use crate::lines::page::Pages;
use crate::lines::txn::Txns;
use zy_io::{AllLines, LineBuffer, One, Section, Sink, TextFault, sections};
use zy_isa::Node;
use zy_machine::Machine;

/// The modes, the pages, the links and the transactions of a machine.
#[derive(Clone, Copy)]
pub struct FinalState<'a>(pub &'a Machine);

impl Section for FinalState<'_> {
    ghost texts = { λ s. final_texts s.0.now.state };

    fn write<K: Sink>(&self, sink: &mut K, line: &mut LineBuffer) -> Result<(), TextFault> {
        let machine = self.0;
        sections!(
            One("final"),
            One(ModeLine {
                node: Node::A,
                mode: machine.mode(Node::A),
            }),
            One(ModeLine {
                node: Node::B,
                mode: machine.mode(Node::B),
            }),
            AllLines(Pages(machine)),
            One(LinkLine {
                node: Node::A,
                link: machine.link(Node::A),
            }),
            One(LinkLine {
                node: Node::B,
                link: machine.link(Node::B),
            }),
            AllLines(Txns(machine)),
        )
        .write(sink, line)
    }
}
