//! A page, wherever it is.
ghost use Rattle.std.specs.Prelude.{IsSome};
ghost use Rattle.zy_io.specs.Writing.{Appended};
ghost use Rattle.zy_table.specs.Pages.{page_in};
ghost use Rattle.zy_table.specs.Database.{all_leaves};
ghost use Rattle.zy_listing.specs.Texts.{leaf_text, page_text};
ghost use Rattle.zy_listing.specs.Listing.{page_texts};

use crate::lines::rows::Rows;
use crate::lines::words::PlaceText;
use std::alloc::AllocError;
use zy_io::{Decimal, Line, LineBuffer, Lines, joined};
use zy_machine::Machine;
use zy_page::Page;
use zy_table::Place;

/// A page and where it is.
#[derive(Clone, Copy)]
struct PageLine<'a> {
    place: Place,
    page: &'a Page,
}

impl Line for PageLine<'_> {
    ghost text = { λ l. leaf_text l.place l.page.now };

    fn append(&self, line: &mut LineBuffer) -> Result<(), AllocError> {
        joined!(
            "page ",
            Decimal(self.page.number()),
            b' ',
            PlaceText(self.place),
            " low ",
            Decimal(self.page.low()),
            " rows",
            Rows(self.page.rows()),
        )
        .append(line)
    }
}

/// Appends the line of a page, without its end. At an error a prefix of it may be there.
pub fn page_line(machine: &Machine, p: u16, line: &mut LineBuffer) -> Result<(), AllocError>
    requires { IsSome (page_in p (all_leaves machine.now.state)) }
    ensures { Appended result line.old line.new (page_text machine.now.state p) }
{
    let (place, page) = machine.located(p).unwrap();
    PageLine { place, page }.append(line)
}

/// All pages, by number.
#[derive(Clone, Copy)]
pub(crate) struct Pages<'a>(pub &'a Machine);

impl Lines for Pages<'_> {
    ghost texts = { λ s. page_texts s.0.now.state };

    fn len(&self) -> usize {
        usize::from(self.0.page_count())
    }

    fn append(&self, place: usize, line: &mut LineBuffer) -> Result<(), AllocError> {
        // Proof: there are at most 512 pages, and each number below their count is a page's.
        let _count = self.0.page_count();
        page_line(self.0, place as u16, line)
    }
}
