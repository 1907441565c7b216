//! Rows and registers, as they are at the end of a line.
ghost use Rattle.zy_listing.specs.Texts.{cell_text, pair_text, reg_text, regs_text, row_words, rows_text};

use std::alloc::AllocError;
use zy_io::{Decimal, Line, LineBuffer, Piece, joined};
use zy_isa::Row;

/// The key and the value of a row.
#[derive(Clone, Copy)]
struct Pair(Row);

impl Piece for Pair {
    ghost text = { λ p. pair_text p.0 };

    ghost most = { 41 };

    #[inline(always)]
    fn put_behind(self, bytes: Vec<u8>) -> Vec<u8> {
        let Row { key, value } = self.0;
        joined!(Decimal(key), b"=", Decimal(value)).put_behind(bytes)
    }
}

/// One row, behind a blank.
#[derive(Clone, Copy)]
struct Cell(Row);

impl Line for Cell {
    ghost text = { λ c. cell_text c.0 };

    #[inline(always)]
    fn append(&self, line: &mut LineBuffer) -> Result<(), AllocError> {
        line.push_piece(joined!(b" ", Pair(self.0)))
    }
}

/// Rows, each behind a blank.
#[derive(Clone, Copy)]
pub struct Rows<'a>(pub &'a [Row]);

impl Line for Rows<'_> {
    ghost text = { λ r. rows_text r.0.now };

    fn append(&self, line: &mut LineBuffer) -> Result<(), AllocError> {
        for row in self.0 {
            Cell(*row).append(line)?;
        }
        Ok(())
    }
}

/// Rows with a blank between.
#[derive(Clone, Copy)]
pub struct RowWords<'a>(pub &'a [Row]);

impl Line for RowWords<'_> {
    ghost text = { λ r. row_words r.0.now };

    fn append(&self, line: &mut LineBuffer) -> Result<(), AllocError> {
        match self.0 {
            [] => Ok(()),
            [first, more @ ..] => {
                line.push_piece(Pair(*first))?;
                Rows(more).append(line)
            }
        }
    }
}

/// The value of a register.
#[derive(Clone, Copy)]
struct Value(u32);

impl Line for Value {
    ghost text = { λ v. reg_text v.0 };

    #[inline(always)]
    fn append(&self, line: &mut LineBuffer) -> Result<(), AllocError> {
        line.push_piece(joined!(b" ", Decimal(self.0)))
    }
}

/// Registers.
#[derive(Clone, Copy)]
pub(crate) struct Regs<'a>(pub &'a [u32]);

impl Line for Regs<'_> {
    ghost text = { λ r. regs_text r.0.now };

    fn append(&self, line: &mut LineBuffer) -> Result<(), AllocError> {
        for value in self.0 {
            Value(*value).append(line)?;
        }
        Ok(())
    }
}
