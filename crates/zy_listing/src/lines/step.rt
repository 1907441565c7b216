//! The steps, each with what came of it.
ghost use Rattle.zy_listing.specs.Texts.{sent_text, step_text};
ghost use Rattle.zy_listing.specs.Listing.{step_texts};

use crate::lines::words::{KindText, OutcomePiece};
use std::alloc::AllocError;
use zy_io::{Decimal, Line, LineBuffer, Piece, PieceLines, joined};
use zy_model::Kind;
use zy_table::Entry;
use zy_text::Canonical;

/// The message that was sent, if one was.
#[derive(Clone, Copy)]
struct SentText<'a>(&'a Option<Kind>);

impl Piece for SentText<'_> {
    ghost text = { λ s. sent_text s.0.now };

    ghost most = { 9 };

    #[inline(always)]
    fn put_behind(self, bytes: Vec<u8>) -> Vec<u8> {
        match self.0 {
            None => bytes,
            Some(kind) => joined!(b" ! ", KindText(*kind)).put_behind(bytes),
        }
    }
}

/// A step under its number.
#[derive(Clone, Copy)]
pub struct StepLine<'a> {
    pub number: usize,
    pub entry: &'a Entry,
}

impl Piece for StepLine<'_> {
    ghost text = { λ s. step_text s.number s.entry.now };

    ghost most = { 130 };

    #[inline(always)]
    fn put_behind(self, bytes: Vec<u8>) -> Vec<u8> {
        let entry = self.entry;
        joined!(
            Decimal(self.number),
            b" ",
            Canonical(entry.choice),
            b" -> ",
            OutcomePiece(&entry.outcome),
            SentText(&entry.sent),
        )
        .put_behind(bytes)
    }
}

impl Line for StepLine<'_> {
    ghost text = { λ s. step_text s.number s.entry.now };

    fn append(&self, line: &mut LineBuffer) -> Result<(), AllocError> {
        line.push_piece(*self)
    }
}

/// All steps, numbered from 1.
#[derive(Clone, Copy)]
pub(crate) struct Steps<'a>(pub &'a [Entry]);

impl<'a> PieceLines for Steps<'a> {
    type Text = StepLine<'a>;

    ghost texts = { λ s. step_texts 1 s.0.now };

    fn len(&self) -> usize {
        self.0.len()
    }

    #[inline(always)]
    fn line(&self, place: usize) -> StepLine<'a> {
        StepLine {
            number: place + 1,
            entry: &self.0[place],
        }
    }
}
