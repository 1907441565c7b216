//! Reads the rows of a page, up to the end of the line.
ghost use Rattle.std.specs.Prelude.{◌≡◌, ◌==◌, ◌<◌, IfOk, position};
ghost use Rattle.zy_logs.specs.Cursors.{left};
ghost use Rattle.zy_logs.specs.Rows as spec;
ghost use Rattle.zy_logs.specs.Words.{first};

use crate::expected::ExpectedInLog;
use crate::reading::cursor::{LogCursor, Misfit};
use crate::reading::parts::{key_in, value_in};
use zy_isa::{MAX_CAP, Row};
use zy_page::PageRows;

/// The most rows of a page.
const ROOM: usize = MAX_CAP as usize;

/// Where the first `=` of a word is.
fn sign_of(word: &[u8]) -> Option<usize>
    ensures { result ≡ spec.sign_of word.now }
{
    word.iter().position(|byte| *byte == b'=')
}

/// The row K=V that the word spells.
fn row(at: LogCursor<'_>) -> Result<Row, Misfit>
    ensures { result ≡ spec.row_cut (spec.sign_of (first (left at.entry))) (left at.entry) }
{
    let word = at.word();
    let Some(sign) = sign_of(word) else {
        return Err(at.refuses(ExpectedInLog::Row));
    };
    let (key, _) = key_in(&word[..sign], at)?;
    let (value, _) = value_in(&word[sign + 1..], at)?;
    Ok(Row { key, value })
}

/// The row that the word spells, where it may come next: its key is `low` or above, and there is room for `room` rows.
fn next_row(low: u32, room: usize, at: LogCursor<'_>) -> Result<Row, Misfit>
    ensures value { result ≡ spec.next_row low room (left at.entry) }
    ensures room { IfOk result (λ r. 0 < room) }
{
    let row = row(at)?;
    if u32::from(row.key) < low {
        Err(at.refuses(ExpectedInLog::HigherKey))
    } else if room == 0 {
        Err(at.refuses(ExpectedInLog::FewerRows))
    } else {
        Ok(row)
    }
}

/// The rows that the words spell, up to the last one.
pub fn rows(at: LogCursor<'_>) -> Result<PageRows, Misfit>
    ensures { result ≡ spec.page_rows (left at.entry) }
{
    let mut rows = PageRows::new();
    let mut low = 0;
    let mut room = ROOM;
    let mut at = at;
    while !at.is_end() {
        let row = next_row(low, room, at)?;
        rows.push(row);
        low = u32::from(row.key) + 1;
        room -= 1;
        at = at.next();
    }
    Ok(rows)
}
