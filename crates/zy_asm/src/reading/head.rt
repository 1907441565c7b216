//! The lines of the header.
ghost use Rattle.std.specs.Prelude.{◌≡◌};
ghost use Rattle.zy_asm.specs.Reasons.{seen_word};
ghost use Rattle.zy_text.specs.Lines.{texts};
ghost use Rattle.zy_asm.specs.Reading.HeadLines.{zephyr_line, cap_line, pages_line, rule_line};
ghost use Rattle.zy_asm.specs.Reading.HeadLines as spec;
ghost use Rattle.zy_asm.specs.Reading.Progress.{Steps, progress_of};

use crate::faults::Reason;
use crate::numbers::number_in;
use crate::state::{Reader, Stage};
use crate::word_fault::WordFault;
use zy_isa::{MAX_CAP, MAX_PAGES, MIN_CAP, Rule, Version};
use zy_text::names::is;

/// The word behind this one in a line of the header.
fn header_value<'a>(words: &[&'a [u8]], name: &[u8]) -> Result<&'a [u8], WordFault>
    ensures { seen_word result ≡ spec.header_value (texts words.now) name.now }
{
    match words {
        [first, word] if *first == name => Ok(word),
        [first, _, _, ..] if *first == name => Err(Reason::NotTheHeader.at(2)),
        _ => Err(Reason::NotTheHeader.at(0)),
    }
}

/// The rule that a word names.
fn rule_of(word: &[u8]) -> Option<Rule>
    ensures { result ≡ spec.rule_of word.now }
{
    if is(word, b"held") {
        Some(Rule::Held)
    } else if is(word, b"loose") {
        Some(Rule::Loose)
    } else {
        None
    }
}

impl Reader {
    /// Takes the first line of the header, which gives the version.
    pub fn zephyr_line(&mut self, words: &[&[u8]]) -> Result<(), WordFault>
        ensures { Steps result (progress_of self.new) (zephyr_line (progress_of self.old) (texts words.now)) }
    {
        let Some(version) = Version::named(header_value(words, b"zephyr")?) else {
            return Err(Reason::NotTheHeader.at(1));
        };
        self.version = version;
        self.stage = Stage::Cap;
        Ok(())
    }

    /// Takes the second line of the header, which gives the most rows of a page.
    pub fn cap_line(&mut self, words: &[&[u8]]) -> Result<(), WordFault>
        ensures { Steps result (progress_of self.new) (cap_line (progress_of self.old) (texts words.now)) }
    {
        let cap = header_value(words, b"cap")?;
        let (least, most) = (u64::from(MIN_CAP), u64::from(MAX_CAP));
        self.cap = number_in(cap, least, most).map_err(|reason| reason.at(1))? as u8;
        self.stage = Stage::Pages;
        Ok(())
    }

    /// Takes the third line of the header, which gives the most pages.
    pub fn pages_line(&mut self, words: &[&[u8]]) -> Result<(), WordFault>
        ensures { Steps result (progress_of self.new) (pages_line (progress_of self.old) (texts words.now)) }
    {
        let pages = header_value(words, b"pages")?;
        let most = u64::from(MAX_PAGES);
        self.pages = number_in(pages, 1, most).map_err(|reason| reason.at(1))? as u16;
        self.stage = Stage::Rule;
        Ok(())
    }

    /// Takes the last line of the header, which gives the rule.
    pub fn rule_line(&mut self, words: &[&[u8]]) -> Result<(), WordFault>
        ensures { Steps result (progress_of self.new) (rule_line (progress_of self.old) (texts words.now)) }
    {
        let Some(rule) = rule_of(header_value(words, b"rule")?) else {
            return Err(Reason::NotTheHeader.at(1));
        };
        self.rule = rule;
        self.stage = Stage::Rows;
        Ok(())
    }
}
