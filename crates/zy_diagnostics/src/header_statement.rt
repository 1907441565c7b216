//! The statements of the header.

use zy_asm::Stage;
use zy_source_words::Statement;
use zy_text::names::is;

/// A statement of the header.
#[derive(Clone, Copy)]
pub struct HeaderStatement {
    /// Its first word.
    pub word: &'static str,
    /// Which statement of the text it is.
    pub ordinal: &'static str,
    /// How to write it.
    pub pattern: &'static str,
    /// What follows its first word.
    pub takes: &'static str,
    /// What its second word chooses, if that is one of two words.
    pub choice: Option<&'static str>,
}

/// The version of the text.
const VERSION: HeaderStatement = HeaderStatement {
    word: "zephyr",
    ordinal: "first",
    pattern: "zephyr 1 or zephyr 2",
    takes: "zephyr takes one version",
    choice: Some("version"),
};

/// The most rows of a page.
const CAP: HeaderStatement = HeaderStatement {
    word: "cap",
    ordinal: "second",
    pattern: "cap N",
    takes: "cap takes one number",
    choice: None,
};

/// The most pages.
const PAGES: HeaderStatement = HeaderStatement {
    word: "pages",
    ordinal: "third",
    pattern: "pages N",
    takes: "pages takes one number",
    choice: None,
};

/// The rule for locked pages.
const RULE: HeaderStatement = HeaderStatement {
    word: "rule",
    ordinal: "fourth",
    pattern: "rule held or rule loose",
    takes: "rule takes one word",
    choice: Some("rule"),
};

impl HeaderStatement {
    /// The next one, if the header goes on.
    pub fn of(stage: Stage) -> Option<HeaderStatement> {
        match stage {
            Stage::Zephyr => Some(VERSION),
            Stage::Cap => Some(CAP),
            Stage::Pages => Some(PAGES),
            Stage::Rule => Some(RULE),
            _ => None,
        }
    }

    /// Whether a line begins with its word.
    pub fn begins(self, line: Statement<'_>) -> bool {
        is(line.text(0), self.word.as_bytes())
    }
}

/// Whether a line begins as a statement of the header does.
pub fn begins_as_header(line: Statement<'_>) -> bool {
    VERSION.begins(line) || CAP.begins(line) || PAGES.begins(line) || RULE.begins(line)
}
