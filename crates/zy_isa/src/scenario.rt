//! Scenarios that are within the limits.
ghost use Rattle.std.specs.Prelude.{◌≡◌, ◌<◌, ◌≤◌, IfOk, IfSome, None, length};
ghost use Rattle.zy_isa.specs.Limits.{max_txns};
ghost use Rattle.zy_isa.specs.Versions.{numbered};
ghost use Rattle.zy_isa.specs.Rows.{RowsFit};
ghost use Rattle.zy_isa.specs.Rows as isa_rows;
ghost use Rattle.zy_isa.specs.Scenario.{IsScenario, IsTested, IsTestedIn, ArePrograms, HasChoices, scenario_fault};
ghost use Rattle.zy_isa.specs.Scenario as isa_scenario;

use crate::choice::Choice;
use crate::program::Program;
use crate::row::Row;
use crate::rule::Rule;
use crate::version::Version;
use std::alloc::{AllocError, Global};
use std::marker::Model;
use thiserror::Error;

/// The fewest rows that a page may have room for.
pub const MIN_CAP: u8 = 2;

/// The most rows that a page may have room for.
pub const MAX_CAP: u8 = 16;

/// The greatest number of pages.
pub const MAX_PAGES: u16 = 512;

/// The most rows that a scenario opens with.
pub const MAX_ROWS: usize = 256;

/// The most transactions.
pub const MAX_TXNS: usize = 64;

/// The most choices.
pub const MAX_CHOICES: usize = 4096;

/// Why a scenario is rejected. The first that holds is reported; rows and choices count from 0.
#[derive(Clone, Copy, Debug, Error)]
pub enum ScenarioFault {
    /// There is no such version.
    #[error("the version is 1 or 2")]
    Version,
    /// A page would have room for too few or too many rows.
    #[error("cap is 2 to 16")]
    Cap,
    /// There would be no page, or too many.
    #[error("pages is 1 to 512")]
    Pages,
    /// There are too many rows, or they need too many pages.
    #[error("the rows are at most 256 and open with at most `pages` pages")]
    RowCount,
    /// The key of this row is not above the one before it.
    #[error("the key of row {0} is above the key before it")]
    RowOrder(u16),
    /// There are too many transactions.
    #[error("there are at most 64 transactions")]
    TxnCount,
    /// There are too many choices.
    #[error("there are at most 4096 choices")]
    ChoiceCount,
    /// This choice names a transaction that is not there.
    #[error("choice {0} names a transaction that exists")]
    Choice(u16),
    /// In this transaction, the version does not have this instruction.
    #[error("transaction {0}: version 1 does not have instruction {1}")]
    Instruction(u8, u8),
}

/// A scenario within the limits: whoever holds one need not test it again.
#[derive(Drop)]
pub struct Scenario {
    version: Version,
    cap: u8,
    pages: u16,
    rule: Rule,
    rows: Vec<Row>,
    programs: Vec<Program>,
    choices: Vec<Choice>,
}

impl Model for Scenario {
    ghost use Rattle.zy_isa.specs.Scenario as spec;

    ghost Value = { spec.Scenario };

    ghost view = { λ s. record {
      version = s.version;
      cap = s.cap;
      pages = s.pages;
      rule = s.rule;
      rows = s.rows.items;
      programs = s.programs.items;
      choices = s.choices.items;
    } };

    ghost invariant = { λ s. spec.IsScenario (record {
      version = s.version;
      cap = s.cap;
      pages = s.pages;
      rule = s.rule;
      rows = s.rows.items;
      programs = s.programs.items;
      choices = s.choices.items;
    }) };
}

/// How many rows an opening page takes: half of what it has room for, rounded up.
pub fn opening_rows(cap: u8) -> usize
    ensures { result ≡ isa_scenario.opening_rows cap }
{
    (usize::from(cap) + 1) / 2
}

/// How many pages this number of rows opens with.
pub fn opening_pages_for(cap: u8, rows: usize) -> usize
    requires { 1 ≤ cap }
    ensures { result ≡ isa_scenario.opening_pages_for cap rows }
{
    match rows.checked_sub(1) {
        None => 1,
        Some(others) => others / opening_rows(cap) + 1,
    }
}

/// The index of the first row whose key is not above the one before it.
fn misplaced_row(rows: &[Row]) -> Option<usize>
    ensures value { result ≡ isa_rows.misplaced_row rows.now }
    ensures bound { IfSome result (λ i. i < length rows.now) }
{
    let (first, rest) = rows.split_first()?;
    let mut last = first.key;
    for (i, row) in rest.iter().enumerate() {
        if row.key <= last {
            return Some(i + 1);
        }
        last = row.key;
    }
    None
}

/// The index of the first choice that names no transaction.
fn misnamed_choice(count: usize, choices: &[Choice]) -> Option<usize>
    ensures value { result ≡ isa_scenario.misnamed_choice count choices.now }
    ensures bound { IfSome result (λ i. i < length choices.now) }
{
    choices.iter().position(|choice| !choice.names_below(count))
}

/// The first fault of choices among this number of transactions. Apart from its caller its loop has registers enough.
#[inline(never)]
fn choices_fault(count: usize, choices: &[Choice]) -> Option<ScenarioFault>
    ensures { result ≡ isa_scenario.choices_fault count choices.now }
{
    if choices.len() > MAX_CHOICES {
        return Some(ScenarioFault::ChoiceCount);
    }
    let i = misnamed_choice(count, choices)?;
    Some(ScenarioFault::Choice(i as u16))
}

/// The first instruction that a version does not have.
fn instrs_fault(version: Version, programs: &[Program]) -> Option<ScenarioFault>
    requires { length programs.now ≤ max_txns }
    ensures { result ≡ isa_scenario.instrs_fault version 0 programs.now }
{
    for (t, program) in programs.iter().enumerate() {
        if let Some(i) = program.unknown(version) {
            return Some(ScenarioFault::Instruction(t as u8, i as u8));
        }
    }
    None
}

/// Reads each row, which shows that its numbers fit.
fn have_rows(rows: &[Row])
    ensures { RowsFit rows.now }
{
    for row in rows {
        // Proof: a key and a value have the range of their types.
        let (_key, _value) = (row.key, row.value);
    }
}

/// Asks each program its length, which shows that it is verified.
fn are_programs(programs: &[Program])
    ensures { ArePrograms programs.now }
{
    for program in programs {
        // Proof: a program is verified.
        let _len = program.len();
    }
}

fn copy_programs(alloc: Global, programs: &[Program]) -> Result<Vec<Program>, AllocError>
    ensures { IfOk result (λ copies. copies.items ≡ programs.now) }
{
    let mut copies = Vec::with_capacity(alloc, programs.len())?;
    for program in programs {
        copies.push(program.copy(alloc)?)?;
    }
    Ok(copies)
}

impl Scenario {
    /// Tests the parts of a scenario, with the number of its version; they are dropped where they are rejected. It takes
    /// no memory.
    pub fn new(
        version: u8,
        cap: u8,
        pages: u16,
        rule: Rule,
        rows: Vec<Row>,
        programs: Vec<Program>,
        choices: Vec<Choice>,
    ) -> Result<Scenario, ScenarioFault>
        ensures { IsTestedIn result (numbered version) (λ v. record {
          version = v;
          cap = cap;
          pages = pages;
          rule = rule;
          rows = rows.items;
          programs = programs.items;
          choices = choices.items;
        }) }
    {
        match Version::numbered(version) {
            Some(version) => Scenario::tested(version, cap, pages, rule, rows, programs, choices),
            None => Err(ScenarioFault::Version),
        }
    }

    /// Tests the parts of a scenario in a version.
    fn tested(
        version: Version,
        cap: u8,
        pages: u16,
        rule: Rule,
        rows: Vec<Row>,
        programs: Vec<Program>,
        choices: Vec<Choice>,
    ) -> Result<Scenario, ScenarioFault>
        ensures { IsTested result (record {
          version = version;
          cap = cap;
          pages = pages;
          rule = rule;
          rows = rows.items;
          programs = programs.items;
          choices = choices.items;
        }) }
    {
        if cap < MIN_CAP || cap > MAX_CAP {
            return Err(ScenarioFault::Cap);
        }
        if pages < 1 || pages > MAX_PAGES {
            return Err(ScenarioFault::Pages);
        }
        if rows.len() > MAX_ROWS || opening_pages_for(cap, rows.len()) > usize::from(pages) {
            return Err(ScenarioFault::RowCount);
        }
        if let Some(i) = misplaced_row(rows.as_slice()) {
            return Err(ScenarioFault::RowOrder(i as u16));
        }
        if programs.len() > MAX_TXNS {
            return Err(ScenarioFault::TxnCount);
        }
        if let Some(fault) = choices_fault(programs.len(), choices.as_slice()) {
            return Err(fault);
        }
        if let Some(fault) = instrs_fault(version, programs.as_slice()) {
            return Err(fault);
        }
        Ok(Scenario::of_parts(version, cap, pages, rule, rows, programs, choices))
    }

    /// The scenario of parts that were tested where they were read: nothing is tested again. It takes no memory.
    pub fn of_parts(
        version: Version,
        cap: u8,
        pages: u16,
        rule: Rule,
        rows: Vec<Row>,
        programs: Vec<Program>,
        choices: Vec<Choice>,
    ) -> Scenario
        requires { scenario_fault (record {
          version = version;
          cap = cap;
          pages = pages;
          rule = rule;
          rows = rows.items;
          programs = programs.items;
          choices = choices.items;
        }) ≡ None }
        ensures value { result ≡ record {
          version = version;
          cap = cap;
          pages = pages;
          rule = rule;
          rows = rows.items;
          programs = programs.items;
          choices = choices.items;
        } }
        ensures tested { IsScenario result }
    {
        // Proof: the rows fit, and the programs are verified.
        have_rows(rows.as_slice());
        are_programs(programs.as_slice());
        Scenario {
            version,
            cap,
            pages,
            rule,
            rows,
            programs,
            choices,
        }
    }

    /// This scenario with other choices in place of its own. Both are dropped where they are rejected. It takes no
    /// memory.
    pub fn with_choices(self, choices: Vec<Choice>) -> Result<Scenario, ScenarioFault>
        ensures { HasChoices result self choices.items }
    {
        if let Some(fault) = choices_fault(self.programs.len(), choices.as_slice()) {
            return Err(fault);
        }
        Ok(Scenario { choices, ..self })
    }

    /// The version.
    pub fn version(&self) -> Version
        ensures value { result ≡ self.now.version }
        ensures tested { IsScenario self.now }
    {
        self.version
    }

    /// How many rows a page may have, 2 to 16.
    pub fn cap(&self) -> u8
        ensures value { result ≡ self.now.cap }
        ensures tested { IsScenario self.now }
    {
        self.cap
    }

    /// How many pages there may be, 1 to 512.
    pub fn pages(&self) -> u16
        ensures value { result ≡ self.now.pages }
        ensures tested { IsScenario self.now }
    {
        self.pages
    }

    /// The rule for locked pages.
    pub fn rule(&self) -> Rule
        ensures value { result ≡ self.now.rule }
        ensures tested { IsScenario self.now }
    {
        self.rule
    }

    /// The rows that the pages open with, in key order.
    pub fn rows(&self) -> &[Row]
        ensures value { result.now ≡ self.entry.now.rows }
        ensures tested { IsScenario self.entry.now }
    {
        self.rows.as_slice()
    }

    /// The transactions' programs, by number.
    pub fn programs(&self) -> &[Program]
        ensures value { result.now ≡ self.entry.now.programs }
        ensures tested { IsScenario self.entry.now }
    {
        self.programs.as_slice()
    }

    /// The choices in order.
    pub fn choices(&self) -> &[Choice]
        ensures value { result.now ≡ self.entry.now.choices }
        ensures tested { IsScenario self.entry.now }
    {
        self.choices.as_slice()
    }

    /// A copy of the scenario.
    pub fn copy(&self, alloc: Global) -> Result<Scenario, AllocError>
        ensures { IfOk result (λ s. s ≡ self.now) }
    {
        let rows = self.rows.as_slice().to_vec(alloc)?;
        let programs = copy_programs(alloc, self.programs.as_slice())?;
        let choices = self.choices.as_slice().to_vec(alloc)?;
        Ok(Scenario {
            version: self.version,
            cap: self.cap,
            pages: self.pages,
            rule: self.rule,
            rows,
            programs,
            choices,
        })
    }
}
