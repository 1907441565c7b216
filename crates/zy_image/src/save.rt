//! A scenario as bytes.
ghost use Rattle.std.specs.Prelude.{◌≡◌, ◌++◌, ◌≤◌, ℕ, List, IfOk, OnOk, length};
ghost use Rattle.std.specs.List.{flat_map};
ghost use Rattle.zy_isa.specs.Limits.{max_rows, max_txns, max_choices};
ghost use Rattle.zy_isa.specs.InstrWords.{word_of};
ghost use Rattle.zy_image.specs.Image.{choices_image, head_image, image_of, program_image, programs_image, rows_image};
ghost use Rattle.zy_image.specs.Image as spec;

use std::alloc::{AllocError, Global};
use zy_isa::{Choice, Node, Program, Row, Rule, Scenario, Word};

/// What has an image.
trait Imaged {
    // Its bytes.
    ghost image: { Self → List ℕ };

    /// Puts its image behind what the `Vec` holds.
    fn put(&self, out: &mut Vec<u8>) -> Result<(), AllocError>
        ensures { OnOk result (out.new.items ≡ out.old.items ++ image self.now) };
}

/// Puts the images of some items behind what the `Vec` holds.
fn put_all<I: Imaged>(out: &mut Vec<u8>, items: &[I]) -> Result<(), AllocError>
    ensures { OnOk result (out.new.items ≡ out.old.items ++ flat_map I.image items.now) }
{
    for item in items {
        item.put(out)?;
    }
    Ok(())
}

/// The image of a row.
fn row_image(row: Row) -> [u8; 6]
    ensures { result ≡ spec.row_image row }
{
    let [k0, k1] = row.key.to_be_bytes();
    let [v0, v1, v2, v3] = row.value.to_be_bytes();
    [k0, k1, v0, v1, v2, v3]
}

impl Imaged for Row {
    ghost image = { spec.row_image };

    fn put(&self, out: &mut Vec<u8>) -> Result<(), AllocError> {
        out.extend_from_slice(&row_image(*self))
    }
}

impl Imaged for Word {
    ghost image = { word_of };

    fn put(&self, out: &mut Vec<u8>) -> Result<(), AllocError> {
        out.extend_from_slice(&self.bytes())
    }
}

impl Imaged for Program {
    ghost image = { program_image };

    fn put(&self, out: &mut Vec<u8>) -> Result<(), AllocError> {
        out.push(self.len() as u8)?;
        put_all(out, self.words())
    }
}

/// The byte of a node.
fn node_byte(node: Node) -> u8
    ensures { result ≡ spec.node_byte node }
{
    match node {
        Node::A => 1,
        Node::B => 2,
    }
}

/// The image of a choice: who makes it, what is done, and with which transaction.
fn choice_image(choice: Choice) -> [u8; 3]
    ensures { result ≡ spec.choice_image choice }
{
    match choice {
        Choice::Start => [0, 0, 0],
        Choice::Begin(t) => [0, 1, t],
        Choice::Kill(t) => [0, 2, t],
        Choice::Run(node, t) => [node_byte(node), 3, t],
        Choice::Take(node) => [node_byte(node), 4, 0],
        Choice::Finish(node) => [node_byte(node), 5, 0],
        Choice::Push(node) => [node_byte(node), 6, 0],
    }
}

impl Imaged for Choice {
    ghost image = { spec.choice_image };

    fn put(&self, out: &mut Vec<u8>) -> Result<(), AllocError> {
        out.extend_from_slice(&choice_image(*self))
    }
}

/// The byte of a rule.
fn rule_byte(rule: Rule) -> u8
    ensures { result ≡ spec.rule_byte rule }
{
    match rule {
        Rule::Held => 0,
        Rule::Loose => 1,
    }
}

/// The fields before the rows.
fn put_head(out: &mut Vec<u8>, scenario: &Scenario) -> Result<(), AllocError>
    ensures { OnOk result (out.new.items ≡ out.old.items ++ head_image scenario.now) }
{
    let [p0, p1] = scenario.pages().to_be_bytes();
    out.extend_from_slice(&scenario.version().magic())?;
    out.extend_from_slice(&[scenario.cap(), p0, p1, rule_byte(scenario.rule())])
}

/// The rows, with their number in front.
fn put_rows(out: &mut Vec<u8>, rows: &[Row]) -> Result<(), AllocError>
    requires { length rows.now ≤ max_rows }
    ensures { OnOk result (out.new.items ≡ out.old.items ++ rows_image rows.now) }
{
    out.extend_from_slice(&(rows.len() as u16).to_be_bytes())?;
    put_all(out, rows)
}

/// The programs, with their number in front.
fn put_programs(out: &mut Vec<u8>, programs: &[Program]) -> Result<(), AllocError>
    requires { length programs.now ≤ max_txns }
    ensures { OnOk result (out.new.items ≡ out.old.items ++ programs_image programs.now) }
{
    out.push(programs.len() as u8)?;
    put_all(out, programs)
}

/// The choices, with their number in front.
fn put_choices(out: &mut Vec<u8>, choices: &[Choice]) -> Result<(), AllocError>
    requires { length choices.now ≤ max_choices }
    ensures { OnOk result (out.new.items ≡ out.old.items ++ choices_image choices.now) }
{
    out.extend_from_slice(&(choices.len() as u16).to_be_bytes())?;
    put_all(out, choices)
}

/// The image of a scenario, 13 to 46669 bytes; no other scenario has it.
pub fn save(alloc: Global, scenario: &Scenario) -> Result<Vec<u8>, AllocError>
    ensures { IfOk result (λ out. out.items ≡ image_of scenario.now) }
{
    let mut out = Vec::new(alloc);
    put_head(&mut out, scenario)?;
    put_rows(&mut out, scenario.rows())?;
    put_programs(&mut out, scenario.programs())?;
    put_choices(&mut out, scenario.choices())?;
    Ok(out)
}
