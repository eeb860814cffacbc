//! Paths into a JSON value.

ghost use Rattle.std.specs.Prelude.{◌≡◌, ◌++◌, [], ◌∷◌, reverse, string_bytes, IfOk, OnOk};
ghost use Rattle.std.specs.List.{flat_map};
ghost use Rattle.hs_json_form.specs.PathText as spec;

use hs_expr::{List, Text};
use std::alloc::{AllocError, Global};
use std::marker::Model;

/// A step into a JSON value.
#[derive(Clone, PartialEq, Eq, Debug, Drop)]
pub enum Step {
    /// To the value at a key of an object.
    Key(Text),
    /// To an item of a list, from 0.
    Place(usize),
}

/// The steps that lead to a value within another, from outside in.
#[derive(Debug, Drop)]
pub struct Path {
    /// From inside out.
    reversed: List<Step>,
}

impl Model for Path {
    ghost use Rattle.std.specs.Prelude.{List, reverse};
    ghost use Rattle.hs_json_form.specs.declared.path.Step.{Step};

    ghost Value = { List Step };

    ghost view = { λ path. reverse path.reversed };
}

impl Path {
    /// The path of the value itself.
    pub fn new(alloc: Global) -> Path
        ensures { result ≡ [] }
    {
        Path {
            reversed: List::new(alloc),
        }
    }

    /// The path from one step further out.
    pub fn within(self, step: Step) -> Result<Path, AllocError>
        ensures { IfOk result (λ path. path ≡ step ∷ self) }
    {
        let Path { mut reversed } = self;
        reversed.push(step)?;
        Ok(Path { reversed })
    }

    /// The steps, each after a slash; only `/` for the value itself. Keys are written as they are.
    pub fn text(&self, alloc: Global) -> Result<Text, AllocError>
        ensures { IfOk result (λ text. text ≡ spec.path_text self.now) }
    {
        if self.reversed.is_empty() {
            return Text::from_str(alloc, "/");
        }
        let text = steps_text(alloc, self.reversed.as_slice())?;
        Ok(Text::from_string(text))
    }
}

/// The steps from the last one on, each after a slash.
#[tactic(auto, using(crate::proofs::PathText::none_left))]
fn steps_text(alloc: Global, reversed: &[Step]) -> Result<String, AllocError>
    ensures { IfOk result
        (λ text. string_bytes text ≡ flat_map spec.step_text (reverse reversed.now)) }
{
    let mut text = String::new(alloc);
    for i in 0..reversed.len() {
        add_step(&mut text, &reversed[reversed.len() - 1 - i])?;
    }
    Ok(text)
}

fn add_step(text: &mut String, step: &Step) -> Result<(), AllocError>
    ensures { OnOk result
        (string_bytes text.new ≡ string_bytes text.old ++ spec.step_text step.now) }
{
    text.push('/')?;
    match step {
        Step::Key(key) => text.push_str(key.as_str()),
        Step::Place(place) => write!(text, "{place}"),
    }
}
