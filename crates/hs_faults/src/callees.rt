//! What calls may name: the rules and the units of a text.

ghost use Rattle.std.specs.Prelude.{◌≡◌, ◌++◌, IfOk, OnOk, List, is_some};
ghost use Rattle.std.specs.Option.{option_map};
ghost use Rattle.hs_text.specs.declared.syntax.Rule.{Rule as WrittenRule};
ghost use Rattle.hs_faults.specs.Faults.{as_rule};
ghost use Rattle.hs_faults.specs.Named.{Knows};
ghost use Rattle.hs_faults.specs.NamedParams.{all_params};
ghost use Rattle.hs_faults.specs.UnitFaults as spec;

use crate::name_index::NameIndex;
use crate::names_seen::{NamesSeen, find_named, keep_first};
use crate::signature::Signature;
use hs_text::{Definition, Rule};
use hs_types::Meta;
use std::alloc::{AllocError, Global};
use std::marker::Model;

/// The rules of a text by their names, and what calls ask of them and of the units. Contracts see
/// the definitions of the text, and the metamodel.
#[derive(Drop)]
pub struct Callees<'a, 's> {
    meta: &'a Meta,
    definitions: &'a [Definition],
    rules: NamesSeen<'a, Rule>,
    signatures: NameIndex<'s, Signature<'a>>,
}

impl<'a, 's> Model for Callees<'a, 's> {
    ghost use Rattle.std.specs.Prelude.{◌≡◌};
    ghost use Rattle.hs_faults.specs.Callable.{Callable};
    ghost use Rattle.hs_faults.specs.Named.{Knows};
    ghost use Rattle.hs_faults.specs.NamedParams.{all_params};
    ghost use Rattle.hs_faults.specs.UnitFaults.{rules_of};

    ghost Value = { Callable };

    ghost view = { λ callees.
        record { meta = callees.meta.now; definitions = callees.definitions.now } };

    ghost invariant = { λ callees.
        Knows (λ other. other.name) callees.rules (rules_of callees.definitions.now)
        × (callees.signatures ≡ all_params callees.definitions.now) };
}

impl<'a, 's> Callees<'a, 's> {
    pub fn new(
        alloc: Global,
        meta: &'a Meta,
        definitions: &'a [Definition],
        signatures: &'s [Signature<'a>],
    ) -> Result<Callees<'a, 's>, AllocError>
        requires signatures { signatures.now ≡ all_params definitions.now }
        ensures { IfOk result
            (λ callees. callees ≡ record { meta = meta.now; definitions = definitions.now }) }
    {
        let rules = known_rules(alloc, definitions)?;
        let signatures = NameIndex::of(alloc, signatures)?;
        Ok(Callees {
            meta,
            definitions,
            rules,
            signatures,
        })
    }

    /// The metamodel over which all is.
    pub fn meta(&self) -> &'a Meta
        ensures { result.now ≡ self.now.meta }
    {
        self.meta
    }

    /// Whether a rule has this name.
    pub fn is_rule(&self, name: &str) -> bool
        ensures { result ≡ is_some (spec.first_rule (spec.rules_of self.now.definitions) name.now) }
    {
        find_named(&self.rules, name).is_some()
    }

    /// What a call asks of what has this name: of the first rule, or else of the first unit.
    pub fn signature_of(&self, name: &str) -> Option<&'s Signature<'a>>
        ensures { option_map (λ signature. signature.now.params) result ≡ spec.callee_params
            (spec.rules_of self.now.definitions) (spec.units_of self.now.definitions) name.now }
    {
        self.signatures.find(name)
    }
}

fn known_rules(alloc: Global, definitions: &[Definition]) -> Result<NamesSeen<'_, Rule>, AllocError>
    ensures { IfOk result
        (λ known. Knows (λ other. other.name) known (spec.rules_of definitions.now)) }
{
    let mut known = NamesSeen::new(alloc);
    for definition in definitions {
        keep_rule(&mut known, definition)?;
    }
    Ok(known)
}

/// Adds the definition, if it is a rule, unless there is one of its name.
fn keep_rule<'a>(
    known: &mut NamesSeen<'a, Rule>,
    definition: &'a Definition,
) -> Result<(), AllocError>
    ensures { (before : List WrittenRule) → Knows (λ other. other.name) known.old before
        → OnOk result (Knows (λ other. other.name) known.new (before ++ as_rule definition.now)) }
{
    match definition {
        Definition::Rule(rule) => keep_first(known, rule),
        Definition::Unit(_) => Ok(()),
    }
}
