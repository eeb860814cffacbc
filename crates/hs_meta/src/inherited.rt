//! Faults of what classes inherit.

ghost use Rattle.std.specs.Prelude.{◌≡◌, ◌<◌, ◌++◌, [], map, length, IfOk, OnOk, if◌then◌else◌};
ghost use Rattle.hs_expr.specs.Steps.{Gives};
ghost use Rattle.hs_expr.specs.Verdict.{verdict, each};
ghost use Rattle.hs_meta.specs.Faults as spec;
ghost use Rattle.hs_types.specs.Reachability.{reach_rows as rows_for};
ghost use Rattle.hs_meta.specs.WrittenSupers as supertypes;
ghost use Rattle.hs_types.specs.Metamodel as metamodel;

use crate::fault::{ModelFault, ModelFaultKind, ModelPlace, fault};
use crate::names::{NameRef, differ};
use crate::raw::{RawAttribute, RawClass, RawReference};
use hs_expr::{Failure, List, check_each, fault_if};
use hs_types::limits::MAX_FEATURES;
use hs_types::reaches;
use std::alloc::{AllocError, Global};

/// The first class that is below itself, by the rows.
#[tactic(auto, using(crate::proofs::WrittenSupers::supers_each))]
pub fn no_cycle(classes: &[RawClass], rows: &[List<bool>]) -> Result<(), ModelFault>
    requires { rows.now ≡ rows_for (supertypes.written_supers classes.now) }
    ensures { result ≡ verdict (spec.super_cycles classes.now) }
{
    check_each(
        classes,
        &|c: usize, class: &RawClass| {
            fault_if(
                reaches(rows, c, c),
                fault(ModelPlace::Class { class: c }, ModelFaultKind::SuperCycle),
            )
        },
    )
}

/// The first class that has two features of one name.
#[tactic(auto, using(hs_expr::proofs::Verdicts::each_steps))]
pub fn features_differ(
    alloc: Global,
    classes: &[RawClass],
    rows: &[List<bool>],
) -> Result<(), Failure<ModelFault>>
    requires { rows.now ≡ rows_for (supertypes.written_supers classes.now) }
    ensures { Gives result (verdict (spec.repeated_features classes.now)) }
{
    for (c, _) in classes.iter().enumerate() {
        let names = feature_names(alloc, classes, rows, c)?;
        if !differ(alloc, names.as_slice())? {
            return Err(Failure::Fault(fault(
                ModelPlace::Class { class: c },
                ModelFaultKind::Twice,
            )));
        }
    }
    Ok(())
}

/// The first class that has too many features.
#[tactic(auto, using(hs_expr::proofs::Verdicts::each_steps))]
pub fn features_few(
    alloc: Global,
    classes: &[RawClass],
    rows: &[List<bool>],
) -> Result<(), Failure<ModelFault>>
    requires { rows.now ≡ rows_for (supertypes.written_supers classes.now) }
    ensures { Gives result (verdict (spec.many_features classes.now)) }
{
    for (c, _) in classes.iter().enumerate() {
        let names = feature_names(alloc, classes, rows, c)?;
        if names.len() > MAX_FEATURES {
            return Err(Failure::Fault(fault(
                ModelPlace::Class { class: c },
                ModelFaultKind::Limit,
            )));
        }
    }
    Ok(())
}

/// The names of all features of class `c`.
#[tactic(auto, using(crate::proofs::WrittenSupers::supers_each))]
fn feature_names<'a>(
    alloc: Global,
    classes: &'a [RawClass],
    rows: &[List<bool>],
    c: usize,
) -> Result<List<NameRef<'a>>, AllocError>
    requires { rows.now ≡ rows_for (supertypes.written_supers classes.now) }
    ensures { IfOk result (λ names. names ≡ spec.feature_names classes.now c) }
{
    let mut names = List::new(alloc);
    for (d, class) in classes.iter().enumerate() {
        if conforms(rows, c, d) {
            add_own_names(class, &mut names)?;
        }
    }
    Ok(names)
}

fn conforms(rows: &[List<bool>], c: usize, d: usize) -> bool
    ensures { (supers : _) → rows.now ≡ rows_for supers → d < length supers
        → result ≡ metamodel.conforms supers c d }
{
    c == d || reaches(rows, c, d)
}

fn add_own_names<'a>(class: &'a RawClass, names: &mut List<NameRef<'a>>) -> Result<(), AllocError>
    ensures { OnOk result (names.new ≡ names.old ++ spec.own_names class.now) }
{
    add_attribute_names(class.attributes.as_slice(), names)?;
    add_reference_names(class.references.as_slice(), names)
}

fn add_attribute_names<'a>(
    attributes: &'a [RawAttribute],
    names: &mut List<NameRef<'a>>,
) -> Result<(), AllocError>
    ensures { OnOk result
        (names.new ≡ names.old ++ map (λ attribute. attribute.name) attributes.now) }
{
    for attribute in attributes {
        names.push(NameRef::new(&attribute.name))?;
    }
    Ok(())
}

fn add_reference_names<'a>(
    references: &'a [RawReference],
    names: &mut List<NameRef<'a>>,
) -> Result<(), AllocError>
    ensures { OnOk result
        (names.new ≡ names.old ++ map (λ reference. reference.name) references.now) }
{
    for reference in references {
        names.push(NameRef::new(&reference.name))?;
    }
    Ok(())
}
