//! The checks of written classes, in their order.

ghost use Rattle.std.specs.Prelude.{◌≡◌, ◌++◌, List, Ok};
ghost use Rattle.hs_expr.specs.Steps.{Gives};
ghost use Rattle.hs_expr.specs.Verdict.{unless, verdict};
ghost use Rattle.hs_meta.specs.Faults as spec;
ghost use Rattle.hs_meta.specs.WrittenSupers.{supers_found};
ghost use Rattle.hs_meta.specs.WrittenSupers as supertypes;
ghost use Rattle.hs_types.specs.Reachability.{reach_rows as rows_for};

use crate::fault::ModelFault;
use crate::raw::RawClass;
use crate::supers::{rows_of, written_supers};
use crate::{declared, inherited};
use hs_expr::{Failure, List, as_failure};
use std::alloc::Global;

/// What the checks find of supertypes.
#[derive(Debug, Drop)]
pub struct Supers {
    /// The numbers of each class's direct supertypes.
    pub direct: List<List<usize>>,
    /// For each class a row that says of every class whether it is below that one.
    pub rows: List<List<bool>>,
}

/// The supertypes of classes that have no fault, or else the first fault.
#[tactic(auto, using(hs_expr::proofs::Faults::checks))]
pub fn supers_of_valid(alloc: Global, classes: &[RawClass]) -> Result<Supers, Failure<ModelFault>>
    ensures { Gives result (unless (spec.model_faults classes.now) (supers_found classes.now)) }
{
    as_failure(declared::classes_few(classes))?;
    as_failure(declared::names_right(classes))?;
    as_failure(declared::classes_differ(classes))?;
    as_failure(declared::supers_known(classes))?;
    let direct = written_supers(alloc, classes)?;
    let rows = rows_of(alloc, direct.as_slice())?;
    check_by_supers(alloc, classes, rows.as_slice())?;
    Ok(Supers { direct, rows })
}

/// The first fault of the checks that go by supertypes or come after them.
#[tactic(auto, using(hs_expr::proofs::Faults::checks))]
fn check_by_supers(
    alloc: Global,
    classes: &[RawClass],
    rows: &[List<bool>],
) -> Result<(), Failure<ModelFault>>
    requires { rows.now ≡ rows_for (supertypes.written_supers classes.now) }
    ensures { (before : List ModelFault) → verdict before ≡ Ok tt
        → Gives result (verdict (before ++ spec.super_cycles classes.now
        ++ spec.unknown_types classes.now ++ spec.bad_defaults classes.now
        ++ spec.bad_bounds classes.now ++ spec.repeated_features classes.now
        ++ spec.many_features classes.now)) }
{
    as_failure(inherited::no_cycle(classes, rows))?;
    as_failure(declared::types_known(classes))?;
    as_failure(declared::defaults_fit(classes))?;
    as_failure(declared::bounds_right(classes))?;
    inherited::features_differ(alloc, classes, rows)?;
    inherited::features_few(alloc, classes, rows)
}
