//! Metamodels, read from a JSON value.

ghost use Rattle.std.specs.Prelude.{◌≡◌, ◌∷◌, [], IfOk};
ghost use Rattle.serde_json.specs.View.{view};
ghost use Rattle.hs_expr.specs.Steps.{Gives, fault_as};
ghost use Rattle.hs_json_form.specs.declared.path.Step.TheVariants as step;
ghost use Rattle.hs_expr.specs.Verdict.{unless};
ghost use Rattle.hs_meta.specs.Faults.{model_faults};
ghost use Rattle.hs_meta.specs.Meaning.{metamodel_of};
ghost use Rattle.hs_types.specs.Limits.{IsSmallMeta};
ghost use Rattle.hs_types.specs.Metamodel.{IsMeta};
ghost use Rattle.hs_json_model.specs.Meta as spec;

use crate::laws::models_are_sound;
use crate::meta_form::raw_meta;
use crate::paths::{keyed, named, placed};
use crate::{Fault, Wrong};
use hs_expr::Failure;
use hs_json_form::{Path, fault_with};
use hs_meta::{ModelFault, ModelFaultKind, ModelPlace, RawMeta, build};
use hs_types::Meta;
use serde_json::Value;
use std::alloc::{AllocError, Global};

/// Why a metamodel isn't read.
pub type MetaFailure = Failure<Fault<ModelFaultKind>>;

/// The metamodel that the value is; else its first fault: those of its form come first, part by
/// part, and then those of its meaning.
#[tactic(auto, unfolding(crate::specs::Meta::meta_at))]
pub fn read_meta(alloc: Global, value: &Value) -> Result<Meta, MetaFailure>
    ensures meant { Gives result (spec.meta_at (view value.now)) }
    ensures whole { IfOk result (λ meta. IsMeta meta) }
    ensures small { IfOk result (λ meta. IsSmallMeta meta) }
{
    models_are_sound();
    let raw = as_part(raw_meta(alloc, value))?;
    metamodel_of(alloc, raw)
}

/// What was read of a form, its fault as a part's.
#[tactic(auto, using(hs_expr::proofs::Answers::widened))]
pub fn as_part<T: Drop, K: Drop>(read: Result<T, Failure<Path>>) -> Result<T, Failure<Fault<K>>>
    ensures { (meant : _) → Gives read meant → Gives result (fault_as spec.form_fault meant) }
{
    hs_expr::fault_as(
        read,
        &|path: Path| -> Fault<K>
            ensures { result ≡ spec.form_fault path }
        {
            Fault {
                path,
                wrong: Wrong::Form,
            }
        },
    )
}

/// The metamodel of what is written.
fn metamodel_of(alloc: Global, raw: RawMeta) -> Result<Meta, MetaFailure>
    ensures { Gives result
        (fault_as spec.model_fault_at (unless (model_faults raw.classes) (metamodel_of raw))) }
{
    fault_with(
        build(alloc, raw),
        &|fault: ModelFault| -> Result<Fault<ModelFaultKind>, AllocError>
            ensures { IfOk result (λ made. made ≡ spec.model_fault_at fault) }
        {
            Ok(Fault {
                path: model_path(alloc, fault.place)?,
                wrong: Wrong::Meaning(fault.kind),
            })
        },
    )
}

/// The path of a place in a metamodel.
fn model_path(alloc: Global, place: ModelPlace) -> Result<Path, AllocError>
    ensures { IfOk result (λ path. path ≡ spec.model_path place) }
{
    match place {
        ModelPlace::Classes => named(alloc, "classes"),
        ModelPlace::Class { class } => in_class(alloc, class, Path::new(alloc)),
        ModelPlace::ClassName { class } => in_class(alloc, class, named(alloc, "name")?),
        ModelPlace::Super { class, number } => {
            in_part(alloc, class, "supers", number, Path::new(alloc))
        }
        ModelPlace::AttributeName { class, number } => {
            in_part(alloc, class, "attributes", number, named(alloc, "name")?)
        }
        ModelPlace::AttributeType { class, number } => {
            in_part(alloc, class, "attributes", number, named(alloc, "type")?)
        }
        ModelPlace::AttributeDefault { class, number } => {
            in_part(alloc, class, "attributes", number, named(alloc, "default")?)
        }
        ModelPlace::Reference { class, number } => {
            in_part(alloc, class, "references", number, Path::new(alloc))
        }
        ModelPlace::ReferenceName { class, number } => {
            in_part(alloc, class, "references", number, named(alloc, "name")?)
        }
        ModelPlace::ReferenceTarget { class, number } => {
            in_part(alloc, class, "references", number, named(alloc, "target")?)
        }
    }
}

fn in_class(alloc: Global, class: usize, inner: Path) -> Result<Path, AllocError>
    ensures { IfOk result (λ path. path ≡ spec.in_class class inner) }
{
    keyed(alloc, "classes", placed(class, inner)?)
}

fn in_part(
    alloc: Global,
    class: usize,
    part: &str,
    number: usize,
    inner: Path,
) -> Result<Path, AllocError>
    ensures { IfOk result
        (λ path. path ≡ spec.in_class class (step.Key part.now ∷ step.Place number ∷ inner)) }
{
    let inner = keyed(alloc, part, placed(number, inner)?)?;
    in_class(alloc, class, inner)
}
