//! What parameters mean.

ghost use Rattle.std.specs.Prelude.{◌≡◌, IfOk};
ghost use Rattle.hs_check.specs.Parameters as spec;

use hs_expr::{List, Text};
use hs_faults::{class_number, data_named};
use hs_text::{Direction as WrittenDirection, Param as WrittenParam};
use hs_types::{ClassNo, Direction, Meta, Param, ParamKind};
use std::alloc::{AllocError, Global};

fn direction_meant(direction: WrittenDirection) -> Direction
    ensures { result ≡ spec.direction_meant direction }
{
    match direction {
        WrittenDirection::In => Direction::In,
        WrittenDirection::Out => Direction::Out,
    }
}

/// The class of this name.
pub fn class_meant(meta: &Meta, name: &Text) -> ClassNo
    ensures { result ≡ spec.class_meant meta.now name.now }
{
    class_number(meta, name).unwrap_or(0)
}

fn kind_meant(meta: &Meta, word: &Text) -> ParamKind
    ensures { result ≡ spec.kind_meant meta.now word.now }
{
    match data_named(word) {
        Some(kind) => ParamKind::Data(kind),
        None => ParamKind::Object(class_meant(meta, word)),
    }
}

fn param_meant(meta: &Meta, param: &WrittenParam) -> Result<Param, AllocError>
    ensures { IfOk result (λ meant. meant ≡ spec.param_meant meta.now param.now) }
{
    Ok(Param {
        direction: direction_meant(param.direction),
        name: param.name.text.clone()?,
        kind: kind_meant(meta, &param.kind.text),
    })
}

/// The parameters of a rule or a unit.
pub fn params_meant(
    alloc: Global,
    meta: &Meta,
    params: &[WrittenParam],
) -> Result<List<Param>, AllocError>
    ensures { IfOk result (λ meant. meant ≡ spec.params_meant meta.now params.now) }
{
    let mut meant = List::new(alloc);
    for param in params {
        meant.push(param_meant(meta, param)?)?;
    }
    Ok(meant)
}
