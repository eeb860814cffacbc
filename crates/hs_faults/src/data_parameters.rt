//! The parameters of a rule that stand for data.

ghost use Rattle.std.specs.Prelude.{◌≡◌, ◌++◌, IfOk, OnOk};
ghost use Rattle.hs_faults.specs.Numbers as spec;

use crate::names::data_named;
use crate::nodes::copy_of;
use crate::numbers::number_at;
use hs_expr::{Kind, List, Name};
use hs_text::Param;
use std::alloc::{AllocError, Global};

/// A parameter for data, with its number among all parameters of the rule.
#[derive(Debug, Drop)]
pub struct DataParam {
    pub name: Name,
    pub number: u16,
    pub kind: Kind,
}

/// The parameters for data, in written order.
pub fn data_params(alloc: Global, params: &[Param]) -> Result<List<DataParam>, AllocError>
    ensures { IfOk result (λ all. all ≡ spec.data_params params.now) }
{
    let mut all = List::new(alloc);
    for (i, param) in params.iter().enumerate() {
        add_param(&mut all, i, param)?;
    }
    Ok(all)
}

/// Adds the parameter, which has this place, if it is for data.
fn add_param(all: &mut List<DataParam>, place: usize, param: &Param) -> Result<(), AllocError>
    ensures { OnOk result (all.new ≡ all.old ++ spec.data_param place param.now) }
{
    if let Some(kind) = data_named(&param.kind.text) {
        all.push(DataParam {
            name: copy_of(&param.name)?,
            number: number_at(place),
            kind,
        })?;
    }
    Ok(())
}
