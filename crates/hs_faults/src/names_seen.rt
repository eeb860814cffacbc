//! Items by their names.

ghost use Rattle.std.specs.Prelude.{◌≡◌, ◌++◌, ◌∷◌, [], ℕ, List, IfOk, OnOk, not, is_some, true, option_copied};
ghost use Rattle.hs_faults.specs.Named.{Knows, first_named};

use crate::data_parameters::DataParam;
use crate::nodes::DeclaredNode;
use hs_expr::Name;
use hs_text::{Bind, Param, Rule, Unit};
use indexmap::IndexMap;
use std::alloc::{AllocError, Global};

/// Something with a name.
pub trait Named {
    ghost use Rattle.hs_expr.specs.declared.Name.{Name};

    ghost named: { Self → Name };

    fn name(&self) -> &Name
        ensures { result.now ≡ Self.named self.now };
}

impl Named for Param {
    ghost named = { λ param. param.name };

    fn name(&self) -> &Name {
        &self.name
    }
}

impl Named for DataParam {
    ghost named = { λ param. param.name };

    fn name(&self) -> &Name {
        &self.name
    }
}

impl Named for Rule {
    ghost named = { λ rule. rule.name };

    fn name(&self) -> &Name {
        &self.name
    }
}

impl Named for DeclaredNode {
    ghost named = { λ node. node.name };

    fn name(&self) -> &Name {
        &self.name
    }
}

impl Named for Unit {
    ghost named = { λ unit. unit.name };

    fn name(&self) -> &Name {
        &self.name
    }
}

/// A bind has the name of the parameter that it ties.
impl Named for Bind {
    ghost use Rattle.hs_faults.specs.Bound.{tied_name};

    ghost named = { tied_name };

    fn name(&self) -> &Name {
        match self {
            Bind::Give { parameter, .. } | Bind::Take { parameter, .. } => parameter,
        }
    }
}

/// Items by their names.
pub type NamesSeen<'a, T> = IndexMap<&'a str, &'a T>;

/// Adds the item. True if its name is new.
pub fn add_named<'a, T: Named>(
    known: &mut NamesSeen<'a, T>,
    item: &'a T,
) -> Result<bool, AllocError>
    ensures { (before : List T) → Knows T.named known.old before → IfOk result (λ is_new.
        (is_new ≡ not (is_some (first_named T.named before (T.named item.now).text)))
        × (is_new ≡ true → Knows T.named known.new (before ++ item.now ∷ []))) }
{
    let old = known.insert(item.name().text.as_str(), item)?;
    Ok(old.is_none())
}

/// The first item of this name.
pub fn find_named<'a, T: Named>(known: &NamesSeen<'a, T>, name: &str) -> Option<&'a T>
    ensures { (items : List T) → Knows T.named known.now items
        → option_copied result ≡ first_named T.named items name.now }
{
    known.get(name).copied()
}

/// Adds the item, unless there is one of its name.
#[tactic(auto, using(crate::proofs::Index::known_again))]
pub fn keep_first<'a, T: Named>(known: &mut NamesSeen<'a, T>, item: &'a T) -> Result<(), AllocError>
    ensures { (before : List T) → Knows T.named known.old before
        → OnOk result (Knows T.named known.new (before ++ item.now ∷ [])) }
{
    if find_named(known, item.name().text.as_str()).is_none() {
        add_named(known, item)?;
    }
    Ok(())
}

/// The items by their names, of a name the first.
pub fn known_of<'a, T: Named>(alloc: Global, items: &'a [T]) -> Result<NamesSeen<'a, T>, AllocError>
    ensures { IfOk result (λ known. Knows T.named known items.now) }
{
    let mut known = NamesSeen::new(alloc);
    for item in items {
        keep_first(&mut known, item)?;
    }
    Ok(known)
}
