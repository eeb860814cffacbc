//! Items by name.

ghost use Rattle.std.specs.Prelude.{◌≡◌, IfOk, option_copied};
ghost use Rattle.hs_faults.specs.Named.{Knows, first_named};

use crate::data_parameters::DataParam;
use crate::names_seen::{Named, NamesSeen, find_named, known_of};
use crate::nodes::DeclaredNode;
use hs_text::{Bind, Param};
use std::alloc::{AllocError, Global};
use std::marker::Model;

/// Items with a way to look them up by name. Contracts see it as the list of the items.
#[derive(Drop)]
pub struct NameIndex<'a, T: Named> {
    all: &'a [T],
    by_name: NamesSeen<'a, T>,
}

/// The nodes of a rule and of its blocks.
pub type NodeIndex<'a> = NameIndex<'a, DeclaredNode>;

/// The parameters of a rule that stand for data.
pub type DataIndex<'a> = NameIndex<'a, DataParam>;

/// The parameters of a unit, or of what is called.
pub type ParamIndex<'a> = NameIndex<'a, Param>;

/// The binds of a call, by the parameters that they tie.
pub type BindIndex<'a> = NameIndex<'a, Bind>;

impl<'a, T: Named> Model for NameIndex<'a, T> {
    ghost use Rattle.std.specs.Prelude.{List};
    ghost use Rattle.hs_faults.specs.Named.{Knows};

    ghost Value = { List T };

    ghost view = { λ map. map.all.now };

    ghost invariant = { λ map. Knows T.named map.by_name map.all.now };
}

impl<'a, T: Named> NameIndex<'a, T> {
    pub fn new(all: &'a [T], by_name: NamesSeen<'a, T>) -> NameIndex<'a, T>
        requires { Knows T.named by_name all.now }
        ensures { result ≡ all.now }
    {
        NameIndex { all, by_name }
    }

    /// The items by their names, of a name the first.
    pub fn of(alloc: Global, all: &'a [T]) -> Result<NameIndex<'a, T>, AllocError>
        ensures { IfOk result (λ index. index ≡ all.now) }
    {
        let by_name = known_of(alloc, all)?;
        Ok(NameIndex { all, by_name })
    }

    /// The first item of this name.
    pub fn find(&self, name: &str) -> Option<&'a T>
        ensures { option_copied result ≡ first_named T.named self.now name.now }
    {
        find_named(&self.by_name, name)
    }
}
