//! Names as they are written, and what they denote.

ghost use Rattle.std.specs.Prelude.{◌≡◌, ℕ, List, IfOk, cond, true};
ghost use Rattle.std.specs.List.{list_all};
ghost use Rattle.hs_expr.specs.Lists.{same_text};
ghost use Rattle.hs_meta.specs.Names as spec;

use crate::raw::RawClass;
use hs_expr::Text;
use hs_types::DataType;
use hs_types::limits::MAX_IDENTIFIER_BYTES;
use std::alloc::{AllocError, Global};
use std::collections::HashMap;
use std::marker::Model;

/// A borrowed name. Contracts see it as the name.
#[derive(Drop)]
pub struct NameRef<'a> {
    name: &'a Text,
}

impl<'a> Model for NameRef<'a> {
    ghost use Rattle.std.specs.Prelude.{List, ℕ};

    ghost Value = { List ℕ };

    ghost view = { λ borrowed. borrowed.name.now };
}

impl<'a> NameRef<'a> {
    pub fn new(name: &'a Text) -> NameRef<'a>
        ensures { result ≡ name.now }
    {
        NameRef { name }
    }

    fn as_str(&self) -> &'a str
        ensures { result.now ≡ self.now }
    {
        self.name.as_str()
    }
}

/// Whether a text can name a class, an attribute or a reference.
pub fn is_identifier(name: &Text) -> bool
    ensures { result ≡ spec.is_identifier name.now }
{
    match name.as_str().as_bytes() {
        [first, rest @ ..] => begins_name(*first)
            && all_go_on(rest)
            && rest.len() < MAX_IDENTIFIER_BYTES,
        [] => false,
    }
}

fn all_go_on(bytes: &[u8]) -> bool
    ensures { result ≡ list_all spec.goes_on_in_name bytes.now }
{
    bytes.iter().all(|byte| goes_on_in_name(*byte))
}

fn begins_name(byte: u8) -> bool
    ensures { result ≡ spec.begins_name byte }
{
    matches!(byte, b'A'..=b'Z' | b'a'..=b'z' | b'_')
}

fn goes_on_in_name(byte: u8) -> bool
    ensures { result ≡ spec.goes_on_in_name byte }
{
    begins_name(byte) || matches!(byte, b'0'..=b'9')
}

/// Whether one of the classes has this name.
pub fn is_class(classes: &[RawClass], name: &Text) -> bool
    ensures { result ≡ spec.is_class classes.now name.now }
{
    classes.iter().any(|class| class.name == *name)
}

/// The number of the first class that has this name.
pub fn raw_class_number(classes: &[RawClass], name: &Text) -> Option<usize>
    ensures { result ≡ spec.raw_class_number classes.now name.now }
{
    classes.iter().position(|class| class.name == *name)
}

/// The data type of this name.
pub fn data_type_named(name: &Text) -> Option<DataType>
    ensures { result ≡ spec.data_type_named name.now }
{
    match name.as_str() {
        "EInt" => Some(DataType::EInt),
        "ELong" => Some(DataType::ELong),
        "EBoolean" => Some(DataType::EBoolean),
        "EString" => Some(DataType::EString),
        _ => None,
    }
}

/// Whether no name comes twice.
pub fn differ(alloc: Global, names: &[NameRef<'_>]) -> Result<bool, AllocError>
    ensures { IfOk result (λ apart. apart ≡ spec.differ names.now) }
{
    let mut seen = HashMap::with_capacity(alloc, names.len())?;
    for name in names {
        if add_name(name.as_str(), &mut seen)? {
            return Ok(false);
        }
    }
    Ok(true)
}

/// Adds the name, and says whether it was there.
fn add_name<'a>(name: &'a str, seen: &mut HashMap<&'a str, ()>) -> Result<bool, AllocError>
    ensures known { IfOk result (λ known. known ≡ spec.is_seen seen.old name.now) }
    ensures added { IfOk result (λ known. (other : List ℕ) → spec.is_seen seen.new other
        ≡ cond (same_text name.now other) true (spec.is_seen seen.old other)) }
{
    Ok(seen.insert(name, ())?.is_some())
}
