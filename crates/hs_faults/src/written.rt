//! The slots that are set so far.

ghost use Rattle.std.specs.Prelude.{◌≡◌, ◌++◌, ◌∷◌, [], ℕ, List, OnOk, cond};
ghost use Rattle.std.specs.List.{list_any};
ghost use Rattle.hs_expr.specs.Lists.{same_text};
ghost use Rattle.hs_faults.specs.StatementFaults.{Slot, is_set_before};
ghost use Rattle.hs_faults.specs.Written.{HasSlots, attributes_in};

use hs_expr::List;
use indexmap::IndexMap;
use std::alloc::{AllocError, Global};

/// For each node by its name the attributes that are set.
pub type Written<'a> = IndexMap<&'a str, List<&'a str>>;

/// Whether the slot is set.
pub fn is_set_before(written: &Written<'_>, node: &str, attribute: &str) -> bool
    ensures { (slots : List Slot) → HasSlots written.now slots
        → result ≡ is_set_before slots node.now attribute.now }
{
    match written.get(node) {
        Some(attributes) => is_among(attributes.as_slice(), attribute),
        None => false,
    }
}

fn is_among(attributes: &[&str], attribute: &str) -> bool
    ensures { result ≡ list_any (λ other. same_text attribute.now other.now) attributes.now }
{
    attributes.iter().any(|other| attribute == *other)
}

/// Sets one more slot.
pub fn set_slot<'a>(
    alloc: Global,
    written: &mut Written<'a>,
    node: &'a str,
    attribute: &'a str,
) -> Result<(), AllocError>
    ensures { (slots : List Slot) → HasSlots written.old slots
        → OnOk result (HasSlots written.new
        (slots ++ record { node = node.now; attribute = attribute.now } ∷ [])) }
{
    add_attribute(alloc, written, node, attribute)
}

/// Adds an attribute to those of the node.
fn add_attribute<'a>(
    alloc: Global,
    written: &mut Written<'a>,
    node: &'a str,
    attribute: &'a str,
) -> Result<(), AllocError>
    ensures { OnOk result ((name : List ℕ) → attributes_in written.new name
        ≡ cond (same_text node.now name) (attributes_in written.old node.now ++ attribute.entry
        ∷ []) (attributes_in written.old name)) }
{
    let mut attributes = take_attributes(alloc, written, node);
    attributes.push(attribute)?;
    written.insert(node, attributes)?;
    Ok(())
}

/// Takes the attributes of the node out.
fn take_attributes<'a>(alloc: Global, written: &mut Written<'a>, node: &str) -> List<&'a str>
    ensures taken { result ≡ attributes_in written.old node.now }
    ensures left { (name : List ℕ) → attributes_in written.new name
        ≡ cond (same_text node.now name) [] (attributes_in written.old name) }
{
    match written.swap_remove(node) {
        Some(attributes) => attributes,
        None => List::new(alloc),
    }
}
