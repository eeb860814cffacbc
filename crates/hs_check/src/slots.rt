//! The slots of a kernel or a multi-rule, and what its expressions read.

ghost use Rattle.std.specs.Prelude.{◌≡◌, ◌++◌, ◌∷◌, [], IfOk, OnOk, false, length};
ghost use Rattle.std.specs.List.{flat_map};
ghost use Rattle.hs_expr.specs.Evaluation.{reads_of};
ghost use Rattle.hs_types.specs.Pattern.{is_left};
ghost use Rattle.hs_types.specs.RuleForm.{reads_in};
ghost use Rattle.hs_check.specs.Slots as spec;

use hs_expr::{Expr, List, SlotRead};
use hs_types::{FeatureNo, Mark, Meta, PatternNode, PatternSlot, SetItem, SlotKind};
use std::alloc::{AllocError, Global};

/// Adds the slots that the expression reads.
fn add_reads(reads: &mut List<SlotRead>, expr: &Expr) -> Result<(), AllocError>
    ensures { OnOk result (reads.new ≡ reads.old ++ reads_of expr.now) }
{
    match expr {
        Expr::Literal(_) | Expr::Param(_) => Ok(()),
        Expr::Slot(read) => {
            reads.push(*read)?;
            Ok(())
        }
        Expr::Not(operand) | Expr::Minus(operand) => add_reads(reads, operand.get()),
        Expr::Binary(_, left, right) => {
            add_reads(reads, left.get())?;
            add_reads(reads, right.get())
        }
    }
}

fn add_reads_of_wheres(reads: &mut List<SlotRead>, wheres: &[Expr]) -> Result<(), AllocError>
    ensures { OnOk result (reads.new ≡ reads.old ++ flat_map reads_of wheres.now) }
{
    for test in wheres {
        add_reads(reads, test)?;
    }
    Ok(())
}

fn add_reads_of_sets(reads: &mut List<SlotRead>, sets: &[SetItem]) -> Result<(), AllocError>
    ensures { OnOk result
        (reads.new ≡ reads.old ++ flat_map (λ item. reads_of item.value) sets.now) }
{
    for item in sets {
        add_reads(reads, &item.value)?;
    }
    Ok(())
}

/// Adds the slots that the expressions of a block read.
pub fn add_reads_in(
    reads: &mut List<SlotRead>,
    wheres: &[Expr],
    sets: &[SetItem],
) -> Result<(), AllocError>
    ensures { OnOk result (reads.new ≡ reads.old ++ reads_in wheres.now sets.now) }
{
    add_reads_of_wheres(reads, wheres)?;
    add_reads_of_sets(reads, sets)
}

fn is_read(reads: &[SlotRead], node: u16, attribute: FeatureNo) -> bool
    ensures { result ≡ spec.is_read reads.now (spec.slot_with node attribute false) }
{
    reads
        .iter()
        .any(|read| read.node == node && read.attribute == attribute)
}

fn is_set(sets: &[SetItem], node: u16, attribute: FeatureNo) -> bool
    ensures { result ≡ spec.is_set sets.now (spec.slot_with node attribute false) }
{
    sets.iter()
        .any(|item| item.node == node && item.attribute == attribute)
}

/// Adds the slot of the feature at the node of this number, if it is an attribute that is read or
/// set.
fn add_slot(
    slots: &mut List<PatternSlot>,
    meta: &Meta,
    reads: &[SlotRead],
    sets: &[SetItem],
    node: u16,
    feature: FeatureNo,
) -> Result<(), AllocError>
    ensures { OnOk result (slots.new
        ≡ slots.old ++ spec.slots_among meta.now reads.now sets.now node (feature ∷ [])) }
{
    if meta.type_of(feature).is_none() {
        return Ok(());
    }
    let written = is_set(sets, node, feature);
    if written || is_read(reads, node, feature) {
        slots.push(PatternSlot {
            node,
            kind: SlotKind::Attribute(feature),
            written,
        })?;
    }
    Ok(())
}

/// Adds the slots of these features at the node of this number, as far as they are read or set.
fn add_slots_among(
    slots: &mut List<PatternSlot>,
    meta: &Meta,
    reads: &[SlotRead],
    sets: &[SetItem],
    node: u16,
    features: &[FeatureNo],
) -> Result<(), AllocError>
    ensures { OnOk result
        (slots.new ≡ slots.old ++ spec.slots_among meta.now reads.now sets.now node features.now) }
{
    for feature in features {
        add_slot(slots, meta, reads, sets, node, *feature)?;
    }
    Ok(())
}

fn is_left(mark: Mark) -> bool
    ensures { result ≡ is_left mark }
{
    mark != Mark::Make
}

/// Adds the slots of the node at this place.
fn add_slots_of(
    slots: &mut List<PatternSlot>,
    meta: &Meta,
    reads: &[SlotRead],
    sets: &[SetItem],
    place: usize,
    node: &PatternNode,
) -> Result<(), AllocError>
    ensures { OnOk result
        (slots.new ≡ slots.old ++ spec.slots_at_place meta.now reads.now sets.now place node.now) }
{
    match u16::try_from(place) {
        Ok(number) if is_left(node.mark) => {
            add_slots_among(
                slots,
                meta,
                reads,
                sets,
                number,
                meta.features_of(node.class),
            )
        }
        _ => Ok(()),
    }
}

/// The slots of these nodes that are read or set. The nodes are numbered after those before.
pub fn slots_from(
    alloc: Global,
    meta: &Meta,
    reads: &[SlotRead],
    sets: &[SetItem],
    before: &[PatternNode],
    nodes: &[PatternNode],
) -> Result<List<PatternSlot>, AllocError>
    ensures { IfOk result (λ slots. slots
        ≡ spec.slots_from meta.now reads.now sets.now (length before.now) nodes.now) }
{
    let mut slots = List::new(alloc);
    for (i, node) in nodes.iter().enumerate() {
        add_slots_of(&mut slots, meta, reads, sets, before.len() + i, node)?;
    }
    Ok(slots)
}
