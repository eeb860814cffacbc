//! Laws of conflict reasons.

ghost use Rattle.std.specs.Prelude.{◌≡◌, ◌↔◌, [], ℕ, Contains, List};
ghost use Rattle.hs_types.specs.declared.meta.Metamodel.{Metamodel};
ghost use Rattle.hs_types.specs.declared.rule.Part.{Part};
ghost use Rattle.hs_types.specs.declared.rule.PatternEdge.{PatternEdge};
ghost use Rattle.hs_types.specs.declared.rule.Rule.{Rule};
ghost use Rattle.hs_types.specs.declared.rule.Shape.{Shape};
ghost use Rattle.hs_types.specs.Metamodel.{IsMeta};
ghost use Rattle.hs_types.specs.RuleForm.{IsPart, IsRule, inverse};
ghost use Rattle.hs_overlap.specs.Contexts.{IsDroppedNode, IsWrittenSlot};
ghost use Rattle.hs_overlap.specs.declared.pair.Pair.{Pair};
ghost use Rattle.hs_overlap.specs.declared.pair.Pair.TheVariants.{Node, Edge, Slot};
ghost use Rattle.hs_overlap.specs.LeftSide.{IsAt, IsLeftEdge, with_part};
ghost use Rattle.hs_overlap.specs.Overlaps.{CanOccur, DropsItsEdges, HasClosedOverlap, MeetsDropped, NodesMeet, SlotsMeet};
ghost use Rattle.hs_overlap.specs.Reasons.{IsReason, IsSpan, MeetExactly};

use hs_laws::conformance_is_an_order;

/// Glue: plain matches of two left sides in a typed graph, without dangling edges, coincide exactly
/// in a span where it is the part over the context of a closed overlap. So whether a span is a
/// reason can be decided without a graph.
pub fn glue()
    ensures { (m : Metamodel) (r p : Shape) → IsMeta m → CanOccur m r → CanOccur m p
        → (span : List Pair) → MeetExactly m r p span ↔ HasClosedOverlap m r p span }
{
    conformance_is_an_order();
}

/// A reason is a span: no element is in two pairs, and its first elements are a subgraph.
pub fn reasons_are_spans()
    ensures { (m : Metamodel) (r p : Shape) → IsMeta m → CanOccur m r → CanOccur m p
        → (span : List Pair) → IsReason m r p span → IsSpan r span }
{
    glue();
}

/// Some graph can have the left side of a rule, that of its inverse, and that of a rule with one of
/// its parts.
pub fn left_sides_occur()
    ensures kernel { (m : Metamodel) (rule : Rule) → IsRule m rule → CanOccur m rule.shape }
    ensures inverted { (m : Metamodel) (rule : Rule) → IsRule m rule
        → CanOccur m (inverse rule.shape) }
    ensures with_part { (m : Metamodel) (rule : Rule) → IsRule m rule → (part : Part)
        → IsPart m rule part → CanOccur m (with_part rule.shape part) }
{}

/// The inverse of the inverse is the shape.
pub fn inverse_is_an_involution()
    ensures { (s : Shape) → inverse (inverse s) ≡ s }
{}

/// What a reason pairs, and so which spans are refused: the empty one, one that pairs nodes with no
/// common concrete class, one that leaves out two slots of one kind at paired nodes, one that
/// leaves out an edge at a node that is paired with a dropped one, and every span of a shape that
/// keeps an edge at a node that it drops.
pub fn what_reasons_pair()
    ensures deleted { (m : Metamodel) (r p : Shape) → IsReason m r p [] → ⊥ }
    ensures nodes { (m : Metamodel) (r p : Shape) → IsMeta m → CanOccur m r → CanOccur m p
        → (span : List Pair) → IsReason m r p span
        → (i j : ℕ) → Contains span (Node i j) → NodesMeet m r p i j }
    ensures slots { (m : Metamodel) (r p : Shape) → IsMeta m → CanOccur m r → CanOccur m p
        → (span : List Pair) → IsReason m r p span
        → (k l : ℕ) → IsWrittenSlot r k → SlotsMeet (Contains span) r p k l
        → Contains span (Slot k l) }
    ensures edges { (m : Metamodel) (r p : Shape) → IsMeta m → CanOccur m r → CanOccur m p
        → (span : List Pair) → IsReason m r p span
        → (i j y : ℕ) (f : PatternEdge) → Contains span (Node i j) → IsDroppedNode r i
        → IsLeftEdge p y f → IsAt f j → MeetsDropped r (λ x. Contains span (Edge x y)) }
    ensures kept_edges { (m : Metamodel) (r p : Shape) → IsMeta m → CanOccur m r → CanOccur m p
        → (span : List Pair) → IsReason m r p span → DropsItsEdges r × DropsItsEdges p }
{
    glue();
}
