//! Hosts: graphs that rules are applied to, and searches for matches in them.

ghost use Rattle.std.specs.Prelude.{◌≡◌, ◌+◌, ◌≤◌, ℕ, Bool, [], true, IsOk, IfOk, OnOk, OnErr, length, slice_get, option_copied};
ghost use Rattle.std.specs.Option.{option_map};
ghost use Rattle.hs_types.specs.declared.graph.Graph.{Graph};
ghost use Rattle.hs_types.specs.declared.meta.Metamodel.{Metamodel};
ghost use Rattle.hs_types.specs.declared.rule.SlotKind.TheVariants as kind;
ghost use Rattle.hs_types.specs.Host.{CanInstall, HasNearNames, edges_at};
ghost use Rattle.hs_types.specs.Limits.{IsSmallRule};
ghost use Rattle.hs_types.specs.RuleForm.{IsRule};
ghost use Rattle.hs_types.specs.Step.{step};
ghost use Rattle.hs_types.specs.TypedGraph as spec;
ghost use Rattle.hs_types.specs.ValidMatch.{IsFirst};

use crate::{Args, ClassNo, Edge, FeatureNo, Match, Meta, ObjectNo, Plan, Rule};
use hs_expr::Value;
use std::alloc::AllocError;

/// An edge as a host shows it.
pub type EdgeView = Edge;

/// A typed graph over a metamodel, with the numbers that come next. A host keeps room for objects
/// and edges to come: two spare numbers, which contracts see beside the graph.
pub trait Host: Drop {
    ghost metamodel: { Self → Metamodel };

    ghost graph: { Self → Graph };

    ghost spare_objects: { Self → ℕ };

    ghost spare_edges: { Self → ℕ };

    /// Whether a step whose objects and edges have room wants no other memory.
    ghost keeps_room: { Bool };

    /// The metamodel, which no call changes. The graph is typed over it, and its next name is not
    /// far ahead of its next object.
    fn meta(&self) -> &Meta
        ensures value { result.now ≡ metamodel self.now }
        ensures typed { spec.IsTyped (metamodel self.now) (graph self.now) }
        ensures names { HasNearNames (graph self.now) };

    /// The class of the object of this number.
    fn class_of(&self, object: ObjectNo) -> Option<ClassNo>
        ensures { result
            ≡ option_map (λ object. object.class) (spec.object_numbered (graph self.now) object) };

    /// The number of the object of this name.
    fn named(&self, name: &str) -> Option<ObjectNo>
        ensures { result ≡ spec.object_named (graph self.now) name.now };

    /// The name of the object of this number.
    fn name_of(&self, object: ObjectNo) -> Option<&str>
        ensures { option_copied result ≡ spec.name_at (graph self.now) object };

    /// The value that the object of this number has for the attribute.
    fn slot(&self, object: ObjectNo, attribute: FeatureNo) -> Option<&Value>
        ensures { option_copied result
            ≡ spec.value_at (graph self.now) object (kind.Attribute attribute) };

    /// The number that the next new object gets. So many objects were drawn until now, those of the
    /// opening graph among them.
    fn next_object(&self) -> u64
        ensures { result ≡ (graph self.now).next_object };

    /// The number that the next new edge gets.
    fn next_edge(&self) -> u64
        ensures { result ≡ (graph self.now).next_edge };

    /// The k of the next new object's name `#k`.
    fn next_name(&self) -> u64
        ensures { result ≡ (graph self.now).next_name };

    /// The number of the object at this place in the order of numbers.
    fn object_at(&self, place: usize) -> Option<ObjectNo>
        ensures { result
            ≡ option_map (λ object. object.number) (slice_get (graph self.now).objects place) };

    /// The edge at this place among those at the object, in the order of their numbers. Edges of
    /// either direction count, a loop once.
    fn edge_at(&self, object: ObjectNo, place: usize) -> Option<EdgeView>
        ensures { result ≡ slice_get (edges_at (graph self.now) object) place };

    /// The same graph again. What room the copy keeps is not said.
    fn copy(&self) -> Result<Self, AllocError>
    where
        Self: Sized,
        ensures meta { IfOk result (λ host. metamodel host ≡ metamodel self.now) }
        ensures graph { IfOk result (λ host. graph host ≡ graph self.now) };

    /// Takes room for what the plan makes, beside the room that is kept already.
    fn reserve(&mut self, plan: &Plan) -> Result<(), AllocError>
        ensures meta { metamodel self.new ≡ metamodel self.old }
        ensures graph { graph self.new ≡ graph self.old }
        ensures objects { OnOk result
            (spare_objects self.old + length plan.now.make_objects ≤ spare_objects self.new) }
        ensures edges { OnOk result
            (spare_edges self.old + length plan.now.make_edges ≤ spare_edges self.new) }
        ensures err { OnErr result ((spare_objects self.new ≡ spare_objects self.old)
            × (spare_edges self.new ≡ spare_edges self.old)) };

    /// Carries the plan out: new objects and edges get the next numbers, new objects the next
    /// names. After `Ok` the plan is spent; after an error all is as it was.
    fn install(&mut self, plan: &mut Plan) -> Result<(), AllocError>
        requires { CanInstall (metamodel self.old) (graph self.old) plan.old }
        ensures meta { metamodel self.new ≡ metamodel self.old }
        ensures ok { OnOk result (graph self.new ≡ step (graph self.old) plan.old) }
        ensures objects { OnOk result
            (spare_objects self.old ≤ spare_objects self.new + length plan.old.make_objects) }
        ensures edges { OnOk result
            (spare_edges self.old ≤ spare_edges self.new + length plan.old.make_edges) }
        ensures err { OnErr result ((graph self.new ≡ graph self.old) × (plan.new ≡ plan.old)
            × (spare_objects self.new ≡ spare_objects self.old)
            × (spare_edges self.new ≡ spare_edges self.old)) }
        ensures room { keeps_room ≡ true
            → length plan.old.make_objects ≤ spare_objects self.old
            → length plan.old.make_edges ≤ spare_edges self.old → IsOk result };
}

/// A search for matches in hosts of one kind.
pub trait Finder<H: Host> {
    /// The least valid match of the rule with these arguments, or none exactly where no match is
    /// valid. It asks for a rule that `check` lets through, without multi-rules.
    fn first(&self, host: &H, rule: &Rule, args: &Args) -> Result<Option<Match>, AllocError>
        requires form { IsRule (H.metamodel host.now) rule.now }
        requires small { IsSmallRule rule.now }
        requires single { rule.now.multis ≡ [] }
        ensures { IfOk result
            (IsFirst (H.metamodel host.now) (H.graph host.now) rule.now args.now) };
}
