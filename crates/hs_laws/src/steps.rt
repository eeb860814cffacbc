//! What a step of a valid match leaves true.

ghost use Rattle.std.specs.Prelude.{◌≡◌, ◌≤◌, ◌<◌, ◌+◌, ℕ, List, length, slice_get, true, false, Some, None};
ghost use Rattle.std.specs.List.{All, list_any};
ghost use Rattle.hs_types.specs.declared.graph.Edge.{Edge};
ghost use Rattle.hs_types.specs.declared.graph.Graph.{Graph};
ghost use Rattle.hs_types.specs.declared.graph.Object.{Object};
ghost use Rattle.hs_types.specs.declared.matching.Match.{Match};
ghost use Rattle.hs_types.specs.declared.meta.Metamodel.{Metamodel};
ghost use Rattle.hs_types.specs.declared.plan.MadeEdge.{MadeEdge};
ghost use Rattle.hs_types.specs.Plan.{MadeObject, Plan, Fits, plan_of};
ghost use Rattle.hs_types.specs.declared.plan.Write.{Write};
ghost use Rattle.hs_types.specs.declared.request.Args.{Args};
ghost use Rattle.hs_types.specs.declared.rule.Rule.{Rule};
ghost use Rattle.hs_types.specs.declared.rule.SlotKind.{SlotKind};
ghost use Rattle.hs_types.specs.Dangling.{NoneDangle};
ghost use Rattle.hs_expr.specs.Lists.{has};
ghost use Rattle.hs_types.specs.Metamodel.{IsMeta};
ghost use Rattle.hs_types.specs.Pattern.{is_drop};
ghost use Rattle.hs_types.specs.RuleForm.{IsRule};
ghost use Rattle.hs_types.specs.Step.{is_to, number_of, object_after, step};
ghost use Rattle.hs_types.specs.TypedGraph.{IsTyped, edge_numbered, hash_name, object_numbered, value_at};
ghost use Rattle.hs_types.specs.ValidMatch.{IsValid};
ghost use Rattle.hs_types.specs.Copies.{all_dropped_edges, all_dropped_nodes};

/// The step of a valid match of a typed graph leads to a typed graph over the same metamodel: the
/// classes of objects and of edges' ends still fit, names still differ, and the next numbers only
/// grew.
pub fn steps_stay_typed()
    ensures typed { (m : Metamodel) (g : Graph) (rule : Rule) (args : Args) (f : Match)
        → IsMeta m → IsRule m rule → IsTyped m g → IsValid m g rule args f
        → IsTyped m (step g (plan_of m g rule args f)) }
    ensures next_object { (g : Graph) (plan : Plan)
        → (step g plan).next_object ≡ g.next_object + length plan.make_objects }
    ensures next_edge { (g : Graph) (plan : Plan)
        → (step g plan).next_edge ≡ g.next_edge + length plan.make_edges }
    ensures next_name { (g : Graph) (plan : Plan)
        → (step g plan).next_name ≡ g.next_name + length plan.make_objects }
{}

/// The plan of a valid match can be carried out in its graph: what it drops and writes is there,
/// each once, and what it makes is such as a typed graph has.
pub fn plans_fit()
    ensures { (m : Metamodel) (g : Graph) (rule : Rule) (args : Args) (f : Match)
        → IsMeta m → IsRule m rule → IsTyped m g → IsValid m g rule args f
        → Fits m g (plan_of m g rule args f) }
{}

/// A step changes nothing that its plan doesn't name.
pub fn steps_change_what_they_name()
    ensures objects_stay { (g : Graph) (plan : Plan) (n : ℕ) (x : Object)
        → has plan.drop_objects n ≡ false → object_numbered g n ≡ Some x
        → object_numbered (step g plan) n ≡ Some (object_after plan.writes x) }
    ensures slots_stay { (g : Graph) (plan : Plan) (n : ℕ) (slot : SlotKind) (x : Object)
        → has plan.drop_objects n ≡ false → object_numbered g n ≡ Some x
        → list_any (is_to n slot) plan.writes ≡ false
        → value_at (step g plan) n slot ≡ value_at g n slot }
    ensures edges_stay { (g : Graph) (plan : Plan) (n : ℕ) (e : Edge)
        → has plan.drop_edges n ≡ false → edge_numbered g n ≡ Some e
        → edge_numbered (step g plan) n ≡ Some e }
    ensures objects_go { (g : Graph) (plan : Plan) (n : ℕ) → n < g.next_object
        → has plan.drop_objects n ≡ true → object_numbered (step g plan) n ≡ None }
    ensures edges_go { (g : Graph) (plan : Plan) (n : ℕ) → n < g.next_edge
        → has plan.drop_edges n ≡ true → edge_numbered (step g plan) n ≡ None }
    ensures no_object_comes { (g : Graph) (plan : Plan) (n : ℕ) (y : Object) → n < g.next_object
        → object_numbered (step g plan) n ≡ Some y
        → (x : Object) × (object_numbered g n ≡ Some x) × (has plan.drop_objects n ≡ false)
        × (y ≡ object_after plan.writes x) }
    ensures no_edge_comes { (g : Graph) (plan : Plan) (n : ℕ) (e : Edge) → n < g.next_edge
        → edge_numbered (step g plan) n ≡ Some e → edge_numbered g n ≡ Some e }
{}

/// A step brings what its plan names: made objects and edges get the next numbers and names, in
/// order, and a written slot has the written value.
pub fn steps_bring_what_they_name()
    ensures objects_come { (m : Metamodel) (g : Graph) (plan : Plan) (i : ℕ) (made : MadeObject)
        → IsTyped m g → slice_get plan.make_objects i ≡ Some made
        → object_numbered (step g plan) (g.next_object + i) ≡ Some (record {
          number = g.next_object + i;
          name = hash_name (g.next_name + i);
          class = made.class;
          slots = made.slots;
        }) }
    ensures edges_come { (m : Metamodel) (g : Graph) (plan : Plan) (i : ℕ) (made : MadeEdge)
        → IsTyped m g → slice_get plan.make_edges i ≡ Some made
        → edge_numbered (step g plan) (g.next_edge + i) ≡ Some (record {
          number = g.next_edge + i;
          source = number_of g.next_object made.source;
          reference = made.reference;
          target = number_of g.next_object made.target;
        }) }
    ensures values_come { (m : Metamodel) (g : Graph) (plan : Plan) (k : ℕ) (write : Write)
        → Fits m g plan → slice_get plan.writes k ≡ Some write
        → value_at (step g plan) write.object write.slot ≡ Some write.value }
{}

/// A rule that drops no node leaves no edge without an end, wherever it is applied.
pub fn nothing_dangles_without_deletion()
    ensures { (g : Graph) (rule : Rule) (f : Match)
        → All (λ node. is_drop node.mark ≡ false) rule.shape.nodes
        → All (λ multi. All (λ node. is_drop node.mark ≡ false) multi.shape.nodes) rule.multis
        → NoneDangle (all_dropped_nodes rule f) (all_dropped_edges rule f) g }
{}
