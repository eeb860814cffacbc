//! The definitions, tried on small values.

ghost use Rattle.std.specs.Prelude.{◌≡◌, [], ◌∷◌, pos, map, true, false, codes};
ghost use Rattle.hs_expr.specs.declared.value.Value.TheVariants as value;
ghost use Rattle.hs_graph.specs.declared.fault.GraphFaultKind.TheVariants as kind;
ghost use Rattle.hs_graph.specs.declared.fault.GraphPlace.TheVariants as place;
ghost use Rattle.hs_graph.specs.Faults.{graph_fault, graph_faults};
ghost use Rattle.hs_graph.specs.Meaning.{graph_of};
ghost use Rattle.hs_graph.specs.Names.{is_object_name, next_after};
ghost use Rattle.hs_graph.specs.Problems.{problem, problems_of};
ghost use Rattle.hs_graph.specs.Samples.{sample_bank, boxed, boxes, sample_objects, faulty_objects};
ghost use Rattle.hs_graph.specs.declared.problem.ProblemKind.TheVariants as trouble;

/// Of objects without fault.
#[tactic(auto, unfolding(crate::specs::Meaning::graph_of))]
pub fn meanings()
    ensures faults { graph_faults sample_bank sample_objects ≡ [] }
    ensures names { map (λ object. object.name) (graph_of sample_bank sample_objects).objects
        ≡ codes "c1" ∷ codes "#7" ∷ [] }
    ensures classes { map (λ object. object.class) (graph_of sample_bank sample_objects).objects
        ≡ 1 ∷ 2 ∷ [] }
    ensures slots { map (λ object. map (λ slot. slot.attribute) object.slots)
        (graph_of sample_bank sample_objects).objects ≡ (0 ∷ []) ∷ (0 ∷ 2 ∷ []) ∷ [] }
    ensures values { map (λ object. map (λ slot. slot.value) object.slots)
        (graph_of sample_bank sample_objects).objects
        ≡ (value.Text (codes "Ann") ∷ []) ∷ (value.Text [] ∷ value.Int (pos 5) ∷ []) ∷ [] }
    ensures sources { map (λ edge. edge.source) (graph_of sample_bank sample_objects).edges
        ≡ 0 ∷ 0 ∷ 1 ∷ [] }
    ensures references { map (λ edge. edge.reference) (graph_of sample_bank sample_objects).edges
        ≡ 1 ∷ 1 ∷ 3 ∷ [] }
    ensures targets { map (λ edge. edge.target) (graph_of sample_bank sample_objects).edges
        ≡ 1 ∷ 1 ∷ 0 ∷ [] }
    ensures numbers { map (λ edge. edge.number) (graph_of sample_bank sample_objects).edges
        ≡ 0 ∷ 1 ∷ 2 ∷ [] }
    ensures next { (graph_of sample_bank sample_objects).next_name ≡ 8 }
{}

/// Of objects with a fault of each kind, but for the limits.
pub fn wrongs()
    ensures { graph_faults sample_bank faulty_objects ≡
        graph_fault (place.ObjectName 0) kind.Name ∷ graph_fault (place.ObjectName 2) kind.Twice
        ∷ graph_fault (place.ObjectClass 1) kind.UnknownClass
        ∷ graph_fault (place.Object 2) kind.Abstract
        ∷ graph_fault (place.Attr 3 0) kind.UnknownAttribute ∷ graph_fault (place.Attr 3 1)
        kind.BadValue ∷ graph_fault (place.Attr 3 2) kind.BadValue
        ∷ graph_fault (place.Ref 3 0) kind.UnknownReference ∷ graph_fault (place.Target 3 1 0)
        kind.UnknownTarget ∷ graph_fault (place.Target 3 1 1) kind.BadTarget ∷ [] }
{}

/// Of names that count and names that don't.
pub fn namings()
    ensures greatest { is_object_name (codes "#3000000000") ≡ true }
    ensures above { is_object_name (codes "#3000000001") ≡ false }
    ensures zero { next_after (codes "#0") ≡ 1 }
    ensures plain { next_after (codes "#09") ≡ 0 }
    ensures plain_far { is_object_name (codes "#03000000001") ≡ true }
    ensures bare { next_after (codes "#") ≡ 0 }
    ensures signed { next_after (codes "#-1") ≡ 0 }
    ensures empty { is_object_name [] ≡ false }
{}

/// Of a graph with a problem of each kind: an object that leads to a cycle doesn't lie on it, nor
/// does one that hangs from it.
pub fn troubles()
    ensures { problems_of boxes boxed ≡
        problem 5 trouble.Containers ∷ problem 5 trouble.Cycle
        ∷ problem 7 (trouble.Upper 1) ∷ problem 7 trouble.Cycle
        ∷ problem 9 (trouble.Lower 1) ∷ [] }
{}
