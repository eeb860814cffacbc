//! What is true of the graphs that written objects denote.

ghost use Rattle.std.specs.Prelude.{◌≡◌, ◌≤◌, ◌+◌, ◌↔◌, [], ℕ, List, Some, true, length};
ghost use Rattle.hs_types.specs.declared.graph.Graph.{Graph};
ghost use Rattle.hs_types.specs.declared.meta.Metamodel.{Metamodel};
ghost use Rattle.hs_types.specs.Metamodel.{IsMeta};
ghost use Rattle.hs_types.specs.TypedGraph.{IsOpening, IsTyped, hash_name};
ghost use Rattle.hs_graph.specs.Names.{hash_number};
ghost use Rattle.hs_graph.specs.Faults.{graph_faults};
ghost use Rattle.hs_graph.specs.Meaning.{graph_of};
ghost use Rattle.hs_graph.specs.Problems.{IsInside, is_in_itself};

use crate::raw::RawObject;
use hs_types::limits::{MAX_EDGES, MAX_NAME_NUMBER, MAX_OBJECTS};

/// Written objects without a fault denote a graph from which a journal begins.
pub fn graphs_are_opening()
    ensures opening { (m : Metamodel) (objects : List RawObject) → IsMeta m
        → graph_faults m objects ≡ [] → IsOpening m (graph_of m objects) }
    ensures typed { (m : Metamodel) (objects : List RawObject) → IsMeta m
        → graph_faults m objects ≡ [] → IsTyped m (graph_of m objects) }
{}

/// Such a graph keeps the limits.
pub fn graphs_are_small()
    ensures objects { (m : Metamodel) (objects : List RawObject) → graph_faults m objects ≡ []
        → length (graph_of m objects).objects ≤ MAX_OBJECTS }
    ensures edges { (m : Metamodel) (objects : List RawObject) → graph_faults m objects ≡ []
        → length (graph_of m objects).edges ≤ MAX_EDGES }
    ensures names { (m : Metamodel) (objects : List RawObject) → graph_faults m objects ≡ []
        → (graph_of m objects).next_name ≤ MAX_NAME_NUMBER + 1 }
{}

/// A name counts the number k exactly if it is `#k`.
pub fn hash_names_are_numbers()
    ensures number { (k : ℕ) → hash_number (hash_name k) ≡ Some k }
    ensures name { (name : List ℕ) (k : ℕ) → hash_number name ≡ Some k → name ≡ hash_name k }
{}

/// That an object of a typed graph contains itself, by counted steps, says exactly that it is
/// inside itself, by one step or more.
pub fn cycles_are_reached()
    ensures { (m : Metamodel) (g : Graph) (n : ℕ) → IsTyped m g
        → (is_in_itself m g n ≡ true) ↔ IsInside m g n n }
{}
