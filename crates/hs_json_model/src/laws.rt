//! What is true of the models that JSON values are.

ghost use Rattle.std.specs.Prelude.{◌≡◌, [], Ok, Some, codes, option_and_then};
ghost use Rattle.serde_json.specs.Data.{Data};
ghost use Rattle.serde_json.specs.Find.{get};
ghost use Rattle.serde_json.specs.Read.{read};
ghost use Rattle.serde_json.specs.Written.{compact_text};
ghost use Rattle.hs_types.specs.declared.graph.Graph.{Graph};
ghost use Rattle.hs_types.specs.declared.meta.Metamodel.{Metamodel};
ghost use Rattle.hs_types.specs.Limits.{IsSmallMeta};
ghost use Rattle.hs_types.specs.Metamodel.{IsMeta};
ghost use Rattle.hs_types.specs.TypedGraph.{IsOpening, IsTyped};
ghost use Rattle.hs_graph.specs.Meaning.{graph_of};
ghost use Rattle.hs_json_model.specs.Graph.{graph_at};
ghost use Rattle.hs_json_model.specs.Meta.{meta_at};
ghost use Rattle.hs_json_model.specs.Renumbered.{IsWritable, graph_by_place};
ghost use Rattle.hs_json_model.specs.Sound.{IsSound};
ghost use Rattle.hs_json_model.specs.Written.{graph_data, objects_data};

use hs_graph::laws::{graphs_are_opening, graphs_are_small, hash_names_are_numbers};
use hs_meta::laws::metamodels_are_denoted;

/// The metamodel that a value is keeps the limits, and a graph over such a metamodel that a value
/// is begins a journal, and keeps the limits too.
pub fn models_are_sound()
    ensures whole { (d : Data) (m : Metamodel) → meta_at d ≡ Ok m → IsMeta m }
    ensures small { (d : Data) (m : Metamodel) → meta_at d ≡ Ok m → IsSmallMeta m }
    ensures empty { (m : Metamodel) → IsMeta m → IsSmallMeta m → IsSound m (graph_of m []) }
    ensures graph { (m : Metamodel) (d : Data) (g : Graph) → IsMeta m → IsSmallMeta m
        → graph_at m d ≡ Ok g → IsSound m g }
{
    metamodels_are_denoted();
    graphs_are_opening();
    graphs_are_small();
}

/// A typed graph that can be written is read back from what it is written as: the same objects and
/// the same edges, numbered by their places. The text that [`write_graph`](crate::write_graph)
/// gives has, at the key `graph`, what it is written as. A graph from which a journal begins is
/// numbered so already.
pub fn graphs_are_read_back()
    ensures numbered { (m : Metamodel) (g : Graph) → IsMeta m → IsTyped m g → IsWritable g
        → graph_at m (objects_data m g) ≡ Ok (graph_by_place m g) }
    ensures text { (m : Metamodel) (g : Graph) → IsTyped m g
        → option_and_then (get (codes "graph")) (read (compact_text (graph_data m g)))
        ≡ Some (objects_data m g) }
    ensures itself { (m : Metamodel) (g : Graph) → IsMeta m → IsOpening m g
        → graph_by_place m g ≡ g }
{
    hash_names_are_numbers();
}
