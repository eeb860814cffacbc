//! A typed graph kept as plain lists.

ghost use Rattle.std.specs.Prelude.{◌≡◌, ◌+◌, ◌≤◌, IfOk, OnOk, OnErr, IsOk, length, vec_len, vec_capacity};
ghost use Rattle.std.specs.Arc.{arc_value};
ghost use Rattle.hs_types.specs.Host.{CanInstall, HasNearNames};
ghost use Rattle.hs_types.specs.Step.{step};
ghost use Rattle.hs_types.specs.TypedGraph.{IsTyped};

use crate::stepping::{step_edges, step_objects};
use crate::{Edge, Graph, Meta, Object, Plan};
use hs_expr::Plain;
use std::alloc::AllocError;
use std::marker::Model;
use std::mem;
use std::sync::Arc;

/// A typed graph with its metamodel, kept as plain lists with room at their ends. Look-ups walk
/// along the lists; a step walks along them once. Contracts see it as the plain `RoomyGraph`.
#[derive(Debug, Drop)]
pub struct ListGraph {
    meta: Arc<Meta>,
    objects: Vec<Object>,
    edges: Vec<Edge>,
    next_object: u64,
    next_edge: u64,
    next_name: u64,
    spare_objects: usize,
    spare_edges: usize,
}

impl Model for ListGraph {
    ghost use Rattle.std.specs.Prelude.{◌+◌, ◌≤◌, vec_len, vec_capacity};
    ghost use Rattle.std.specs.Arc.{arc_value};
    ghost use Rattle.hs_types.specs.declared.limits.TheConstants.{MAX_NAME_NUMBER};
    ghost use Rattle.hs_types.specs.Host.{RoomyGraph};
    ghost use Rattle.hs_types.specs.TypedGraph.{IsTyped};

    ghost Value = { RoomyGraph };

    ghost view = { λ host. record {
      meta = arc_value host.meta;
      graph = record {
        objects = host.objects.items;
        edges = host.edges.items;
        next_object = host.next_object;
        next_edge = host.next_edge;
        next_name = host.next_name;
      };
      spare_objects = host.spare_objects;
      spare_edges = host.spare_edges;
    } };

    ghost invariant = { λ host. IsTyped (arc_value host.meta) (record {
      objects = host.objects.items;
      edges = host.edges.items;
      next_object = host.next_object;
      next_edge = host.next_edge;
      next_name = host.next_name;
    })
        × (host.next_name ≤ host.next_object + (MAX_NAME_NUMBER + 1))
        × (vec_len host.objects + host.spare_objects ≤ vec_capacity host.objects)
        × (vec_len host.edges + host.spare_edges ≤ vec_capacity host.edges) };
}

impl ListGraph {
    /// The graph over this metamodel, with no room kept.
    pub fn new(meta: Arc<Meta>, graph: Graph) -> ListGraph
        requires typed { IsTyped (arc_value meta) graph }
        requires names { HasNearNames graph }
        ensures meta { result.meta ≡ arc_value meta }
        ensures graph { result.graph ≡ graph }
    {
        let Graph {
            objects,
            edges,
            next_object,
            next_edge,
            next_name,
        } = graph;
        ListGraph {
            meta,
            objects: objects.into_vec(),
            edges: edges.into_vec(),
            next_object,
            next_edge,
            next_name,
            spare_objects: 0,
            spare_edges: 0,
        }
    }

    /// The metamodel, which no call changes. The graph is typed over it.
    pub fn meta(&self) -> &Arc<Meta>
        ensures value { arc_value result.now ≡ self.now.meta }
        ensures typed { IsTyped self.now.meta self.now.graph }
        ensures names { HasNearNames self.now.graph }
    {
        &self.meta
    }

    /// The objects, in the order of their numbers.
    pub fn objects(&self) -> &[Object]
        ensures { result.now ≡ self.now.graph.objects }
    {
        self.objects.as_slice()
    }

    /// The edges, in the order of their numbers.
    pub fn edges(&self) -> &[Edge]
        ensures { result.now ≡ self.now.graph.edges }
    {
        self.edges.as_slice()
    }

    /// The number that the next new object gets.
    pub fn next_object(&self) -> u64
        ensures { result ≡ self.now.graph.next_object }
    {
        self.next_object
    }

    /// The number that the next new edge gets.
    pub fn next_edge(&self) -> u64
        ensures { result ≡ self.now.graph.next_edge }
    {
        self.next_edge
    }

    /// The k of the next new object's name `#k`.
    pub fn next_name(&self) -> u64
        ensures { result ≡ self.now.graph.next_name }
    {
        self.next_name
    }

    /// The same graph again, with no room kept.
    pub fn copy(&self) -> Result<ListGraph, AllocError>
        ensures meta { IfOk result (λ copy. copy.meta ≡ self.now.meta) }
        ensures graph { IfOk result (λ copy. copy.graph ≡ self.now.graph) }
    {
        Ok(ListGraph {
            meta: Arc::try_clone(&self.meta)?,
            objects: copied(&self.objects)?,
            edges: copied(&self.edges)?,
            next_object: self.next_object,
            next_edge: self.next_edge,
            next_name: self.next_name,
            spare_objects: 0,
            spare_edges: 0,
        })
    }

    /// Takes room for what the plan makes, beside the room that is kept already.
    pub fn reserve(&mut self, plan: &Plan) -> Result<(), AllocError>
        ensures meta { self.new.meta ≡ self.old.meta }
        ensures graph { self.new.graph ≡ self.old.graph }
        ensures objects { OnOk result
            (self.new.spare_objects ≡ self.old.spare_objects + length plan.now.make_objects) }
        ensures edges { OnOk result
            (self.new.spare_edges ≡ self.old.spare_edges + length plan.now.make_edges) }
        ensures err { OnErr result (self.new ≡ self.old) }
    {
        let objects = more_room(
            &mut self.objects,
            self.spare_objects,
            plan.make_objects.len(),
        )?;
        let edges = more_room(&mut self.edges, self.spare_edges, plan.make_edges.len())?;
        self.spare_objects = objects;
        self.spare_edges = edges;
        Ok(())
    }

    /// Carries the plan out: new objects and edges get the next numbers, new objects the next
    /// names. After `Ok` the plan is spent; after an error all is as it was. Where the spare
    /// numbers cover the plan it is `Ok`.
    pub fn install(&mut self, plan: &mut Plan) -> Result<(), AllocError>
        requires { CanInstall self.old.meta self.old.graph plan.old }
        ensures meta { self.new.meta ≡ self.old.meta }
        ensures ok { OnOk result (self.new.graph ≡ step self.old.graph plan.old) }
        ensures objects { OnOk result
            (self.old.spare_objects ≤ self.new.spare_objects + length plan.old.make_objects) }
        ensures edges { OnOk result
            (self.old.spare_edges ≤ self.new.spare_edges + length plan.old.make_edges) }
        ensures err { OnErr result ((self.new ≡ self.old) × (plan.new ≡ plan.old)) }
        ensures room { length plan.old.make_objects ≤ self.old.spare_objects
            → length plan.old.make_edges ≤ self.old.spare_edges → IsOk result }
    {
        self.meta.is_metamodel();
        let objects = plan.make_objects.len();
        let edges = plan.make_edges.len();
        self.objects.reserve(objects)?;
        self.edges.reserve(edges)?;
        let alloc = *self.objects.allocator();
        let Plan {
            drop_objects,
            drop_edges,
            writes,
            make_objects,
            make_edges,
        } = mem::replace(plan, Plan::new(alloc));
        step_objects(
            &mut self.objects,
            drop_objects.into_vec(),
            writes.into_vec(),
            self.next_object,
            self.next_name,
            make_objects.into_vec(),
        );
        step_edges(
            &mut self.edges,
            drop_edges.into_vec(),
            self.next_object,
            self.next_edge,
            make_edges.as_slice(),
        );
        self.next_object += objects as u64;
        self.next_edge += edges as u64;
        self.next_name += objects as u64;
        self.spare_objects = self.spare_objects.saturating_sub(objects);
        self.spare_edges = self.spare_edges.saturating_sub(edges);
        Ok(())
    }
}

/// The same items again.
fn copied<T: Plain>(items: &Vec<T>) -> Result<Vec<T>, AllocError>
    ensures { IfOk result (λ copy. copy.items ≡ items.now.items) }
{
    items.clone()
}

/// Takes room for more items, beside those that have room already. The answer is how many have
/// room then.
fn more_room<T>(items: &mut Vec<T>, spare: usize, more: usize) -> Result<usize, AllocError>
    ensures ok { IfOk result (λ spared.
        (spared ≡ spare + more) × (vec_len items.new + spared ≤ vec_capacity items.new)) }
    ensures items { items.new.items ≡ items.old.items }
    ensures len { vec_len items.new ≡ vec_len items.old }
    ensures capacity { vec_capacity items.old ≤ vec_capacity items.new }
{
    let Some(spared) = spare.checked_add(more) else {
        return Err(AllocError);
    };
    items.reserve(spared)?;
    Ok(spared)
}
