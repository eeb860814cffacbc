//! The plain host.

use crate::lookup::{edge_beside, number_named, object_numbered, value_in};
use crate::{ClassNo, EdgeView, FeatureNo, Host, ListGraph, Meta, ObjectNo, Plan};
use hs_expr::Value;
use std::alloc::AllocError;

impl Host for ListGraph {
    ghost use Rattle.std.specs.Prelude.{true};

    ghost metamodel = { λ host. host.meta };

    ghost graph = { λ host. host.graph };

    ghost spare_objects = { λ host. host.spare_objects };

    ghost spare_edges = { λ host. host.spare_edges };

    ghost keeps_room = { true };

    fn meta(&self) -> &Meta {
        ListGraph::meta(self)
    }

    fn class_of(&self, object: ObjectNo) -> Option<ClassNo> {
        Some(object_numbered(self.objects(), object)?.class)
    }

    fn named(&self, name: &str) -> Option<ObjectNo> {
        number_named(self.objects(), name)
    }

    fn name_of(&self, object: ObjectNo) -> Option<&str> {
        Some(object_numbered(self.objects(), object)?.name.as_str())
    }

    fn slot(&self, object: ObjectNo, attribute: FeatureNo) -> Option<&Value> {
        let found = object_numbered(self.objects(), object)?;
        value_in(found.slots.as_slice(), attribute)
    }

    fn next_object(&self) -> u64 {
        ListGraph::next_object(self)
    }

    fn next_edge(&self) -> u64 {
        ListGraph::next_edge(self)
    }

    fn next_name(&self) -> u64 {
        ListGraph::next_name(self)
    }

    fn object_at(&self, place: usize) -> Option<ObjectNo> {
        Some(self.objects().get(place)?.number)
    }

    fn edge_at(&self, object: ObjectNo, place: usize) -> Option<EdgeView> {
        edge_beside(self.edges(), object, place)
    }

    fn copy(&self) -> Result<Self, AllocError> {
        ListGraph::copy(self)
    }

    fn reserve(&mut self, plan: &Plan) -> Result<(), AllocError> {
        ListGraph::reserve(self, plan)
    }

    fn install(&mut self, plan: &mut Plan) -> Result<(), AllocError> {
        ListGraph::install(self, plan)
    }
}
