//! Plans: what a rule application does.

ghost use Rattle.std.specs.Prelude.{◌≡◌, ◌<◌, ◌^◌, IfOk};
ghost use Rattle.hs_types.specs.Plan.{no_plan};
ghost use Rattle.hs_types.specs.TypedGraph.{hash_name};

use crate::name_room::NameRoom;
use crate::{ClassNo, EdgeNo, FeatureNo, Object, ObjectNo, Slot, SlotKind};
use hs_expr::{List, Value};
use std::alloc::{AllocError, Global};
use std::marker::Model;

/// An end of an edge that a plan makes: an object of the graph, or one that the plan makes, by its
/// place among them.
#[derive(Clone, Copy, PartialEq, Eq, Debug)]
pub enum End {
    Old(ObjectNo),
    New(u32),
}

/// A value that a plan writes into a slot of an object of the graph.
#[derive(Debug, Drop)]
pub struct Write {
    pub object: ObjectNo,
    pub slot: SlotKind,
    pub value: Value,
}

/// An object that a plan makes, with all its slots, and room for its name. Contracts see class and
/// slots.
#[derive(Debug, Drop)]
pub struct MadeObject {
    class: ClassNo,
    slots: List<Slot>,
    name: NameRoom,
}

impl Model for MadeObject {
    ghost use Rattle.hs_types.specs.Plan as spec;

    ghost Value = { spec.MadeObject };

    ghost view = { λ made. record { class = made.class; slots = made.slots } };
}

impl MadeObject {
    /// The object with these slots. It takes the room for its name.
    pub fn new(alloc: Global, class: ClassNo, slots: List<Slot>) -> Result<MadeObject, AllocError>
        ensures class { IfOk result (λ made. made.class ≡ class) }
        ensures slots { IfOk result (λ made. made.slots ≡ slots) }
    {
        Ok(MadeObject {
            class,
            slots,
            name: NameRoom::new(alloc)?,
        })
    }

    pub fn class(&self) -> ClassNo
        ensures { result ≡ self.now.class }
    {
        self.class
    }

    pub fn slots(&self) -> &[Slot]
        ensures { result.now ≡ self.now.slots }
    {
        self.slots.as_slice()
    }

    /// The object of the graph with this number and the name `#k`, without taking memory.
    pub(crate) fn numbered(self, number: ObjectNo, k: u64) -> Object
        requires { k < 10 ^ 10 }
        ensures number { result.number ≡ number }
        ensures name { result.name ≡ hash_name k }
        ensures class { result.class ≡ self.class }
        ensures slots { result.slots ≡ self.slots }
    {
        let MadeObject { class, slots, name } = self;
        Object {
            number,
            name: name.named(k),
            class,
            slots,
        }
    }
}

/// An edge that a plan makes.
#[derive(Clone, Copy, PartialEq, Eq, Debug)]
pub struct MadeEdge {
    pub source: End,
    pub reference: FeatureNo,
    pub target: End,
}

/// What a step does to a graph, the kernel's part first, then copy by copy, each in written order.
/// It names no new number and no new name: the step draws them. Contracts see it as the plain
/// record `Plan` of the definitions.
#[derive(Debug, Drop)]
pub struct Plan {
    pub drop_objects: List<ObjectNo>,
    pub drop_edges: List<EdgeNo>,
    pub writes: List<Write>,
    pub make_objects: List<MadeObject>,
    pub make_edges: List<MadeEdge>,
}

impl Model for Plan {
    ghost use Rattle.hs_types.specs.Plan as spec;

    ghost Value = { spec.Plan };

    ghost view = { λ plan. record {
      drop_objects = plan.drop_objects;
      drop_edges = plan.drop_edges;
      writes = plan.writes;
      make_objects = plan.make_objects;
      make_edges = plan.make_edges;
    } };
}

impl Plan {
    /// The plan that does nothing.
    pub fn new(alloc: Global) -> Plan
        ensures { result ≡ no_plan }
    {
        Plan {
            drop_objects: List::new(alloc),
            drop_edges: List::new(alloc),
            writes: List::new(alloc),
            make_objects: List::new(alloc),
            make_edges: List::new(alloc),
        }
    }
}
