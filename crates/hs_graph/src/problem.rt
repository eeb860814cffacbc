//! Problems of typed graphs.

use hs_types::{FeatureNo, ObjectNo};

/// What a graph may have that its metamodel would rather not.
#[derive(Clone, Copy, PartialEq, Eq, Debug)]
pub struct Problem {
    pub object: ObjectNo,
    pub kind: ProblemKind,
}

#[derive(Clone, Copy, PartialEq, Eq, Debug)]
pub enum ProblemKind {
    /// The object has fewer targets at the reference than it needs.
    Lower(FeatureNo),
    /// The object has more targets at the reference than there is room for.
    Upper(FeatureNo),
    /// More than one edge contains the object.
    Containers,
    /// The object contains itself, by one step or more.
    Cycle,
}
