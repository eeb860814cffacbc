//! Faults of written objects, with their places and words.

ghost use Rattle.std.specs.Prelude.{◌≡◌};
ghost use Rattle.hs_graph.specs.Words.{graph_word};

/// What is wrong in written objects.
#[derive(Clone, Copy, PartialEq, Eq, Debug)]
pub enum GraphFaultKind {
    /// There are too many objects, or too many edges.
    Limit,
    /// The text can't name an object.
    Name,
    /// An earlier object has the name.
    Twice,
    UnknownClass,
    /// The class is abstract.
    Abstract,
    /// The object's class has no attribute of the name.
    UnknownAttribute,
    /// What is written isn't a value of the attribute's type, or is a text that is too long.
    BadValue,
    /// The object's class has no reference of the name.
    UnknownReference,
    /// No object has the name.
    UnknownTarget,
    /// The target's class doesn't conform to the one that the reference leads to.
    BadTarget,
}

impl GraphFaultKind {
    /// The word that the kind is printed as.
    pub fn word(self) -> &'static str
        ensures { result.now ≡ graph_word self }
    {
        match self {
            GraphFaultKind::Limit => "limit",
            GraphFaultKind::Name => "name",
            GraphFaultKind::Twice => "twice",
            GraphFaultKind::UnknownClass => "unknownclass",
            GraphFaultKind::Abstract => "abstract",
            GraphFaultKind::UnknownAttribute => "unknownattribute",
            GraphFaultKind::BadValue => "badvalue",
            GraphFaultKind::UnknownReference => "unknownreference",
            GraphFaultKind::UnknownTarget => "unknowntarget",
            GraphFaultKind::BadTarget => "badtarget",
        }
    }
}

/// Where a fault is. Objects go by their indices in what is written, and so do the attributes and
/// the references of one, and the targets of a reference.
#[derive(Clone, Copy, PartialEq, Eq, Debug)]
pub enum GraphPlace {
    Graph,
    Object {
        object: usize,
    },
    ObjectName {
        object: usize,
    },
    ObjectClass {
        object: usize,
    },
    Attr {
        object: usize,
        number: usize,
    },
    Ref {
        object: usize,
        number: usize,
    },
    Target {
        object: usize,
        number: usize,
        place: usize,
    },
}

/// Why written objects aren't a graph.
#[derive(Clone, Copy, PartialEq, Eq, Debug)]
pub struct GraphFault {
    pub place: GraphPlace,
    pub kind: GraphFaultKind,
}

pub fn fault(place: GraphPlace, kind: GraphFaultKind) -> GraphFault
    ensures { result ≡ record { place = place; kind = kind } }
{
    GraphFault { place, kind }
}
