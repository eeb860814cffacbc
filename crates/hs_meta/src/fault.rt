//! Faults of written classes, with their places and words.

ghost use Rattle.std.specs.Prelude.{◌≡◌};
ghost use Rattle.hs_meta.specs.Words.{model_word};

/// What is wrong in a written metamodel.
#[derive(Clone, Copy, PartialEq, Eq, Debug)]
pub enum ModelFaultKind {
    /// A declared name isn't an identifier.
    Name,
    /// A class name is repeated, or a class has two features of one name.
    Twice,
    /// A supertype isn't a class.
    UnknownSuper,
    /// A class is its own supertype, by one step or more.
    SuperCycle,
    /// An attribute's type isn't a data type, or a reference's target isn't a class.
    UnknownType,
    /// A default isn't a value of its attribute's type.
    BadDefault,
    /// A reference has no room for a target, needs more than it has room for, or needs fewer than
    /// 0.
    BadBounds,
    /// There are too many classes, or a class has too many features.
    Limit,
}

impl ModelFaultKind {
    /// The word that the kind is printed as.
    pub fn word(self) -> &'static str
        ensures { result.now ≡ model_word self }
    {
        match self {
            ModelFaultKind::Name => "name",
            ModelFaultKind::Twice => "twice",
            ModelFaultKind::UnknownSuper => "unknownsuper",
            ModelFaultKind::SuperCycle => "supercycle",
            ModelFaultKind::UnknownType => "unknowntype",
            ModelFaultKind::BadDefault => "baddefault",
            ModelFaultKind::BadBounds => "badbounds",
            ModelFaultKind::Limit => "limit",
        }
    }
}

/// Where a fault is. Classes, and the supertypes, attributes and references of one, go by their
/// indices in what is written.
#[derive(Clone, Copy, PartialEq, Eq, Debug)]
pub enum ModelPlace {
    Classes,
    Class { class: usize },
    ClassName { class: usize },
    Super { class: usize, number: usize },
    AttributeName { class: usize, number: usize },
    AttributeType { class: usize, number: usize },
    AttributeDefault { class: usize, number: usize },
    Reference { class: usize, number: usize },
    ReferenceName { class: usize, number: usize },
    ReferenceTarget { class: usize, number: usize },
}

/// Why what is written isn't a metamodel.
#[derive(Clone, Copy, PartialEq, Eq, Debug)]
pub struct ModelFault {
    pub place: ModelPlace,
    pub kind: ModelFaultKind,
}

pub fn fault(place: ModelPlace, kind: ModelFaultKind) -> ModelFault
    ensures { result ≡ record { place = place; kind = kind } }
{
    ModelFault { place, kind }
}
