//! Matches and arguments.

ghost use Rattle.std.proofs.Common.{rules};

use crate::{EdgeNo, ObjectNo};
use hs_expr::{Exact, List, Plain};

/// The images of a part's or a multi-rule's own left nodes and left edges, in written order.
#[derive(Clone, PartialEq, Eq, Debug, Drop)]
pub struct Extension {
    pub nodes: List<ObjectNo>,
    pub edges: List<EdgeNo>,
}

/// The images of a rule's left nodes and left edges, in written order, and for each multi-rule the
/// extensions that are its copies.
#[derive(Clone, PartialEq, Eq, Debug, Drop)]
pub struct Match {
    pub nodes: List<ObjectNo>,
    pub edges: List<EdgeNo>,
    pub copies: List<List<Extension>>,
}

impl Plain for Extension {
    ghost copies = { Prim.search rules };
}

impl Exact for Extension {
    ghost equals = { Prim.search rules };
}

impl Plain for Match {
    ghost copies = { Prim.search rules };
}
