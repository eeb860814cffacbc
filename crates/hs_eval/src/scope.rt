//! What names denote.

ghost use Rattle.std.specs.Prelude.{◌≡◌};
ghost use Rattle.hs_eval.specs.Checking as checking;

use hs_expr::Kind;

/// What the names of an expression denote.
pub trait Scope {
    ghost use Rattle.hs_eval.specs.Checking as checking;

    /// What each name denotes.
    ghost names: { Self → checking.Names };

    /// The number and the kind of the data parameter of this name.
    fn param(&self, name: &str) -> Option<(u16, Kind)>
        ensures { result ≡ checking.Names.param (names self.now) name.now };

    /// The number of the node of this name, and whether it is on the left side.
    fn node(&self, name: &str) -> Option<(u16, bool)>
        ensures { result ≡ checking.Names.node (names self.now) name.now };

    /// The number and the kind of the attribute of this name, of the node of that name.
    fn attribute(&self, node: &str, name: &str) -> Option<(u16, Kind)>
        ensures { result ≡ checking.Names.attribute (names self.now) node.now name.now };
}
