//! What an expression reads.

ghost use Rattle.std.specs.Prelude.{◌≡◌, option_copied};
ghost use Rattle.hs_expr.specs.Evaluation as evaluation;

use hs_expr::Value;

/// What an expression reads: the values of slots and of data parameters.
pub trait Env {
    ghost use Rattle.hs_expr.specs.Evaluation as evaluation;

    /// What is read, by number.
    ghost reads: { Self → evaluation.Env };

    /// The value of the slot of this node and this attribute, by their numbers.
    fn slot(&self, node: u16, attribute: u16) -> Option<&Value>
        ensures { option_copied result ≡ evaluation.Env.slot (reads self.now) node attribute };

    /// The value of the parameter of this number.
    fn param(&self, number: u16) -> Option<&Value>
        ensures { option_copied result ≡ evaluation.Env.param (reads self.now) number };
}
