//! Faults that become others, where that may run out of memory.

ghost use Rattle.std.specs.Prelude.{◌≡◌, IfOk, Result};
ghost use Rattle.hs_expr.specs.Steps.{Gives};
ghost use Rattle.hs_expr.specs.Steps as spec;

use hs_expr::Failure;
use std::alloc::AllocError;

/// The same answer, its fault as `wrap` makes it.
pub fn fault_with<T: Drop, F: Drop, G: Drop, W: Fn(F) -> Result<G, AllocError>>(
    answer: Result<T, Failure<F>>,
    wrap: &W,
) -> Result<T, Failure<G>>
    requires { W.IsAlwaysCallable wrap.now }
    ensures { (wide : F → G) (meant : Result T F) → Gives answer meant
        → ((fault : F) (made : _) → W.post wrap.now fault made → IfOk made (λ g. g ≡ wide fault))
        → Gives result (spec.fault_as wide meant) }
{
    match answer {
        Ok(value) => Ok(value),
        Err(Failure::Fault(fault)) => Err(Failure::Fault(wrap(fault)?)),
        Err(Failure::NoMemory) => Err(Failure::NoMemory),
    }
}
