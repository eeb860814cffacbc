//! Answers with a fault, or out of memory.

ghost use Rattle.std.specs.Prelude.{◌≡◌, IfOk, Result};
ghost use Rattle.std.specs.Result.{result_ok};
ghost use Rattle.hs_expr.specs.declared.failure.Failure.TheVariants.{NoMemory};
ghost use Rattle.hs_expr.specs.Steps as spec;

use std::alloc::{AllocError, AllocFailed};

/// Why a call that reads or checks gives no value.
#[derive(Clone, PartialEq, Eq, Debug, Drop)]
pub enum Failure<F> {
    /// What it was given has this fault.
    Fault(F),
    /// Out of memory.
    NoMemory,
}

impl<F> From<AllocError> for Failure<F> {
    ghost from_gives = { λ _ e. e ≡ NoMemory };

    fn from(_: AllocError) -> Failure<F> {
        Failure::NoMemory
    }
}

impl<F, T: Drop> From<AllocFailed<T>> for Failure<F> {
    ghost from_gives = { λ _ e. e ≡ NoMemory };

    fn from(_: AllocFailed<T>) -> Failure<F> {
        Failure::NoMemory
    }
}

/// Goes on where the test is true; else there is this fault.
pub fn demand<F: Drop>(test: bool, fault: F) -> Result<(), Failure<F>>
    ensures { spec.Gives result (spec.demand test fault) }
{
    if test {
        Ok(())
    } else {
        Err(Failure::Fault(fault))
    }
}

/// Goes on with the value, where there is one; else there is this fault.
pub fn needed<T: Drop, F: Drop>(value: Option<T>, fault: F) -> Result<T, Failure<F>>
    ensures { spec.Gives result (spec.needed value fault) }
{
    match value {
        Some(value) => Ok(value),
        None => Err(Failure::Fault(fault)),
    }
}

/// The same answer, its fault as one of a wider type.
pub fn fault_as<T: Drop, F: Drop, G: Drop, W: Fn(F) -> G>(
    answer: Result<T, Failure<F>>,
    wrap: &W,
) -> Result<T, Failure<G>>
    requires { W.IsAlwaysCallable wrap.now }
    ensures { (wide : F → G)
        → ((fault : F) (made : G) → W.post wrap.now fault made → made ≡ wide fault)
        → result ≡ spec.failing_as wide answer }
{
    match answer {
        Ok(value) => Ok(value),
        Err(Failure::Fault(fault)) => Err(Failure::Fault(wrap(fault))),
        Err(Failure::NoMemory) => Err(Failure::NoMemory),
    }
}

/// The same answer of a call that takes no memory, as one of a call that may.
pub fn as_failure<T: Drop, F: Drop>(answer: Result<T, F>) -> Result<T, Failure<F>>
    ensures { spec.Gives result answer }
{
    match answer {
        Ok(value) => Ok(value),
        Err(fault) => Err(Failure::Fault(fault)),
    }
}

/// The value, or none where there is a fault.
pub fn value_of<T: Drop, F: Drop>(answer: Result<T, Failure<F>>) -> Result<Option<T>, AllocError>
    ensures { (meant : Result T F) → spec.Gives answer meant
        → IfOk result (λ value. value ≡ result_ok meant) }
{
    match answer {
        Ok(value) => Ok(Some(value)),
        Err(Failure::Fault(_)) => Ok(None),
        Err(Failure::NoMemory) => Err(AllocError),
    }
}
