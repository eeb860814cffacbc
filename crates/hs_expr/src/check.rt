//! Checks over a list, up to the first fault.

ghost use Rattle.std.specs.Prelude.{◌≡◌, ℕ, List, Some, slice_get};
ghost use Rattle.hs_expr.specs.Verdict.{verdict, each, fault_if};

/// The first fault that `check` finds, item by item.
#[tactic(auto, using(crate::proofs::Verdicts::each_steps))]
pub fn check_each<T, E: Drop, F: Fn(usize, &T) -> Result<(), E>>(
    items: &[T],
    check: &F,
) -> Result<(), E>
    requires { (i : ℕ) (x : _) → slice_get items.now i ≡ Some x.now → F.pre check.now i x }
    ensures { (finds : ℕ → T → List E)
        → ((i : ℕ) (x : _) (r : _) → slice_get items.now i ≡ Some x.now → F.post check.now i x r
        → r ≡ verdict (finds i x.now))
        → result ≡ verdict (each finds items.now) }
{
    for (i, x) in items.iter().enumerate() {
        match check(i, x) {
            Ok(()) => {}
            Err(fault) => return Err(fault),
        }
    }
    Ok(())
}

/// The fault where the test is true.
pub fn fault_if<E: Drop>(test: bool, fault: E) -> Result<(), E>
    ensures { result ≡ verdict (fault_if test fault) }
{
    if test { Err(fault) } else { Ok(()) }
}
