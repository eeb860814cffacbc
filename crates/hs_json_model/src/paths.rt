//! Paths, from inside out.

ghost use Rattle.std.specs.Prelude.{◌≡◌, ◌∷◌, [], IfOk};
ghost use Rattle.hs_json_form.specs.declared.path.Step.TheVariants as step;

use hs_expr::Text;
use hs_json_form::{Path, Step};
use std::alloc::{AllocError, Global};

/// The path from the object that has it at this key.
pub fn keyed(alloc: Global, key: &str, inner: Path) -> Result<Path, AllocError>
    ensures { IfOk result (λ path. path ≡ step.Key key.now ∷ inner) }
{
    inner.within(Step::Key(Text::from_str(alloc, key)?))
}

/// The path from the list that has it at this place.
pub fn placed(place: usize, inner: Path) -> Result<Path, AllocError>
    ensures { IfOk result (λ path. path ≡ step.Place place ∷ inner) }
{
    inner.within(Step::Place(place))
}

/// The path of the value at this key.
pub fn named(alloc: Global, name: &str) -> Result<Path, AllocError>
    ensures { IfOk result (λ path. path ≡ step.Key name.now ∷ []) }
{
    keyed(alloc, name, Path::new(alloc))
}
