//! Values as lines of JSON.

ghost use Rattle.std.specs.Prelude.{◌≡◌, ◌++◌, OnOk, false, string_bytes};
ghost use Rattle.serde_json.specs.View.{view};
ghost use Rattle.serde_json.specs.Written.{has_float};
ghost use Rattle.hs_json_model.specs.Written.{line_of};

use serde_json::Value;
use std::alloc::{AllocError, Global};

/// Adds a value's compact text and the end of its line.
pub fn add_line(alloc: Global, text: &mut String, value: &Value) -> Result<(), AllocError>
    requires { has_float (view value.now) ≡ false }
    ensures { OnOk result
        (string_bytes text.new ≡ string_bytes text.old ++ line_of (view value.now)) }
{
    let line = value.to_string(alloc)?;
    text.push_str(line.as_str())?;
    text.push('\n')
}
