//! Room for the names of objects to come.

ghost use Rattle.std.specs.Prelude.{◌≡◌, ◌<◌, ◌^◌};
ghost use Rattle.hs_types.specs.TypedGraph.{hash_name};

use hs_expr::Text;
use itoa::Buffer;
use std::alloc::{AllocError, Global};
use std::marker::Model;

/// The bytes that `#` and ten digits take.
const NAME_BYTES: usize = 11;

/// Room for the name `#k` of an object that is still to be made.
#[derive(Debug, Drop)]
pub(crate) struct NameRoom {
    text: String,
}

impl Model for NameRoom {
    ghost use Rattle.std.specs.Prelude.{ℕ, ◌≡◌, ◌≤◌, [], string_bytes, string_len, string_capacity};

    ghost Value = { ℕ };

    ghost view = { λ name. 0 };

    ghost invariant = { λ name. (string_bytes name.text ≡ []) × (string_len name.text ≡ 0)
        × (11 ≤ string_capacity name.text) };
}

impl NameRoom {
    pub(crate) fn new(alloc: Global) -> Result<NameRoom, AllocError> {
        Ok(NameRoom {
            text: String::with_capacity(alloc, NAME_BYTES)?,
        })
    }

    /// The name `#k`, without taking memory.
    pub(crate) fn named(self, k: u64) -> Text
        requires { k < 10 ^ 10 }
        ensures { result ≡ hash_name k }
    {
        let NameRoom { mut text } = self;
        let mut digits = Buffer::new();
        text.push('#').unwrap();
        text.push_str(digits.format(k)).unwrap();
        Text::from_string(text)
    }
}
