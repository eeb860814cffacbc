//! Values whose texts are lent.

ghost use Rattle.std.specs.Prelude.{◌≡◌, IfOk};
ghost use Rattle.hs_eval.specs.ValueRefs.{referent};

use hs_expr::{Text, Value};
use std::alloc::{AllocError, Global};

/// A value whose text is lent.
#[derive(Clone, Copy, PartialEq, Eq, Debug)]
pub enum ValueRef<'a> {
    Int(i64),
    Bool(bool),
    Text(&'a str),
}

impl<'a> ValueRef<'a> {
    /// The value, with its text lent.
    pub fn of(value: &'a Value) -> ValueRef<'a>
        ensures { referent result ≡ value.now }
    {
        match value {
            Value::Int(number) => ValueRef::Int(*number),
            Value::Bool(truth) => ValueRef::Bool(*truth),
            Value::Text(text) => ValueRef::Text(text.as_str()),
        }
    }

    /// The value, with a text of its own.
    pub fn to_value(self, alloc: Global) -> Result<Value, AllocError>
        ensures { IfOk result (λ value. value ≡ referent self.entry) }
    {
        match self {
            ValueRef::Int(number) => Ok(Value::Int(number)),
            ValueRef::Bool(truth) => Ok(Value::Bool(truth)),
            ValueRef::Text(text) => Ok(Value::Text(Text::from_str(alloc, text)?)),
        }
    }
}
