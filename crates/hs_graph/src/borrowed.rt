//! Texts and values that are borrowed, which contracts see as texts and values.

ghost use Rattle.std.specs.Prelude.{◌≡◌, IfOk};
ghost use Rattle.hs_types.specs.Metamodel.{is_of_type};
ghost use Rattle.hs_graph.specs.Borrowed.{value_of_scalar};
ghost use Rattle.hs_graph.specs.Faults as spec;

use hs_expr::{Text, Value};
use hs_types::DataType;
use hs_types::limits::MAX_TEXT_BYTES;
use std::alloc::{AllocError, Global};
use std::marker::Model;

/// A borrowed text. Contracts see it as its bytes in UTF-8.
#[derive(Debug, Drop)]
pub struct TextRef<'a> {
    text: &'a str,
}

impl<'a> Model for TextRef<'a> {
    ghost use Rattle.std.specs.Prelude.{List, ℕ};

    ghost Value = { List ℕ };

    ghost view = { λ borrowed. borrowed.text.now };
}

impl<'a> TextRef<'a> {
    pub fn new(text: &'a str) -> TextRef<'a>
        ensures { result ≡ text.now }
    {
        TextRef { text }
    }

    pub fn as_str(&self) -> &'a str
        ensures { result.now ≡ self.now }
    {
        self.text
    }

    pub fn to_text(&self, alloc: Global) -> Result<Text, AllocError>
        ensures { IfOk result (λ text. text ≡ self.now) }
    {
        Text::from_str(alloc, self.text)
    }
}

/// What a borrowed value is.
#[derive(Clone, Copy, Debug, Drop)]
pub enum Scalar<'a> {
    Int(i64),
    Bool(bool),
    Text(&'a str),
}

/// A value whose text is borrowed. Contracts see it as the value.
#[derive(Debug, Drop)]
pub struct ValueRef<'a> {
    scalar: Scalar<'a>,
}

impl<'a> Model for ValueRef<'a> {
    ghost use Rattle.hs_expr.specs.declared.value.Value.{Value as Datum};
    ghost use Rattle.hs_graph.specs.Borrowed.{value_of_scalar};

    ghost Value = { Datum };

    ghost view = { λ borrowed. value_of_scalar borrowed.scalar };
}

impl<'a> ValueRef<'a> {
    pub fn new(scalar: Scalar<'a>) -> ValueRef<'a>
        ensures { result ≡ value_of_scalar scalar.entry }
    {
        ValueRef { scalar }
    }

    pub fn to_value(&self, alloc: Global) -> Result<Value, AllocError>
        ensures { IfOk result (λ value. value ≡ self.now) }
    {
        Ok(match self.scalar {
            Scalar::Int(number) => Value::Int(number),
            Scalar::Bool(truth) => Value::Bool(truth),
            Scalar::Text(text) => Value::Text(Text::from_str(alloc, text)?),
        })
    }

    /// Whether the value is of this type.
    pub fn is_of_type(&self, data_type: DataType) -> bool
        ensures { result ≡ is_of_type data_type self.now }
    {
        match self.scalar {
            Scalar::Int(number) => data_type.has(&Value::Int(number)),
            Scalar::Bool(truth) => data_type.has(&Value::Bool(truth)),
            Scalar::Text(_) => matches!(data_type, DataType::EString),
        }
    }

    /// Whether it isn't a text of too many bytes.
    pub fn is_short(&self) -> bool
        ensures { result ≡ spec.is_short self.now }
    {
        match self.scalar {
            Scalar::Text(text) => text.len() <= MAX_TEXT_BYTES,
            Scalar::Int(_) | Scalar::Bool(_) => true,
        }
    }
}
