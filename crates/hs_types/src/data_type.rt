//! Data types of attributes.

ghost use Rattle.std.specs.Prelude.{◌≡◌};
ghost use Rattle.hs_types.specs.Metamodel.{is_of_type};

use crate::DataType;
use hs_expr::Value;

impl DataType {
    /// Whether the value is of this type.
    pub fn has(self, value: &Value) -> bool
        ensures { result ≡ is_of_type self value.now }
    {
        match (self, value) {
            (_, Value::Int(n)) => has_number(self, *n),
            (DataType::EBoolean, Value::Bool(_)) => true,
            (DataType::EString, Value::Text(_)) => true,
            _ => false,
        }
    }
}

fn has_number(data_type: DataType, n: i64) -> bool
    ensures { result ≡ is_of_type data_type (Value.Int n) }
{
    match data_type {
        DataType::EInt => i32::try_from(n).is_ok(),
        DataType::ELong => true,
        DataType::EBoolean | DataType::EString => false,
    }
}
