//! Names of objects, and the numbers that names like `#7` count.

ghost use Rattle.std.specs.Prelude.{◌≡◌, ◌+◌, Some, None, min, if◌then◌else◌};
ghost use Rattle.std.specs.List.{list_all};
ghost use Rattle.std.specs.Option.{option_map};
ghost use Rattle.hs_graph.specs.Names as spec;

use hs_types::limits::{MAX_NAME_BYTES, MAX_NAME_NUMBER};

/// One above the number k of a name `#k`, 0 of another name, and none of a text that can't name an
/// object.
pub fn next_after(name: &str) -> Option<u64>
    ensures { result ≡ (if spec.is_object_name name.now then Some (spec.next_after name.now)
        else None) }
{
    if name.is_empty() || name.len() > MAX_NAME_BYTES {
        return None;
    }
    match hash_number(name) {
        None => Some(0),
        Some(number) if number <= MAX_NAME_NUMBER => Some(number + 1),
        Some(_) => None,
    }
}

/// The number k of a name `#k`; all above the limit become one above it.
fn hash_number(name: &str) -> Option<u64>
    ensures { result ≡ option_map (min (MAX_NAME_NUMBER + 1)) (spec.hash_number name.now) }
{
    match name.as_bytes() {
        [b'#', digits @ ..] if is_decimal(digits) => Some(capped_number(digits)),
        _ => None,
    }
}

fn is_decimal(digits: &[u8]) -> bool
    ensures { result ≡ spec.is_decimal digits.now }
{
    match digits {
        [] | [b'0', _, ..] => false,
        _ => are_digits(digits),
    }
}

fn are_digits(bytes: &[u8]) -> bool
    ensures { result ≡ list_all spec.is_decimal_digit bytes.now }
{
    bytes.iter().all(|byte| is_decimal_digit(*byte))
}

fn is_decimal_digit(byte: u8) -> bool
    ensures { result ≡ spec.is_decimal_digit byte }
{
    matches!(byte, b'0'..=b'9')
}

/// The number that the digits write; all above the limit become one above it.
fn capped_number(digits: &[u8]) -> u64
    ensures { result ≡ min (MAX_NAME_NUMBER + 1) (spec.number_after 0 digits.now) }
{
    let mut number = 0;
    for digit in digits {
        number = capped(number * 10 + u64::from(digit.saturating_sub(b'0')));
    }
    number
}

fn capped(number: u64) -> u64
    ensures { result ≡ min (MAX_NAME_NUMBER + 1) number }
{
    if number <= MAX_NAME_NUMBER {
        number
    } else {
        MAX_NAME_NUMBER + 1
    }
}
