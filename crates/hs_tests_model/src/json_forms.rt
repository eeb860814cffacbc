//! Forms of JSON values.

use hs_expr::{Failure, List, Text};
use hs_json_form::{
    Path, Step, at_key, integer_at, integer_of, list_at, list_of, member_at, members_at,
    members_of, only_known, text_at, text_of, truth_at, truth_of,
};
use serde_json::Value;
use std::alloc::{AllocError, Global};

/// Whether the failure is the fault at this path.
fn is_at(alloc: Global, failure: &Failure<Path>, path: &str) -> Result<bool, AllocError> {
    match failure {
        Failure::Fault(found) => Ok(found.text(alloc)?.as_str() == path),
        Failure::NoMemory => Ok(false),
    }
}

/// What a reader gives: a value, or the path of a fault.
fn answers<T: Drop>(
    alloc: Global,
    read: Result<T, Failure<Path>>,
    path: &str,
) -> Result<bool, AllocError> {
    match read {
        Ok(_) => Ok(false),
        Err(failure) => is_at(alloc, &failure, path),
    }
}

fn json(alloc: Global, text: &str) -> Value {
    match Value::from_str(alloc, text) {
        Ok(value) => value,
        Err(_) => Value::Null,
    }
}

/// An object that knows `name` and `number`; its number.
fn number_of(alloc: Global, value: &Value) -> Result<i64, Failure<Path>> {
    only_known(alloc, value, &["name", "number"])?;
    let name = member_at(alloc, value, "name")?;
    text_at(alloc, "name", name)?;
    integer_at(alloc, value, "number", 7)
}

fn numbers_of(alloc: Global, value: &Value) -> Result<List<i64>, Failure<Path>> {
    list_of(
        alloc,
        value,
        &|item: &Value| -> Result<i64, Failure<Path>> { number_of(alloc, item) },
    )
}

fn read_numbers(alloc: Global, text: &str) -> Result<Option<List<i64>>, AllocError> {
    match numbers_of(alloc, &json(alloc, text)) {
        Ok(numbers) => Ok(Some(numbers)),
        Err(_) => Ok(None),
    }
}

fn tells_of_numbers(alloc: Global, text: &str, path: &str) -> Result<bool, AllocError> {
    answers(alloc, numbers_of(alloc, &json(alloc, text)), path)
}

#[test]
fn each_item_is_read(rt: HostRuntime) -> Result<(), AllocError> {
    let text = r#"[{"name":"a","number":-3},{"name":"b"}]"#;
    let is_read = match read_numbers(rt.alloc(), text)? {
        Some(numbers) => numbers.as_slice() == [-3, 7].as_slice(),
        None => false,
    };
    assert!(rt; is_read);
    Ok(())
}

#[test]
fn the_first_fault_has_its_path(rt: HostRuntime) -> Result<(), AllocError> {
    for (text, path) in [
        ("{}", "/"),
        ("[7]", "/0"),
        (r#"[{"name":"a"},{"zz":1,"b":2}]"#, "/1/b"),
        (r#"[{"number":1}]"#, "/0/name"),
        (r#"[{"name":1,"number":true}]"#, "/0/name"),
        (r#"[{"name":"a","number":true}]"#, "/0/number"),
        (r#"[{"name":"a","number":1.0},{}]"#, "/0/number"),
    ] {
        assert!(rt; tells_of_numbers(rt.alloc(), text, path)?, "{text}");
    }
    Ok(())
}

#[test]
fn the_whole_is_a_slash(rt: HostRuntime) -> Result<(), AllocError> {
    assert!(rt; Path::new(rt.alloc()).text(rt.alloc())?.as_str() == "/");
    let place = Path::new(rt.alloc()).within(Step::Place(12))?;
    let key = Step::Key(Text::from_str(rt.alloc(), "a/b")?);
    assert!(rt; place.within(key)?.text(rt.alloc())?.as_str() == "/a/b/12");
    Ok(())
}

#[test]
fn scalars_are_read(rt: HostRuntime) -> Result<(), AllocError> {
    let alloc = rt.alloc();
    assert!(rt; truth_of(alloc, &json(alloc, "true")).is_ok_and(|truth| truth));
    assert!(rt;
        integer_of(alloc, &json(alloc, "9223372036854775807")).is_ok_and(|n| n == i64::MAX)
    );
    assert!(rt; answers(alloc, integer_of(alloc, &json(alloc, "-0")), "/")?);
    assert!(rt; answers(alloc, truth_of(alloc, &json(alloc, "1")), "/")?);
    assert!(rt; answers(alloc, text_of(alloc, &json(alloc, "null")), "/")?);
    Ok(())
}

/// The flags, the numbers and the switch of an object, each of which may be left out.
fn parts_of(alloc: Global, value: &Value) -> Result<(List<bool>, List<i64>, bool), Failure<Path>> {
    let flags = members_at(
        alloc,
        value,
        "flags",
        &|key: &str, flag: &Value| -> Result<bool, Failure<Path>> { truth_of(alloc, flag) },
    )?;
    let numbers = list_at(
        alloc,
        value,
        "numbers",
        &|number: &Value| -> Result<i64, Failure<Path>> { integer_of(alloc, number) },
    )?;
    let switch = truth_at(alloc, value, "on")?;
    Ok((flags, numbers, switch))
}

/// Whether the parts that are read are these.
fn are_parts(
    alloc: Global,
    text: &str,
    flags: &[bool],
    numbers: &[i64],
    switch: bool,
) -> Result<bool, AllocError> {
    Ok(match parts_of(alloc, &json(alloc, text)) {
        Ok(parts) => {
            parts.0.as_slice() == flags && parts.1.as_slice() == numbers && parts.2 == switch
        }
        Err(_) => false,
    })
}

#[test]
fn what_is_left_out_has_its_default(rt: HostRuntime) -> Result<(), AllocError> {
    assert!(rt; are_parts(rt.alloc(), "{}", &[], &[], false)?);
    let text = r#"{"on":true,"numbers":[2,1],"flags":{"b":false,"a":true}}"#;
    assert!(rt; are_parts(rt.alloc(), text, &[true, false], &[2, 1], true)?);
    Ok(())
}

#[test]
fn members_are_told_by_their_keys(rt: HostRuntime) -> Result<(), AllocError> {
    for (text, path) in [
        (r#"{"flags":[]}"#, "/flags"),
        (r#"{"flags":{"b":1,"c":2,"a":true}}"#, "/flags/b"),
        (r#"{"numbers":[1,"x"]}"#, "/numbers/1"),
        (r#"{"on":0}"#, "/on"),
    ] {
        let alloc = rt.alloc();
        let read = parts_of(alloc, &json(alloc, text));
        assert!(rt; answers(alloc, read, path)?, "{text}");
    }
    Ok(())
}

#[test]
fn a_reader_within_a_reader_is_told_from_outside(rt: HostRuntime) -> Result<(), AllocError> {
    let alloc = rt.alloc();
    let read = members_of(
        alloc,
        &json(alloc, r#"{"k":[{"name":"a"},{"name":0}]}"#),
        &|key: &str, value: &Value| -> Result<List<i64>, Failure<Path>> {
            numbers_of(alloc, value)
        },
    );
    assert!(rt; answers(alloc, at_key(alloc, "outer", read), "/outer/k/1/name")?);
    Ok(())
}
