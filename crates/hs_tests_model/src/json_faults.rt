//! Metamodels in JSON, and their faults.

use hs_expr::Failure;
use hs_json_model::{model_fault_text, read_meta};
use serde_json::Value;
use std::alloc::{AllocError, Global};

fn json(alloc: Global, text: &str) -> Value {
    match Value::from_str(alloc, text) {
        Ok(value) => value,
        Err(_) => Value::Null,
    }
}

/// Whether the metamodel is read, where no fault is named, or has the fault that is.
fn reads_meta(alloc: Global, meta: &str, fault: Option<&str>) -> Result<bool, AllocError> {
    match (read_meta(alloc, &json(alloc, meta)), fault) {
        (Ok(_), None) => Ok(true),
        (Err(Failure::Fault(found)), Some(fault)) => {
            Ok(model_fault_text(alloc, &found)?.as_str() == fault)
        }
        _ => Ok(false),
    }
}

#[test]
fn metamodels_are_read(rt: HostRuntime) -> Result<(), AllocError> {
    for meta in [
        r#"{"classes":[]}"#,
        r#"{"classes":[{"name":"A"}],"format":1}"#,
        r#"{"classes":[{"name":"A","abstract":true,"supers":[],"attributes":[{"name":"n","type":"EInt","default":-3}],"references":[{"name":"next","target":"A","containment":true,"lower":1,"upper":-1}]},{"name":"B","supers":["A"]}]}"#,
    ] {
        assert!(rt; reads_meta(rt.alloc(), meta, None)?, "{meta}");
    }
    Ok(())
}

#[test]
fn a_metamodel_s_first_fault_has_its_path(rt: HostRuntime) -> Result<(), AllocError> {
    for (meta, fault) in [
        ("[]", "/ form"),
        ("{}", "/classes form"),
        (r#"{"classes":[],"zz":1,"b":2}"#, "/b form"),
        (r#"{"classes":[{}],"format":2}"#, "/classes/0/name form"),
        (r#"{"classes":[],"format":2}"#, "/format form"),
        (
            r#"{"classes":[{"name":"A","attributes":[{"name":"n","type":"EInt","default":1.5}]}]}"#,
            "/classes/0/attributes/0/default form",
        ),
        (
            r#"{"classes":[{"name":"A","attributes":[{"name":"n","type":"EInt","default":null}]}]}"#,
            "/classes/0/attributes/0/default baddefault",
        ),
        (
            r#"{"classes":[{"name":"A","supers":["B"]},{"name":"B","supers":["A"]}]}"#,
            "/classes/0 supercycle",
        ),
        (
            r#"{"classes":[{"name":"A","supers":["B"]}]}"#,
            "/classes/0/supers/0 unknownsuper",
        ),
        (
            r#"{"classes":[{"name":"A"},{"name":"A"}]}"#,
            "/classes/1/name twice",
        ),
        (
            r#"{"classes":[{"name":"A","references":[{"name":"r","target":"A","lower":2}]}]}"#,
            "/classes/0/references/0 badbounds",
        ),
    ] {
        assert!(rt; reads_meta(rt.alloc(), meta, Some(fault))?, "{meta}");
    }
    Ok(())
}
