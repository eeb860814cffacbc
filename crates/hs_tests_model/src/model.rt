//! Metamodels and graphs of JSON texts, for tests.

use hs_json::read_bundle;
use hs_json_model::read_meta;
use hs_types::{ListGraph, Meta};
use serde_json::Value;
use std::alloc::Global;

/// `Client` and `Account` below the abstract `Named`, which has `name` and `link` to anything. A
/// client
/// holds `accounts`; an account has `balance`, `total`, `open` and an `owner`.
#[cfg(test)]
pub const BANK: &str =
    r#"{"classes":[{"name":"Named","abstract":true,"attributes":[{"name":"name","type":"EString","default":"?"}],"references":[{"name":"link","target":"Named","upper":-1}]},{"name":"Client","supers":["Named"],"references":[{"name":"accounts","target":"Account","upper":-1}]},{"name":"Account","supers":["Named"],"attributes":[{"name":"balance","type":"EInt","default":5},{"name":"total","type":"ELong"},{"name":"open","type":"EBoolean"}],"references":[{"name":"owner","target":"Client"}]}]}"#;

/// The metamodel that the JSON text is, or none where it is refused.
pub fn model_of(alloc: Global, text: &str) -> Option<Meta> {
    let value = Value::from_str(alloc, text).ok()?;
    read_meta(alloc, &value).ok()
}

/// The graph of the bundle that the text is, or none where it is refused.
pub fn graph_of(alloc: Global, text: &str) -> Option<ListGraph> {
    Some(read_bundle(alloc, text.as_bytes()).ok()?.graph)
}
