//! Graphs of written objects.

use crate::model::{BANK, model_of};
use hs_expr::{Failure, List, Text, Value};
use hs_graph::{
    GraphFault, GraphFaultKind, GraphPlace, RawAttr, RawObject, RawRef, RawValue, Scalar, TextRef,
    ValueRef, build,
};
use hs_types::{Graph, Slot};
use std::alloc::{AllocError, Global};
use std::test::Fail;

/// The value that is written so: `~` is none.
fn value(word: &str) -> RawValue<'_> {
    if word == "~" {
        return RawValue::NoValue;
    }
    if word == "true" {
        return RawValue::Given(ValueRef::new(Scalar::Bool(true)));
    }
    match word.parse::<i64>() {
        Ok(number) => RawValue::Given(ValueRef::new(Scalar::Int(number))),
        Err(_) => RawValue::Given(ValueRef::new(Scalar::Text(word))),
    }
}

fn written_ref<'a>(
    alloc: Global,
    name: &'a str,
    targets: &'a str,
) -> Result<RawRef<'a>, AllocError> {
    let mut made = RawRef {
        name: TextRef::new(name),
        targets: List::new(alloc),
    };
    for target in targets.split(',') {
        made.targets.push(TextRef::new(target))?;
    }
    Ok(made)
}

fn named<'a>(alloc: Global, name: &'a str, class: &'a str) -> RawObject<'a> {
    RawObject {
        name: TextRef::new(name),
        class: TextRef::new(class),
        attrs: List::new(alloc),
        refs: List::new(alloc),
    }
}

/// The object that is written `name:class attribute=value reference>target,target`.
fn object<'a>(alloc: Global, text: &'a str) -> Result<RawObject<'a>, AllocError> {
    let (head, rest) = text.split_once(' ').unwrap_or((text, ""));
    let (name, class) = head.split_once(':').unwrap_or((head, ""));
    let mut made = named(alloc, name, class);
    for word in rest.split(' ') {
        if let Some((name, written)) = word.split_once('=') {
            made.attrs.push(RawAttr {
                name: TextRef::new(name),
                value: value(written),
            })?;
        }
        if let Some((name, targets)) = word.split_once('>') {
            made.refs.push(written_ref(alloc, name, targets)?)?;
        }
    }
    Ok(made)
}

/// The objects, written in order.
fn objects<'a>(alloc: Global, text: &'a str) -> Result<List<RawObject<'a>>, AllocError> {
    let mut made = List::new(alloc);
    for word in text.split(';') {
        made.push(object(alloc, word)?)?;
    }
    Ok(made)
}

fn answer(alloc: Global, objects: &List<RawObject<'_>>) -> Result<Graph, Failure<GraphFault>> {
    let Some(meta) = model_of(alloc, BANK) else {
        return Err(Failure::NoMemory);
    };
    build(alloc, &meta, objects.as_slice())
}

fn answer_to(alloc: Global, text: &str) -> Result<Graph, Failure<GraphFault>> {
    answer(alloc, &objects(alloc, text)?)
}

fn is_reported(
    answer: Result<Graph, Failure<GraphFault>>,
    place: GraphPlace,
    kind: GraphFaultKind,
) -> bool {
    match answer {
        Err(Failure::Fault(fault)) => fault == GraphFault { place, kind },
        _ => false,
    }
}

#[test]
fn right_objects_have_no_fault(rt: HostRuntime) {
    for text in [
        "a:Client",
        "a:Client;b:Account",
        "a:Client name=Ann link>a accounts>b,b;b:Account link>a,b owner>a",
        "#09:Client;#3000000000:Client",
        "a:Account balance=2147483647;b:Account balance=-2147483648",
        "a:Account total=9223372036854775807;b:Account total=-9223372036854775808",
        "a:Account open=true",
    ] {
        assert!(rt; answer_to(rt.alloc(), text).is_ok(), "{text}");
    }
}

#[test]
fn names_and_classes_are_told(rt: HostRuntime) {
    use GraphFaultKind::{Abstract, Name, Twice, UnknownClass};
    let cases = [
        (":Client", GraphPlace::ObjectName { object: 0 }, Name),
        (
            "a:Client;#3000000001:Client",
            GraphPlace::ObjectName { object: 1 },
            Name,
        ),
        (
            "#99999999999999999999999999:Client",
            GraphPlace::ObjectName { object: 0 },
            Name,
        ),
        (
            "a:Client;b:Client;a:Account",
            GraphPlace::ObjectName { object: 2 },
            Twice,
        ),
        (
            "a:Client;b:client",
            GraphPlace::ObjectClass { object: 1 },
            UnknownClass,
        ),
        ("a:Named", GraphPlace::Object { object: 0 }, Abstract),
    ];
    for (text, place, kind) in cases {
        assert!(rt;
            is_reported(answer_to(rt.alloc(), text), place, kind),
            "{text}"
        );
    }
}

#[test]
fn attributes_are_told(rt: HostRuntime) {
    use GraphFaultKind::{BadValue, UnknownAttribute};
    let cases = [
        ("a:Client balance=1", 0, 0, UnknownAttribute),
        ("a:Client;b:Account link=1", 1, 0, UnknownAttribute),
        ("a:Account balance=2147483648", 0, 0, BadValue),
        ("a:Account balance=-2147483649", 0, 0, BadValue),
        ("a:Account balance=1 name=2", 0, 1, BadValue),
        ("a:Account balance=true", 0, 0, BadValue),
        ("a:Account open=1", 0, 0, BadValue),
        ("a:Account total=x", 0, 0, BadValue),
        ("a:Account total=~", 0, 0, BadValue),
    ];
    for (text, object, number, kind) in cases {
        let place = GraphPlace::Attr { object, number };
        assert!(rt;
            is_reported(answer_to(rt.alloc(), text), place, kind),
            "{text}"
        );
    }
}

#[test]
fn references_are_told(rt: HostRuntime) {
    use GraphFaultKind::{BadTarget, UnknownReference, UnknownTarget};
    let target = |object, number, place| GraphPlace::Target {
        object,
        number,
        place,
    };
    let reference = |object, number| GraphPlace::Ref { object, number };
    let cases = [
        ("a:Client owner>a", reference(0, 0), UnknownReference),
        ("a:Client link>a name>a", reference(0, 1), UnknownReference),
        ("a:Client link>a,b", target(0, 0, 1), UnknownTarget),
        ("a:Client accounts>a", target(0, 0, 0), BadTarget),
        (
            "a:Client;b:Account link>a,b owner>a,b",
            target(1, 1, 1),
            BadTarget,
        ),
    ];
    for (text, place, kind) in cases {
        assert!(rt;
            is_reported(answer_to(rt.alloc(), text), place, kind),
            "{text}"
        );
    }
}

#[test]
fn checks_come_in_their_order(rt: HostRuntime) {
    use GraphFaultKind::{Abstract, Name, Twice, UnknownAttribute, UnknownClass, UnknownReference};
    let cases = [
        ("a:X;a:Client", GraphPlace::ObjectName { object: 1 }, Twice),
        (
            "a:Client;a:Client;:Client",
            GraphPlace::ObjectName { object: 1 },
            Twice,
        ),
        (
            "a:Named;:Client",
            GraphPlace::ObjectName { object: 1 },
            Name,
        ),
        (
            "a:Client x=1;b:X",
            GraphPlace::ObjectClass { object: 1 },
            UnknownClass,
        ),
        ("a:Named;b:X", GraphPlace::Object { object: 0 }, Abstract),
        (
            "a:Client x>a;b:Client x=1",
            GraphPlace::Attr {
                object: 1,
                number: 0,
            },
            UnknownAttribute,
        ),
        (
            "a:Client x>a link>b",
            GraphPlace::Ref {
                object: 0,
                number: 0,
            },
            UnknownReference,
        ),
    ];
    for (text, place, kind) in cases {
        assert!(rt;
            is_reported(answer_to(rt.alloc(), text), place, kind),
            "{text}"
        );
    }
}

/// As many bytes of `x`.
fn long(alloc: Global, bytes: u32) -> Result<String, AllocError> {
    let mut text = String::new(alloc);
    for _ in 0..bytes {
        text.push('x')?;
    }
    Ok(text)
}

fn name_of(alloc: Global, bytes: u32) -> Result<Graph, Failure<GraphFault>> {
    let name = long(alloc, bytes)?;
    let mut objects = List::new(alloc);
    objects.push(named(alloc, name.as_str(), "Client"))?;
    answer(alloc, &objects)
}

fn text_of(alloc: Global, bytes: u32) -> Result<Graph, Failure<GraphFault>> {
    let text = long(alloc, bytes)?;
    let objects = client(alloc, text.as_str())?;
    answer(alloc, &objects)
}

/// A client whose name is given by an attribute.
fn client<'a>(alloc: Global, text: &'a str) -> Result<List<RawObject<'a>>, AllocError> {
    let mut attrs = List::new(alloc);
    attrs.push(RawAttr {
        name: TextRef::new("name"),
        value: RawValue::Given(ValueRef::new(Scalar::Text(text))),
    })?;
    let mut objects = List::new(alloc);
    objects.push(RawObject {
        name: TextRef::new("a"),
        class: TextRef::new("Client"),
        attrs,
        refs: List::new(alloc),
    })?;
    Ok(objects)
}

#[test]
fn names_and_texts_have_a_greatest_length(rt: HostRuntime) {
    let alloc = rt.alloc();
    assert!(rt; name_of(alloc, 1).is_ok());
    assert!(rt; name_of(alloc, 128).is_ok());
    let name = GraphPlace::ObjectName { object: 0 };
    assert!(rt; is_reported(name_of(alloc, 129), name, GraphFaultKind::Name));
    assert!(rt; text_of(alloc, 65_536).is_ok());
    let value = GraphPlace::Attr {
        object: 0,
        number: 0,
    };
    assert!(rt; is_reported(text_of(alloc, 65_537), value, GraphFaultKind::BadValue));
}

fn many_objects(alloc: Global, count: u32, class: &str) -> Result<Graph, Failure<GraphFault>> {
    let mut names = List::new(alloc);
    for i in 0..count {
        names.push(format!(in alloc; "o{i}")?)?;
    }
    let mut objects = List::new(alloc);
    for name in names.iter() {
        objects.push(named(alloc, name.as_str(), class))?;
    }
    answer(alloc, &objects)
}

/// An object with as many edges, the first to the object of this name and all others to itself.
fn many_edges(alloc: Global, count: u32, first: &str) -> Result<Graph, Failure<GraphFault>> {
    let mut made = named(alloc, "a", "Client");
    let mut links = written_ref(alloc, "link", first)?;
    for _ in 1..count {
        links.targets.push(TextRef::new("a"))?;
    }
    made.refs.push(links)?;
    let mut objects = List::new(alloc);
    objects.push(made)?;
    answer(alloc, &objects)
}

#[test]
fn limits_are_kept(rt: HostRuntime) {
    let alloc = rt.alloc();
    let limit = GraphFaultKind::Limit;
    assert!(rt; many_objects(alloc, 200_000, "Client").is_ok());
    assert!(rt; is_reported(many_objects(alloc, 200_001, "X"), GraphPlace::Graph, limit));
    assert!(rt; many_edges(alloc, 400_000, "a").is_ok());
    assert!(rt; is_reported(many_edges(alloc, 400_001, "a"), GraphPlace::Graph, limit));
    let target = GraphPlace::Target {
        object: 0,
        number: 0,
        place: 0,
    };
    assert!(rt;
        is_reported(
            many_edges(alloc, 400_001, "b"),
            target,
            GraphFaultKind::UnknownTarget
        )
    );
}

/// The edges of a graph as they are printed: source, reference, target.
fn edges_text(alloc: Global, graph: &Graph) -> Result<String, AllocError> {
    let mut text = String::new(alloc);
    for edge in graph.edges.iter() {
        let word = format!(in alloc; "{}-{}-{} ", edge.source, edge.reference, edge.target)?;
        text.push_str(word.as_str())?;
    }
    Ok(text)
}

#[test]
fn edges_stand_in_order(rt: HostRuntime) -> Result<(), Fail> {
    let alloc = rt.alloc();
    let text = "a:Client accounts>#7,#7 link>a;#7:Account link>a owner>a;#09:Client";
    match answer_to(alloc, text) {
        Ok(graph) => {
            let edges = edges_text(alloc, &graph)?;
            assert!(rt; edges.as_str() == "0-1-0 0-2-1 0-2-1 1-1-0 1-6-0 ");
            assert!(rt; graph.next_name == 8);
            assert!(rt; graph.next_object == 3);
            assert!(rt; graph.next_edge == 5);
        }
        Err(_) => assert!(rt; false),
    }
    Ok(())
}

/// The slots of the first object.
fn slots_of_first(graph: &Graph) -> &[Slot] {
    match graph.objects.get(0) {
        Some(object) => object.slots.as_slice(),
        None => &[],
    }
}

/// Whether the first object has this value for the attribute.
fn has_value(graph: &Graph, attribute: u16, value: &Value) -> bool {
    for slot in slots_of_first(graph) {
        if slot.attribute == attribute && slot.value == *value {
            return true;
        }
    }
    false
}

#[test]
fn slots_have_written_values_and_defaults(rt: HostRuntime) -> Result<(), Fail> {
    let alloc = rt.alloc();
    match answer_to(alloc, "a:Account balance=7 total=-3") {
        Ok(graph) => {
            let text = Value::Text(Text::from_str(alloc, "?")?);
            assert!(rt; has_value(&graph, 0, &text));
            assert!(rt; has_value(&graph, 3, &Value::Int(7)));
            assert!(rt; has_value(&graph, 4, &Value::Int(-3)));
            assert!(rt; has_value(&graph, 5, &Value::Bool(false)));
            assert!(rt; slots_of_first(&graph).len() == 4);
        }
        Err(_) => assert!(rt; false),
    }
    Ok(())
}
