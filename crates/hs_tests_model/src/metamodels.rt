//! Metamodels of written classes.

use hs_expr::{Failure, List, Text, Value};
use hs_meta::{
    ModelFault, ModelFaultKind, ModelPlace, RawAttribute, RawClass, RawDefault, RawMeta,
    RawReference, build, check,
};
use hs_types::{Class, FeatureKind, Meta};
use std::alloc::{AllocError, Global};
use std::test::Fail;

fn attribute(
    alloc: Global,
    name: &str,
    data_type: &str,
    default: RawDefault,
) -> Result<RawAttribute, AllocError> {
    Ok(RawAttribute {
        name: Text::from_str(alloc, name)?,
        data_type: Text::from_str(alloc, data_type)?,
        default,
    })
}

fn reference(
    alloc: Global,
    name: &str,
    target: &str,
    lower: i64,
    upper: i64,
) -> Result<RawReference, AllocError> {
    Ok(RawReference {
        name: Text::from_str(alloc, name)?,
        target: Text::from_str(alloc, target)?,
        containment: false,
        lower,
        upper,
    })
}

fn empty_class(alloc: Global, name: &str) -> Result<RawClass, AllocError> {
    Ok(RawClass {
        name: Text::from_str(alloc, name)?,
        is_abstract: false,
        supers: List::new(alloc),
        attributes: List::new(alloc),
        references: List::new(alloc),
    })
}

/// The class that is written `name.attribute.attribute:super,super`.
fn class(alloc: Global, text: &str) -> Result<RawClass, AllocError> {
    let (head, supers) = text.split_once(':').unwrap_or((text, ""));
    let (name, attributes) = head.split_once('.').unwrap_or((head, ""));
    let mut made = empty_class(alloc, name)?;
    for word in attributes.split('.') {
        if !word.is_empty() {
            made.attributes
                .push(attribute(alloc, word, "EInt", RawDefault::LeftOut)?)?;
        }
    }
    for word in supers.split(',') {
        if !word.is_empty() {
            made.supers.push(Text::from_str(alloc, word)?)?;
        }
    }
    Ok(made)
}

/// The classes that are written one after another.
fn classes(alloc: Global, text: &str) -> Result<List<RawClass>, AllocError> {
    let mut made = List::new(alloc);
    for word in text.split(' ') {
        made.push(class(alloc, word)?)?;
    }
    Ok(made)
}

fn answer(alloc: Global, classes: List<RawClass>) -> Result<(), Failure<ModelFault>> {
    let raw = RawMeta { format: 1, classes };
    check(alloc, &raw)?;
    build(alloc, raw)?;
    Ok(())
}

fn answer_to(alloc: Global, text: &str) -> Result<(), Failure<ModelFault>> {
    answer(alloc, classes(alloc, text)?)
}

fn is_reported(
    answer: Result<(), Failure<ModelFault>>,
    place: ModelPlace,
    kind: ModelFaultKind,
) -> bool {
    answer == Err(Failure::Fault(ModelFault { place, kind }))
}

#[test]
fn right_classes_have_no_fault(rt: HostRuntime) {
    for text in [
        "A",
        "A B:A C:A D:B,C",
        "A:B,B B",
        "A:B B:C C",
        "A.x B:A C:A D:B,C",
        "A.x B.x",
        "A.x.y B.z:A C.u:B,A",
        "_a9.X_1",
    ] {
        assert!(rt; answer_to(rt.alloc(), text).is_ok(), "{text}");
    }
}

#[test]
fn names_and_supers_are_told(rt: HostRuntime) {
    use ModelFaultKind::{Name, SuperCycle, Twice, UnknownSuper};
    let cases = [
        ("", ModelPlace::ClassName { class: 0 }, Name),
        ("A 9B", ModelPlace::ClassName { class: 1 }, Name),
        (
            "A.x-y",
            ModelPlace::AttributeName {
                class: 0,
                number: 0,
            },
            Name,
        ),
        (
            "A.x.é",
            ModelPlace::AttributeName {
                class: 0,
                number: 1,
            },
            Name,
        ),
        ("A B A", ModelPlace::ClassName { class: 2 }, Twice),
        (
            "A:X",
            ModelPlace::Super {
                class: 0,
                number: 0,
            },
            UnknownSuper,
        ),
        (
            "A B:A,C",
            ModelPlace::Super {
                class: 1,
                number: 1,
            },
            UnknownSuper,
        ),
        ("A:B B:A", ModelPlace::Class { class: 0 }, SuperCycle),
        ("A:A", ModelPlace::Class { class: 0 }, SuperCycle),
        ("A:B B:B", ModelPlace::Class { class: 1 }, SuperCycle),
        (
            "A:B B:C C:D D:E E:C",
            ModelPlace::Class { class: 2 },
            SuperCycle,
        ),
    ];
    for (text, place, kind) in cases {
        assert!(rt;
            is_reported(answer_to(rt.alloc(), text), place, kind),
            "{text}"
        );
    }
}

#[test]
fn features_of_one_name_are_told(rt: HostRuntime) {
    let cases = [
        ("A.x.x", 0),
        ("A.x B.x C:A,B", 2),
        ("A.x B:A C.x:B", 2),
        ("C:B B:A A.x.y.x", 0),
    ];
    for (text, class) in cases {
        let answer = answer_to(rt.alloc(), text);
        assert!(rt;
            is_reported(answer, ModelPlace::Class { class }, ModelFaultKind::Twice),
            "{text}"
        );
    }
}

#[test]
fn checks_come_in_their_order(rt: HostRuntime) {
    use ModelFaultKind::{Name, SuperCycle, Twice, UnknownSuper};
    let cases = [
        ("A A A:-", ModelPlace::ClassName { class: 1 }, Twice),
        ("A A -", ModelPlace::ClassName { class: 2 }, Name),
        ("A:X B B", ModelPlace::ClassName { class: 2 }, Twice),
        (
            "A:A B:X",
            ModelPlace::Super {
                class: 1,
                number: 0,
            },
            UnknownSuper,
        ),
        ("A.x.x B:B", ModelPlace::Class { class: 1 }, SuperCycle),
    ];
    for (text, place, kind) in cases {
        assert!(rt;
            is_reported(answer_to(rt.alloc(), text), place, kind),
            "{text}"
        );
    }
}

fn one_attribute(
    alloc: Global,
    data_type: &str,
    default: RawDefault,
) -> Result<(), Failure<ModelFault>> {
    let mut class = empty_class(alloc, "A")?;
    class
        .attributes
        .push(attribute(alloc, "x", data_type, default)?)?;
    let mut classes = List::new(alloc);
    classes.push(class)?;
    answer(alloc, classes)
}

fn is_bad_default(answer: Result<(), Failure<ModelFault>>) -> bool {
    is_reported(
        answer,
        ModelPlace::AttributeDefault {
            class: 0,
            number: 0,
        },
        ModelFaultKind::BadDefault,
    )
}

fn number(n: i64) -> RawDefault {
    RawDefault::Given(Value::Int(n))
}

fn truth(b: bool) -> RawDefault {
    RawDefault::Given(Value::Bool(b))
}

#[test]
fn defaults_are_values_of_their_types(rt: HostRuntime) {
    let alloc = rt.alloc();
    for (data_type, n, fits) in [
        ("EInt", 2_147_483_647, true),
        ("EInt", 2_147_483_648, false),
        ("EInt", -2_147_483_648, true),
        ("EInt", -2_147_483_649, false),
        ("ELong", i64::MAX, true),
        ("ELong", i64::MIN, true),
        ("EBoolean", 0, false),
        ("EString", 0, false),
    ] {
        let answer = one_attribute(alloc, data_type, number(n));
        assert!(rt;
            if fits {
                answer.is_ok()
            } else {
                is_bad_default(answer)
            },
            "{data_type} {n}"
        );
    }
    for (data_type, fits) in [
        ("EInt", false),
        ("ELong", false),
        ("EBoolean", true),
        ("EString", false),
    ] {
        let answer = one_attribute(alloc, data_type, truth(false));
        assert!(rt;
            if fits {
                answer.is_ok()
            } else {
                is_bad_default(answer)
            },
            "{data_type}"
        );
        assert!(rt; one_attribute(alloc, data_type, RawDefault::LeftOut).is_ok());
        assert!(rt; is_bad_default(one_attribute(alloc, data_type, RawDefault::NoValue)));
    }
}

#[test]
fn texts_are_defaults_of_texts(rt: HostRuntime) -> Result<(), Fail> {
    let alloc = rt.alloc();
    for (data_type, fits) in [("EString", true), ("EInt", false), ("EBoolean", false)] {
        let text = RawDefault::Given(Value::Text(Text::from_str(alloc, "no")?));
        let answer = one_attribute(alloc, data_type, text);
        assert!(rt;
            if fits {
                answer.is_ok()
            } else {
                is_bad_default(answer)
            },
            "{data_type}"
        );
    }
    Ok(())
}

#[test]
fn unknown_types_are_told(rt: HostRuntime) {
    for data_type in ["", "Eint", "EInt ", "EFloat", "A"] {
        let answer = one_attribute(rt.alloc(), data_type, RawDefault::NoValue);
        let place = ModelPlace::AttributeType {
            class: 0,
            number: 0,
        };
        assert!(rt;
            is_reported(answer, place, ModelFaultKind::UnknownType),
            "{data_type}"
        );
    }
}

fn one_reference(
    alloc: Global,
    target: &str,
    lower: i64,
    upper: i64,
) -> Result<(), Failure<ModelFault>> {
    let mut class = empty_class(alloc, "A")?;
    class
        .references
        .push(reference(alloc, "r", target, lower, upper)?)?;
    let mut classes = List::new(alloc);
    classes.push(class)?;
    answer(alloc, classes)
}

#[test]
fn bounds_leave_room(rt: HostRuntime) {
    for (lower, upper, fits) in [
        (0, 1, true),
        (1, 1, true),
        (0, -1, true),
        (5, -1, true),
        (i64::MAX, i64::MAX, true),
        (0, 0, false),
        (0, -2, false),
        (0, i64::MIN, false),
        (2, 1, false),
        (-1, 1, false),
        (-1, -1, false),
    ] {
        let answer = one_reference(rt.alloc(), "A", lower, upper);
        let place = ModelPlace::Reference {
            class: 0,
            number: 0,
        };
        let is_right = answer.is_ok();
        let reported = is_reported(answer, place, ModelFaultKind::BadBounds);
        assert!(rt; if fits { is_right } else { reported }, "{lower} {upper}");
    }
}

#[test]
fn unknown_targets_are_told(rt: HostRuntime) {
    let answer = one_reference(rt.alloc(), "B", 0, 0);
    let place = ModelPlace::ReferenceTarget {
        class: 0,
        number: 0,
    };
    assert!(rt; is_reported(answer, place, ModelFaultKind::UnknownType));
}

fn many_classes(alloc: Global, count: u32) -> Result<(), Failure<ModelFault>> {
    let mut classes = List::new(alloc);
    for i in 0..count {
        let name = format!(in alloc; "C{i}")?;
        classes.push(empty_class(alloc, name.as_str())?)?;
    }
    answer(alloc, classes)
}

/// A class with as many attributes, and one below it.
fn many_attributes(alloc: Global, count: u32, below: &str) -> Result<(), Failure<ModelFault>> {
    let mut first = empty_class(alloc, "A")?;
    for i in 0..count {
        let name = format!(in alloc; "x{i}")?;
        let made = attribute(alloc, name.as_str(), "EInt", RawDefault::LeftOut)?;
        first.attributes.push(made)?;
    }
    let mut classes = List::new(alloc);
    classes.push(first)?;
    classes.push(class(alloc, below)?)?;
    answer(alloc, classes)
}

#[test]
fn limits_are_kept(rt: HostRuntime) {
    let alloc = rt.alloc();
    let limit = ModelFaultKind::Limit;
    assert!(rt; many_classes(alloc, 256).is_ok());
    assert!(rt; is_reported(many_classes(alloc, 257), ModelPlace::Classes, limit));
    assert!(rt; many_attributes(alloc, 64, "B:A").is_ok());
    let inherited = many_attributes(alloc, 64, "B.y:A");
    assert!(rt; is_reported(inherited, ModelPlace::Class { class: 1 }, limit));
    let own = many_attributes(alloc, 65, "B");
    assert!(rt; is_reported(own, ModelPlace::Class { class: 0 }, limit));
}

fn built(alloc: Global, text: &str) -> Result<Meta, Failure<ModelFault>> {
    let classes = classes(alloc, text)?;
    build(alloc, RawMeta { format: 1, classes })
}

/// The names of a class's features, each after a point.
fn features_shown(alloc: Global, meta: &Meta, class: &Class) -> Result<String, AllocError> {
    let mut shown = String::from_str(alloc, class.name.as_str())?;
    for number in class.features.as_slice() {
        if let Some(feature) = meta.plain().features.get(usize::from(*number)) {
            shown.push_str(".")?;
            shown.push_str(feature.name.as_str())?;
        }
    }
    Ok(shown)
}

/// Each class with its features, in the form that classes are written in.
fn shown(alloc: Global, meta: &Meta) -> Result<String, AllocError> {
    let mut shown = String::new(alloc);
    for class in meta.plain().classes.as_slice() {
        shown.push_str(" ")?;
        shown.push_str(features_shown(alloc, meta, class)?.as_str())?;
    }
    Ok(shown)
}

#[test]
fn inherited_features_come_first(rt: HostRuntime) -> Result<(), Fail> {
    let alloc = rt.alloc();
    for (text, want) in [
        ("A.x B.y:A C.z:A D.u:B,C", " A.x B.x.y C.x.z D.x.y.z.u"),
        ("D.u:C,B B.y:A C.z:A A.x", " D.x.z.y.u B.x.y C.x.z A.x"),
        ("A.x B.y:A C.z:A,B", " A.x B.x.y C.x.y.z"),
        ("A.x B.y C:B,A", " A.x B.y C.y.x"),
        ("A.x B:A,A C:B,A", " A.x B.x C.x"),
        ("C.c:B B.b:A A.a", " C.a.b.c B.a.b A.a"),
        ("A B:A", " A B"),
    ] {
        let meta = built(alloc, text)?;
        assert_eq!(rt; shown(alloc, &meta)?.as_str(), want, "{text}");
    }
    Ok(())
}

#[test]
fn faults_are_told_of_what_is_built(rt: HostRuntime) {
    let answer = match built(rt.alloc(), "A.x B.x C:A,B") {
        Ok(_) => Ok(()),
        Err(fault) => Err(fault),
    };
    assert!(rt;
        is_reported(
            answer,
            ModelPlace::Class { class: 2 },
            ModelFaultKind::Twice
        )
    );
}

/// What an attribute that is written so has where nothing is given.
fn built_default(
    alloc: Global,
    data_type: &str,
    default: RawDefault,
) -> Result<Option<Value>, Failure<ModelFault>> {
    let mut class = empty_class(alloc, "A")?;
    class
        .attributes
        .push(attribute(alloc, "x", data_type, default)?)?;
    let mut classes = List::new(alloc);
    classes.push(class)?;
    let meta = build(alloc, RawMeta { format: 1, classes })?;
    match meta.plain().features.get(0) {
        Some(feature) => match &feature.kind {
            FeatureKind::Attribute { default, .. } => Ok(Some(default.clone()?)),
            FeatureKind::Reference { .. } => Ok(None),
        },
        None => Ok(None),
    }
}

#[test]
fn defaults_are_built(rt: HostRuntime) -> Result<(), Fail> {
    let alloc = rt.alloc();
    let empty = Value::Text(Text::from_str(alloc, "")?);
    for (data_type, want) in [
        ("EInt", &Value::Int(0)),
        ("ELong", &Value::Int(0)),
        ("EBoolean", &Value::Bool(false)),
        ("EString", &empty),
    ] {
        let made = built_default(alloc, data_type, RawDefault::LeftOut)?;
        assert!(rt; made.as_ref() == Some(want), "{data_type}");
    }
    let given = built_default(alloc, "ELong", number(-7))?;
    assert!(rt; given == Some(Value::Int(-7)));
    let given = built_default(alloc, "EBoolean", truth(true))?;
    assert!(rt; given == Some(Value::Bool(true)));
    Ok(())
}

/// The bounds of a reference that is written with these.
fn built_bounds(
    alloc: Global,
    lower: i64,
    upper: i64,
) -> Result<Option<(u64, Option<u64>)>, Failure<ModelFault>> {
    let mut class = empty_class(alloc, "A")?;
    class
        .references
        .push(reference(alloc, "r", "A", lower, upper)?)?;
    let mut classes = List::new(alloc);
    classes.push(class)?;
    let meta = build(alloc, RawMeta { format: 1, classes })?;
    match meta.plain().features.get(0) {
        Some(feature) => match &feature.kind {
            FeatureKind::Reference { lower, upper, .. } => Ok(Some((*lower, *upper))),
            FeatureKind::Attribute { .. } => Ok(None),
        },
        None => Ok(None),
    }
}

#[test]
fn bounds_are_built(rt: HostRuntime) -> Result<(), Fail> {
    for (lower, upper, want) in [
        (0, 1, (0, Some(1))),
        (2, 5, (2, Some(5))),
        (3, -1, (3, None)),
        (
            i64::MAX,
            i64::MAX,
            (9_223_372_036_854_775_807, Some(9_223_372_036_854_775_807)),
        ),
    ] {
        let made = built_bounds(rt.alloc(), lower, upper)?;
        assert!(rt; made == Some(want), "{lower} {upper}");
    }
    Ok(())
}
