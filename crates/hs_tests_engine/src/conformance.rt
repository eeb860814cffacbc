//! Conformance.

use hs_tests_model::model_of;
use std::alloc::Global;

/// Class 3 is below 2 and 0, 2 below 1, and 1 below 0, which is abstract, as is 4, which is
/// alone.
const CLASSES: &str =
    r#"{"classes":[{"name":"A","abstract":true},{"name":"B","supers":["A"]},{"name":"C","abstract":true,"supers":["B"]},{"name":"D","supers":["C","A"]},{"name":"E","abstract":true}]}"#;

fn conforms(alloc: Global, class: u16, above: u16) -> Option<bool> {
    Some(model_of(alloc, CLASSES)?.conforms(class, above))
}

fn have_common(alloc: Global, one: u16, other: u16) -> Option<bool> {
    Some(model_of(alloc, CLASSES)?.have_common(one, other))
}

#[test]
fn climbs_to_supertypes(rt: HostRuntime) {
    for (class, above, want) in [
        (3, 0, true),
        (3, 1, true),
        (1, 2, false),
        (2, 2, true),
        (4, 0, false),
        (9, 9, true),
        (1, 9, false),
    ] {
        assert!(rt; conforms(rt.alloc(), class, above) == Some(want));
    }
}

#[test]
fn counts_concrete_classes_alone(rt: HostRuntime) {
    for (one, other, want) in [
        (0, 0, true),
        (0, 2, true),
        (2, 2, true),
        (3, 1, true),
        (4, 4, false),
        (4, 0, false),
        (9, 9, false),
    ] {
        assert!(rt; have_common(rt.alloc(), one, other) == Some(want));
    }
}
