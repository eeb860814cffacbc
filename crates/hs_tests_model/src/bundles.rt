//! Bundles, and the problems of their graphs.

use hs_expr::Failure;
use hs_json::{problems_text, read_bundle};
use std::alloc::{AllocError, Global};

/// Whether the bytes are a bundle, where no line is given, or have the fault of the line that is.
fn answers(alloc: Global, text: &str, line: Option<&str>) -> Result<bool, AllocError> {
    match (read_bundle(alloc, text.as_bytes()), line) {
        (Ok(_), None) => Ok(true),
        (Err(Failure::Fault(fault)), Some(line)) => Ok(fault.line(alloc)?.as_str() == line),
        _ => Ok(false),
    }
}

#[test]
fn bundles_are_read(rt: HostRuntime) -> Result<(), AllocError> {
    for text in [
        r#"{"meta":{"classes":[]}}"#,
        r#"{"meta":{"classes":[{"name":"A"}]},"graph":[{"name":"a","class":"A"}],"rules":"","sessions":[],"journal":[]}"#,
    ] {
        assert!(rt; answers(rt.alloc(), text, None)?, "{text}");
    }
    Ok(())
}

#[test]
fn what_is_read_is_kept(rt: HostRuntime) -> Result<(), AllocError> {
    let text =
        r#"{"meta":{"classes":[{"name":"A","attributes":[{"name":"n","type":"EInt","default":4}]}]},"graph":[{"name":"a","class":"A"},{"name":"b","class":"A","attrs":{"n":5}}],"rules":"rule r() { }","sessions":[]}"#;
    let is_kept = match read_bundle(rt.alloc(), text.as_bytes()) {
        Ok(bundle) => {
            bundle.graph.objects().len() == 2
                && bundle.graph.meta().plain().classes.len() == 1
                && bundle.rules.as_str() == "rule r() { }"
                && bundle.sessions.is_some()
                && bundle.journal.is_none()
        }
        Err(_) => false,
    };
    assert!(rt; is_kept);
    Ok(())
}

#[test]
fn the_first_fault_has_its_line(rt: HostRuntime) -> Result<(), AllocError> {
    for (text, line) in [
        ("", "henshin: bad-json"),
        ("{} {}", "henshin: bad-json"),
        ("[]", "henshin: bad-bundle /"),
        ("{}", "henshin: bad-bundle /meta"),
        (r#"{"zz":1,"metas":1}"#, "henshin: bad-bundle /metas"),
        (r#"{"meta":7,"rules":7}"#, "henshin: bad-bundle /rules"),
        (r#"{"meta":[],"graph":7}"#, "henshin: bad-model /meta form"),
        (
            r#"{"meta":{"classes":[]},"graph":7}"#,
            "henshin: bad-graph /graph form",
        ),
        (
            r#"{"meta":{"classes":[{"name":"A","supers":["B"]},{"name":"B","supers":["A"]}]}}"#,
            "henshin: bad-model /meta/classes/0 supercycle",
        ),
    ] {
        assert!(rt; answers(rt.alloc(), text, Some(line))?, "{text}");
    }
    Ok(())
}

#[test]
fn faults_of_the_graph_have_their_lines(rt: HostRuntime) -> Result<(), AllocError> {
    for (text, line) in [
        (
            r#"{"meta":{"classes":[{"name":"A","abstract":true},{"name":"B","supers":["A"]}]},"graph":[{"name":"a","class":"A"}]}"#,
            "henshin: bad-graph /graph/0 abstract",
        ),
        (
            r#"{"meta":{"classes":[{"name":"A","attributes":[{"name":"balance","type":"EInt"}]}]},"graph":[{"name":"a","class":"A"},{"name":"b","class":"A"},{"name":"c","class":"A"},{"name":"d","class":"A","attrs":{"balance":2147483648}}]}"#,
            "henshin: bad-graph /graph/3/attrs/balance badvalue",
        ),
        (
            r#"{"meta":{"classes":[{"name":"A","references":[{"name":"next","target":"A"}]}]},"graph":[{"name":"a","class":"A","refs":{"next":["a","b"]}}]}"#,
            "henshin: bad-graph /graph/0/refs/next/1 unknowntarget",
        ),
        (
            r#"{"meta":{"classes":[{"name":"A","references":[{"name":"next","target":"A"}]}]},"graph":[{"name":"a","class":"A","refs":{"next":["a",1]}}]}"#,
            "henshin: bad-graph /graph/0/refs/next/1 form",
        ),
        (
            r#"{"meta":{"classes":[{"name":"A"}]},"graph":[{"name":"a","class":"A"},{"name":"a","class":"B"}]}"#,
            "henshin: bad-graph /graph/1/name twice",
        ),
    ] {
        assert!(rt; answers(rt.alloc(), text, Some(line))?, "{text}");
    }
    Ok(())
}

/// Whether the problems of the bundle's graph are reported by these lines and no others.
fn has_problems(alloc: Global, text: &str, lines: &[&str]) -> Result<bool, AllocError> {
    let bundle = match read_bundle(alloc, text.as_bytes()) {
        Ok(bundle) => bundle,
        Err(_) => return Ok(false),
    };
    let mut expected = String::new(alloc);
    for line in lines {
        expected.push_str(line)?;
        expected.push('\n')?;
    }
    let text = problems_text(alloc, bundle.graph.meta(), &bundle.graph)?;
    Ok(text.as_str() == expected.as_str())
}

#[test]
fn a_graph_without_problems_has_the_count_alone(rt: HostRuntime) -> Result<(), AllocError> {
    for text in [
        r#"{"meta":{"classes":[]}}"#,
        r#"{"meta":{"classes":[{"name":"A","references":[{"name":"few","target":"A","lower":1,"upper":2}]}]},"graph":[{"name":"a","class":"A","refs":{"few":["a","b"]}},{"name":"b","class":"A","refs":{"few":["a"]}}]}"#,
        r#"{"meta":{"classes":[{"name":"A","references":[{"name":"parts","target":"A","containment":true,"upper":-1}]}]},"graph":[{"name":"a","class":"A","refs":{"parts":["b","c"]}},{"name":"b","class":"A","refs":{"parts":["d"]}},{"name":"c","class":"A"},{"name":"d","class":"A"}]}"#,
    ] {
        assert!(rt;
            has_problems(rt.alloc(), text, &[r#"{"problems":0}"#])?,
            "{text}"
        );
    }
    Ok(())
}

#[test]
fn an_account_of_two_owners_is_told(rt: HostRuntime) -> Result<(), AllocError> {
    let text =
        r#"{"meta":{"classes":[{"name":"Client","references":[{"name":"accounts","target":"Account","upper":-1}]},{"name":"Account","attributes":[{"name":"balance","type":"EInt"}],"references":[{"name":"owner","target":"Client"}]}]},"graph":[{"name":"c1","class":"Client"},{"name":"c2","class":"Client"},{"name":"a1","class":"Account","refs":{"owner":["c1","c2"]}}]}"#;
    let lines = [
        r#"{"object":"a1","problem":"upper","reference":"Account.owner"}"#,
        r#"{"problems":1}"#,
    ];
    assert!(rt; has_problems(rt.alloc(), text, &lines)?);
    Ok(())
}

#[test]
fn bounds_are_told_by_the_owning_class(rt: HostRuntime) -> Result<(), AllocError> {
    let text =
        r#"{"meta":{"classes":[{"name":"Named","abstract":true,"references":[{"name":"near","target":"Named","lower":1,"upper":2}]},{"name":"Box","supers":["Named"],"references":[{"name":"one","target":"Box","lower":1}]}]},"graph":[{"name":"a","class":"Box"},{"name":"b","class":"Box","refs":{"near":["a","a","b"],"one":["a"]}},{"name":"c","class":"Box","refs":{"one":["a","b"],"near":["a","b"]}}]}"#;
    let lines = [
        r#"{"object":"a","problem":"lower","reference":"Named.near"}"#,
        r#"{"object":"a","problem":"lower","reference":"Box.one"}"#,
        r#"{"object":"b","problem":"upper","reference":"Named.near"}"#,
        r#"{"object":"c","problem":"upper","reference":"Box.one"}"#,
        r#"{"problems":4}"#,
    ];
    assert!(rt; has_problems(rt.alloc(), text, &lines)?);
    Ok(())
}

#[test]
fn containers_and_cycles_are_told(rt: HostRuntime) -> Result<(), AllocError> {
    let text =
        r#"{"meta":{"classes":[{"name":"A","references":[{"name":"parts","target":"A","containment":true,"upper":-1},{"name":"next","target":"A","upper":-1}]}]},"graph":[{"name":"one","class":"A","refs":{"parts":["one"]}},{"name":"front","class":"A","refs":{"parts":["first"]}},{"name":"first","class":"A","refs":{"parts":["second"]}},{"name":"second","class":"A","refs":{"parts":["first","behind"]}},{"name":"x","class":"A","refs":{"parts":["y"]}},{"name":"y","class":"A","refs":{"parts":["z"]}},{"name":"z","class":"A","refs":{"parts":["x"],"next":["front"]}},{"name":"behind","class":"A","refs":{"next":["behind"]}}]}"#;
    let lines = [
        r#"{"object":"one","problem":"cycle"}"#,
        r#"{"object":"first","problem":"containers"}"#,
        r#"{"object":"first","problem":"cycle"}"#,
        r#"{"object":"second","problem":"cycle"}"#,
        r#"{"object":"x","problem":"cycle"}"#,
        r#"{"object":"y","problem":"cycle"}"#,
        r#"{"object":"z","problem":"cycle"}"#,
        r#"{"problems":7}"#,
    ];
    assert!(rt; has_problems(rt.alloc(), text, &lines)?);
    Ok(())
}

#[test]
fn a_bound_stands_before_containment(rt: HostRuntime) -> Result<(), AllocError> {
    let text =
        r#"{"meta":{"classes":[{"name":"A","references":[{"name":"parts","target":"A","containment":true,"upper":2}]}]},"graph":[{"name":"the \"a\"","class":"A","refs":{"parts":["the \"a\"","the \"a\"","b"]}},{"name":"b","class":"A"}]}"#;
    let lines = [
        r#"{"object":"the \"a\"","problem":"upper","reference":"A.parts"}"#,
        r#"{"object":"the \"a\"","problem":"containers"}"#,
        r#"{"object":"the \"a\"","problem":"cycle"}"#,
        r#"{"problems":3}"#,
    ];
    assert!(rt; has_problems(rt.alloc(), text, &lines)?);
    Ok(())
}
