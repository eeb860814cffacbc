//! Hosts: look-ups by number, by name and by place, copies, and room.

use crate::graph_of;
use hs_expr::Value;
use hs_types::{EdgeView, Host, ListGraph, Plan};
use std::alloc::{AllocError, Global};

/// Two clients, of which the first has both accounts and knows itself.
const BUNDLE: &str =
    r##"{"meta":{"classes":[{"name":"Client","references":[{"name":"accounts","target":"Account","upper":-1},{"name":"knows","target":"Client","upper":-1}]},{"name":"Account","attributes":[{"name":"balance","type":"EInt","default":5}]}]},"graph":[{"name":"ann","class":"Client","refs":{"accounts":["a","b"],"knows":["ann","bob"]}},{"name":"a","class":"Account"},{"name":"bob","class":"Client"},{"name":"b","class":"Account","attrs":{"balance":7}},{"name":"#4","class":"Client"}]}"##;

fn sample(alloc: Global) -> Option<ListGraph> {
    graph_of(alloc, BUNDLE)
}

fn is_numbered(edge: Option<EdgeView>, number: u32) -> bool {
    match edge {
        Some(edge) => edge.number == number,
        None => false,
    }
}

/// Whether the edges at the object have these numbers.
fn is_at<H: Host>(host: &H, object: u32, numbers: &[u32]) -> bool {
    for (place, number) in numbers.iter().enumerate() {
        if !is_numbered(host.edge_at(object, place), *number) {
            return false;
        }
    }
    host.edge_at(object, numbers.len()).is_none()
}

fn looks_up<H: Host>(host: &H) -> bool {
    host.class_of(1) == Some(1)
        && host.class_of(5).is_none()
        && host.named("bob") == Some(2)
        && host.named("eve").is_none()
        && host.name_of(3) == Some("b")
        && host.name_of(5).is_none()
}

fn looks_values_up<H: Host>(host: &H) -> bool {
    host.slot(1, 2) == Some(&Value::Int(5))
        && host.slot(3, 2) == Some(&Value::Int(7))
        && host.slot(3, 0).is_none()
        && host.slot(0, 2).is_none()
}

fn counts<H: Host>(host: &H) -> bool {
    host.meta().plain().classes.len() == 2
        && host.next_object() == 5
        && host.next_edge() == 4
        && host.next_name() == 5
        && host.object_at(4) == Some(4)
        && host.object_at(5).is_none()
}

/// All look-ups of a host of the sample.
fn is_sample<H: Host>(host: &H) -> bool {
    looks_up(host)
        && looks_values_up(host)
        && counts(host)
        && is_at(host, 0, &[0, 1, 2, 3])
        && is_at(host, 2, &[3])
        && is_at(host, 4, &[])
}

fn is_copied<H: Host>(host: &H) -> Result<bool, AllocError> {
    Ok(is_sample(&host.copy()?))
}

fn makes_room<H: Host>(alloc: Global, host: &mut H) -> Result<(), AllocError> {
    host.reserve(&Plan::new(alloc))
}

#[test]
fn hosts_look_up_what_they_hold(rt: HostRuntime) -> Result<(), AllocError> {
    let is_held = match sample(rt.alloc()) {
        Some(host) => is_sample(&host) && is_copied(&host)?,
        None => false,
    };
    assert!(rt; is_held);
    Ok(())
}

#[test]
fn room_changes_no_graph(rt: HostRuntime) -> Result<(), AllocError> {
    let alloc = rt.alloc();
    let is_kept = match sample(alloc) {
        Some(mut host) => {
            makes_room(alloc, &mut host)?;
            is_sample(&host) && host.objects().len() == 5 && host.edges().len() == 4
        }
        None => false,
    };
    assert!(rt; is_kept);
    Ok(())
}
