//! Plans.

ghost use Rattle.std.specs.Prelude.{IfSome, option_copied};
ghost use Rattle.hs_types.specs.Limits.{IsSmallRule};

use hs_apply::plan;
use hs_expr::{List, Text, Value};
use hs_input::{Input, read_input};
use hs_types::{
    Arg, Args, End, Extension, MadeEdge, MadeObject, Match, NamedArg, Plan, Rule, RuleSet, Slot,
    SlotKind, Write,
};
use std::alloc::{AllocError, Global};

/// A client with three accounts, whose balance is 5 where none is given. `share` closes one of
/// them, opens one with a balance that is given, and for each other account, which gets that much
/// more, one that takes its place at the client.
const BUNDLE: &str =
    r##"{"meta":{"classes":[{"name":"Client","references":[{"name":"accounts","target":"Account","upper":-1}]},{"name":"Account","attributes":[{"name":"balance","type":"EInt","default":5}]}]},"graph":[{"name":"ann","class":"Client","refs":{"accounts":["a","b","x"]}},{"name":"a","class":"Account"},{"name":"b","class":"Account","attrs":{"balance":7}},{"name":"x","class":"Account"}],"rules":"rule share(in more: int) { preserve node c: Client; delete node x: Account; delete edge c -> x: accounts; create node n: Account; create edge c -> n: accounts; set n.balance = more; multi { preserve node a: Account; delete edge c -> a: accounts; create node m: Account; create edge c -> m: accounts; set a.balance = a.balance + more; } }"}"##;

fn numbers(alloc: Global, numbers: &[u32]) -> Result<List<u32>, AllocError> {
    Ok(List::from_vec(Vec::from_slice(alloc, numbers)?))
}

fn copy(alloc: Global, node: u32, edge: u32) -> Result<Extension, AllocError> {
    Ok(Extension {
        nodes: numbers(alloc, &[node])?,
        edges: numbers(alloc, &[edge])?,
    })
}

fn copies(alloc: Global) -> Result<List<List<Extension>>, AllocError> {
    let mut found = List::new(alloc);
    found.push(copy(alloc, 1, 0)?)?;
    found.push(copy(alloc, 2, 1)?)?;
    let mut lists = List::new(alloc);
    lists.push(found)?;
    Ok(lists)
}

/// The match that closes `x`, with a copy for each of the other accounts.
fn found(alloc: Global) -> Result<Match, AllocError> {
    Ok(Match {
        nodes: numbers(alloc, &[0, 3])?,
        edges: numbers(alloc, &[2])?,
        copies: copies(alloc)?,
    })
}

fn three_more(alloc: Global) -> Result<Args, AllocError> {
    let mut list = List::new(alloc);
    list.push(NamedArg {
        name: Text::from_str(alloc, "more")?,
        arg: Arg::Value(Value::Int(3)),
    })?;
    Ok(Args { list })
}

/// The first rule, which is within the limits.
fn first_rule(rules: &RuleSet) -> Option<&Rule>
    ensures { IfSome (option_copied result) IsSmallRule }
{
    rules.are_formed();
    rules.rules.get(0)
}

/// The plan of the rule at the match, for three more.
fn planned(alloc: Global) -> Result<Option<Plan>, AllocError> {
    let Ok(Input { graph, rules, .. }) = read_input(alloc, BUNDLE.as_bytes()) else {
        return Ok(None);
    };
    match first_rule(&rules) {
        Some(rule) => {
            let plan = plan(alloc, &graph, rule, &three_more(alloc)?, &found(alloc)?)?;
            Ok(Some(plan))
        }
        None => Ok(None),
    }
}

fn is_write(write: Option<&Write>, object: u32, balance: i64) -> bool {
    match write {
        Some(write) => {
            write.object == object
                && write.slot == SlotKind::Attribute(1)
                && write.value == Value::Int(balance)
        }
        None => false,
    }
}

fn is_account(object: Option<&MadeObject>, balance: i64) -> bool {
    match object {
        Some(object) => object.class() == 1 && has_balance(object.slots(), balance),
        None => false,
    }
}

fn has_balance(slots: &[Slot], balance: i64) -> bool {
    for slot in slots {
        if slot.attribute != 1 || slot.value != Value::Int(balance) {
            return false;
        }
    }
    slots.len() == 1
}

/// Whether the edge leads from the client to this new object.
fn is_edge(edge: Option<&MadeEdge>, target: u32) -> bool {
    match edge {
        Some(edge) => {
            edge.source == End::Old(0) && edge.reference == 0 && edge.target == End::New(target)
        }
        None => false,
    }
}

fn deletes(plan: &Plan) -> bool {
    plan.drop_objects.as_slice() == [3].as_slice()
        && plan.drop_edges.as_slice() == [2, 0, 1].as_slice()
}

fn writes(plan: &Plan) -> bool {
    let writes = &plan.writes;
    writes.len() == 2 && is_write(writes.get(0), 1, 8) && is_write(writes.get(1), 2, 10)
}

fn creates_accounts(plan: &Plan) -> bool {
    let made = &plan.make_objects;
    made.len() == 3
        && is_account(made.get(0), 3)
        && is_account(made.get(1), 5)
        && is_account(made.get(2), 5)
}

fn creates_edges(plan: &Plan) -> bool {
    let made = &plan.make_edges;
    made.len() == 3 && is_edge(made.get(0), 0) && is_edge(made.get(1), 1) && is_edge(made.get(2), 2)
}

#[test]
fn plans_what_a_rule_and_its_copies_do(rt: HostRuntime) -> Result<(), AllocError> {
    let is_planned = match planned(rt.alloc())? {
        Some(plan) => {
            deletes(&plan) && writes(&plan) && creates_accounts(&plan) && creates_edges(&plan)
        }
        None => false,
    };
    assert!(rt; is_planned);
    Ok(())
}
