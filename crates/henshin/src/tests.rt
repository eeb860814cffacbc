//! Runs of the program over sources and sinks in memory.

ghost use Rattle.std.specs.Prelude.{◌≤◌};

use crate::once::once;
use crate::status::fault_line;
use hs_base::{SinkMem, SourceMem};
use hs_expr::{List, Text};
use std::alloc::{AllocError, Global};
use std::process::Abort;
use std::test::Fail;

/// The metamodel of clients with their accounts.
const META: &str = "{\"meta\": {\"classes\": [
  {\"name\": \"Client\", \"references\": [{\"name\": \"accounts\", \"target\": \"Account\", \"upper\": -1}]},
  {\"name\": \"Account\"}]},";

/// A client, and a rule that opens an account for it.
const OPEN: &str = "\"graph\": [{\"name\": \"c1\", \"class\": \"Client\"}],
\"rules\": \"rule grow() { preserve node c: Client; create node a: Account; create edge c -> a: accounts; }\",
\"sessions\": [[{\"call\": \"grow\"}]]}";

const OPENED: &str =
    "{\"args\":{},\"attempt\":0,\"copies\":[],\"edges\":[],\"gone\":[],\"new\":[\"#0\"],\"nodes\":[\"c1\"],\"old\":[],\"outcome\":\"applied\",\"place\":0,\"request\":0,\"rule\":\"grow\",\"session\":0}
{\"outs\":{},\"places\":[0],\"reply\":\"ok\",\"request\":0,\"session\":0}
{\"graph\":[{\"attrs\":{},\"class\":\"Client\",\"name\":\"c1\",\"refs\":{\"accounts\":[\"#0\"]}},{\"attrs\":{},\"class\":\"Account\",\"name\":\"#0\",\"refs\":{}}]}
";

/// The same client, and a rule that also wants an account to be there.
const PAIR: &str = "\"graph\": [{\"name\": \"c1\", \"class\": \"Client\"}],
\"rules\": \"rule pair() { preserve node c: Client; preserve node a: Account; create edge c -> a: accounts; }\",
\"sessions\": [[{\"call\": \"pair\"}]]}";

const MISSED: &str =
    "{\"args\":{},\"attempt\":0,\"outcome\":\"missed\",\"place\":0,\"request\":0,\"rule\":\"pair\",\"session\":0}
{\"outs\":{},\"places\":[0],\"reply\":\"nomatch\",\"request\":0,\"session\":0}
{\"graph\":[{\"attrs\":{},\"class\":\"Client\",\"name\":\"c1\",\"refs\":{}}]}
";

/// Three accounts of two clients with parallel edges, and a rule that joins the least that fit.
const JOIN: &str = "\"graph\": [
  {\"name\": \"a1\", \"class\": \"Account\"}, {\"name\": \"c1\", \"class\": \"Client\"},
  {\"name\": \"a2\", \"class\": \"Account\"},
  {\"name\": \"c2\", \"class\": \"Client\", \"refs\": {\"accounts\": [\"a2\", \"a3\", \"a2\"]}},
  {\"name\": \"a3\", \"class\": \"Account\"}],
\"rules\": \"rule join() { create node n: Account; preserve node c: Client; preserve node a: Account; create node m: Client; preserve edge c -> a: accounts; preserve edge c -> a: accounts; create edge m -> n: accounts; create edge m -> a: accounts; create edge c -> n: accounts; }\",
\"sessions\": [[{\"call\": \"join\"}]]}";

const JOINED: &str =
    "{\"args\":{},\"attempt\":0,\"copies\":[],\"edges\":[0,2],\"gone\":[],\"new\":[\"#0\",\"#1\"],\"nodes\":[\"c2\",\"a2\"],\"old\":[],\"outcome\":\"applied\",\"place\":0,\"request\":0,\"rule\":\"join\",\"session\":0}
{\"outs\":{},\"places\":[0],\"reply\":\"ok\",\"request\":0,\"session\":0}
{\"graph\":[{\"attrs\":{},\"class\":\"Account\",\"name\":\"a1\",\"refs\":{}},{\"attrs\":{},\"class\":\"Client\",\"name\":\"c1\",\"refs\":{}},{\"attrs\":{},\"class\":\"Account\",\"name\":\"a2\",\"refs\":{}},{\"attrs\":{},\"class\":\"Client\",\"name\":\"c2\",\"refs\":{\"accounts\":[\"a2\",\"a3\",\"a2\",\"#0\"]}},{\"attrs\":{},\"class\":\"Account\",\"name\":\"a3\",\"refs\":{}},{\"attrs\":{},\"class\":\"Account\",\"name\":\"#0\",\"refs\":{}},{\"attrs\":{},\"class\":\"Client\",\"name\":\"#1\",\"refs\":{\"accounts\":[\"#0\",\"a2\"]}}]}
";

/// Two clients and two accounts, and the rule that joins a client and an account.
const FOUR: &str = "\"graph\": [
  {\"name\": \"c1\", \"class\": \"Client\"}, {\"name\": \"c2\", \"class\": \"Client\"},
  {\"name\": \"a1\", \"class\": \"Account\"}, {\"name\": \"a2\", \"class\": \"Account\"}],
\"rules\": \"rule pair() { preserve node c: Client; preserve node a: Account; create edge c -> a: accounts; }\",
\"sessions\": [[{\"call\": \"pair\"}]]}";

const FOUR_PAIRED: &str =
    "{\"args\":{},\"attempt\":0,\"copies\":[],\"edges\":[],\"gone\":[],\"new\":[],\"nodes\":[\"c1\",\"a1\"],\"old\":[],\"outcome\":\"applied\",\"place\":0,\"request\":0,\"rule\":\"pair\",\"session\":0}
{\"outs\":{},\"places\":[0],\"reply\":\"ok\",\"request\":0,\"session\":0}
{\"graph\":[{\"attrs\":{},\"class\":\"Client\",\"name\":\"c1\",\"refs\":{\"accounts\":[\"a1\"]}},{\"attrs\":{},\"class\":\"Client\",\"name\":\"c2\",\"refs\":{}},{\"attrs\":{},\"class\":\"Account\",\"name\":\"a1\",\"refs\":{}},{\"attrs\":{},\"class\":\"Account\",\"name\":\"a2\",\"refs\":{}}]}
";

/// The same objects the other way round.
const ROUND: &str = "\"graph\": [
  {\"name\": \"a2\", \"class\": \"Account\"}, {\"name\": \"a1\", \"class\": \"Account\"},
  {\"name\": \"c2\", \"class\": \"Client\"}, {\"name\": \"c1\", \"class\": \"Client\"}],
\"rules\": \"rule pair() { preserve node c: Client; preserve node a: Account; create edge c -> a: accounts; }\",
\"sessions\": [[{\"call\": \"pair\"}]]}";

const ROUND_PAIRED: &str =
    "{\"args\":{},\"attempt\":0,\"copies\":[],\"edges\":[],\"gone\":[],\"new\":[],\"nodes\":[\"c2\",\"a2\"],\"old\":[],\"outcome\":\"applied\",\"place\":0,\"request\":0,\"rule\":\"pair\",\"session\":0}
{\"outs\":{},\"places\":[0],\"reply\":\"ok\",\"request\":0,\"session\":0}
{\"graph\":[{\"attrs\":{},\"class\":\"Account\",\"name\":\"a2\",\"refs\":{}},{\"attrs\":{},\"class\":\"Account\",\"name\":\"a1\",\"refs\":{}},{\"attrs\":{},\"class\":\"Client\",\"name\":\"c2\",\"refs\":{\"accounts\":[\"a2\"]}},{\"attrs\":{},\"class\":\"Client\",\"name\":\"c1\",\"refs\":{}}]}
";

/// Three accounts, and a rule that wants three, no two of them the same.
const THREE: &str = "\"graph\": [
  {\"name\": \"a1\", \"class\": \"Account\"}, {\"name\": \"c1\", \"class\": \"Client\"},
  {\"name\": \"a2\", \"class\": \"Account\"}, {\"name\": \"a3\", \"class\": \"Account\"}],
\"rules\": \"rule three() { preserve node x: Account; preserve node y: Account; preserve node z: Account; create node c: Client; create edge c -> z: accounts; create edge c -> x: accounts; }\",
\"sessions\": [[{\"call\": \"three\"}]]}";

const THREE_FOUND: &str =
    "{\"args\":{},\"attempt\":0,\"copies\":[],\"edges\":[],\"gone\":[],\"new\":[\"#0\"],\"nodes\":[\"a1\",\"a2\",\"a3\"],\"old\":[],\"outcome\":\"applied\",\"place\":0,\"request\":0,\"rule\":\"three\",\"session\":0}
{\"outs\":{},\"places\":[0],\"reply\":\"ok\",\"request\":0,\"session\":0}
{\"graph\":[{\"attrs\":{},\"class\":\"Account\",\"name\":\"a1\",\"refs\":{}},{\"attrs\":{},\"class\":\"Client\",\"name\":\"c1\",\"refs\":{}},{\"attrs\":{},\"class\":\"Account\",\"name\":\"a2\",\"refs\":{}},{\"attrs\":{},\"class\":\"Account\",\"name\":\"a3\",\"refs\":{}},{\"attrs\":{},\"class\":\"Client\",\"name\":\"#0\",\"refs\":{\"accounts\":[\"a3\",\"a1\"]}}]}
";

/// Two accounts are one too few for it.
const TWO: &str = "\"graph\": [
  {\"name\": \"a1\", \"class\": \"Account\"}, {\"name\": \"a2\", \"class\": \"Account\"}],
\"rules\": \"rule three() { preserve node x: Account; preserve node y: Account; preserve node z: Account; }\",
\"sessions\": [[{\"call\": \"three\"}]]}";

const TWO_MISSED: &str =
    "{\"args\":{},\"attempt\":0,\"outcome\":\"missed\",\"place\":0,\"request\":0,\"rule\":\"three\",\"session\":0}
{\"outs\":{},\"places\":[0],\"reply\":\"nomatch\",\"request\":0,\"session\":0}
{\"graph\":[{\"attrs\":{},\"class\":\"Account\",\"name\":\"a1\",\"refs\":{}},{\"attrs\":{},\"class\":\"Account\",\"name\":\"a2\",\"refs\":{}}]}
";

/// A box, and a rule that makes another of a class below it, inside the first; what a box has is
/// left out, or inherited.
const WIDE: &str = "{\"meta\": {\"classes\": [
  {\"name\": \"Thing\", \"abstract\": true, \"attributes\": [{\"name\": \"label\", \"type\": \"EString\", \"default\": \"new\"}], \"references\": [{\"name\": \"parts\", \"target\": \"Thing\", \"containment\": true, \"upper\": -1}]},
  {\"name\": \"Box\", \"supers\": [\"Thing\"], \"attributes\": [{\"name\": \"size\", \"type\": \"EInt\"}]}]},
\"graph\": [{\"name\": \"#6\", \"class\": \"Box\", \"attrs\": {\"label\": \"old\"}}],
\"rules\": \"rule fill() { preserve node t: Thing; create node b: Box; create edge t -> b: parts; }\",
\"sessions\": [[{\"call\": \"fill\"}]]}";

const FILLED: &str =
    "{\"args\":{},\"attempt\":0,\"copies\":[],\"edges\":[],\"gone\":[],\"new\":[\"#7\"],\"nodes\":[\"#6\"],\"old\":[],\"outcome\":\"applied\",\"place\":0,\"request\":0,\"rule\":\"fill\",\"session\":0}
{\"outs\":{},\"places\":[0],\"reply\":\"ok\",\"request\":0,\"session\":0}
{\"graph\":[{\"attrs\":{\"label\":\"old\",\"size\":0},\"class\":\"Box\",\"name\":\"#6\",\"refs\":{\"parts\":[\"#7\"]}},{\"attrs\":{\"label\":\"new\",\"size\":0},\"class\":\"Box\",\"name\":\"#7\",\"refs\":{}}]}
";

/// An account that two clients own.
const OWNED: &str = "{\"meta\": {\"classes\": [
  {\"name\": \"Client\", \"references\": [{\"name\": \"accounts\", \"target\": \"Account\", \"upper\": -1}]},
  {\"name\": \"Account\", \"attributes\": [{\"name\": \"balance\", \"type\": \"EInt\"}], \"references\": [{\"name\": \"owner\", \"target\": \"Client\"}]}]},
\"graph\": [{\"name\": \"c1\", \"class\": \"Client\"}, {\"name\": \"c2\", \"class\": \"Client\"},
  {\"name\": \"a1\", \"class\": \"Account\", \"refs\": {\"owner\": [\"c1\", \"c2\"]}}]}";

const OWNED_PROBLEMS: &str =
    "{\"object\":\"a1\",\"problem\":\"upper\",\"reference\":\"Account.owner\"}
{\"problems\":1}
";

/// Twenty objects, some of which have a problem of each kind.
const TWENTY: &str = "{\"meta\": {\"classes\": [{\"name\": \"N\", \"references\": [
  {\"name\": \"in\", \"target\": \"N\", \"containment\": true, \"upper\": -1},
  {\"name\": \"to\", \"target\": \"N\", \"lower\": 1, \"upper\": 2}]}]},
\"graph\": [
  {\"name\": \"o0\", \"class\": \"N\"}, {\"name\": \"o1\", \"class\": \"N\", \"refs\": {\"to\": [\"o0\", \"o0\", \"o0\"]}},
  {\"name\": \"o2\", \"class\": \"N\", \"refs\": {\"in\": [\"o3\"], \"to\": [\"o2\"]}}, {\"name\": \"o3\", \"class\": \"N\", \"refs\": {\"in\": [\"o4\"]}},
  {\"name\": \"o4\", \"class\": \"N\", \"refs\": {\"in\": [\"o2\", \"o5\"], \"to\": [\"o0\"]}}, {\"name\": \"o5\", \"class\": \"N\", \"refs\": {\"to\": [\"o0\"]}},
  {\"name\": \"o6\", \"class\": \"N\", \"refs\": {\"in\": [\"o6\"], \"to\": [\"o0\"]}}, {\"name\": \"o7\", \"class\": \"N\", \"refs\": {\"in\": [\"o5\"], \"to\": [\"o0\"]}},
  {\"name\": \"o8\", \"class\": \"N\", \"refs\": {\"to\": [\"o9\"]}}, {\"name\": \"o9\", \"class\": \"N\", \"refs\": {\"to\": [\"o8\"]}},
  {\"name\": \"p0\", \"class\": \"N\", \"refs\": {\"to\": [\"o0\"]}}, {\"name\": \"p1\", \"class\": \"N\", \"refs\": {\"to\": [\"o0\"]}},
  {\"name\": \"p2\", \"class\": \"N\", \"refs\": {\"to\": [\"o0\"]}}, {\"name\": \"p3\", \"class\": \"N\", \"refs\": {\"to\": [\"o0\"]}},
  {\"name\": \"p4\", \"class\": \"N\", \"refs\": {\"to\": [\"o0\"]}}, {\"name\": \"p5\", \"class\": \"N\", \"refs\": {\"to\": [\"o0\"]}},
  {\"name\": \"p6\", \"class\": \"N\", \"refs\": {\"to\": [\"o0\"]}}, {\"name\": \"p7\", \"class\": \"N\", \"refs\": {\"to\": [\"o0\"]}},
  {\"name\": \"p8\", \"class\": \"N\", \"refs\": {\"to\": [\"o0\"]}}, {\"name\": \"p9\", \"class\": \"N\", \"refs\": {\"to\": [\"o0\"], \"in\": [\"p8\", \"o5\"]}}]}";

const TWENTY_PROBLEMS: &str = "{\"object\":\"o0\",\"problem\":\"lower\",\"reference\":\"N.to\"}
{\"object\":\"o1\",\"problem\":\"upper\",\"reference\":\"N.to\"}
{\"object\":\"o2\",\"problem\":\"cycle\"}
{\"object\":\"o3\",\"problem\":\"lower\",\"reference\":\"N.to\"}
{\"object\":\"o3\",\"problem\":\"cycle\"}
{\"object\":\"o4\",\"problem\":\"cycle\"}
{\"object\":\"o5\",\"problem\":\"containers\"}
{\"object\":\"o6\",\"problem\":\"cycle\"}
{\"problems\":8}
";

/// A rule, and a unit that calls it, as they may be written.
const LONE: &str = "{\"meta\": {\"classes\": [{\"name\": \"Client\"}]},
\"rules\": \"rule lone(out c:Client){create node c:Client;} unit many ( )loop{lone();}\"}";

const LONE_PRINTED: &str = "rule lone(out c: Client) {
  create node c: Client;
}

unit many() loop {
  lone();
}
";

/// Bundles that are refused, each with its status's number and its line.
const REFUSED: [(u8, &str, &str); 18] = [
    (5, "henshin: bad-json", ""),
    (5, "henshin: bad-json", "{\"meta\": {\"classes\": []}"),
    (6, "henshin: bad-bundle /", "[]"),
    (6, "henshin: bad-bundle /meta", "{}"),
    (
        6,
        "henshin: bad-bundle /graphs",
        "{\"rule\": 1, \"graphs\": [], \"meta\": 5}",
    ),
    (
        6,
        "henshin: bad-bundle /rules",
        "{\"meta\": {}, \"rules\": 1}",
    ),
    (
        7,
        "henshin: bad-model /meta/class form",
        "{\"meta\": {\"class\": []}, \"graph\": 1}",
    ),
    (
        7,
        "henshin: bad-model /meta/classes/0 supercycle",
        "{\"meta\": {\"classes\": [{\"name\": \"A\", \"supers\": [\"B\"]}, {\"name\": \"B\", \"supers\": [\"A\"]}]}}",
    ),
    (
        8,
        "henshin: bad-graph /graph/0 abstract",
        "{\"meta\": {\"classes\": [{\"name\": \"A\", \"abstract\": true}, {\"name\": \"B\", \"supers\": [\"A\"]}]}, \"graph\": [{\"name\": \"a\", \"class\": \"A\"}], \"rules\": \"(\"}",
    ),
    (
        9,
        "henshin: bad-text 1:9 order",
        "{\"meta\": {\"classes\": []}, \"rules\": \"rule r( {\"}",
    ),
    (
        9,
        "henshin: bad-text 2:1 end",
        "{\"meta\": {\"classes\": []}, \"rules\": \"rule\\n\"}",
    ),
    (
        10,
        "henshin: bad-rule 1:40 writeondeleted",
        "{\"meta\": {\"classes\": [{\"name\": \"Account\"}]}, \"rules\": \"rule r() { delete node x: Account; set x.balance = 1; } unit r() sequential { }\"}",
    ),
    (
        11,
        "henshin: bad-unit 1:6 unitcycle",
        "{\"meta\": {\"classes\": []}, \"rules\": \"unit a() sequential { b(); } unit b() sequential { a(); }\", \"sessions\": 5}",
    ),
    (
        21,
        "henshin: not-built",
        "{\"meta\": {\"classes\": []}, \"journal\": {}}",
    ),
    (
        21,
        "henshin: not-built",
        "{\"meta\": {\"classes\": []}, \"sessions\": [[]]}",
    ),
    (
        21,
        "henshin: not-built",
        "{\"meta\": {\"classes\": []}, \"rules\": \"rule r() { }\", \"sessions\": [[{\"call\": \"s\"}]]}",
    ),
    (
        21,
        "henshin: not-built",
        "{\"meta\": {\"classes\": []}, \"rules\": \"rule r() { }\", \"sessions\": [[{\"call\": \"r\", \"fuel\": 1000}]]}",
    ),
    (
        21,
        "henshin: not-built",
        "{\"meta\": {\"classes\": [{\"name\": \"Account\"}]}, \"rules\": \"rule r() { delete node a: Account; }\", \"sessions\": [[{\"call\": \"r\"}]]}",
    ),
];

/// What a run is over: how the source and the sink move bytes, and which of their calls fail.
#[derive(Clone, Copy)]
struct Setting {
    read_piece: usize,
    failing_read: u32,
    room: usize,
    write_piece: usize,
    failing_write: u32,
    ghost reads: { 1 ≤ read_piece },
    ghost writes: { 1 ≤ write_piece },
}

/// Everything is read and written at once, and no call fails: calls are numbered from 1.
fn plain() -> Setting {
    Setting {
        read_piece: 4096,
        failing_read: 0,
        room: 4096,
        write_piece: 4096,
        failing_write: 0,
    }
}

/// What a run reported and wrote.
#[derive(Drop)]
struct Ended {
    number: u8,
    line: Option<Text>,
    written: Vec<u8>,
    reported: bool,
}

impl Ended {
    fn is(&self, number: u8, line: &str, written: &str) -> bool {
        let reported = match &self.line {
            Some(line) => line.as_str(),
            None => "",
        };
        self.number == number && reported == line && self.written.as_slice() == written.as_bytes()
    }
}

fn bundle(alloc: Global, front: &str, rest: &str) -> Result<List<u8>, AllocError> {
    let mut bytes = Vec::from_slice(alloc, front.as_bytes())?;
    bytes.extend_from_slice(rest.as_bytes())?;
    Ok(List::from_vec(bytes))
}

fn one_call(alloc: Global, number: u32) -> Result<List<u32>, AllocError> {
    Ok(List::from_vec(vec![in alloc; number]?))
}

/// Runs the program with these words over memory.
fn ran(
    alloc: Global,
    words: &[&str],
    bytes: List<u8>,
    setting: Setting,
) -> Result<Ended, AllocError> {
    let mut source = SourceMem::new(
        bytes,
        setting.read_piece,
        one_call(alloc, setting.failing_read)?,
    );
    let mut sink = SinkMem::new(
        alloc,
        setting.room,
        setting.write_piece,
        one_call(alloc, setting.failing_write)?,
    )?;
    let mut given = Vec::new(alloc);
    for word in words {
        given.push(String::from_str(alloc, word)?)?;
    }
    let outcome = once(alloc, given.as_slice(), &mut source, &mut sink);
    Ok(Ended {
        number: outcome.status.number(),
        line: fault_line(alloc, &outcome.status)?,
        written: Vec::from_slice(alloc, sink.written())?,
        reported: outcome.report.is_some(),
    })
}

fn ran_plainly(alloc: Global, word: &str, front: &str, rest: &str) -> Result<Ended, AllocError> {
    ran(alloc, &[word], bundle(alloc, front, rest)?, plain())
}

#[test]
fn apply_writes_the_report_of_the_least_match(rt: HostRuntime) -> Result<(), Fail> {
    for (bundle, text) in [
        (OPEN, OPENED),
        (PAIR, MISSED),
        (JOIN, JOINED),
        (FOUR, FOUR_PAIRED),
        (ROUND, ROUND_PAIRED),
        (THREE, THREE_FOUND),
        (TWO, TWO_MISSED),
    ] {
        let ended = ran_plainly(rt.alloc(), "apply", META, bundle)?;
        assert!(rt; ended.is(0, "", text), "{bundle}");
        assert!(rt; ended.reported);
    }
    Ok(())
}

#[test]
fn apply_goes_by_conformance_and_fills_in_defaults(rt: HostRuntime) -> Result<(), Fail> {
    let ended = ran_plainly(rt.alloc(), "apply", WIDE, "")?;
    assert!(rt; ended.is(0, "", FILLED));
    Ok(())
}

#[test]
fn apply_writes_the_graph_alone_where_nothing_is_asked(rt: HostRuntime) -> Result<(), Fail> {
    let ended = ran_plainly(
        rt.alloc(),
        "apply",
        "{\"journal\": [], \"sessions\": [], \"meta\": {\"classes\": [{\"name\": \"A\"}]}, \"graph\": [{\"name\": \"a\", \"class\": \"A\"}], \"rules\": \"rule r(in a: A) { delete node a: A; }\"}",
        "",
    )?;
    let text = "{\"graph\":[{\"attrs\":{},\"class\":\"A\",\"name\":\"a\",\"refs\":{}}]}\n";
    assert!(rt; ended.is(0, "", text));
    assert!(rt; ended.reported);
    Ok(())
}

#[test]
fn validate_writes_the_problems_of_the_graph(rt: HostRuntime) -> Result<(), Fail> {
    for (bundle, text) in [
        (WIDE, "{\"problems\":0}\n"),
        (OWNED, OWNED_PROBLEMS),
        (TWENTY, TWENTY_PROBLEMS),
    ] {
        let ended = ran_plainly(rt.alloc(), "validate", bundle, "")?;
        assert!(rt; ended.is(0, "", text), "{bundle}");
        assert!(rt; !ended.reported);
    }
    Ok(())
}

#[test]
fn check_writes_the_canonical_text(rt: HostRuntime) -> Result<(), Fail> {
    for (bundle, text) in [(LONE, LONE_PRINTED), (OWNED, "")] {
        let ended = ran_plainly(rt.alloc(), "check", bundle, "")?;
        assert!(rt; ended.is(0, "", text), "{bundle}");
        assert!(rt; !ended.reported);
    }
    Ok(())
}

#[test]
fn each_command_tells_each_refusal_and_writes_nothing(rt: HostRuntime) -> Result<(), Fail> {
    for (number, line, bundle) in REFUSED {
        for word in ["apply", "validate", "check"] {
            let ended = ran_plainly(rt.alloc(), word, bundle, "")?;
            assert!(rt; ended.is(number, line, ""), "{word} {bundle}");
            assert!(rt; !ended.reported);
        }
    }
    Ok(())
}

#[test]
fn bytes_that_are_no_text_are_no_json(rt: HostRuntime) -> Result<(), Fail> {
    let alloc = rt.alloc();
    let nested = vec![in alloc; b'['; 4096]?;
    for bytes in [b"\xff\xfe".as_slice(), nested.as_slice()] {
        let bytes = List::from_vec(Vec::from_slice(alloc, bytes)?);
        let ended = ran(alloc, &["validate"], bytes, plain())?;
        assert!(rt; ended.is(5, "henshin: bad-json", ""));
    }
    Ok(())
}

#[test]
fn reads_and_writes_in_whatever_pieces(rt: HostRuntime) -> Result<(), Fail> {
    let alloc = rt.alloc();
    for piece in [1, 7, 16] {
        let setting = Setting {
            read_piece: piece,
            failing_read: 0,
            room: 4096,
            write_piece: piece,
            failing_write: 0,
        };
        let ended = ran(alloc, &["apply"], bundle(alloc, META, OPEN)?, setting)?;
        assert!(rt; ended.is(0, "", OPENED), "pieces of {piece}");
    }
    Ok(())
}

#[test]
fn a_cut_bundle_in_pieces_is_no_json(rt: HostRuntime) -> Result<(), Fail> {
    let alloc = rt.alloc();
    let setting = Setting {
        read_piece: 16,
        failing_read: 0,
        room: 4096,
        write_piece: 16,
        failing_write: 0,
    };
    let mut bytes = bundle(alloc, META, OPEN)?.into_vec();
    let _ = bytes.pop();
    let ended = ran(alloc, &["apply"], List::from_vec(bytes), setting)?;
    assert!(rt; ended.is(5, "henshin: bad-json", ""));
    Ok(())
}

#[test]
fn ends_at_the_read_that_fails(rt: HostRuntime) -> Result<(), Fail> {
    let alloc = rt.alloc();
    // 22 reads of 16 bytes at most; the last one finds the end.
    for failing_read in 1..23 {
        let setting = Setting {
            read_piece: 16,
            failing_read,
            room: 4096,
            write_piece: 16,
            failing_write: 0,
        };
        let ended = ran(alloc, &["apply"], bundle(alloc, META, OPEN)?, setting)?;
        assert!(rt; ended.is(3, "henshin: read", ""), "read {failing_read}");
    }
    Ok(())
}

#[test]
fn ends_at_the_write_that_fails_behind_a_front_of_the_text(rt: HostRuntime) -> Result<(), Fail> {
    let alloc = rt.alloc();
    for failing_write in 1..20 {
        let setting = Setting {
            read_piece: 4096,
            failing_read: 0,
            room: 4096,
            write_piece: 16,
            failing_write,
        };
        let ended = ran(alloc, &["apply"], bundle(alloc, META, OPEN)?, setting)?;
        assert_eq!(rt; ended.number, 18, "write {failing_write}");
        assert!(rt; ended.reported);
        assert_eq!(rt;
            ended.written.len(),
            (failing_write as usize - 1) * 16,
            "write {failing_write}"
        );
        assert!(rt; OPENED.as_bytes().starts_with(ended.written.as_slice()));
    }
    Ok(())
}

#[test]
fn tells_a_sink_without_room(rt: HostRuntime) -> Result<(), Fail> {
    let alloc = rt.alloc();
    let setting = Setting {
        read_piece: 4096,
        failing_read: 0,
        room: 0,
        write_piece: 1,
        failing_write: 0,
    };
    let ended = ran(alloc, &["validate"], bundle(alloc, OWNED, "")?, setting)?;
    assert!(rt; ended.is(18, "henshin: write", ""));
    Ok(())
}

/// Checks that these words are refused, and nothing is written.
fn refuses_words(rt: &impl Abort, alloc: Global, words: &[&str]) -> Result<(), AllocError> {
    let ended = ran(alloc, words, bundle(alloc, META, OPEN)?, plain())?;
    assert!(rt; ended.is(2, "henshin: usage", ""));
    Ok(())
}

#[test]
fn takes_no_other_words(rt: HostRuntime) -> Result<(), Fail> {
    refuses_words(&rt, rt.alloc(), &[])?;
    refuses_words(&rt, rt.alloc(), &["run"])?;
    refuses_words(&rt, rt.alloc(), &["apply", "apply"])?;
    refuses_words(&rt, rt.alloc(), &["check", "validate"])?;
    refuses_words(&rt, rt.alloc(), &["Check"])?;
    refuses_words(&rt, rt.alloc(), &[""])?;
    Ok(())
}
