//! Texts that are parsed.

use hs_expr::{Failure, Piece, Sign};
use hs_text::{Definition, FaultKind, Item, Simple, TextFault, parse};
use std::alloc::{AllocError, Global};
use std::test::Fail;

fn failure_of(alloc: Global, text: &str) -> Option<Failure<TextFault>> {
    match parse(alloc, text) {
        Ok(_) => None,
        Err(failure) => Some(failure),
    }
}

fn fault_at(line: usize, column: usize, kind: FaultKind) -> Option<Failure<TextFault>> {
    Some(Failure::Fault(TextFault { line, column, kind }))
}

#[test]
fn wrong_tokens_come_first(rt: HostRuntime) {
    let cases = [
        ("#", 1, 1, FaultKind::Character),
        ("rule r() { @ }", 1, 12, FaultKind::Character),
        ("rule r() { }\n\"open", 2, 1, FaultKind::Character),
        ("rule r() { where \"\\q\"; }", 1, 18, FaultKind::Character),
        ("rule r() { where \"a\tb\"; }", 1, 18, FaultKind::Character),
        ("rule rule #", 1, 11, FaultKind::Character),
        ("rule r() { } /", 1, 14, FaultKind::Character),
        ("9223372036854775808", 1, 1, FaultKind::Number),
        (
            "rule rule x 9223372036854775808 #",
            1,
            13,
            FaultKind::Number,
        ),
    ];
    for (text, line, column, kind) in cases {
        assert_eq!(rt;
            failure_of(rt.alloc(), text),
            fault_at(line, column, kind),
            "{text}"
        );
    }
}

#[test]
fn order_faults_stand_at_the_first_wrong_token(rt: HostRuntime) {
    let cases = [
        ("x", 1, 1, FaultKind::Order),
        (
            "rule r() { preserve node set: A; }",
            1,
            26,
            FaultKind::Order,
        ),
        ("rule r() { where a < b < c; }", 1, 24, FaultKind::Order),
        ("rule r() { where a->b; }", 1, 19, FaultKind::Order),
        ("rule r() { where \"é\" == 1 ); }", 1, 27, FaultKind::Order),
        ("rule r()\r\n{ x }", 2, 3, FaultKind::Order),
        ("unit u() loop { }", 1, 17, FaultKind::Order),
        ("unit u() loop { r(a>=b); }", 1, 20, FaultKind::Order),
        ("rule r() { } }", 1, 14, FaultKind::Order),
        (
            "rule aaaaaaaaaaaaaaaaaaaaaaaaaaaaaaaaaaaaaaaaaaaaaaaaaaaaaaaaaaaaaaaaa() { }",
            1,
            70,
            FaultKind::Order,
        ),
    ];
    for (text, line, column, kind) in cases {
        assert_eq!(rt;
            failure_of(rt.alloc(), text),
            fault_at(line, column, kind),
            "{text}"
        );
    }
}

#[test]
fn an_unfinished_text_ends_after_its_last_character(rt: HostRuntime) {
    let cases = [
        ("rule", 1, 5),
        ("rule r() {\n", 2, 1),
        ("rule r() { where a // b", 1, 24),
        ("rule r() { where \"é\"", 1, 21),
    ];
    for (text, line, column) in cases {
        assert_eq!(rt;
            failure_of(rt.alloc(), text),
            fault_at(line, column, FaultKind::End),
            "{text}"
        );
    }
}

#[test]
fn texts_of_the_grammar_are_read(rt: HostRuntime) {
    let texts = [
        "",
        "// a\n// b",
        "rule r() { } // end",
        "rule r() { set x.in = 1; }",
        "rule r() { preserve node x: rule; create node y: B; delete edge x -> y: set; }",
        "rule r(in a: A, out b: int) { where 9223372036854775807 == - - 1; where not not true; }",
        "rule r() { forbid { node x: A; edge x -> y: z; } require { } multi { where (a); set x.y = \"\\\"\"; } }",
        "rule r() { where 1and 2 == 2; }",
        "unit a() sequential { } unit b() independent { r(); } unit c() priority { r(); s(); }",
        "unit d() conditional { if r(); then r(); } unit e() conditional { if r(); then r(); else s(); }",
        "unit f() loop { r(); } unit g() iterated 3 { r(); }",
        "unit h(in k: int) iterated k { r(a = -1, b = \"x\", c = true, d = false, e = k, f > v); }",
    ];
    for text in texts {
        assert_eq!(rt; failure_of(rt.alloc(), text), None, "{text}");
    }
}

fn letter(piece: &Piece) -> char {
    match piece {
        Piece::Int { .. } => 'i',
        Piece::Text { .. } => 't',
        Piece::Bool { .. } => 'b',
        Piece::Name(_) => 'n',
        Piece::Slot { .. } => 's',
        Piece::Not { .. } => '!',
        Piece::Minus { .. } => 'm',
        Piece::Binary { sign, .. } => match sign {
            Sign::Or => '|',
            Sign::And => '&',
            Sign::Equal => '=',
            Sign::Greater => '>',
            Sign::Minus => '-',
            Sign::Times => '*',
            _ => '?',
        },
    }
}

fn letters(alloc: Global, pieces: &[Piece]) -> Result<String, AllocError> {
    pieces.iter().map(|piece| letter(piece)).collect(alloc)
}

#[test]
fn chains_associate_to_the_left(rt: HostRuntime) -> Result<(), Fail> {
    let text = "rule r() { where 1 - 2 - 3 == x.y and not p or -4 * q > (0); }";
    let Ok(syntax) = parse(rt.alloc(), text) else {
        return Err("no syntax".into());
    };
    let Some(Definition::Rule(rule)) = syntax.definitions.get(0) else {
        return Err("no rule".into());
    };
    assert_eq!(rt; rule.name.text.as_str(), "r");
    assert_eq!(rt; rule.name.span.start, 5);
    assert_eq!(rt; rule.name.span.end, 6);
    assert_eq!(rt; rule.name.span.column, 6);
    let Some(Item::Simple(Simple::Where { word, test })) = rule.items.get(0) else {
        return Err("no condition".into());
    };
    assert_eq!(rt; word.column, 12);
    let found = letters(rt.alloc(), test.pieces.as_slice())?;
    assert_eq!(rt; found.as_str(), "ii-i-s=n!&imn*i>|");
    Ok(())
}

#[test]
fn texts_mean_their_escapes(rt: HostRuntime) -> Result<(), Fail> {
    let Ok(syntax) = parse(rt.alloc(), "rule r() { where \"a\\\"b\\\\é\\n\\t\"; }") else {
        return Err("no syntax".into());
    };
    let Some(Definition::Rule(rule)) = syntax.definitions.get(0) else {
        return Err("no rule".into());
    };
    let Some(Item::Simple(Simple::Where { test, .. })) = rule.items.get(0) else {
        return Err("no condition".into());
    };
    let Some(Piece::Text { value, .. }) = test.pieces.get(0) else {
        return Err("no text".into());
    };
    assert_eq!(rt; value.as_str(), "a\"b\\é\n\t");
    Ok(())
}

fn repeated(alloc: Global, front: &str, part: &str, back: &str) -> Result<String, AllocError> {
    let mut text = String::from_str(alloc, front)?;
    for _ in 0..1_000_000 {
        text.push_str(part)?;
    }
    text.push_str(back)?;
    Ok(text)
}

#[test]
fn depth_overruns_nothing(rt: HostRuntime) -> Result<(), Fail> {
    for part in ["not ", "- ", "a + ", "(a + "] {
        let cut = repeated(rt.alloc(), "rule r() { where ", part, "")?;
        let end = 18 + 1_000_000 * part.len();
        assert_eq!(rt;
            failure_of(rt.alloc(), cut.as_str()),
            fault_at(1, end, FaultKind::End),
            "{part}"
        );
    }
    for part in ["not ", "- ", "a + "] {
        let whole = repeated(rt.alloc(), "rule r() { where ", part, "a; }")?;
        assert_eq!(rt; failure_of(rt.alloc(), whole.as_str()), None, "{part}");
    }
    let open = repeated(rt.alloc(), "rule r() { where ", "(", "a")?;
    let whole = repeated(rt.alloc(), open.as_str(), ")", "; }")?;
    assert_eq!(rt; failure_of(rt.alloc(), whole.as_str()), None);
    Ok(())
}
