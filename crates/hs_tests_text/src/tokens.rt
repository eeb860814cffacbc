//! Tokens.

use hs_expr::{Failure, Span};
use hs_tokens::{
    FaultKind, Kind, Position, Scanned, TextFault, Token, each_is_lexed, lexed_once, lexemes_begin,
    positions_move, tokenize,
};
use std::alloc::Global;
use std::test::Fail;

fn scanned(alloc: Global, text: &str) -> Result<Scanned, Failure<TextFault>> {
    let chars: Vec<char> = text.chars().collect(alloc)?;
    tokenize(alloc, chars.as_slice())
}

fn span(start: usize, end: usize, line: usize, column: usize) -> Span {
    Span {
        start,
        end,
        line,
        column,
    }
}

/// Whether these are the tokens of the text, by kind and position.
fn has_tokens(scanned: &Scanned, wanted: &[(Kind, Span)]) -> bool {
    scanned.tokens.len() == wanted.len()
        && scanned.tokens.iter().zip(wanted.iter()).all(|(token, (kind, span))| token.kind.is(*kind)
            && token.span == *span)
}

#[test]
fn tokens_have_their_kinds_and_places(rt: HostRuntime) -> Result<(), Fail> {
    let Ok(found) = scanned(rt.alloc(), "rule ruler // é\n\t\"é\\\"\"->x_1") else {
        return Err("no tokens".into());
    };
    let wanted = [
        (Kind::Rule, span(0, 4, 1, 1)),
        (Kind::Name, span(5, 10, 1, 6)),
        (Kind::Text, span(17, 22, 2, 2)),
        (Kind::Arrow, span(22, 24, 2, 7)),
        (Kind::Name, span(24, 27, 2, 9)),
    ];
    assert!(rt; has_tokens(&found, &wanted));
    assert_eq!(rt; found.end.index, 27);
    assert_eq!(rt; found.end.line, 2);
    assert_eq!(rt; found.end.column, 12);
    Ok(())
}

#[test]
fn the_longest_token_is_taken(rt: HostRuntime) -> Result<(), Fail> {
    let Ok(found) = scanned(rt.alloc(), "<=<>==1and") else {
        return Err("no tokens".into());
    };
    let wanted = [
        (Kind::AtMost, span(0, 2, 1, 1)),
        (Kind::Less, span(2, 3, 1, 3)),
        (Kind::AtLeast, span(3, 5, 1, 4)),
        (Kind::Assign, span(5, 6, 1, 6)),
        (Kind::Int, span(6, 7, 1, 7)),
        (Kind::And, span(7, 10, 1, 8)),
    ];
    assert!(rt; has_tokens(&found, &wanted));
    Ok(())
}

#[test]
fn integers_have_their_values(rt: HostRuntime) -> Result<(), Fail> {
    let Ok(found) = scanned(rt.alloc(), "007 9223372036854775807") else {
        return Err("no tokens".into());
    };
    let numbers: Vec<i64> = found
        .tokens
        .iter()
        .map(|token| token.number)
        .collect(rt.alloc())?;
    assert_eq!(rt; numbers.as_slice(), [7, 9223372036854775807].as_slice());
    Ok(())
}

fn failure_of(alloc: Global, text: &str) -> Option<Failure<TextFault>> {
    match scanned(alloc, text) {
        Ok(_) => None,
        Err(failure) => Some(failure),
    }
}

#[test]
fn the_first_wrong_token_is_reported(rt: HostRuntime) {
    let cases = [
        (
            "a\n é",
            Position {
                index: 3,
                line: 2,
                column: 2,
            },
            FaultKind::Character,
        ),
        ("\"a", Position::START, FaultKind::Character),
        ("9223372036854775808 @", Position::START, FaultKind::Number),
    ];
    for (text, position, kind) in cases {
        assert_eq!(rt;
            failure_of(rt.alloc(), text),
            Some(Failure::Fault(position.fault(kind))),
            "{text}"
        );
    }
}

#[test]
fn positions_go_on_by_characters(rt: HostRuntime) -> Result<(), Fail> {
    let cases = [("// é", 4, 1, 5), ("// é\n", 5, 2, 1)];
    for (text, index, line, column) in cases {
        let Ok(found) = scanned(rt.alloc(), text) else {
            return Err("no tokens".into());
        };
        let end = Position {
            index,
            line,
            column,
        };
        assert_eq!(rt; found.end, end);
    }
    assert!(rt; Token::NONE.kind.is(Kind::Name));
    Ok(())
}

#[test]
fn kinds_have_their_words(rt: HostRuntime) {
    assert_eq!(rt; FaultKind::Character.word(), "character");
    assert_eq!(rt; FaultKind::Number.word(), "number");
    assert_eq!(rt; FaultKind::Order.word(), "order");
    assert_eq!(rt; FaultKind::End.word(), "end");
}

#[test]
fn the_laws_are_calls(_rt: HostRuntime) {
    each_is_lexed();
    lexed_once();
    lexemes_begin();
    positions_move();
}
