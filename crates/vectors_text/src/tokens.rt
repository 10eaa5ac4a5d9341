use crate::rows::holds;
use js_tokens::*;
use std::alloc::Global;

/// A token, its place, and whether a line ends before it.
type Row = (TokenKind, &'static [u8], u64, bool);

/// The tokens of `a>>>=b--c`.
const LONGEST: &[Row] = &[
    (TokenKind::Name, b"a", 0, false),
    (TokenKind::Punct, b">>>=", 1, false),
    (TokenKind::Name, b"b", 5, false),
    (TokenKind::Punct, b"--", 6, false),
    (TokenKind::Name, b"c", 8, false),
];

/// Tokens of other kinds, between lines and comments.
const KINDS: &[Row] = &[
    (TokenKind::Number(255), b"0xfF", 1, true),
    (TokenKind::Decimal, b"5.", 16, true),
    (TokenKind::Decimal, b".5", 27, true),
    (TokenKind::Quoted, b"'a\"b'", 31, false),
    (TokenKind::Punct, b";", 36, false),
    (TokenKind::Decimal, b"18446744073709551616.0", 37, false),
];

fn is_token(token: &Token<'_>, row: &Row) -> bool {
    let (kind, text, at, line_before) = *row;
    token.kind == kind && token.text == text && token.at == at && token.line_before == line_before
}

fn are_tokens(found: &[Token<'_>], rows: &[Row]) -> bool {
    let mut are = found.len() == rows.len();
    for (token, row) in found.iter().zip(rows) {
        are &= is_token(token, row);
    }
    are
}

fn has_tokens(alloc: Global, text: &[u8], wanted: Result<&[Row], TokenFault>) -> bool {
    match (tokens(alloc, text), wanted) {
        (Ok(found), Ok(rows)) => are_tokens(found.as_slice(), rows),
        (Err(found), Err(fault)) => found == fault,
        _ => false,
    }
}

/// Texts, and their tokens or their first fault.
static TEXTS: [(&[u8], Result<&[Row], TokenFault>); 18] = [
    (b"a>>>=b--c", Ok(LONGEST)),
    (
        b"\n0xfF // e\xcc\x81 \x0b\r\n5. /* \n */ .5\x0b\t'a\"b';18446744073709551616.0",
        Ok(KINDS),
    ),
    (b"08", Err(TokenFault::LiteralForm { at: 0 })),
    (
        b"18446744073709551616",
        Err(TokenFault::LiteralForm { at: 0 }),
    ),
    (b"0x", Err(TokenFault::LiteralForm { at: 0 })),
    (
        b"0x10000000000000000",
        Err(TokenFault::LiteralForm { at: 0 }),
    ),
    (b"1.5.2", Err(TokenFault::LiteralForm { at: 0 })),
    (b"1e5", Err(TokenFault::LiteralForm { at: 0 })),
    (b"a 5.e", Err(TokenFault::LiteralForm { at: 2 })),
    (b"x='ab", Err(TokenFault::BadToken { at: 2 })),
    (b"'a\\n'", Err(TokenFault::BadToken { at: 0 })),
    (b"'\xc3\xa9'", Err(TokenFault::BadToken { at: 0 })),
    (b"a @", Err(TokenFault::BadToken { at: 2 })),
    (b"a /*/", Err(TokenFault::OpenComment { at: 2 })),
    (b"a \xc3\xa9", Err(TokenFault::NonAscii { at: 2 })),
    (b"// \xe2\x80\xa8", Err(TokenFault::NonAscii { at: 3 })),
    (b"/* \xe2\x80\xa9 */", Err(TokenFault::NonAscii { at: 3 })),
    (b"/* \xe2\x80\xa9 ", Err(TokenFault::OpenComment { at: 0 })),
];

#[test]
fn tokens_and_faults(rt: HostRuntime) {
    for (number, (text, wanted)) in TEXTS.iter().enumerate() {
        holds(&rt, number, has_tokens(rt.alloc(), text, *wanted));
    }
}

/// What stands next in a text.
enum Coming {
    Token(&'static [u8]),
    End,
    /// A literal of no form, at a place.
    Literal(u64),
}

fn is_next(scanner: &mut Scanner<'_>, wanted: &Coming) -> bool {
    match (scanner.next(), wanted) {
        (Next::Token(token), Coming::Token(text)) => token.text == *text,
        (Next::End, Coming::End) => true,
        (Next::Fault(TokenFault::LiteralForm { at }), Coming::Literal(place)) => at == *place,
        _ => false,
    }
}

#[test]
fn one_by_one(rt: HostRuntime) {
    let mut scanner = Scanner::new(b"a /* b */ -- 08");
    let fault = Some(TokenFault::LiteralForm { at: 13 });
    holds(&rt, 0, scanner.fault() == fault);
    holds(&rt, 1, is_next(&mut scanner, &Coming::Token(b"a")));
    holds(&rt, 2, scanner.at == 1);
    holds(&rt, 3, is_next(&mut scanner, &Coming::Token(b"--")));
    holds(&rt, 4, is_next(&mut scanner, &Coming::Literal(13)));
}

#[test]
fn to_the_end(rt: HostRuntime) {
    let mut scanner = Scanner::new(b"\n0 // c");
    holds(&rt, 0, scanner.fault().is_none());
    holds(&rt, 1, is_next(&mut scanner, &Coming::Token(b"0")));
    holds(&rt, 2, is_next(&mut scanner, &Coming::End));
}

/// Texts, and the length of the token at their front.
static FRONTS: [(&[u8], usize); 8] = [
    (b"", 0),
    (b"@", 0),
    (b" a", 0),
    (b"name1+", 5),
    (b"1.5.2", 3),
    (b"--1", 2),
    (b"-1", 1),
    (b">>>=a", 4),
];

#[test]
fn longest_at_the_front(rt: HostRuntime) {
    for (number, (text, len)) in FRONTS.iter().enumerate() {
        holds(&rt, number, token_len(text) == *len);
    }
}
