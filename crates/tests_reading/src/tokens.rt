//! The tokens of a line.

use crate::shared::holds;
use expo_lexer::{Lexer, Token, TokenKind};
use std::process::Abort;

/// The tokens of the line `x{a="\"}" ,}`, a tab, `1 "b`.
const TOKENS: &[(TokenKind, usize, usize)] = &[
    (TokenKind::Word, 0, 1),
    (TokenKind::LeftBrace, 1, 2),
    (TokenKind::Word, 2, 3),
    (TokenKind::Equals, 3, 4),
    (TokenKind::Quoted, 4, 9),
    (TokenKind::Comma, 10, 11),
    (TokenKind::RightBrace, 11, 12),
    (TokenKind::Word, 13, 14),
    (TokenKind::Torn, 15, 17),
];

pub(crate) fn tokens_have_kinds_and_spans(rt: &impl Abort) {
    let mut lexer = Lexer::over(b"x{a=\"\\\"}\" ,}\t1 \"b");
    for &(kind, start, end) in TOKENS {
        let wanted = Token { kind, start, end };
        holds(rt, lexer.next() == Some(wanted), "a token");
    }
    holds(rt, lexer.next().is_none(), "the end");
}
