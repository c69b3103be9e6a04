//! A lexer over one line.
ghost use Rattle.std.specs.Prelude.{◌≡◌, ◌≤◌, ◌<◌, length, IfSome, MatchOption, IsNone};
ghost use Rattle.expo_lexer.specs.Tokens.{token_after};

use crate::scan;
use crate::tokens::Token;
use std::marker::Model;

/// Goes over the tokens of a line.
#[derive(Drop, Debug)]
pub struct Lexer<'a> {
    line: &'a [u8],
    place: usize,
}

impl<'a> Model for Lexer<'a> {
    ghost use Rattle.std.specs.Prelude.{◌≤◌, length};
    ghost use Rattle.expo_lexer.specs.Tokens.{Scan};

    ghost Value = { Scan };

    ghost view = { λ l. record { line = l.line.now; place = l.place } };

    ghost invariant = { λ l. l.place ≤ length l.line.now };
}

impl<'a> Lexer<'a> {
    /// A lexer at the front of a line.
    pub fn over(line: &'a [u8]) -> Lexer<'a>
        ensures line { result.line ≡ line.now }
        ensures place { result.place ≡ 0 }
    {
        Lexer { line, place: 0 }
    }

    /// The next token, none at the end of the line.
    pub fn next(&mut self) -> Option<Token>
        ensures token { result ≡ token_after self.old.line self.old.place }
        ensures line { self.new.line ≡ self.old.line }
        ensures place { MatchOption result (self.new.place ≡ length self.old.line) (λ t. self.new.place ≡ t.end) }
        ensures rises { IfSome result (λ t. (self.old.place ≤ t.start) × (t.start < t.end) × (t.end ≤ length self.old.line)) }
    {
        let token = scan::token_after(self.line, self.place);
        self.place = match &token {
            Some(token) => token.end,
            None => self.line.len(),
        };
        token
    }
}
