//! What a token is.

/// The kind of a token.
#[derive(Clone, Copy, PartialEq, Eq, Debug)]
pub enum TokenKind {
    /// A longest run of bytes that are no blank and begin no other token.
    Word,
    /// `{`
    LeftBrace,
    /// `}`
    RightBrace,
    /// `,`
    Comma,
    /// `=`
    Equals,
    /// A text from its `"` through the next `"` that no backslash escapes.
    Quoted,
    /// What begins as a quoted text and ends with the line, before a `"` closes it.
    Torn,
}

/// A token: its kind and its span in the line, in bytes, `end` excluded.
#[derive(Clone, Copy, PartialEq, Eq, Debug)]
pub struct Token {
    pub kind: TokenKind,
    pub start: usize,
    pub end: usize,
}
