//! Patterns and templates that need no search.
ghost use Rattle.std.specs.Prelude.{◌≡◌};
ghost use Rattle.std.specs.List.{list_all, list_any};
ghost use Rattle.std.specs.Str.{bytes_eq};
ghost use Rattle.pattern_rule.specs.Patterns.{is_dollar, is_word_byte};

#[tactic(auto, unfolding(crate::specs::Patterns::is_word_byte))]
fn is_sign_of_word(byte: u8) -> bool
    ensures { result ≡ is_word_byte byte }
{
    byte.is_ascii_alphanumeric() || byte == b'_' || byte == b'-' || byte == b':' || byte == b'/'
}

/// Whether a text is the word that it is matched with.
pub(crate) fn is_same(word: &str, text: &str) -> bool
    ensures { result ≡ bytes_eq word.now text.now }
{
    word == text
}

/// Whether all bytes stand for themselves in a pattern, so that it matches its own text alone.
pub(crate) fn is_word(bytes: &[u8]) -> bool
    ensures { result ≡ list_all is_word_byte bytes.now }
{
    bytes.iter().all(|b| is_sign_of_word(*b))
}

/// Whether a template may name a group.
pub(crate) fn has_dollar(bytes: &[u8]) -> bool
    ensures { result ≡ list_any is_dollar bytes.now }
{
    bytes.iter().any(|b| *b == b'$')
}
