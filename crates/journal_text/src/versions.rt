//! The versions of a journal's text.
ghost use Rattle.std.specs.Prelude.{◌≡◌, ◌++◌, ℕ, List, MatchOption};
ghost use Rattle.journal_text.specs.Versions as spec;
ghost use Rattle.journal_text.specs.declared.versions.Version.{Version};

/// A version of the text. The second has one line more: a finish whose body may have names in quotes.
#[derive(Clone, Copy, PartialEq, Eq, Debug)]
pub enum Version {
    One,
    Two,
}

/// The first line of a text of version 1.
const FIRST_LINE: &[u8] = b"scrape-journal 1\n";

/// The first line of a text of version 2.
const SECOND_LINE: &[u8] = b"scrape-journal 2\n";

/// The first line of a text of that version.
pub(crate) fn first_line(version: Version) -> &'static [u8]
    ensures { result.now ≡ spec.first_line version }
{
    match version {
        Version::One => FIRST_LINE,
        Version::Two => SECOND_LINE,
    }
}

/// The version of a text by its first line, and what follows that.
pub(crate) fn version_of(bytes: &[u8]) -> Option<(Version, &[u8])>
    ensures { MatchOption result ((version : Version) (rest : List ℕ) → bytes.now ≡ spec.first_line version ++ rest → ⊥)
        (λ p. bytes.now ≡ spec.first_line p.0 ++ p.1.now) }
{
    if let Some(rest) = bytes.strip_prefix(FIRST_LINE) {
        return Some((Version::One, rest));
    }
    match bytes.strip_prefix(SECOND_LINE) {
        Some(rest) => Some((Version::Two, rest)),
        None => None,
    }
}
