//! The texts in quotes.
ghost use Rattle.std.specs.Prelude.{◌≡◌};
ghost use Rattle.expo_reader.specs.Texts as spec;
ghost use Rattle.instant_view.specs.Faults.{Finds};
ghost use Rattle.instant_view.specs.Grammar.{is_one_line};

use crate::matchers::SelectorError;
use expo_reader::texts::resolved;
use label_set::Name;
use std::alloc::Global;

/// Whether no line feed stands in a text.
#[tactic(auto, unfolding(crate::specs::Grammar::is_one_line))]
pub fn is_one_line(text: &[u8]) -> bool
    ensures { result ≡ is_one_line text.now }
{
    text.iter().all(|b| *b != b'\n')
}

/// The value that a text in quotes writes, where it is UTF-8, with its escapes resolved.
pub fn text_value(alloc: Global, text: &[u8]) -> Result<Name, SelectorError>
    ensures { Finds (λ n. n) result (spec.text_value text.now) }
{
    let bytes = resolved(alloc, text)?;
    match String::from_utf8(bytes) {
        Ok(text) => Ok(Name { text }),
        Err(_) => Err(SelectorError::Syntax),
    }
}
