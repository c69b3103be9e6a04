//! Templates, and what they write at a match.
ghost use Rattle.std.specs.Prelude.{◌≡◌, option_map, IfOk};
ghost use Rattle.regex.specs.Strings.{expansion_of, matcher_pattern, matcher_names};
ghost use Rattle.pattern_rule.specs.Patterns.{some_if, expansion, Searches};

use label_set::{Name, NoMemory};
use regex::{Captures, Matcher, Template};
use std::alloc::Global;
use std::marker::Model;

/// A template that was read for the groups of a pattern. Contracts see the texts of the pattern and of the template.
#[derive(Drop)]
pub struct Filling {
    pub(crate) pattern: Name,
    pub(crate) text: Name,
    pub(crate) template: Template,
    /// Whether it is `$1`.
    pub(crate) is_first: bool,
    /// Whether it has no `$`, so that it writes itself.
    pub(crate) is_plain: bool,
}

impl Model for Filling {
    ghost use Rattle.std.specs.Prelude.{◌≡◌, codes};
    ghost use Rattle.std.specs.Str.{bytes_eq};
    ghost use Rattle.regex.specs.Strings.{IsReadFrom};
    ghost use Rattle.pattern_rule.specs.Patterns.{TemplateOf, group_names};
    ghost use Rattle.pattern_rule.specs.Patterns as spec;

    ghost Value = { TemplateOf };

    ghost view = { λ f. record { pattern = f.pattern; text = f.text } };

    ghost invariant = { λ f. IsReadFrom (group_names f.pattern) f.text f.template
        × (f.is_first ≡ bytes_eq f.text (codes "$1")) × (f.is_plain ≡ spec.is_plain f.text) };
}

impl Filling {
    /// The template's text, where it is wanted.
    pub(crate) fn text_if(&self, alloc: Global, wanted: bool) -> Result<Option<Name>, NoMemory>
        ensures { IfOk result (λ o. o ≡ some_if wanted self.now.text) }
    {
        if !wanted {
            return Ok(None);
        }
        Ok(Some(self.text.copy(alloc)?))
    }
}

/// What a template writes at the match that a matcher finds.
pub(crate) fn filled(
    alloc: Global,
    matcher: &mut Matcher<'_>,
    text: &str,
    filling: &Filling,
) -> Result<Option<Name>, NoMemory>
    requires { Searches filling.now.pattern (matcher_pattern matcher.old) (matcher_names matcher.old) }
    ensures found { IfOk result (λ found. found ≡ expansion filling.now.pattern filling.now.text text.now) }
    ensures same { matcher_pattern matcher.new ≡ matcher_pattern matcher.old }
    ensures names { matcher_names matcher.new ≡ matcher_names matcher.old }
{
    match matcher.captures(text) {
        Some(captures) => Ok(Some(written(alloc, &captures, &filling.template)?)),
        None => Ok(None),
    }
}

/// What two templates write at the match that a matcher finds.
pub(crate) fn both_filled(
    alloc: Global,
    matcher: &mut Matcher<'_>,
    text: &str,
    first: &Filling,
    second: &Filling,
) -> Result<Option<(Name, Name)>, NoMemory>
    requires first { Searches first.now.pattern (matcher_pattern matcher.old) (matcher_names matcher.old) }
    requires second { second.now.pattern ≡ first.now.pattern }
    ensures first { IfOk result (λ found. option_map (λ p. p.0) found ≡ expansion first.now.pattern first.now.text text.now) }
    ensures second { IfOk result (λ found. option_map (λ p. p.1) found ≡ expansion first.now.pattern second.now.text text.now) }
    ensures same { matcher_pattern matcher.new ≡ matcher_pattern matcher.old }
    ensures names { matcher_names matcher.new ≡ matcher_names matcher.old }
{
    match matcher.captures(text) {
        Some(captures) => {
            let one = written(alloc, &captures, &first.template)?;
            let other = written(alloc, &captures, &second.template)?;
            Ok(Some((one, other)))
        }
        None => Ok(None),
    }
}

fn written(alloc: Global, captures: &Captures, template: &Template) -> Result<Name, NoMemory>
    ensures { IfOk result (λ n. n ≡ expansion_of captures.now template.now) }
{
    let mut text = String::new(alloc);
    captures.expand(alloc, template, &mut text)?;
    Ok(Name { text })
}
