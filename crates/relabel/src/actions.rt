//! What the actions of rules do to a set.
ghost use Rattle.std.specs.Prelude.{◌≡◌, ◌<◌, map, flat_map, option_map, IfOk, Some};
ghost use Rattle.std.specs.Str.{bytes_eq};
ghost use Rattle.std.specs.Char as chars;
ghost use Rattle.label_set.specs.Sets.{with_label};
ghost use Rattle.pattern_rule.specs.Patterns.{matches, expansion};
ghost use Rattle.relabel.specs.Relabelling as spec;
ghost use Rattle.relabel.specs.Relabelling.{joined_text, value_or_empty, shard_of, replaced, mapped};
ghost use Rattle.relabel.specs.Built.{AreTemplatesOf};
ghost use Rattle.relabel.specs.Effects.{template_of, label_of, option_list};

use crate::joined::{joined, shard, value_of};
use label_set::{Label, LabelSet, Name, NoMemory, Pair, borrowed, is_label_name};
use pattern_rule::{Filling, Matching};
use rule_conf::RuleConf;
use std::alloc::Global;

/// Whether the joined text matches.
pub fn joined_matches(
    alloc: Global,
    conf: &RuleConf,
    matching: &mut Matching<'_>,
    set: &LabelSet,
) -> Result<bool, NoMemory>
    requires { matching.old ≡ conf.now.regex }
    ensures found { IfOk result (λ found. found ≡ matches conf.now.regex (joined_text conf.now set.now)) }
    ensures same { matching.new ≡ matching.old }
{
    let mut room = String::new(alloc);
    let text = joined(alloc, conf, set, &mut room)?;
    matching.full_match(alloc, text)
}

/// Whether the joined text is the value of the target.
pub fn joined_equals(alloc: Global, conf: &RuleConf, set: &LabelSet) -> Result<bool, NoMemory>
    ensures { IfOk result (λ same. same ≡ bytes_eq (joined_text conf.now set.now) (value_or_empty set.now conf.now.target)) }
{
    let mut room = String::new(alloc);
    let text = joined(alloc, conf, set, &mut room)?;
    Ok(text == value_of(set, conf.target.as_str()))
}

/// The templates of `replace`: its target and its replacement, read for the rule's pattern.
#[derive(Drop)]
pub struct Templates {
    pub target: Filling,
    pub value: Filling,
}

/// The expanded target and replacement, where the joined text matches.
fn expanded(
    alloc: Global,
    conf: &RuleConf,
    matching: &mut Matching<'_>,
    templates: &Templates,
    set: &LabelSet,
) -> Result<Option<(Name, Name)>, NoMemory>
    requires pattern { matching.old ≡ conf.now.regex }
    requires templates { AreTemplatesOf templates.now conf.now }
    ensures name { IfOk result (λ o. option_map (λ p. p.0) o ≡ expansion conf.now.regex conf.now.target (joined_text conf.now set.now)) }
    ensures value { IfOk result (λ o. option_map (λ p. p.1) o ≡ expansion conf.now.regex conf.now.replacement (joined_text conf.now set.now)) }
    ensures same { matching.new ≡ matching.old }
{
    let mut room = String::new(alloc);
    let text = joined(alloc, conf, set, &mut room)?;
    matching.fill_both(alloc, text, &templates.target, &templates.value)
}

/// `replace`.
pub fn replace(
    alloc: Global,
    conf: &RuleConf,
    matching: &mut Matching<'_>,
    templates: &Templates,
    set: LabelSet,
) -> Result<LabelSet, NoMemory>
    requires pattern { matching.old ≡ conf.now.regex }
    requires templates { AreTemplatesOf templates.now conf.now }
    ensures labels { IfOk result (λ s. s ≡ replaced conf.now set) }
    ensures same { matching.new ≡ matching.old }
{
    match expanded(alloc, conf, matching, templates, &set)? {
        Some((name, value)) => with_expanded(alloc, set, &name, &value),
        None => Ok(set),
    }
}

/// The set with a name set to a value, where the name is a label name.
fn with_expanded(
    alloc: Global,
    set: LabelSet,
    name: &Name,
    value: &Name,
) -> Result<LabelSet, NoMemory>
    ensures { IfOk result (λ s. s ≡ spec.with_expanded set (Some name.now) (Some value.now)) }
{
    if !is_label_name(name.as_str()) {
        return Ok(set);
    }
    set.with_label(
        alloc,
        Label {
            name: name.as_str(),
            value: value.as_str(),
        },
    )
}

/// The label that a label gives under `labelmap`, if any.
fn renamed(
    alloc: Global,
    matching: &mut Matching<'_>,
    name: &Filling,
    label: Label<'_>,
) -> Result<Option<Pair>, NoMemory>
    requires { name.now.pattern ≡ matching.old }
    ensures label { IfOk result (λ o. option_list o ≡ label_of (expansion matching.old name.now.text label.entry.name.now) label.entry.value.now) }
    ensures same { matching.new ≡ matching.old }
{
    match matching.fill(alloc, label.name, name)? {
        Some(name) => {
            if is_label_name(name.as_str()) {
                let value = Name::from_str(alloc, label.value)?;
                Ok(Some(Pair { name, value }))
            } else {
                Ok(None)
            }
        }
        None => Ok(None),
    }
}

/// The labels that all labels give under `labelmap`.
fn all_renamed(
    alloc: Global,
    matching: &mut Matching<'_>,
    name: &Filling,
    set: &LabelSet,
) -> Result<Vec<Pair>, NoMemory>
    requires { name.now.pattern ≡ matching.old }
    ensures labels { IfOk result (λ v. v.items ≡ flat_map (λ p. label_of (expansion matching.old name.now.text p.name) p.value) set.now) }
    ensures same { matching.new ≡ matching.old }
{
    let mut out = Vec::new(alloc);
    for label in set.labels() {
        if let Some(given) = renamed(alloc, matching, name, label)? {
            out.push(given)?;
        }
    }
    Ok(out)
}

/// `labelmap`.
pub fn map_labels(
    alloc: Global,
    conf: &RuleConf,
    matching: &mut Matching<'_>,
    name: &Filling,
    set: LabelSet,
) -> Result<LabelSet, NoMemory>
    requires pattern { matching.old ≡ conf.now.regex }
    requires name { name.now ≡ template_of conf.now.regex conf.now.replacement }
    ensures labels { IfOk result (λ s. s ≡ mapped conf.now set set) }
    ensures same { matching.new ≡ matching.old }
{
    let given = all_renamed(alloc, matching, name, &set)?;
    let labels = borrowed(alloc, given.as_slice())?;
    set.with_all(alloc, labels.as_slice())
}

/// The set with the rule's target set to a value.
fn with_target(
    alloc: Global,
    conf: &RuleConf,
    set: &LabelSet,
    value: &Name,
) -> Result<LabelSet, NoMemory>
    ensures { IfOk result (λ s. s ≡ with_label set.now conf.now.target value.now) }
{
    set.with_label(
        alloc,
        Label {
            name: conf.target.as_str(),
            value: value.as_str(),
        },
    )
}

/// `lowercase`: the target gets the joined text in lower case.
pub fn lower(alloc: Global, conf: &RuleConf, set: &LabelSet) -> Result<LabelSet, NoMemory>
    ensures { IfOk result (λ s. s
        ≡ with_label set.now conf.now.target (map chars.to_ascii_lowercase (joined_text conf.now set.now))) }
{
    let mut room = String::new(alloc);
    let text = joined(alloc, conf, set, &mut room)?;
    let value = Name {
        text: text.to_ascii_lowercase(alloc)?,
    };
    with_target(alloc, conf, set, &value)
}

/// `uppercase`: the target gets the joined text in upper case.
pub fn raise(alloc: Global, conf: &RuleConf, set: &LabelSet) -> Result<LabelSet, NoMemory>
    ensures { IfOk result (λ s. s
        ≡ with_label set.now conf.now.target (map chars.to_ascii_uppercase (joined_text conf.now set.now))) }
{
    let mut room = String::new(alloc);
    let text = joined(alloc, conf, set, &mut room)?;
    let value = Name {
        text: text.to_ascii_uppercase(alloc)?,
    };
    with_target(alloc, conf, set, &value)
}

/// `hashmod`: the target gets the number of the joined text below the modulus.
pub fn hash(alloc: Global, conf: &RuleConf, set: &LabelSet) -> Result<LabelSet, NoMemory>
    requires { 0 < conf.now.modulus }
    ensures { IfOk result (λ s. s
        ≡ with_label set.now conf.now.target (shard_of (joined_text conf.now set.now) conf.now.modulus)) }
{
    let mut room = String::new(alloc);
    let text = joined(alloc, conf, set, &mut room)?;
    let value = shard(alloc, text, conf.modulus)?;
    with_target(alloc, conf, set, &value)
}
