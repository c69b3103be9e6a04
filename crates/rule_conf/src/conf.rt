//! The settings of a rule, and which of them are refused.
ghost use Rattle.std.specs.Prelude.{◌≡◌, IfOk};
ghost use Rattle.std.specs.List.{list_all};
ghost use Rattle.label_set.specs.Bytes as names;
ghost use Rattle.rule_conf.specs.Refusals.{has_bad_target, rule_fault};

use label_set::{ListOf, Name, NameList, NoMemory, is_label_name};
use std::alloc::Global;

/// What a rule does.
#[derive(Clone, Copy, PartialEq, Eq, Debug)]
pub enum Action {
    /// Sets the target to the replacement where the pattern matches.
    Replace,
    /// Drops the set where the pattern doesn't match.
    Keep,
    /// Drops the set where the pattern matches.
    Drop,
    /// Drops the set where the joined text isn't the value of the target.
    KeepEqual,
    /// Drops the set where the joined text is the value of the target.
    DropEqual,
    /// Sets the target to a number below the modulus, by the MD5 of the joined text.
    HashMod,
    /// Copies the values of labels whose names match to new names.
    LabelMap,
    /// Removes the labels whose names match.
    LabelDrop,
    /// Removes the labels whose names don't match.
    LabelKeep,
    /// Sets the target to the joined text in lower case.
    Lowercase,
    /// Sets the target to the joined text in upper case.
    Uppercase,
}

/// A rule as the configuration gives it. A field that the action doesn't use has no effect.
#[derive(Drop, Debug)]
pub struct RuleConf {
    /// The names of the labels whose values are joined.
    pub sources: NameList,
    /// What stands between the values.
    pub separator: Name,
    /// The pattern, which is to match a whole text.
    pub regex: Name,
    /// For `HashMod`: how many numbers there are.
    pub modulus: u64,
    /// The label that is set or compared; a template for `Replace`.
    pub target: Name,
    /// A template for `Replace` and `LabelMap`.
    pub replacement: Name,
    pub action: Action,
}

/// Rules in the order in which they run.
pub type RuleList = ListOf<RuleConf>;

/// A field of a rule that is refused.
#[derive(Clone, Copy, PartialEq, Eq, Debug)]
pub enum RuleField {
    /// A source is no label name.
    Sources,
    /// The modulus of `HashMod` is 0.
    Modulus,
    /// The target is empty, or no label name where the action wants one.
    Target,
}

/// Why rules were not built.
#[derive(Clone, Copy, PartialEq, Eq, Debug)]
pub enum RuleFault {
    /// The first rule, counted from 0, with a field that is refused.
    BadRule { rule: u32, field: RuleField },
    /// The rule's pattern is refused.
    BadPattern { rule: u32 },
    /// An allocation failed.
    NoMemory,
}

impl From<NoMemory> for RuleFault {
    ghost use Rattle.std.specs.Prelude.{◌≡◌};
    ghost use Rattle.rule_conf.specs.declared.conf.RuleFault.TheVariants as variants;

    ghost from_gives = { λ _ error. error ≡ variants.NoMemory };

    fn from(_: NoMemory) -> RuleFault {
        RuleFault::NoMemory
    }
}

fn copied(alloc: Global, names: &[Name]) -> Result<NameList, NoMemory>
    ensures { IfOk result (λ l. l ≡ names.now) }
{
    let mut items = Vec::with_capacity(alloc, names.len())?;
    for name in names {
        items.push(name.copy(alloc)?)?;
    }
    Ok(NameList { items })
}

impl RuleConf {
    /// A copy.
    pub fn copy(&self, alloc: Global) -> Result<RuleConf, NoMemory>
        ensures { IfOk result (λ r. r ≡ self.now) }
    {
        Ok(RuleConf {
            sources: copied(alloc, self.sources.as_slice())?,
            separator: self.separator.copy(alloc)?,
            regex: self.regex.copy(alloc)?,
            modulus: self.modulus,
            target: self.target.copy(alloc)?,
            replacement: self.replacement.copy(alloc)?,
            action: self.action,
        })
    }

    /// The first field that is refused, in the order of the variants of `RuleField`.
    pub fn fault(&self) -> Option<RuleField>
        ensures { result ≡ rule_fault self.now }
    {
        if !are_label_names(self.sources.as_slice()) {
            return Some(RuleField::Sources);
        }
        if self.action == Action::HashMod && self.modulus == 0 {
            return Some(RuleField::Modulus);
        }
        if is_bad_target(self.action, self.target.as_str()) {
            return Some(RuleField::Target);
        }
        None
    }
}

fn are_label_names(sources: &[Name]) -> bool
    ensures { result ≡ list_all names.is_label_name sources.now }
{
    sources.iter().all(|name| is_label_name(name.as_str()))
}

fn is_bad_target(action: Action, target: &str) -> bool
    ensures { result ≡ has_bad_target action target.now }
{
    match action {
        Action::Replace => target.is_empty(),
        Action::KeepEqual
        | Action::DropEqual
        | Action::HashMod
        | Action::Lowercase
        | Action::Uppercase => !is_label_name(target),
        _ => false,
    }
}
