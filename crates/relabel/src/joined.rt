//! The joined text of a rule, and what is made of it.
ghost use Rattle.std.specs.Prelude.{◌≡◌, ◌<◌, ◌++◌, map, flat_map, string_bytes, IfOk, OnOk};
ghost use Rattle.std.specs.Char.{to_ascii_lowercase, to_ascii_uppercase};
ghost use Rattle.relabel.specs.Relabelling.{value_or_empty, joined_by, joined_text, shard_of};

use label_set::{LabelSet, Name, NoMemory};
use md5::{Digest, Md5};
use rule_conf::RuleConf;
use std::alloc::Global;

/// The value of a label, empty where there is none.
pub fn value_of<'a>(set: &'a LabelSet, name: &str) -> &'a str
    ensures { result.now ≡ value_or_empty set.now name.now }
{
    set.get(name).unwrap_or("")
}

/// Appends the values of more sources, the separator before each.
fn push_more(
    out: &mut String,
    sources: &[Name],
    separator: &str,
    set: &LabelSet,
) -> Result<(), NoMemory>
    ensures { OnOk result (string_bytes out.new ≡ string_bytes out.old
        ++ flat_map (λ w. separator.now ++ w) (map (value_or_empty set.now) sources.now)) }
{
    for source in sources {
        out.push_str(separator)?;
        out.push_str(value_of(set, source.as_str()))?;
    }
    Ok(())
}

/// The joined text of two or more sources, or of none.
fn joined_values(
    alloc: Global,
    sources: &[Name],
    separator: &str,
    set: &LabelSet,
) -> Result<String, NoMemory>
    ensures { IfOk result (λ s. string_bytes s ≡ joined_by separator.now (map (value_or_empty set.now) sources.now)) }
{
    let mut out = String::new(alloc);
    if let Some((first, more)) = sources.split_first() {
        out.push_str(value_of(set, first.as_str()))?;
        push_more(&mut out, more, separator, set)?;
    }
    Ok(out)
}

/// The number of a text below a modulus, in decimal digits.
#[tactic(auto, unfolding(crate::specs::Relabelling::shard_of))]
pub fn shard(alloc: Global, text: &str, modulus: u64) -> Result<Name, NoMemory>
    requires { 0 < modulus }
    ensures { IfOk result (λ n. n ≡ shard_of text.now modulus) }
{
    let digest: [u8; 16] = Md5::digest(text.as_bytes());
    let mut last = [0u8; 8];
    last.copy_from_slice(&digest[8..]);
    let number = u64::from_be_bytes(last) % modulus;
    Ok(Name {
        text: number.to_string(alloc)?,
    })
}

/// The joined text of a rule. One source is borrowed as it stands, and takes no memory.
#[tactic(auto, unfolding(crate::specs::Relabelling::joined_text))]
pub fn joined<'a>(
    alloc: Global,
    conf: &RuleConf,
    set: &'a LabelSet,
    room: &'a mut String,
) -> Result<&'a str, NoMemory>
    ensures { IfOk result (λ text. text.now ≡ joined_text conf.now set.now) }
{
    let sources = conf.sources.as_slice();
    if sources.len() == 1 {
        return Ok(value_of(set, sources[0].as_str()));
    }
    *room = joined_values(alloc, sources, conf.separator.as_str(), set)?;
    Ok(room.as_str())
}
