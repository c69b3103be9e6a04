//! The label set of a listed target before its job's rules.
ghost use Rattle.std.specs.Prelude.{◌≡◌, ◌++◌, [], map, IfOk, OnOk, string_bytes};
ghost use Rattle.label_set.specs.Sets.{with_label};
ghost use Rattle.target_set.specs.Prepared as spec;
ghost use Rattle.label_set.specs.Lasts.{with_labels};
ghost use Rattle.label_set.specs.Borrowed.{pair_of};
ghost use Rattle.target_set.specs.Prepared.{address_label, param_prefix};
ghost use Rattle.target_set.specs.Walk as walked;

use label_set::names::are_name_bytes;
use label_set::{Label, LabelSet, NoMemory, Pair, borrowed};
use outside::scheme_text;
use scrape_config::{Group, JobConf, Param};
use std::alloc::Global;

/// The set with a name set to a value; an empty value removes the name.
fn labelled(alloc: Global, set: &LabelSet, name: &str, value: &str) -> Result<LabelSet, NoMemory>
    ensures { IfOk result (λ s. s ≡ with_label set.now name.now value.now) }
{
    set.with_label(alloc, Label { name, value })
}

/// The set with a name set to a value, where the set has no value for it.
#[tactic(auto, unfolding(crate::specs::Prepared::with_default))]
pub fn defaulted(
    alloc: Global,
    set: &LabelSet,
    name: &str,
    value: &str,
) -> Result<LabelSet, NoMemory>
    ensures { IfOk result (λ s. s ≡ spec.with_default set.now name.now value.now) }
{
    match set.get(name) {
        Some(_) => set.copy(),
        None => labelled(alloc, set, name, value),
    }
}

fn all_labelled(alloc: Global, pairs: &[Pair]) -> Result<LabelSet, NoMemory>
    ensures { IfOk result (λ s. s ≡ with_labels [] pairs.now) }
{
    let labels = borrowed(alloc, pairs)?;
    LabelSet::of(alloc, labels.as_slice())
}

/// What each target of a group starts with.
#[tactic(auto, unfolding(crate::specs::Walk::group_set))]
fn set_of_group(alloc: Global, group: &Group) -> Result<LabelSet, NoMemory>
    ensures { IfOk result (λ s. s ≡ walked.group_set group.now) }
{
    let set = all_labelled(alloc, group.labels.as_slice())?;
    match &group.file {
        None => Ok(set),
        Some(file) => labelled(alloc, &set, "__meta_filepath", file.as_str()),
    }
}

/// The name of the label that sets a parameter.
fn param_label(alloc: Global, name: &str) -> Result<String, NoMemory>
    ensures { IfOk result (λ s. string_bytes s ≡ param_prefix ++ name.now) }
{
    let mut text = String::from_str(alloc, "__param_")?;
    text.push_str(name)?;
    Ok(text)
}

/// Adds the label of a value that isn't empty.
fn push_valued(alloc: Global, out: &mut Vec<Pair>, name: &str, value: &str) -> Result<(), NoMemory>
    ensures { OnOk result (out.new.items ≡ out.old.items ++ walked.valued name.now value.now) }
{
    if !value.is_empty() {
        out.push(Pair::from_strs(alloc, name, value)?)?;
    }
    Ok(())
}

/// Adds the label of the first value of a parameter, where its name can stand in a label's name.
fn push_first(alloc: Global, out: &mut Vec<Pair>, param: &Param) -> Result<(), NoMemory>
    ensures { OnOk result (out.new.items ≡ out.old.items ++ walked.first_label param.now.name param.now.values) }
{
    match param.values.as_slice() {
        [] => Ok(()),
        [value, ..] => {
            if !are_name_bytes(param.name.as_str().as_bytes()) {
                return Ok(());
            }
            let name = param_label(alloc, param.name.as_str())?;
            push_valued(alloc, out, name.as_str(), value.as_str())
        }
    }
}

/// Adds the labels of parameters, those of the last parameter first.
fn push_params(alloc: Global, out: &mut Vec<Pair>, params: &[Param]) -> Result<(), NoMemory>
    ensures { OnOk result (out.new.items ≡ out.old.items ++ walked.param_labels params.now) }
{
    let count = params.len();
    for done in 0..count {
        push_first(alloc, out, &params[count - 1 - done])?;
    }
    Ok(())
}

/// What a job adds to a target where nothing else is set.
#[tactic(auto, unfolding(crate::specs::Walk::default_labels))]
fn default_labels(alloc: Global, conf: &JobConf) -> Result<Vec<Pair>, NoMemory>
    ensures { IfOk result (λ v. v.items ≡ walked.default_labels conf.now) }
{
    let mut out = Vec::new(alloc);
    push_params(alloc, &mut out, conf.params.as_slice())?;
    push_valued(
        alloc,
        &mut out,
        "__metrics_path__",
        conf.metrics_path.as_str(),
    )?;
    push_valued(alloc, &mut out, "__scheme__", scheme_text(conf.scheme))?;
    push_valued(alloc, &mut out, "job", conf.job_name.as_str())?;
    Ok(out)
}

/// The set of what a job adds.
#[tactic(auto, unfolding(crate::specs::Walk::default_set))]
pub fn default_set(alloc: Global, conf: &JobConf) -> Result<LabelSet, NoMemory>
    ensures { IfOk result (λ s. s ≡ walked.default_set conf.now) }
{
    let labels = default_labels(alloc, conf)?;
    all_labelled(alloc, labels.as_slice())
}

/// The labels of a set.
fn labels_in(alloc: Global, set: &LabelSet) -> Result<Vec<Label<'_>>, NoMemory>
    ensures { IfOk result (λ v. map pair_of v.items ≡ set.now) }
{
    let mut labels = Vec::with_capacity(alloc, set.len())?;
    for label in set.labels() {
        labels.push(label)?;
    }
    Ok(labels)
}

/// The labels of a set put over others.
fn overlaid(alloc: Global, others: &LabelSet, set: &LabelSet) -> Result<LabelSet, NoMemory>
    ensures { IfOk result (λ s. s ≡ with_labels others.now set.now) }
{
    let labels = labels_in(alloc, set)?;
    others.with_all(alloc, labels.as_slice())
}

/// The set of a group's targets: what the group gives them, and what its job adds where the group gives nothing else.
#[tactic(auto, unfolding(crate::specs::Walk::group_base))]
pub fn group_base(alloc: Global, defaults: &LabelSet, group: &Group) -> Result<LabelSet, NoMemory>
    ensures { IfOk result (λ s. s ≡ walked.group_base defaults.now group.now) }
{
    let set = set_of_group(alloc, group)?;
    overlaid(alloc, defaults, &set)
}

/// The set of a target, by that of its group's targets.
pub fn addressed(alloc: Global, base: &LabelSet, text: &str) -> Result<LabelSet, NoMemory>
    ensures { IfOk result (λ s. s ≡ with_label base.now address_label text.now) }
{
    labelled(alloc, base, "__address__", text)
}
