//! What becomes of a set that the rules leave.
ghost use Rattle.std.specs.Prelude.{◌≡◌, [], codes, filter, map, not, is_ok, unwrap_or, IfOk, OnOk, Some, if◌then◌else◌};
ghost use Rattle.label_set.specs.Sets.{IsSet, value_of};
ghost use Rattle.label_set.specs.Borrowed.{pair_of};
ghost use Rattle.label_set.specs.declared.texts.Pair.{Pair};
ghost use Rattle.target_set.specs.Outcomes as spec;
ghost use Rattle.target_set.specs.Outcomes.{url_of};
ghost use Rattle.target_set.specs.Prepared.{address_label, scheme_label, with_default};
ghost use Rattle.target_set.specs.declared.targets.TargetCause.TheVariants.{BadAddress};

use crate::address::{has_mark, read_url};
use crate::prepare::defaulted;
use crate::targets::{Outcome, TargetCause};
use label_set::{Label, LabelSet, NoMemory};
use outside::is_scheme;
use std::alloc::Global;

/// Whether a scheme and an address make a URL.
#[tactic(auto, using(crate::proofs::RequestLemmas::read_is_ok))]
fn has_url(alloc: Global, scheme: &str, address: &str) -> Result<bool, NoMemory>
    ensures { IfOk result (λ b. b ≡ is_ok (url_of scheme.now address.now)) }
{
    Ok(read_url(alloc, scheme, address)?.is_some())
}

/// Why a target with an address is refused, by its scheme.
fn scheme_cause(
    alloc: Global,
    address: &str,
    set: &LabelSet,
) -> Result<Option<TargetCause>, NoMemory>
    ensures { IfOk result (λ o. o ≡ spec.scheme_cause address.now (value_of set.now scheme_label)) }
{
    let Some(scheme) = set.get("__scheme__") else {
        return Ok(Some(TargetCause::BadScheme));
    };
    if !is_scheme(scheme) {
        return Ok(Some(TargetCause::BadScheme));
    }
    if has_url(alloc, scheme, address)? {
        Ok(None)
    } else {
        Ok(Some(TargetCause::BadUrl))
    }
}

/// Why a label set is no target, if it isn't one. The first cause in the order of `TargetCause` is reported.
///
/// The source is "Configuration" of the Prometheus documentation, relabel_config; the causes of a refusal are this project's.
///
/// # Errors
///
/// The only error is out of memory.
#[tactic(auto, unfolding(crate::specs::Outcomes::cause_of))]
pub fn cause_in(alloc: Global, set: &LabelSet) -> Result<Option<TargetCause>, NoMemory>
    ensures { IfOk result (λ o. o ≡ spec.cause_of set.now) }
{
    let Some(address) = set.get("__address__") else {
        return Ok(Some(TargetCause::NoAddress));
    };
    if has_mark(address) {
        return Ok(Some(TargetCause::BadAddress));
    }
    scheme_cause(alloc, address, set)
}

#[tactic(auto, unfolding(crate::specs::Outcomes::begins_with))]
fn begins_with(text: &str, front: &str) -> bool
    ensures { result ≡ spec.begins_with front.now text.now }
{
    text.as_bytes().starts_with(front.as_bytes())
}

/// The labels whose names don't begin so.
fn labels_without_front<'a>(
    alloc: Global,
    set: &'a LabelSet,
    front: &str,
) -> Result<Vec<Label<'a>>, NoMemory>
    ensures labels { IfOk result (λ v. map pair_of v.items ≡ filter (λ (p : Pair). not (spec.begins_with front.now p.name)) set.now) }
    ensures set { OnOk result (IsSet set.now) }
{
    let mut out = Vec::new(alloc);
    for label in set.labels() {
        if !begins_with(label.name, front) {
            out.push(label)?;
        }
    }
    Ok(out)
}

/// The set without the names that begin so.
#[tactic(auto, unfolding(crate::specs::Outcomes::without_front))]
fn without_front(alloc: Global, set: &LabelSet, front: &str) -> Result<LabelSet, NoMemory>
    ensures { IfOk result (λ s. s ≡ spec.without_front front.now set.now) }
{
    let labels = labels_without_front(alloc, set, front)?;
    LabelSet::from_labels(alloc, labels.as_slice())
}

/// The set with an `instance`: the address where none is set.
fn with_instance(alloc: Global, set: &LabelSet) -> Result<LabelSet, NoMemory>
    ensures { IfOk result (λ s. s ≡ with_default set.now (codes "instance") (unwrap_or (value_of set.now address_label) [])) }
{
    match set.get("__address__") {
        Some(address) => defaulted(alloc, set, "instance", address),
        None => defaulted(alloc, set, "instance", ""),
    }
}

/// The identity of a target that the rules leave so.
#[tactic(auto, unfolding(crate::specs::Outcomes::identity_of))]
pub fn identity_of(alloc: Global, set: &LabelSet) -> Result<LabelSet, NoMemory>
    ensures { IfOk result (λ s. s ≡ spec.identity_of set.now) }
{
    let set = with_instance(alloc, set)?;
    without_front(alloc, &set, "__meta_")
}

/// The labels that the samples of a target bear.
#[tactic(auto, unfolding(crate::specs::Outcomes::labels_of))]
pub fn labels_of(alloc: Global, identity: &LabelSet) -> Result<LabelSet, NoMemory>
    ensures { IfOk result (λ s. s ≡ spec.labels_of identity.now) }
{
    without_front(alloc, identity, "__")
}

/// What becomes of a set that the rules leave, or of one that a rule drops.
pub fn judged(alloc: Global, left: Option<LabelSet>) -> Result<Outcome, NoMemory>
    ensures { IfOk result (λ o. o ≡ spec.judged left) }
{
    let Some(set) = left else {
        return Ok(Outcome::Dropped);
    };
    match cause_in(alloc, &set)? {
        Some(cause) => Ok(Outcome::Refused(cause)),
        None => Ok(Outcome::Kept(identity_of(alloc, &set)?)),
    }
}
