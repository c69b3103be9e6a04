//! The kept targets, each identity once.
ghost use Rattle.std.specs.Prelude.{◌≡◌, IfOk, OnOk, map};
ghost use Rattle.std.specs.List.{flat_map};
ghost use Rattle.indexmap.specs.IndexSet.{insert_all};
ghost use Rattle.target_set.specs.Listed as spec;
ghost use Rattle.target_set.specs.Listed.{distinct, is_same, kept_in, target_of};

use crate::outcomes::labels_of;
use crate::targets::{Outcome, Target, Targets};
use indexmap::IndexSet;
use label_set::{LabelSet, NoMemory};
use std::alloc::Global;

/// Puts the identity of a kept target where it isn't there.
fn add(seen: &mut IndexSet<LabelSet>, outcome: &Outcome) -> Result<(), NoMemory>
    ensures { OnOk result (seen.new.keys ≡ insert_all is_same seen.old.keys (kept_in outcome.now)) }
{
    if let Outcome::Kept(set) = outcome {
        let _ = seen.insert(set.copy()?)?;
    }
    Ok(())
}

/// The identities of the kept targets, each at its first place.
fn identities(alloc: Global, outcomes: &[Outcome]) -> Result<IndexSet<LabelSet>, NoMemory>
    ensures { IfOk result (λ s. s.keys ≡ distinct (flat_map kept_in outcomes.now)) }
{
    let mut seen = IndexSet::new(alloc);
    for outcome in outcomes {
        add(&mut seen, outcome)?;
    }
    Ok(seen)
}

fn kept_target(alloc: Global, identity: &LabelSet) -> Result<Target, NoMemory>
    ensures { IfOk result (λ t. t ≡ target_of identity.now) }
{
    Ok(Target {
        identity: identity.copy()?,
        labels: labels_of(alloc, identity)?,
    })
}

fn targets_in(alloc: Global, identities: &[LabelSet]) -> Result<Vec<Target>, NoMemory>
    ensures { IfOk result (λ v. v.items ≡ map target_of identities.now) }
{
    let mut out = Vec::with_capacity(alloc, identities.len())?;
    for identity in identities {
        out.push(kept_target(alloc, identity)?)?;
    }
    Ok(out)
}

/// The kept targets, each identity once, in the order of their first places.
pub fn kept_of(alloc: Global, outcomes: &[Outcome]) -> Result<Targets, NoMemory>
    ensures { IfOk result (λ k. k ≡ spec.kept_of outcomes.now) }
{
    let seen = identities(alloc, outcomes)?;
    Ok(Targets {
        items: targets_in(alloc, seen.as_slice())?,
    })
}
