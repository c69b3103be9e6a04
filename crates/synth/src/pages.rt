//! The texts in a script: its configuration and its pages.
ghost use Rattle.std.specs.Prelude.{◌≡◌, ◌<◌, ◌≤◌, ◌^◌, ◌++◌, length, IfOk, OnOk};
ghost use Rattle.std.specs.Fmt.{decimal};
ghost use Rattle.synth.specs.Scripts as spec;

use itoa::Buffer;
use label_set::{Blob, NoMemory};
use std::alloc::Global;

/// How many series a page has at most.
const SERIES: u64 = 100;

/// What stands before the targets in the text of a configuration.
const CONF_HEAD: &str =
    "{\"scrape_configs\":[{\"job_name\":\"synth\",\"scrape_interval\":\"15s\",\"metric_relabel_configs\":[{\"source_labels\":[\"code\"],\"regex\":\"(.).*\",\"target_label\":\"class\",\"replacement\":\"${1}xx\"}],\"static_configs\":[{\"targets\":[";

/// What stands behind them.
const CONF_TAIL: &str = "]}]}]}";

fn push(text: &mut Vec<u8>, piece: &str) -> Result<(), NoMemory>
    ensures { OnOk result (text.new.items ≡ text.old.items ++ piece.now) }
{
    Ok(text.extend_from_slice(piece.as_bytes())?)
}

fn push_number(text: &mut Vec<u8>, number: u64) -> Result<(), NoMemory>
    ensures { OnOk result (text.new.items ≡ text.old.items ++ decimal number) }
{
    let mut digits = Buffer::new();
    push(text, digits.format(number))
}

/// Adds the line of a series to a page.
fn push_line(text: &mut Vec<u8>, number: u64, series: u64) -> Result<(), NoMemory>
    requires number { number < 2 ^ 63 }
    requires series { series < 100 }
    ensures { OnOk result (text.new.items ≡ text.old.items ++ spec.sample_line number series) }
{
    push(text, "synth_total{code=\"")?;
    push_number(text, 200 + series)?;
    push(text, "\",path=\"/p")?;
    push_number(text, series)?;
    push(text, "\"} ")?;
    push_number(text, number + series)?;
    push(text, "\n")?;
    Ok(())
}

/// Adds the line of a series to a page, but for every tenth.
#[tactic(auto, unfolding(crate::specs::Scripts::page_line))]
fn push_if_there(text: &mut Vec<u8>, number: u64, series: u64) -> Result<(), NoMemory>
    requires number { number < 2 ^ 63 }
    requires series { series < 100 }
    ensures { OnOk result (text.new.items ≡ text.old.items ++ spec.page_line number series) }
{
    if (number + series) % 10 == 0 {
        Ok(())
    } else {
        push_line(text, number, series)
    }
}

/// The page of a number.
#[tactic(auto, unfolding(crate::specs::Scripts::page))]
pub(crate) fn page(alloc: Global, number: u64) -> Result<Blob, NoMemory>
    requires { number < 2 ^ 63 }
    ensures page { IfOk result (λ b. b ≡ spec.page number) }
{
    let mut bytes = Vec::new(alloc);
    for series in 0..SERIES {
        push_if_there(&mut bytes, number, series)?;
    }
    Ok(Blob { bytes })
}

/// Adds a target to the list of them.
#[tactic(auto, unfolding(crate::specs::Scripts::target_text))]
fn push_target(text: &mut Vec<u8>, target: u64) -> Result<(), NoMemory>
    ensures { OnOk result (text.new.items ≡ text.old.items ++ spec.target_text target) }
{
    push(text, if target == 0 { "\"t" } else { ",\"t" })?;
    push_number(text, target)?;
    push(text, ":1\"")
}

/// The text of a configuration of so many targets.
#[tactic(auto, unfolding(crate::specs::Scripts::conf_text))]
pub(crate) fn conf_text(alloc: Global, targets: u64) -> Result<Blob, NoMemory>
    ensures { IfOk result (λ b. b ≡ spec.conf_text targets) }
{
    let mut bytes = Vec::new(alloc);
    push(&mut bytes, CONF_HEAD)?;
    for target in 0..targets {
        push_target(&mut bytes, target)?;
    }
    push(&mut bytes, CONF_TAIL)?;
    Ok(Blob { bytes })
}
