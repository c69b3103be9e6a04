//! The parts of a scrape.
ghost use Rattle.std.specs.Prelude.{◌≡◌, ◌<◌, ◌≤ℤ◌, ◌^◌, pos, IfSome};
ghost use Rattle.scrape_loop.specs.Entries as entries;
ghost use Rattle.scrape_loop.specs.Tracked as spec;

use report_samples::ExtraCounts;
use sample_rows::{RowRules, Sample, Scrape, ScrapeFault};
use std::alloc::Global;

/// The fault of a scrape, where it isn't good.
pub fn fault_in(scrape: &Scrape) -> Option<ScrapeFault>
    ensures { result ≡ spec.fault_of scrape.now }
{
    match scrape {
        Scrape::Good {
            rows: _,
            scraped: _,
        } => None,
        Scrape::Bad {
            fault,
            scraped: _,
            left: _,
        } => Some(*fault),
    }
}

/// The samples of a scrape, given up by it.
pub fn into_samples(alloc: Global, scrape: Scrape) -> Vec<Sample>
    ensures { result.items ≡ spec.samples_of scrape }
{
    match scrape {
        Scrape::Good { rows, scraped: _ } => rows.items,
        Scrape::Bad {
            fault: _,
            scraped: _,
            left: _,
        } => Vec::new(alloc),
    }
}

/// The size that the reports say of a scrape with a fault: -1 where its body was too long, else 0.
#[tactic(auto, using(crate::proofs::SizeLemmas::other_fault))]
fn fault_size(fault: ScrapeFault) -> i64
    ensures { result ≡ entries.fault_size fault }
{
    match fault {
        ScrapeFault::Size => -1,
        _ => 0,
    }
}

/// The size that the reports say of a scrape whose body has so many bytes: these where it is good, -1 where the body was too long, else 0.
pub fn size_in(scrape: &Scrape, size: usize) -> i64
    requires { size < 2 ^ 63 }
    ensures { result ≡ entries.size_of scrape.now size }
{
    match scrape {
        Scrape::Good {
            rows: _,
            scraped: _,
        } => size as i64,
        Scrape::Bad {
            fault,
            scraped: _,
            left: _,
        } => fault_size(*fault),
    }
}

/// What the extra reports say of a scrape with this size, where the job has these.
pub fn extra_in(rules: &RowRules, size: i64) -> Option<ExtraCounts>
    requires { pos 0 ≤ℤ rules.now.timeout }
    ensures value { result ≡ entries.extra_of rules.now size }
    ensures timeout { IfSome result (λ e. pos 0 ≤ℤ e.timeout) }
{
    if rules.extra_scrape_metrics {
        Some(ExtraCounts {
            timeout: rules.timeout,
            limit: rules.limits.sample,
            size,
        })
    } else {
        None
    }
}
