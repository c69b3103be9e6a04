//! Comparing the settings of jobs.
ghost use Rattle.std.specs.Prelude.{◌≡◌, Decides};
ghost use Rattle.scrape_config.specs.Settings as spec;
ghost use Rattle.scrape_config.specs.Settings.{HasSameReach, HasSameLists, Compatible, Same};

use crate::conf::{JobConf, Param};
use label_set::Name;
use relabel::RuleConf;

/// Whether two texts are equal.
fn is_same_text(a: &Name, b: &Name) -> bool
    ensures { Decides result (a.now ≡ b.now) }
{
    a.as_str() == b.as_str()
}

/// Whether two lists of texts are equal.
fn are_same_texts(a: &[Name], b: &[Name]) -> bool
    ensures { Decides result (a.now ≡ b.now) }
{
    a == b
}

/// Whether two rules are equal, in fields that their actions don't use as well.
fn is_same_rule(a: &RuleConf, b: &RuleConf) -> bool
    ensures { Decides result (a.now ≡ b.now) }
{
    are_same_texts(a.sources.as_slice(), b.sources.as_slice())
        && is_same_text(&a.separator, &b.separator)
        && is_same_text(&a.regex, &b.regex)
        && a.modulus == b.modulus
        && is_same_text(&a.target, &b.target)
        && is_same_text(&a.replacement, &b.replacement)
        && a.action == b.action
}

/// Whether two lists of rules are equal.
fn are_same_rules(a: &[RuleConf], b: &[RuleConf]) -> bool
    ensures { Decides result (a.now ≡ b.now) }
{
    if a.len() != b.len() {
        return false;
    }
    for index in 0..a.len() {
        if !is_same_rule(&a[index], &b[index]) {
            return false;
        }
    }
    true
}

/// Whether two parameters have the same name and values.
fn is_same_param(a: &Param, b: &Param) -> bool
    ensures { Decides result (a.now ≡ b.now) }
{
    is_same_text(&a.name, &b.name) && are_same_texts(a.values.as_slice(), b.values.as_slice())
}

/// Whether two lists of parameters are equal.
fn are_same_params(a: &[Param], b: &[Param]) -> bool
    ensures { Decides result (a.now ≡ b.now) }
{
    if a.len() != b.len() {
        return false;
    }
    for index in 0..a.len() {
        if !is_same_param(&a[index], &b[index]) {
            return false;
        }
    }
    true
}

/// Whether two jobs have the same names, flags and scheme.
fn have_same_reach(a: &JobConf, b: &JobConf) -> bool
    ensures { Decides result (HasSameReach a.now b.now) }
{
    is_same_text(&a.job_name, &b.job_name)
        && a.honor_labels == b.honor_labels
        && a.honor_timestamps == b.honor_timestamps
        && a.track_timestamps_staleness == b.track_timestamps_staleness
        && a.extra_scrape_metrics == b.extra_scrape_metrics
        && is_same_text(&a.metrics_path, &b.metrics_path)
        && a.scheme == b.scheme
}

/// Whether two jobs have the same parameters and rules.
fn have_same_lists(a: &JobConf, b: &JobConf) -> bool
    ensures { Decides result (HasSameLists a.now b.now) }
{
    are_same_params(a.params.as_slice(), b.params.as_slice())
        && are_same_rules(a.relabel.as_slice(), b.relabel.as_slice())
        && are_same_rules(a.metric_relabel.as_slice(), b.metric_relabel.as_slice())
}

/// Whether two jobs are compatible.
#[tactic(auto, unfolding(crate::specs::Settings::Compatible))]
fn are_compatible(a: &JobConf, b: &JobConf) -> bool
    ensures { Decides result (Compatible a.now b.now) }
{
    have_same_reach(a, b) && have_same_lists(a, b)
}

/// Whether two jobs have the same settings.
#[tactic(auto, unfolding(crate::specs::Settings::Same))]
fn are_same(a: &JobConf, b: &JobConf) -> bool
    ensures { Decides result (Same a.now b.now) }
{
    are_compatible(a, b)
        && a.scrape_interval == b.scrape_interval
        && a.scrape_timeout == b.scrape_timeout
        && a.limits == b.limits
}

impl JobConf {
    /// Whether the settings are equal that say how targets are scraped and samples named:
    /// a target's series can go on under the other job. Interval, timeout and limits may differ, groups and files of groups as well.
    pub fn compatible(&self, other: &JobConf) -> bool
        ensures decides { Decides result (Compatible self.now other.now) }
        ensures compared { result ≡ spec.is_compatible self.now other.now }
    {
        are_compatible(self, other)
    }

    /// Whether all settings are equal. Groups and files of groups are no settings.
    pub fn same(&self, other: &JobConf) -> bool
        ensures decides { Decides result (Same self.now other.now) }
        ensures compared { result ≡ spec.is_same self.now other.now }
    {
        are_same(self, other)
    }
}

/// For any two jobs, what `compatible` and `same` answer says what is the same of them, and jobs with the same settings are compatible.
/// The call does nothing: its contract is the law.
pub fn comparing_decides()
    ensures compatible { spec.CompatibleIsDecided }
    ensures same { spec.SameIsDecided }
    ensures within { spec.SameIsCompatible }
{}
