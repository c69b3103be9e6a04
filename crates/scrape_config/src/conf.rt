//! What a configuration is.
use label_set::{ListOf, Name, NameList, PairList};
use outside::Scheme;
use relabel::{RuleList, Rules};
use scrape_limits::Limits;

/// A parameter of the URL and its values (`params`).
#[derive(Drop, Debug)]
pub struct Param {
    pub name: Name,
    pub values: NameList,
}

/// Parameters by rising name.
pub type ParamList = ListOf<Param>;

/// Targets that stand together, with the labels that they share (`static_configs`, or the list of a file).
#[derive(Drop, Debug)]
pub struct Group {
    /// Labels of each target, by rising name; a value may be empty.
    pub labels: PairList,
    /// The targets as written, mostly a host, a colon and a port.
    pub targets: NameList,
    /// The name of the file that lists the group, for a group of a file.
    pub file: Option<Name>,
}

/// Groups in the order in which they are written.
pub type GroupList = ListOf<Group>;

/// The settings of a job (`scrape_configs`), after defaults.
#[derive(Drop, Debug)]
pub struct JobConf {
    pub job_name: Name,
    /// How far apart a target's scrapes are, in milliseconds.
    pub scrape_interval: i64,
    /// How long a scrape may take, in milliseconds.
    pub scrape_timeout: i64,
    pub metrics_path: Name,
    /// How targets are spoken to.
    pub scheme: Scheme,
    /// Whether an exposed label stands before the target's label of the same name.
    pub honor_labels: bool,
    /// Whether an exposed timestamp stands before the moment of the scrape.
    pub honor_timestamps: bool,
    /// Whether series whose exposed timestamps stand are tracked too, so that they end with stale markers.
    pub track_timestamps_staleness: bool,
    /// Whether a scrape has three reports more: the timeout, the limit of samples and the size of the body.
    pub extra_scrape_metrics: bool,
    pub params: ParamList,
    /// The rules for targets (`relabel_configs`).
    pub relabel: RuleList,
    /// The rules for samples (`metric_relabel_configs`).
    pub metric_relabel: RuleList,
    pub limits: Limits,
    pub groups: GroupList,
    /// The different files that list groups, at their first places (`file_sd_configs`).
    pub files: NameList,
}

/// A job with the rules that are built from its settings.
#[derive(Drop)]
pub struct Job {
    pub conf: JobConf,
    pub target_rules: Rules,
    pub metric_rules: Rules,
}

/// Jobs in the order in which they are written.
pub type JobList = ListOf<Job>;

/// A configuration.
#[derive(Drop)]
pub struct Conf {
    pub jobs: JobList,
}
