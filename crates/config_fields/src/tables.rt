//! The fields of each object, as a table ("Configuration" of the Prometheus documentation: configuration file, global, scrape_config,
//! relabel_config, static_config, file_sd_config).
ghost use Rattle.std.specs.Prelude.{◌≡◌};
ghost use Rattle.config_fields.specs.Tables as spec;

use crate::forms::{Kind, TextForm};
use rule_conf::Action;

/// What a field holds that has no further objects.
#[derive(Clone, Copy, Debug)]
pub enum Field {
    /// No such field is known.
    Unknown,
    /// A value without fields and items.
    Plain(Kind),
    /// A list of texts, refused where one isn't of the form.
    Texts(TextForm),
    /// An object of texts under label names.
    Labels,
    /// An object of lists of texts.
    Params,
}

/// A list of objects.
#[derive(Clone, Copy, PartialEq, Eq, Debug)]
pub enum ListKind {
    /// `relabel_configs` and `metric_relabel_configs`.
    Rules,
    /// The groups of `static_configs`.
    StaticGroups,
    /// The groups of a file.
    FileGroups,
    /// `file_sd_configs`.
    FileLists,
}

/// What a field of a job holds.
#[derive(Clone, Copy, Debug)]
pub enum JobField {
    /// A value that has no further objects.
    Plain(Field),
    /// A list of objects.
    List(ListKind),
}

/// What a field of the whole text holds.
#[derive(Clone, Copy, PartialEq, Eq, Debug)]
pub enum TopField {
    /// `global`.
    Global,
    /// `scrape_configs`.
    Jobs,
    /// Accepted and not read.
    PassedOver,
    /// No such field is known.
    Unknown,
}

/// An object whose fields hold no further objects.
#[derive(Clone, Copy, Debug)]
pub enum ObjectKind {
    /// `global`, with the interval that its timeout may not pass.
    Global(i64),
    /// One of `static_configs`, or of the list of a file.
    Group,
    /// One of `file_sd_configs`.
    FileList,
    /// A rule, with its action where it names one.
    Rule(Option<Action>),
}

/// A field that an object must have.
#[derive(Clone, Copy, PartialEq, Eq, Debug)]
pub enum Key {
    JobName,
    Files,
    Modulus,
    TargetLabel,
}

/// The required fields of an object that a walk hasn't come to, by rising key.
#[derive(Clone, Copy, PartialEq, Eq, Debug)]
pub struct Owed {
    pub first: Option<Key>,
    pub second: Option<Key>,
}

const fn text(form: TextForm) -> Field
    ensures { result ≡ spec.text form }
{
    Field::Plain(Kind::Text(form))
}

/// The six limits of a job.
#[tactic(auto, unfolding(crate::specs::Tables::is_limit_key))]
fn is_limit_key(key: &str) -> bool
    ensures { result ≡ spec.is_limit_key key.now }
{
    key == "sample_limit"
        || key == "label_limit"
        || key == "label_name_length_limit"
        || key == "label_value_length_limit"
        || key == "body_size_limit"
        || key == "target_limit"
}

/// `global`: its timeout may not pass its interval.
#[tactic(auto, unfolding(crate::specs::Tables::global_field))]
fn global_field(most: i64, key: &str) -> Field
    ensures { result ≡ spec.global_field most key.now }
{
    if key == "scrape_interval" {
        text(TextForm::Duration)
    } else if key == "scrape_timeout" {
        text(TextForm::Timeout(most))
    } else if is_limit_key(key) {
        Field::Plain(Kind::Limit)
    } else if key == "evaluation_interval" {
        Field::Plain(Kind::Any)
    } else if key == "external_labels" {
        Field::Plain(Kind::Any)
    } else if key == "query_log_file" {
        Field::Plain(Kind::Any)
    } else {
        Field::Unknown
    }
}

/// `static_configs`, and the list of a file.
#[tactic(auto, unfolding(crate::specs::Tables::group_field))]
fn group_field(key: &str) -> Field
    ensures { result ≡ spec.group_field key.now }
{
    if key == "targets" {
        Field::Texts(TextForm::Any)
    } else if key == "labels" {
        Field::Labels
    } else {
        Field::Unknown
    }
}

/// `file_sd_configs`.
#[tactic(auto, unfolding(crate::specs::Tables::file_list_field))]
fn file_list_field(key: &str) -> Field
    ensures { result ≡ spec.file_list_field key.now }
{
    if key == "files" {
        Field::Texts(TextForm::ShortName)
    } else if key == "refresh_interval" {
        text(TextForm::Duration)
    } else {
        Field::Unknown
    }
}

/// Whether an action sets or compares one label.
fn sets_one_label(action: Action) -> bool
    ensures { result ≡ spec.sets_one_label action }
{
    matches!(
        action,
        Action::HashMod
            | Action::Lowercase
            | Action::Uppercase
            | Action::KeepEqual
            | Action::DropEqual
    )
}

/// What a rule's `target_label` may be.
#[tactic(auto, unfolding(crate::specs::Tables::target_form))]
fn target_form(action: Option<Action>) -> TextForm
    ensures { result ≡ spec.target_form action }
{
    match action {
        None => TextForm::Any,
        Some(Action::Replace) => TextForm::Filled,
        Some(action) => {
            if sets_one_label(action) {
                TextForm::LabelName
            } else {
                TextForm::Any
            }
        }
    }
}

/// `relabel_configs` and `metric_relabel_configs`.
#[tactic(auto, unfolding(crate::specs::Tables::rule_field))]
fn rule_field(action: Option<Action>, key: &str) -> Field
    ensures { result ≡ spec.rule_field action key.now }
{
    if key == "source_labels" {
        Field::Texts(TextForm::LabelName)
    } else if key == "separator" {
        text(TextForm::Any)
    } else if key == "regex" {
        text(TextForm::Any)
    } else if key == "modulus" {
        Field::Plain(Kind::Modulus)
    } else if key == "target_label" {
        text(target_form(action))
    } else if key == "replacement" {
        text(TextForm::Any)
    } else if key == "action" {
        text(TextForm::Action)
    } else {
        Field::Unknown
    }
}

/// What the field of a key holds, in an object of a kind.
#[tactic(auto, unfolding(crate::specs::Tables::field_of))]
pub fn field_of(kind: ObjectKind, key: &str) -> Field
    ensures { result ≡ spec.field_of kind key.now }
{
    match kind {
        ObjectKind::Global(most) => global_field(most, key),
        ObjectKind::Group => group_field(key),
        ObjectKind::FileList => file_list_field(key),
        ObjectKind::Rule(action) => rule_field(action, key),
    }
}

/// A job's fields without further objects: its timeout may not pass its interval.
#[tactic(auto, unfolding(crate::specs::Tables::job_plain_field))]
fn job_plain_field(most: i64, key: &str) -> Field
    ensures { result ≡ spec.job_plain_field most key.now }
{
    if key == "job_name" {
        text(TextForm::ShortName)
    } else if key == "scrape_interval" {
        text(TextForm::Duration)
    } else if key == "scrape_timeout" {
        text(TextForm::Timeout(most))
    } else if key == "metrics_path" {
        text(TextForm::Any)
    } else if key == "scheme" {
        text(TextForm::Scheme)
    } else if key == "honor_labels" {
        Field::Plain(Kind::Truth)
    } else if key == "honor_timestamps" {
        Field::Plain(Kind::Truth)
    } else if key == "track_timestamps_staleness" {
        Field::Plain(Kind::Truth)
    } else if key == "extra_scrape_metrics" {
        Field::Plain(Kind::Truth)
    } else if key == "params" {
        Field::Params
    } else if is_limit_key(key) {
        Field::Plain(Kind::Limit)
    } else {
        Field::Unknown
    }
}

/// What the field of a key holds, in one of `scrape_configs` whose timeout may not pass `most` milliseconds.
#[tactic(auto, unfolding(crate::specs::Tables::job_field))]
pub fn job_field(most: i64, key: &str) -> JobField
    ensures { result ≡ spec.job_field most key.now }
{
    if key == "relabel_configs" {
        JobField::List(ListKind::Rules)
    } else if key == "metric_relabel_configs" {
        JobField::List(ListKind::Rules)
    } else if key == "static_configs" {
        JobField::List(ListKind::StaticGroups)
    } else if key == "file_sd_configs" {
        JobField::List(ListKind::FileLists)
    } else {
        JobField::Plain(job_plain_field(most, key))
    }
}

/// Fields of the whole text that are accepted and not read.
#[tactic(auto, unfolding(crate::specs::Tables::is_passed_over))]
fn is_passed_over(key: &str) -> bool
    ensures { result ≡ spec.is_passed_over key.now }
{
    key == "rule_files"
        || key == "alerting"
        || key == "remote_write"
        || key == "remote_read"
        || key == "storage"
        || key == "tracing"
}

/// What the field of a key holds, in the whole text.
#[tactic(auto, unfolding(crate::specs::Tables::top_field))]
pub fn top_field(key: &str) -> TopField
    ensures { result ≡ spec.top_field key.now }
{
    if key == "global" {
        TopField::Global
    } else if key == "scrape_configs" {
        TopField::Jobs
    } else if is_passed_over(key) {
        TopField::PassedOver
    } else {
        TopField::Unknown
    }
}

impl Key {
    /// How the field is spelled.
    #[tactic(auto, unfolding(crate::specs::Tables::key_text))]
    pub fn text(self) -> &'static str
        ensures { result.now ≡ spec.key_text self }
    {
        match self {
            Key::JobName => "job_name",
            Key::Files => "files",
            Key::Modulus => "modulus",
            Key::TargetLabel => "target_label",
        }
    }
}

fn where_needed(is_needed: bool, key: Key) -> Option<Key>
    ensures { result ≡ spec.where_needed is_needed key }
{
    if is_needed { Some(key) } else { None }
}

fn needs_modulus(action: Option<Action>) -> bool
    ensures { result ≡ spec.needs_modulus action }
{
    matches!(action, Some(Action::HashMod))
}

fn needs_target(action: Option<Action>) -> bool
    ensures { result ≡ spec.needs_target action }
{
    match action {
        None => false,
        Some(Action::Replace) => true,
        Some(action) => sets_one_label(action),
    }
}

/// The fields that an object of a kind must have, before a walk through it begins.
#[tactic(auto, unfolding(crate::specs::Tables::owed_by))]
pub fn owed_by(kind: ObjectKind) -> Owed
    ensures { result ≡ spec.owed_by kind }
{
    match kind {
        ObjectKind::Global(_) | ObjectKind::Group => Owed {
            first: None,
            second: None,
        },
        ObjectKind::FileList => Owed {
            first: Some(Key::Files),
            second: None,
        },
        ObjectKind::Rule(action) => Owed {
            first: where_needed(needs_modulus(action), Key::Modulus),
            second: where_needed(needs_target(action), Key::TargetLabel),
        },
    }
}
