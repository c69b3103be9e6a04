//! The walk through lists of objects, jobs and a whole text.
ghost use Rattle.std.specs.Prelude.{◌≡◌, OnOk, IfOk, []};
ghost use Rattle.serde_json.specs.View.{view, members_view, items_view};
ghost use Rattle.config_fields.specs.Faults.{best, reported};
ghost use Rattle.config_fields.specs.Tables.{top_field};
ghost use Rattle.config_fields.specs.Places.{field_place};
ghost use Rattle.config_fields.specs.Walks.{flaws};
ghost use Rattle.scrape_config.specs.Lists as spec;

use crate::counts::{MOST_FILES, MOST_JOBS, MOST_TARGETS};
use crate::defaults::{
    Base, action_in, base_of, files_in, has_too_many_targets, interval_in, text_under,
};
use config_fields::fault::{ConfFault, Flaw, is_reported_over, note, note_field};
use config_fields::place::{at_field, at_item};
use config_fields::tables::{
    JobField, Key, ListKind, ObjectKind, Owed, TopField, job_field, top_field,
};
use config_fields::walks::{end, field, object, pass_by};
use indexmap::IndexSet;
use label_set::{Name, NoMemory};
use serde_json::{Map, Value};
use std::alloc::Global;

/// The object of an item of a list.
#[tactic(auto, unfolding(crate::specs::Lists::object_in))]
fn object_in(list: ListKind, value: &Value) -> ObjectKind
    ensures { result ≡ spec.object_in list (view value.now) }
{
    match list {
        ListKind::Rules => ObjectKind::Rule(action_in(value)),
        ListKind::StaticGroups | ListKind::FileGroups => ObjectKind::Group,
        ListKind::FileLists => ObjectKind::FileList,
    }
}

/// Whether a list has too many targets or files.
#[tactic(auto, unfolding(crate::specs::Lists::crowd))]
fn crowd(alloc: Global, list: ListKind, values: &[Value]) -> Result<Option<Flaw>, NoMemory>
    ensures { IfOk result (λ f. f ≡ spec.crowd list (items_view values.now)) }
{
    match list {
        ListKind::Rules | ListKind::FileGroups => Ok(None),
        ListKind::StaticGroups => {
            if has_too_many_targets(values) {
                Ok(Some(Flaw::TooMany(MOST_TARGETS)))
            } else {
                Ok(None)
            }
        }
        ListKind::FileLists => {
            if MOST_FILES < files_in(alloc, values)?.as_slice().len() as u64 {
                Ok(Some(Flaw::TooMany(MOST_FILES)))
            } else {
                Ok(None)
            }
        }
    }
}

/// The objects of a list.
#[tactic(auto, using(config_fields::proofs::FaultLemmas::best_after))]
fn objects(
    alloc: Global,
    list: ListKind,
    place: &str,
    values: &[Value],
    found: &mut Option<ConfFault>,
) -> Result<(), NoMemory>
    ensures { OnOk result (found.new ≡ best found.old (spec.objects_faults list place.now 0 (items_view values.now))) }
{
    let mut index = 0;
    for value in values {
        let place = at_item(alloc, place, index)?;
        object(alloc, object_in(list, value), place.as_str(), value, found)?;
        index += 1;
    }
    Ok(())
}

/// A list of objects.
#[tactic(auto, unfolding(crate::specs::Lists::list_faults))]
pub fn list(
    alloc: Global,
    list: ListKind,
    place: &str,
    value: &Value,
    found: &mut Option<ConfFault>,
) -> Result<(), NoMemory>
    ensures { OnOk result (found.new ≡ best found.old (spec.list_faults list place.now (view value.now))) }
{
    let Some(values) = value.as_array() else {
        return note(alloc, found, Flaw::Shape, place);
    };
    if let Some(flaw) = crowd(alloc, list, values)? {
        note(alloc, found, flaw, place)?;
    }
    objects(alloc, list, place, values, found)
}

/// A field of a job.
#[tactic(auto, unfolding(crate::specs::Lists::job_field_faults))]
fn field_of_job(
    alloc: Global,
    job_field: JobField,
    place: &str,
    key: &str,
    value: &Value,
    found: &mut Option<ConfFault>,
) -> Result<(), NoMemory>
    ensures { OnOk result (found.new ≡ best found.old (spec.job_field_faults job_field (field_place place.now key.now) (view value.now))) }
{
    match job_field {
        JobField::Plain(plain) => field(alloc, plain, place, key, value, found),
        JobField::List(kind) => {
            let place = at_field(alloc, place, key)?;
            list(alloc, kind, place.as_str(), value, found)
        }
    }
}

/// The fields of a job whose timeout may be at most so long.
#[tactic(auto, using(config_fields::proofs::FaultLemmas::best_after))]
fn members_of_job(
    alloc: Global,
    most: i64,
    place: &str,
    object: &Map<String, Value>,
    found: &mut Option<ConfFault>,
) -> Result<(), NoMemory>
    ensures { OnOk result (found.new ≡ best found.old (spec.job_members_faults most place.now spec.owed_by_job (members_view object.now.entries))) }
{
    let mut owed = Owed {
        first: Some(Key::JobName),
        second: None,
    };
    for (key, value) in object {
        owed = pass_by(alloc, place, owed, key.as_str(), found)?;
        let field = job_field(most, key.as_str());
        field_of_job(alloc, field, place, key.as_str(), value, found)?;
    }
    end(alloc, place, owed, found)
}

/// A job.
#[tactic(auto, unfolding(crate::specs::Lists::job_faults))]
fn job(
    alloc: Global,
    base: Base,
    place: &str,
    value: &Value,
    found: &mut Option<ConfFault>,
) -> Result<(), NoMemory>
    ensures { OnOk result (found.new ≡ best found.old (spec.job_faults base place.now (view value.now))) }
{
    match value.as_object() {
        Some(object) => members_of_job(alloc, interval_in(base, value), place, object, found),
        None => note(alloc, found, Flaw::Shape, place),
    }
}

/// The jobs of a list.
#[tactic(auto, using(config_fields::proofs::FaultLemmas::best_after))]
fn each_job(
    alloc: Global,
    base: Base,
    place: &str,
    values: &[Value],
    found: &mut Option<ConfFault>,
) -> Result<(), NoMemory>
    ensures { OnOk result (found.new ≡ best found.old (spec.jobs_walk base place.now 0 (items_view values.now))) }
{
    let mut index = 0;
    for value in values {
        let place = at_item(alloc, place, index)?;
        job(alloc, base, place.as_str(), value, found)?;
        index += 1;
    }
    Ok(())
}

/// The first job's name that an earlier job has.
fn name_again(alloc: Global, jobs: &[Value]) -> Result<Option<Name>, NoMemory>
    ensures { IfOk result (λ o. o ≡ spec.name_again [] (spec.names_of (items_view jobs.now))) }
{
    let mut seen = IndexSet::new(alloc);
    for job in jobs {
        if let Some(name) = text_under("job_name", job) {
            if !seen.insert(Name::from_str(alloc, name)?)? {
                return Ok(Some(Name::from_str(alloc, name)?));
            }
        }
    }
    Ok(None)
}

/// Notes the first job's name that an earlier job has.
fn twice_named(alloc: Global, jobs: &[Value], found: &mut Option<ConfFault>) -> Result<(), NoMemory>
    ensures { OnOk result (found.new ≡ best found.old (spec.twice_named (spec.name_again [] (spec.names_of (items_view jobs.now))))) }
{
    if let Some(job) = name_again(alloc, jobs)? {
        if is_reported_over(6, found) {
            *found = Some(ConfFault::TwiceNamed { job });
        }
    }
    Ok(())
}

/// Notes a list of too many jobs.
fn crowded(
    alloc: Global,
    count: usize,
    place: &str,
    found: &mut Option<ConfFault>,
) -> Result<(), NoMemory>
    ensures { OnOk result (found.new ≡ best found.old (flaws place.now (spec.job_crowd count))) }
{
    if MOST_JOBS < count as u64 {
        note(alloc, found, Flaw::TooMany(MOST_JOBS), place)
    } else {
        Ok(())
    }
}

/// The list of jobs.
#[tactic(auto, using(crate::proofs::ListLemmas::three_parts, crate::proofs::DefaultLemmas::item_count_view), unfolding(crate::specs::Lists::jobs_faults))]
fn jobs(
    alloc: Global,
    base: Base,
    place: &str,
    value: &Value,
    found: &mut Option<ConfFault>,
) -> Result<(), NoMemory>
    ensures { OnOk result (found.new ≡ best found.old (spec.jobs_faults base place.now (view value.now))) }
{
    let Some(values) = value.as_array() else {
        return note(alloc, found, Flaw::Shape, place);
    };
    twice_named(alloc, values, found)?;
    crowded(alloc, values.len(), place, found)?;
    each_job(alloc, base, place, values, found)
}

/// A field of the whole text.
#[tactic(auto, unfolding(crate::specs::Lists::top_field_faults))]
fn field_of_text(
    alloc: Global,
    base: Base,
    key: &str,
    value: &Value,
    found: &mut Option<ConfFault>,
) -> Result<(), NoMemory>
    ensures { OnOk result (found.new ≡ best found.old (spec.top_field_faults base (top_field key.now) (field_place [] key.now) (view value.now))) }
{
    match top_field(key) {
        TopField::Global => {
            let place = at_field(alloc, "", key)?;
            object(
                alloc,
                ObjectKind::Global(base.interval),
                place.as_str(),
                value,
                found,
            )
        }
        TopField::Jobs => {
            let place = at_field(alloc, "", key)?;
            jobs(alloc, base, place.as_str(), value, found)
        }
        TopField::PassedOver => Ok(()),
        TopField::Unknown => note_field(alloc, found, Flaw::Unknown, "", key),
    }
}

/// The fields of the whole text.
#[tactic(auto, using(config_fields::proofs::FaultLemmas::best_after))]
fn members_of_text(
    alloc: Global,
    base: Base,
    object: &Map<String, Value>,
    found: &mut Option<ConfFault>,
) -> Result<(), NoMemory>
    ensures { OnOk result (found.new ≡ best found.old (spec.top_members_faults base (members_view object.now.entries))) }
{
    for (key, value) in object {
        field_of_text(alloc, base, key.as_str(), value, found)?;
    }
    Ok(())
}

/// The fault of a configuration, the first of the least number.
#[tactic(auto, unfolding(crate::specs::Lists::conf_faults))]
pub fn conf_fault(alloc: Global, value: &Value) -> Result<Option<ConfFault>, NoMemory>
    ensures { IfOk result (λ f. f ≡ reported (spec.conf_faults (view value.now))) }
{
    let mut found = None;
    match value.as_object() {
        Some(object) => members_of_text(alloc, base_of(value), object, &mut found)?,
        None => note(alloc, &mut found, Flaw::Shape, "")?,
    }
    Ok(found)
}

/// The fault of the list of a file, the first of the least number.
#[tactic(auto, unfolding(crate::specs::Lists::groups_faults))]
pub fn groups_fault(alloc: Global, value: &Value) -> Result<Option<ConfFault>, NoMemory>
    ensures { IfOk result (λ f. f ≡ reported (spec.groups_faults (view value.now))) }
{
    let mut found = None;
    list(alloc, ListKind::FileGroups, "", value, &mut found)?;
    Ok(found)
}
