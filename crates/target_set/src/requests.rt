//! The requests of scrapes.
ghost use Rattle.std.specs.Prelude.{◌≡◌, ◌++◌, [], map, string_bytes, option_map, unwrap_or, is_none, is_some, IfOk, OnOk};
ghost use Rattle.std.specs.List.{filter_map};
ghost use Rattle.label_set.specs.declared.texts.Pair.{Pair};
ghost use Rattle.scrape_config.specs.declared.conf.Param.{Param};
ghost use Rattle.target_set.specs.Outcomes.{cause_of};
ghost use Rattle.target_set.specs.Requests as spec;
ghost use Rattle.target_set.specs.Values.{found, pairs_by};

use crate::address::{has_mark, read_url};
use crate::values::{listed_for, listed_values, set_for, set_values};
use label_set::{LabelSet, Name, NoMemory};
use outside::{Request, Scheme, is_scheme, scheme_of};
use scrape_config::{JobConf, Param};
use scrape_limits::body_limit;
use std::alloc::Global;
use std::collections::{BTreeSet, HashMap};
use url::{ParseResult, Url};

/// The URL of a target; none where it has a cause.
#[tactic(auto, unfolding(crate::specs::Requests::base_of, crate::specs::Outcomes::cause_of))]
fn base_in(alloc: Global, identity: &LabelSet) -> Result<Option<Url>, NoMemory>
    ensures { IfOk result (λ o. o ≡ spec.base_of identity.now) }
{
    let Some(address) = identity.get("__address__") else {
        return Ok(None);
    };
    let Some(scheme) = identity.get("__scheme__") else {
        return Ok(None);
    };
    if has_mark(address) || !is_scheme(scheme) {
        return Ok(None);
    }
    read_url(alloc, scheme, address)
}

/// The value of a label, empty where there is none.
fn text_in<'a>(identity: &'a LabelSet, name: &str) -> &'a str
    ensures { result.now ≡ spec.text_of identity.now name.now }
{
    identity.get(name).unwrap_or("")
}

fn scheme_in(identity: &LabelSet) -> Scheme
    ensures { result ≡ spec.scheme_in identity.now }
{
    scheme_of(text_in(identity, "__scheme__")).unwrap_or(Scheme::Http)
}

/// A path with a slash in front.
fn with_slash(alloc: Global, path: &str) -> Result<String, NoMemory>
    ensures { IfOk result (λ s. string_bytes s ≡ spec.with_slash path.now) }
{
    if path.starts_with('/') {
        return Ok(String::from_str(alloc, path)?);
    }
    let mut text = String::from_str(alloc, "/")?;
    text.push_str(path)?;
    Ok(text)
}

#[tactic(auto, unfolding(crate::specs::Requests::path_of))]
fn path_in(alloc: Global, identity: &LabelSet) -> Result<String, NoMemory>
    ensures { IfOk result (λ s. string_bytes s ≡ spec.path_of identity.now) }
{
    match identity.get("__metrics_path__") {
        Some(path) => with_slash(alloc, path),
        None => Ok(String::from_str(alloc, "/")?),
    }
}

/// The name of the parameter that a label of a name sets.
#[tactic(auto, unfolding(crate::specs::Requests::param_name, crate::specs::Outcomes::begins_with))]
pub fn param_name(name: &str) -> Option<&str>
    ensures { option_map (λ n. n.now) result ≡ spec.param_name name.now }
{
    name.strip_prefix("__param_")
}

/// Puts the names of parameters at their places.
fn put_params(alloc: Global, names: &mut BTreeSet<Name>, params: &[Param]) -> Result<(), NoMemory>
    ensures { OnOk result (names.new.keys ≡ spec.put_all names.old.keys (map (λ (p : Param). p.name) params.now)) }
{
    for param in params {
        let _ = names.insert(param.name.copy(alloc)?)?;
    }
    Ok(())
}

/// Puts the names of the parameters that labels set at their places.
fn put_set(alloc: Global, names: &mut BTreeSet<Name>, set: &LabelSet) -> Result<(), NoMemory>
    ensures { OnOk result (names.new.keys ≡ spec.put_all names.old.keys (filter_map (λ (p : Pair). spec.param_name p.name) set.now)) }
{
    for label in set.labels() {
        if let Some(name) = param_name(label.name) {
            let _ = names.insert(Name::from_str(alloc, name)?)?;
        }
    }
    Ok(())
}

/// The names of a query, each once, rising by bytes.
fn query_names(
    alloc: Global,
    params: &[Param],
    identity: &LabelSet,
) -> Result<BTreeSet<Name>, NoMemory>
    ensures { IfOk result (λ s. s.keys ≡ spec.query_names identity.now params.now) }
{
    let mut names = BTreeSet::new(alloc);
    put_params(alloc, &mut names, params)?;
    put_set(alloc, &mut names, identity)?;
    Ok(names)
}

/// Adds a pair of a name and each value.
fn push_values<'a>(
    pairs: &mut Vec<(&'a str, &'a str)>,
    name: &'a str,
    values: &'a [Name],
) -> Result<(), NoMemory>
    ensures { OnOk result (map spec.texts pairs.new.items ≡ map spec.texts pairs.old.items ++ spec.each_of name.now values.now) }
{
    for value in values {
        pairs.push((name, value.as_str()))?;
    }
    Ok(())
}

/// Adds a pair of a name and each of its values.
fn push_name<'a>(
    pairs: &mut Vec<(&'a str, &'a str)>,
    name: &'a str,
    set: Option<&'a str>,
    values: &'a [Name],
) -> Result<(), NoMemory>
    ensures { OnOk result (map spec.texts pairs.new.items
        ≡ map spec.texts pairs.old.items
        ++ spec.each_of name.now (spec.with_first_value (option_map (λ v. v.now) set.entry) values.now)) }
{
    let Some(value) = set else {
        return push_values(pairs, name, values);
    };
    pairs.push((name, value))?;
    if values.is_empty() {
        Ok(())
    } else {
        push_values(pairs, name, &values[1..])
    }
}

/// The pairs of some names.
fn pairs_by<'a>(
    alloc: Global,
    names: &'a BTreeSet<Name>,
    listed: &HashMap<&'a str, &'a [Name]>,
    set: &HashMap<&'a str, &'a str>,
) -> Result<Vec<(&'a str, &'a str)>, NoMemory>
    ensures { IfOk result (λ v. map spec.texts v.items
        ≡ pairs_by (λ name. found set.now name) (λ name. unwrap_or (found listed.now name) []) names.now.keys) }
{
    let mut pairs = Vec::new(alloc);
    for name in names.iter() {
        let name = name.as_str();
        push_name(
            &mut pairs,
            name,
            set_for(set, name),
            listed_for(listed, name),
        )?;
    }
    Ok(pairs)
}

/// The pairs of a query.
fn pairs_under<'a>(
    alloc: Global,
    names: &'a BTreeSet<Name>,
    params: &'a [Param],
    identity: &'a LabelSet,
) -> Result<Vec<(&'a str, &'a str)>, NoMemory>
    ensures { IfOk result (λ v. map spec.texts v.items ≡ spec.pairs_under identity.now params.now names.now.keys) }
{
    let listed = listed_values(alloc, params)?;
    let set = set_values(alloc, identity)?;
    pairs_by(alloc, names, &listed, &set)
}

fn set_page(url: &mut Url, path: &str, pairs: &[(&str, &str)]) -> ParseResult<()>
    ensures { OnOk result (url.new ≡ spec.page_of url.old path.now (map spec.texts pairs.now)) }
{
    url.set_path(path)?;
    if !pairs.is_empty() {
        url.append_query_pairs(pairs)?;
    }
    Ok(())
}

/// A URL with a path and a query of pairs.
fn page(mut url: Url, path: &str, pairs: &[(&str, &str)]) -> Result<Url, NoMemory>
    ensures { IfOk result (λ u. u ≡ spec.page_of url path.now (map spec.texts pairs.now)) }
{
    let done = set_page(&mut url, path, pairs);
    match done {
        Ok(()) => Ok(url),
        Err(_) => Err(NoMemory),
    }
}

#[tactic(auto, unfolding(crate::specs::Requests::host_of))]
fn host_in(alloc: Global, url: &Url) -> Result<Name, NoMemory>
    ensures { IfOk result (λ n. n ≡ spec.host_of url.now) }
{
    Name::from_str(alloc, url.host_str().unwrap_or(""))
}

#[tactic(auto, unfolding(crate::specs::Requests::authority_of))]
fn authority_in(alloc: Global, url: &Url) -> Result<Name, NoMemory>
    ensures { IfOk result (λ n. n ≡ spec.authority_of url.now) }
{
    let mut text = host_in(alloc, url)?.text;
    if let Some(port) = url.port() {
        text.push_str(":")?;
        text.push_str(port.to_string(alloc)?.as_str())?;
    }
    Ok(Name { text })
}

#[tactic(auto, unfolding(crate::specs::Requests::target_of))]
fn target_in(alloc: Global, url: &Url) -> Result<Name, NoMemory>
    ensures { IfOk result (λ n. n ≡ spec.target_of url.now) }
{
    let mut text = String::from_str(alloc, url.path())?;
    if let Some(query) = url.query() {
        text.push_str("?")?;
        text.push_str(query)?;
    }
    Ok(Name { text })
}

fn scheme_port(scheme: Scheme) -> u16
    ensures { result ≡ spec.scheme_port scheme }
{
    match scheme {
        Scheme::Http => 80,
        Scheme::Https => 443,
    }
}

/// The request for a page.
fn request_for(
    alloc: Global,
    conf: &JobConf,
    scheme: Scheme,
    page: &Url,
) -> Result<Request, NoMemory>
    ensures { IfOk result (λ r. r ≡ spec.request_for conf.now scheme page.now) }
{
    Ok(Request {
        scheme,
        authority: authority_in(alloc, page)?,
        host: host_in(alloc, page)?,
        port: page.port().unwrap_or(scheme_port(scheme)),
        target: target_in(alloc, page)?,
        timeout: conf.scrape_timeout,
        limit: body_limit(&conf.limits),
    })
}

/// The page of a target at its URL.
#[tactic(auto, unfolding(crate::specs::Requests::query_pairs))]
fn page_in(alloc: Global, params: &[Param], identity: &LabelSet, base: Url) -> Result<Url, NoMemory>
    ensures { IfOk result (λ u. u ≡ spec.page_of base (spec.path_of identity.now) (spec.query_pairs identity.now params.now)) }
{
    let path = path_in(alloc, identity)?;
    let names = query_names(alloc, params, identity)?;
    let pairs = pairs_under(alloc, &names, params, identity)?;
    page(base, path.as_str(), pairs.as_slice())
}

/// The request of a scrape of a target that a job keeps, known by the target's identity.
///
/// It is `None` exactly where the identity has a cause to refuse it: no `__address__`, a byte of `/ ? # @ \` in it, a `__scheme__` that
/// is neither `http` nor `https`, or no URL that reads the scheme, `://`, the address and `/`.
///
/// The path is that of `__metrics_path__`, with a `/` in front where it has none, and `/` where there is none. The query has pairs with
/// rising names: those of the job's `params` and those of labels `__param_<name>`, each name with the values of `params` in their order.
/// The label's value stands in place of the first value, or is the only one. The authority shows the URL's port where the URL does, and
/// the port is that one, or 80 for `http` and 443 for `https`. A body may have as many bytes as `body_size_limit` says, where that is from
/// 1 to 64 MiB, and else 64 MiB.
///
/// The source is "Configuration" of the Prometheus documentation, scrape_config and relabel_config, and the URL Standard; the most bytes
/// are this project's.
///
/// # Errors
///
/// The only error is out of memory, and what was borrowed stays as it was.
///
/// # Example
///
/// `{__address__="a:1",__metrics_path__="/metrics",__scheme__="http",instance="a:1",job="j"}` of a job with defaults: the scheme `Http`,
/// the authority `a:1`, the host `a`, the port 1, the target `/metrics`, the timeout 10000 and the limit 67108864.
#[tactic(auto, unfolding(crate::specs::Requests::request_of, crate::specs::Requests::request_at))]
pub fn request_of(
    alloc: Global,
    conf: &JobConf,
    identity: &LabelSet,
) -> Result<Option<Request>, NoMemory>
    ensures request { IfOk result (λ o. o ≡ spec.request_of conf.now identity.now) }
    ensures none { IfOk result (λ o. is_none o ≡ is_some (cause_of identity.now)) }
{
    match base_in(alloc, identity)? {
        None => Ok(None),
        Some(base) => {
            let page = page_in(alloc, conf.params.as_slice(), identity, base)?;
            Ok(Some(request_for(alloc, conf, scheme_in(identity), &page)?))
        }
    }
}
