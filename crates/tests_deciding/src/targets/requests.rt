//! The request of a kept target.

use crate::shared::{are_bytes, conf_of, job_in, set_of};
use label_set::NoMemory;
use outside::{Request, scheme_text};
use std::alloc::{AllocError, Global};
use std::process::Abort;
use target_set::request_of;

/// With bars between them: settings of a job beside its name, the labels of an identity, and the request: scheme,
/// authority, host, port, target, timeout and limit.
const ROWS: &str = r#"
 | __address__=a:1 __metrics_path__=/metrics __scheme__=http instance=a:1 job=j | http a:1 a 1 /metrics 10000 67108864;
,"scrape_timeout":"2s" | __address__=a:1 __metrics_path__=m __scheme__=http | http a:1 a 1 /m 2000 67108864;
,"metrics_path":"/n" | __address__=a:1 __scheme__=http | http a:1 a 1 / 10000 67108864;
 | __address__=a:1 __metrics_path__=/m?x#y __scheme__=http | http a:1 a 1 /m%3Fx%23y 10000 67108864;
,"params":{"a":["1","2","3"]}
| __address__=a:1 __param_a=x __scheme__=http | http a:1 a 1 /?a=x&a=2&a=3 10000 67108864;
,"params":{"a":["1","2"]} | __address__=a:1 __scheme__=http | http a:1 a 1 /?a=1&a=2 10000 67108864;
 | __address__=a:1 __param_b=y __scheme__=http | http a:1 a 1 /?b=y 10000 67108864;
,"params":{"a":[]} | __address__=a:1 __metrics_path__=/m __scheme__=http | http a:1 a 1 /m 10000 67108864;
,"params":{"a":[],"b":["1"]} | __address__=a:1 __param_a=x __scheme__=http | http a:1 a 1 /?a=x&b=1 10000 67108864;
,"params":{"b":["1"],"d":["2"]}
| __address__=a:1 __param_a=3 __param_c=4 __scheme__=http | http a:1 a 1 /?a=3&b=1&c=4&d=2 10000 67108864;
,"params":{"q r":["s t&u=v/é"]}
| __address__=a:1 __scheme__=http | http a:1 a 1 /?q+r=s+t%26u%3Dv%2F%C3%A9 10000 67108864;
 | __address__=a:80 __scheme__=http | http a a 80 / 10000 67108864;
 | __address__=a __scheme__=http | http a a 80 / 10000 67108864;
 | __address__=a __scheme__=https | https a a 443 / 10000 67108864;
 | __address__=a:80 __scheme__=https | https a:80 a 80 / 10000 67108864;
 | __address__=[::1]:9 __scheme__=http | http [::1]:9 [::1] 9 / 10000 67108864;
,"body_size_limit":1 | __address__=a:1 __scheme__=http | http a:1 a 1 / 10000 1;
,"body_size_limit":0 | __address__=a:1 __scheme__=http | http a:1 a 1 / 10000 67108864;
,"body_size_limit":67108863 | __address__=a:1 __scheme__=http | http a:1 a 1 / 10000 67108863;
,"body_size_limit":67108865 | __address__=a:1 __scheme__=http | http a:1 a 1 / 10000 67108864;
 | __scheme__=http | none;
 | __address__=a/b __scheme__=http | none;
 | __address__=a:1 __scheme__=ftp | none;
 | __address__=a:1 | none;
 | __address__=a:99999 __scheme__=http | none
"#;

fn shown(alloc: Global, request: &Request) -> Result<String, AllocError> {
    format!(in alloc;
        "{} {} {} {} {} {} {}",
        scheme_text(request.scheme),
        request.authority.as_str(),
        request.host.as_str(),
        request.port,
        request.target.as_str(),
        request.timeout,
        request.limit
    )
}

/// The request of an identity under the job of settings, or `none`.
fn request_shown(
    rt: &impl Abort,
    alloc: Global,
    fields: &str,
    labels: &str,
) -> Result<String, NoMemory> {
    let conf = conf_of(rt, alloc, fields)?;
    let identity = set_of(alloc, labels)?;
    match request_of(alloc, &job_in(rt, &conf).conf, &identity)? {
        Some(request) => Ok(shown(alloc, &request)?),
        None => Ok(String::from_str(alloc, "none")?),
    }
}

pub(crate) fn requests_are_made_of_identities(
    rt: &impl Abort,
    alloc: Global,
) -> Result<(), NoMemory> {
    for row in ROWS.split(";\n") {
        let (fields, rest) = row.split_once('|').unwrap_or((row, ""));
        let (labels, wanted) = rest.split_once('|').unwrap_or((rest, ""));
        let text = request_shown(rt, alloc, fields, labels.trim())?;
        are_bytes(rt, text.as_bytes(), wanted.trim().as_bytes());
    }
    Ok(())
}
