//! Patterns that are tried once. Those that are kept for many texts, as the program does, the cases show.

use crate::rules::rules_run_on_a_set;
use crate::shared::{are_bytes, holds};
use label_set::{Name, NoMemory};
use pattern_rule::Pattern;
use std::alloc::Global;
use std::process::Abort;
use std::test::Fail;

/// Patterns, texts, templates, and what these write at the match of the whole text.
const CASES: &[(&str, &str, &str, Option<&str>)] = &[
    ("a(.)c", "abc", "$1-${1}", Some("b-b")),
    ("b", "abc", "x", None),
    ("node-1", "node-1", "y", Some("y")),
    ("(.*)", "é\n", "$2", Some("")),
];

/// Whether what is written is what is wanted.
fn is_wanted(found: &Option<Name>, wanted: Option<&str>) -> bool {
    match (found, wanted) {
        (Some(found), Some(wanted)) => found.as_str() == wanted,
        (None, None) => true,
        _ => false,
    }
}

fn whole_texts_are_matched(rt: &impl Abort, alloc: Global) -> Result<(), NoMemory> {
    for &(pattern, text, template, wanted) in CASES {
        let Ok(built) = Pattern::build(alloc, pattern) else {
            panic!(rt; "{pattern}");
        };
        are_bytes(rt, built.as_str().as_bytes(), pattern.as_bytes());
        holds(
            rt,
            built.full_match(alloc, text)? == wanted.is_some(),
            pattern,
        );
        holds(
            rt,
            is_wanted(&built.expand(alloc, text, template)?, wanted),
            pattern,
        );
    }
    Ok(())
}

#[test]
fn patterns_and_rules_are_tried_once(rt: HostRuntime) -> Result<(), Fail> {
    whole_texts_are_matched(&rt, rt.alloc())?;
    rules_run_on_a_set(&rt, rt.alloc())?;
    Ok(())
}
