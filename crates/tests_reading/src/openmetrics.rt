//! Faulty lines of OpenMetrics. What becomes of the others, and where `# EOF` has to stand, the cases show.

use crate::shared::holds;
use om_reader::{OmError, convert};
use std::alloc::Global;
use std::process::Abort;

/// Lines that are faulty, each behind a bar: exemplars, blanks, labels and names, and timestamps.
const FAULTY: &[&str] = &[
    r#"a 1 # {b="c",} 1|a 1 # {b="c"}|a 1 # {b="c"} x|a 1 # {b="c"} 1 |a 1 # {b="c"} 1 9e18|a 1 # {} 1 # {} 1"#,
    r#"a 1  # {} 1|a 1 #{} 1|a 1 #  {} 1|a 1 # | # EOF|a 1 | a 1|a 1  2|a 1 2 3|a {} 1|a{}1|a{b="c"}  1|a{ } 1"#,
    r#"a{b ="c"} 1|a{b= "c"} 1|a{b="c" } 1|a{b="c", d="e"} 1|a{,} 1|a{1="c"} 1|a{b="c} 1|a{b="c" 1|a{"b"="c"} 1"#,
    r#"{"a",b="c"} 1|1a 1|a|a |a x|a 1 -9223372036854775.809|a 1 18446744073709551616|a 1 18446744073709551.616"#,
    r#"a 1 1e16|a 1 1e99999999999999999999999|a 1 .|a 1 +|a 1 e1|a 1 .e1|a 1 1e|a 1 1e+|a 1 1.5.5|a 1 --1|a 1 inf"#,
    "a 1 NaN|a 1 0x10|a 1 1_000|a 1\r|a\t1",
];

/// Texts that are faulty at a later line.
const LATER: &[(&str, u64)] = &[
    ("a 1", 2),
    ("a 1\n a 1\n# EOF\n", 2),
    ("# EOF\n# EOF\n", 2),
    ("a 1\nb 2\n# EOF\n# c", 4),
];

/// Ends the test where another line is the first faulty one of a text, or none.
fn is_faulty(rt: &impl Abort, alloc: Global, text: &str, line: u64) {
    match convert(alloc, text.as_bytes()) {
        Ok(_) => panic!(rt; "read: {text}"),
        Err(OmError::Line(number)) => holds(rt, number == line, text),
        Err(OmError::NoMemory) => panic!(rt; "no memory"),
    }
}

pub(crate) fn faulty_lines_are_told(rt: &impl Abort, alloc: Global) {
    for lines in FAULTY {
        for line in lines.split('|') {
            is_faulty(rt, alloc, line, 1);
        }
    }
    for &(text, line) in LATER {
        is_faulty(rt, alloc, text, line);
    }
}
