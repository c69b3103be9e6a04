//! Scripts that are the text of no journal: why, and where.

pub const CASES: &str = r#"
== script_of_no_bytes
$ replay s
-- file s
-- err
scrape: script Header at 0
-- status 5

== no_first_line
$ replay s
-- file s
x 1
-- err
scrape: script Header at 0
-- status 5

== first_line_cut
$ replay s
-- file s
scrape-journal 1
\
-- err
scrape: script Header at 0
-- status 5

== configuration_cut
$ replay s
-- file s
scrape-journal 1
load 0 76
-- err
scrape: script Rest at 17
-- status 5

== line_cut
$ replay s
-- file s
scrape-journal 1
load 0 76
{"scrape_configs":[{"job_name":"j","static_configs":[{"targets":["a:1"]}]}]}
sweep 0
\
-- err
scrape: script Line at 104
-- status 5

== last_line_feed_cut
$ replay s
-- file s
scrape-journal 1
load 0 76
{"scrape_configs":[{"job_name":"j","static_configs":[{"targets":["a:1"]}]}]}
sweep 0
body 15 0 200 8
x 1
y 2
-- err
scrape: script Rest at 112
-- status 5

== length_with_a_leading_zero
$ replay s
-- file s
scrape-journal 1
load 0 076
{"scrape_configs":[{"job_name":"j","static_configs":[{"targets":["a:1"]}]}]}
sweep 0
body 15 0 200 8
x 1
y 2

-- err
scrape: script Line at 17
-- status 5

== body_cut
$ replay s
-- file s
scrape-journal 1
load 0 76
{"scrape_configs":[{"job_name":"j","static_configs":[{"targets":["a:1"]}]}]}
sweep 0
body 15 0 200 8
x
\
-- err
scrape: script Rest at 112
-- status 5

== moments_fall
$ replay s
-- file s
scrape-journal 1
load 0 76
{"scrape_configs":[{"job_name":"j","static_configs":[{"targets":["a:1"]}]}]}
sweep 5
sweep 0
body 15 0 200 8
x 1
y 2

-- err
scrape: script Order at 112
-- status 5

== fault_behind_whole_events
$ replay s
-- file s
scrape-journal 1
load 0 76
{"scrape_configs":[{"job_name":"j","static_configs":[{"targets":["a:1"]}]}]}
sweep 0
body 15 0 200 8
x 1
y 2

sweep 60000
sweep -1
-- err
scrape: script Line at 149
-- status 5
"#;
