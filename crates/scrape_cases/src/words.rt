//! The words of the command line, and files that are not there.

pub const CASES: &str = r#"
== no_words
$ ''
-- file s
scrape-journal 1
load 0 76
{"scrape_configs":[{"job_name":"j","static_configs":[{"targets":["a:1"]}]}]}
sweep 0
body 15 0 200 8
x 1
y 2

-- err
scrape: bad words
-- status 2

== replay_without_a_file
$ replay
-- file s
scrape-journal 1
load 0 76
{"scrape_configs":[{"job_name":"j","static_configs":[{"targets":["a:1"]}]}]}
sweep 0
body 15 0 200 8
x 1
y 2

-- err
scrape: bad words
-- status 2

== check_without_a_file
$ check
-- file s
scrape-journal 1
load 0 76
{"scrape_configs":[{"job_name":"j","static_configs":[{"targets":["a:1"]}]}]}
sweep 0
body 15 0 200 8
x 1
y 2

-- err
scrape: bad words
-- status 2

== check_of_two_files
$ check s t
-- file s
scrape-journal 1
load 0 76
{"scrape_configs":[{"job_name":"j","static_configs":[{"targets":["a:1"]}]}]}
sweep 0
body 15 0 200 8
x 1
y 2

-- err
scrape: bad words
-- status 2

== replay_of_two_scripts
$ replay s t
-- file s
scrape-journal 1
load 0 76
{"scrape_configs":[{"job_name":"j","static_configs":[{"targets":["a:1"]}]}]}
sweep 0
body 15 0 200 8
x 1
y 2

-- err
scrape: bad words
-- status 2

== unknown_command
$ synthesize s
-- file s
scrape-journal 1
load 0 76
{"scrape_configs":[{"job_name":"j","static_configs":[{"targets":["a:1"]}]}]}
sweep 0
body 15 0 200 8
x 1
y 2

-- err
scrape: bad words
-- status 2

== empty_command
$ '' s
-- file s
scrape-journal 1
load 0 76
{"scrape_configs":[{"job_name":"j","static_configs":[{"targets":["a:1"]}]}]}
sweep 0
body 15 0 200 8
x 1
y 2

-- err
scrape: bad words
-- status 2

== command_in_capitals
$ Replay s
-- file s
scrape-journal 1
load 0 76
{"scrape_configs":[{"job_name":"j","static_configs":[{"targets":["a:1"]}]}]}
sweep 0
body 15 0 200 8
x 1
y 2

-- err
scrape: bad words
-- status 2

== replay_of_an_absent_file
$ replay none
-- file s
scrape-journal 1
load 0 76
{"scrape_configs":[{"job_name":"j","static_configs":[{"targets":["a:1"]}]}]}
sweep 0
body 15 0 200 8
x 1
y 2

-- err
scrape: absent none
-- status 3

== check_of_an_absent_file
$ check none
-- file s
{"scrape_configs":[{"job_name":"j","static_configs":[{"targets":["a:1"]}]}]}
\
-- err
scrape: absent none
-- status 3
"#;
