//! `serve` where no connection comes: its words, and its script. What requests are answered is seen by the tests and `checks/served`.

pub const CASES: &str = r#"
== serve_without_files
$ serve
-- err
scrape: bad words
-- status 2

== serve_without_a_configuration
$ serve s
-- err
scrape: bad words
-- status 2

== serve_of_three_files
$ serve s c d
-- err
scrape: bad words
-- status 2

== serve_with_a_flag
$ serve --kept s c
-- err
scrape: bad words
-- status 2

== serve_of_no_request
$ serve s c
-- file s
scrape-journal 1
load 0 76
{"scrape_configs":[{"job_name":"j","static_configs":[{"targets":["a:1"]}]}]}
sweep 0
body 15 0 200 8
x 1
y 2

-- file c
{"scrape_configs":[]}
-- status 0

== serve_reads_no_configuration_at_its_start
$ serve s none
-- file s
scrape-journal 1
load 0 76
{"scrape_configs":[{"job_name":"j","static_configs":[{"targets":["a:1"]}]}]}
sweep 0
body 15 0 200 8
x 1
y 2

-- status 0

== serve_of_the_second_version
$ serve s c
-- file s
scrape-journal 2
load 0 76
{"scrape_configs":[{"job_name":"j","static_configs":[{"targets":["a:1"]}]}]}
sweep 0
body 15 0 200 8
x 1
y 2

-- file c
{"scrape_configs":[]}
-- status 0

== serve_without_its_script
$ serve none c
-- file c
{"scrape_configs":[]}
-- err
scrape: absent none
-- status 3

== serve_of_an_empty_script
$ serve s c
-- file s
-- file c
{"scrape_configs":[]}
-- err
scrape: script Header at 0
-- status 5

== serve_of_a_cut_script
$ serve s c
-- file s
scrape-journal 1
load 0 76
{"scrape_configs":[{"job_name":"j","static_configs":[{"targets":["a:1"]}]}]}
sweep 0
body 15 0 200 8
x 1
y 2
-- file c
{"scrape_configs":[]}
-- err
scrape: script Rest at 112
-- status 5

== serve_of_a_configuration_in_place_of_a_script
$ serve c s
-- file s
scrape-journal 1
load 0 76
{"scrape_configs":[{"job_name":"j","static_configs":[{"targets":["a:1"]}]}]}
sweep 0
body 15 0 200 8
x 1
y 2

-- file c
{"scrape_configs":[]}
-- err
scrape: script Header at 0
-- status 5
"#;
