//! Configurations as `check` judges them: whole files, lists, names and patterns.

pub const CASES: &str = r#"
== empty_configuration
$ check s
-- file s
{}
\
-- out
ok 0
-- status 0

== one_job
$ check s
-- file s
{"scrape_configs":[{"job_name":"j","static_configs":[{"targets":["a:1"]}]}]}
\
-- out
ok 1
-- status 0

== short_interval
$ check s
-- file s
{"scrape_configs":[{"job_name":"j","scrape_interval":"5s","static_configs":[{"targets":["a:1"]}]}]}
\
-- out
ok 1
-- status 0

== no_bytes
$ check s
-- file s
-- err
scrape: config NotJson
-- status 4

== a_list
$ check s
-- file s
[]
\
-- err
scrape: config Shape 
-- status 4

== unknown_field
$ check s
-- file s
{"scrape_configs":[{"job_name":"j","color":"red"}]}
\
-- err
scrape: config Unknown /scrape_configs/0/color
-- status 4

== timeout_past_the_interval
$ check s
-- file s
{"scrape_configs":[{"job_name":"j","scrape_timeout":"2m","static_configs":[{"targets":["a:1"]}]}]}
\
-- err
scrape: config Value /scrape_configs/0/scrape_timeout
-- status 4

== two_jobs_of_one_name
$ check s
-- file s
{"scrape_configs":[{"job_name":"j"},{"job_name":"j"}]}
\
-- err
scrape: config TwiceNamed j
-- status 4

== pattern_that_is_none
$ check s
-- file s
{"scrape_configs":[{"job_name":"j","relabel_configs":[{"regex":"(","target_label":"t"}]}]}
\
-- err
scrape: config Rule /scrape_configs/0/relabel_configs/0/regex
-- status 4

== first_pattern_of_two
$ check s
-- file s
{"scrape_configs":[{"job_name":"j","relabel_configs":[{"regex":"(","action":"drop"},{"regex":"[","action":"drop"}]}]}
\
-- err
scrape: config Rule /scrape_configs/0/relabel_configs/0/regex
-- status 4

== first_job_of_two_with_a_pattern
$ check s
-- file s
{"scrape_configs":[{"job_name":"j","relabel_configs":[{"action":"drop"},{"regex":"[","action":"drop"}]},{"job_name":"k","relabel_configs":[{"regex":"(","action":"drop"}]}]}
\
-- err
scrape: config Rule /scrape_configs/0/relabel_configs/1/regex
-- status 4

== fault_before_a_pattern
$ check s
-- file s
{"scrape_configs":[{"job_name":"j","relabel_configs":[{"regex":"(","action":"drop"}]},{"job_name":"k","colour":1}]}
\
-- err
scrape: config Unknown /scrape_configs/1/colour
-- status 4

== first_fault_in_the_walk_shape
$ check c
-- file c
{"a":1,"scrape_configs":[{"static_configs":5}]}
\
-- err
scrape: config Shape /scrape_configs/0/static_configs
-- status 4

== first_fault_in_the_walk_unknown
$ check c
-- file c
{"b":1,"a":1}
\
-- err
scrape: config Unknown /a
-- status 4
"#;
