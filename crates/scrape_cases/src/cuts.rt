//! `replay --cut`: what is given of a script that ends anywhere, or goes wrong somewhere.

pub const CASES: &str = r#"
== whole_script_as_a_cut_one
$ replay --cut s
-- file s
scrape-journal 1
load 0 76
{"scrape_configs":[{"job_name":"j","static_configs":[{"targets":["a:1"]}]}]}
sweep 0
body 15 0 200 4
x 1

-- out
0 0 sample x{instance="a:1",job="j"} 1
0 0 report up{instance="a:1",job="j"} 1
0 0 report scrape_duration_seconds{instance="a:1",job="j"} 0.015
0 0 report scrape_samples_scraped{instance="a:1",job="j"} 1
0 0 report scrape_samples_post_metric_relabeling{instance="a:1",job="j"} 1
0 0 report scrape_series_added{instance="a:1",job="j"} 1
-- status 0

== cut_in_a_body
$ replay --cut --kept s
-- file s
scrape-journal 1
load 0 76
{"scrape_configs":[{"job_name":"j","static_configs":[{"targets":["a:1"]}]}]}
sweep 0
body 15 0 200 4
x 1

sweep 60000
body 15 1 200 4
x 2
\
-- out
kept 0 0 sample x{instance="a:1",job="j"} 1
kept 0 0 report up{instance="a:1",job="j"} 1
kept 0 0 report scrape_duration_seconds{instance="a:1",job="j"} 0.015
kept 0 0 report scrape_samples_scraped{instance="a:1",job="j"} 1
kept 0 0 report scrape_samples_post_metric_relabeling{instance="a:1",job="j"} 1
kept 0 0 report scrape_series_added{instance="a:1",job="j"} 1
-- status 0

== moment_going_back_in_a_cut_script
$ replay --kept s --cut
-- file s
scrape-journal 1
load 0 76
{"scrape_configs":[{"job_name":"j","static_configs":[{"targets":["a:1"]}]}]}
sweep 5
body 15 0 200 4
x 1

sweep 4
halt 9
-- out
kept 5 0 sample x{instance="a:1",job="j"} 1
kept 5 0 report up{instance="a:1",job="j"} 1
kept 5 0 report scrape_duration_seconds{instance="a:1",job="j"} 0.015
kept 5 0 report scrape_samples_scraped{instance="a:1",job="j"} 1
kept 5 0 report scrape_samples_post_metric_relabeling{instance="a:1",job="j"} 1
kept 5 0 report scrape_series_added{instance="a:1",job="j"} 1
-- status 0

== first_line_alone_of_a_cut_script
$ replay --cut s
-- file s
scrape-journal 1
-- status 0

== cut_inside_a_multibyte_name
$ replay s --cut
-- file s
scrape-journal 1
targets 0 3 1 2
\ 65 c3
-- status 0

== first_line_of_a_cut_script_cut
$ replay --cut s
-- file s
scrape-journal 1
\
-- err
scrape: script Header at 0
-- status 5

== cut_script_of_no_bytes
$ replay --cut s
-- file s
-- err
scrape: script Header at 0
-- status 5

== cut_script_of_bytes_at_random
$ replay --cut s
-- file s
\ 00 ff 7f 80 0a 31
-- err
scrape: script Header at 0
-- status 5

== cut_script_of_another_version
$ replay --cut s
-- file s
scrape-journal 10
-- err
scrape: script Header at 0
-- status 5

== absent_cut_script
$ replay --cut t
-- file s
scrape-journal 1
-- err
scrape: absent t
-- status 3

== cut_twice
$ replay --cut --cut s
-- file s
scrape-journal 1
-- err
scrape: bad words
-- status 2

== cut_with_a_value
$ replay --cut=true s
-- file s
scrape-journal 1
-- err
scrape: bad words
-- status 2

== check_of_a_cut_file
$ check --cut s
-- file s
{}
-- err
scrape: bad words
-- status 2

== run_of_a_cut_file
$ run --turns 1 --cut s
-- file s
{}
-- err
scrape: bad words
-- status 2

== cut_without_a_file
$ replay --cut
-- file s
scrape-journal 1
-- err
scrape: bad words
-- status 2
"#;
