//! Updates of a file's targets, ticks, finishes and halts.

pub const CASES: &str = r#"
== file_targets
$ replay s
-- file s
scrape-journal 1
load 0 78
{"scrape_configs":[{"job_name":"j","file_sd_configs":[{"files":["f.json"]}]}]}
targets 5 1 6 42
jf.json[{"targets":["a:1"],"labels":{"env":"p"}}]
sweep 5
body 15 0 200 4
x 1

targets 10 1 6 2
jf.json[]
-- out
5 0 sample x{env="p",instance="a:1",job="j"} 1
5 0 report up{env="p",instance="a:1",job="j"} 1
5 0 report scrape_duration_seconds{env="p",instance="a:1",job="j"} 0.015
5 0 report scrape_samples_scraped{env="p",instance="a:1",job="j"} 1
5 0 report scrape_samples_post_metric_relabeling{env="p",instance="a:1",job="j"} 1
5 0 report scrape_series_added{env="p",instance="a:1",job="j"} 1
-- status 0

== ticks_of_a_life
$ replay s
-- file s
scrape-journal 1
load 0 76
{"scrape_configs":[{"job_name":"j","static_configs":[{"targets":["a:1"]}]}]}
sweep 0
body 15 0 200 4
x 1

tick 59999 0
lost 20 1
tick 60000 0
tick 60000 0
lost 20 1
lost 20 2
-- out
0 0 sample x{instance="a:1",job="j"} 1
0 0 report up{instance="a:1",job="j"} 1
0 0 report scrape_duration_seconds{instance="a:1",job="j"} 0.015
0 0 report scrape_samples_scraped{instance="a:1",job="j"} 1
0 0 report scrape_samples_post_metric_relabeling{instance="a:1",job="j"} 1
0 0 report scrape_series_added{instance="a:1",job="j"} 1
60000 0 stale x{instance="a:1",job="j"}
60000 0 report up{instance="a:1",job="j"} 0
60000 0 report scrape_duration_seconds{instance="a:1",job="j"} 0.020
60000 0 report scrape_samples_scraped{instance="a:1",job="j"} 0
60000 0 report scrape_samples_post_metric_relabeling{instance="a:1",job="j"} 0
60000 0 report scrape_series_added{instance="a:1",job="j"} 0
-- status 0

== ticks_of_lives_that_are_not_open
$ replay s
-- file s
scrape-journal 1
load 0 76
{"scrape_configs":[{"job_name":"j","static_configs":[{"targets":["a:1"]}]}]}
sweep 0
body 15 0 200 4
x 1

tick 60000 9
tick 60000 18446744073709551615
load 60001 2
{}
tick 60001 0
lost 20 1
sweep 126001
-- out
0 0 sample x{instance="a:1",job="j"} 1
0 0 report up{instance="a:1",job="j"} 1
0 0 report scrape_duration_seconds{instance="a:1",job="j"} 0.015
0 0 report scrape_samples_scraped{instance="a:1",job="j"} 1
0 0 report scrape_samples_post_metric_relabeling{instance="a:1",job="j"} 1
0 0 report scrape_series_added{instance="a:1",job="j"} 1
60001 0 stale x{instance="a:1",job="j"}
60001 0 report-stale up{instance="a:1",job="j"}
60001 0 report-stale scrape_duration_seconds{instance="a:1",job="j"}
60001 0 report-stale scrape_samples_scraped{instance="a:1",job="j"}
60001 0 report-stale scrape_samples_post_metric_relabeling{instance="a:1",job="j"}
60001 0 report-stale scrape_series_added{instance="a:1",job="j"}
-- status 0

== updates_that_are_not_taken
$ replay s
-- file s
scrape-journal 1
load 0 76
{"scrape_configs":[{"job_name":"j","static_configs":[{"targets":["a:1"]}]}]}
sweep 0
body 15 0 200 4
x 1

targets 10 1 1 2
kf[]
targets 10 1 1 2
jg[]
targets 10 1 1 14
jf[{"colour":1}]
sweep 60000
body 15 1 200 4
x 2

-- out
0 0 sample x{instance="a:1",job="j"} 1
0 0 report up{instance="a:1",job="j"} 1
0 0 report scrape_duration_seconds{instance="a:1",job="j"} 0.015
0 0 report scrape_samples_scraped{instance="a:1",job="j"} 1
0 0 report scrape_samples_post_metric_relabeling{instance="a:1",job="j"} 1
0 0 report scrape_series_added{instance="a:1",job="j"} 1
60000 0 sample x{instance="a:1",job="j"} 2
60000 0 report up{instance="a:1",job="j"} 1
60000 0 report scrape_duration_seconds{instance="a:1",job="j"} 0.015
60000 0 report scrape_samples_scraped{instance="a:1",job="j"} 1
60000 0 report scrape_samples_post_metric_relabeling{instance="a:1",job="j"} 1
60000 0 report scrape_series_added{instance="a:1",job="j"} 0
-- status 0

== target_in_two_files
$ replay s
-- file s
scrape-journal 1
load 0 143
{"scrape_configs":[{"job_name":"j","file_sd_configs":[{"files":["f.json","g.json"]}]},{"job_name":"k","static_configs":[{"targets":["a:1"]}]}]}
targets 1 1 6 27
jf.json[{"targets":["a:1","b:1"]}]
sweep 1
body 15 0 200 4
x 1

targets 2 1 6 21
jg.json[{"targets":["a:1"]}]
body 15 1 200 4
x 1

body 15 2 200 4
x 1

targets 3 1 6 2
jf.json[]
sweep 66003
sweep 200000
-- out
1 0 sample x{instance="a:1",job="k"} 1
1 0 report up{instance="a:1",job="k"} 1
1 0 report scrape_duration_seconds{instance="a:1",job="k"} 0.015
1 0 report scrape_samples_scraped{instance="a:1",job="k"} 1
1 0 report scrape_samples_post_metric_relabeling{instance="a:1",job="k"} 1
1 0 report scrape_series_added{instance="a:1",job="k"} 1
1 1 sample x{instance="a:1",job="j"} 1
1 1 report up{instance="a:1",job="j"} 1
1 1 report scrape_duration_seconds{instance="a:1",job="j"} 0.015
1 1 report scrape_samples_scraped{instance="a:1",job="j"} 1
1 1 report scrape_samples_post_metric_relabeling{instance="a:1",job="j"} 1
1 1 report scrape_series_added{instance="a:1",job="j"} 1
1 2 sample x{instance="b:1",job="j"} 1
1 2 report up{instance="b:1",job="j"} 1
1 2 report scrape_duration_seconds{instance="b:1",job="j"} 0.015
1 2 report scrape_samples_scraped{instance="b:1",job="j"} 1
1 2 report scrape_samples_post_metric_relabeling{instance="b:1",job="j"} 1
1 2 report scrape_series_added{instance="b:1",job="j"} 1
60001 2 stale x{instance="b:1",job="j"}
60001 2 report-stale up{instance="b:1",job="j"}
60001 2 report-stale scrape_duration_seconds{instance="b:1",job="j"}
60001 2 report-stale scrape_samples_scraped{instance="b:1",job="j"}
60001 2 report-stale scrape_samples_post_metric_relabeling{instance="b:1",job="j"}
60001 2 report-stale scrape_series_added{instance="b:1",job="j"}
-- status 0

== groups_of_a_file_kept_by_a_load
$ replay s
-- file s
scrape-journal 1
load 0 78
{"scrape_configs":[{"job_name":"j","file_sd_configs":[{"files":["f.json"]}]}]}
targets 1 1 6 21
jf.json[{"targets":["a:1"]}]
sweep 1
body 15 0 200 4
x 1

load 2 78
{"scrape_configs":[{"job_name":"j","file_sd_configs":[{"files":["f.json"]}]}]}
sweep 60001
body 15 1 200 4
x 2

-- out
1 0 sample x{instance="a:1",job="j"} 1
1 0 report up{instance="a:1",job="j"} 1
1 0 report scrape_duration_seconds{instance="a:1",job="j"} 0.015
1 0 report scrape_samples_scraped{instance="a:1",job="j"} 1
1 0 report scrape_samples_post_metric_relabeling{instance="a:1",job="j"} 1
1 0 report scrape_series_added{instance="a:1",job="j"} 1
60001 0 sample x{instance="a:1",job="j"} 2
60001 0 report up{instance="a:1",job="j"} 1
60001 0 report scrape_duration_seconds{instance="a:1",job="j"} 0.015
60001 0 report scrape_samples_scraped{instance="a:1",job="j"} 1
60001 0 report scrape_samples_post_metric_relabeling{instance="a:1",job="j"} 1
60001 0 report scrape_series_added{instance="a:1",job="j"} 0
-- status 0

== groups_of_a_file_gone_with_it
$ replay s
-- file s
scrape-journal 1
load 0 78
{"scrape_configs":[{"job_name":"j","file_sd_configs":[{"files":["f.json"]}]}]}
targets 1 1 6 21
jf.json[{"targets":["a:1"]}]
sweep 1
body 15 0 200 4
x 1

load 2 78
{"scrape_configs":[{"job_name":"j","file_sd_configs":[{"files":["g.json"]}]}]}
load 3 78
{"scrape_configs":[{"job_name":"j","file_sd_configs":[{"files":["f.json"]}]}]}
sweep 3
sweep 126001
-- out
1 0 sample x{instance="a:1",job="j"} 1
1 0 report up{instance="a:1",job="j"} 1
1 0 report scrape_duration_seconds{instance="a:1",job="j"} 0.015
1 0 report scrape_samples_scraped{instance="a:1",job="j"} 1
1 0 report scrape_samples_post_metric_relabeling{instance="a:1",job="j"} 1
1 0 report scrape_series_added{instance="a:1",job="j"} 1
60001 0 stale x{instance="a:1",job="j"}
60001 0 report-stale up{instance="a:1",job="j"}
60001 0 report-stale scrape_duration_seconds{instance="a:1",job="j"}
60001 0 report-stale scrape_samples_scraped{instance="a:1",job="j"}
60001 0 report-stale scrape_samples_post_metric_relabeling{instance="a:1",job="j"}
60001 0 report-stale scrape_series_added{instance="a:1",job="j"}
-- status 0

== events_after_a_halt
$ replay s
-- file s
scrape-journal 1
load 0 76
{"scrape_configs":[{"job_name":"j","static_configs":[{"targets":["a:1"]}]}]}
sweep 0
body 15 0 200 4
x 1

halt 5
sweep 60000
load 60000 2
{}
lost 20 1
tick 70000 0
halt 80000
-- out
0 0 sample x{instance="a:1",job="j"} 1
0 0 report up{instance="a:1",job="j"} 1
0 0 report scrape_duration_seconds{instance="a:1",job="j"} 0.015
0 0 report scrape_samples_scraped{instance="a:1",job="j"} 1
0 0 report scrape_samples_post_metric_relabeling{instance="a:1",job="j"} 1
0 0 report scrape_series_added{instance="a:1",job="j"} 1
-- status 0

== reply_after_a_halt
$ replay s
-- file s
scrape-journal 1
load 0 76
{"scrape_configs":[{"job_name":"j","static_configs":[{"targets":["a:1"]}]}]}
sweep 0
halt 5
body 15 0 200 4
x 1

-- status 0

== finishes_that_find_no_ticket
$ replay s
-- file s
scrape-journal 1
lost 20 0
sweep 0
tick 0 0
load 0 76
{"scrape_configs":[{"job_name":"j","static_configs":[{"targets":["a:1"]}]}]}
lost 20 0
sweep 0
lost 20 0
lost 20 0
-- out
0 0 report up{instance="a:1",job="j"} 0
0 0 report scrape_duration_seconds{instance="a:1",job="j"} 0.020
0 0 report scrape_samples_scraped{instance="a:1",job="j"} 0
0 0 report scrape_samples_post_metric_relabeling{instance="a:1",job="j"} 0
0 0 report scrape_series_added{instance="a:1",job="j"} 0
-- status 0

== limit_of_targets_lowered_and_raised
$ replay s
-- file s
scrape-journal 1
load 0 99
{"scrape_configs":[{"job_name":"j","target_limit":2,"static_configs":[{"targets":["a:1","b:1"]}]}]}
sweep 0
body 15 0 200 4
x 1

body 15 1 200 4
y 1

load 1 99
{"scrape_configs":[{"job_name":"j","target_limit":1,"static_configs":[{"targets":["a:1","b:1"]}]}]}
sweep 60000
tick 60001 0
tick 120000 1
load 120001 99
{"scrape_configs":[{"job_name":"j","target_limit":2,"static_configs":[{"targets":["a:1","b:1"]}]}]}
sweep 180001
body 15 2 200 4
x 3

-- out
0 0 sample x{instance="a:1",job="j"} 1
0 0 report up{instance="a:1",job="j"} 1
0 0 report scrape_duration_seconds{instance="a:1",job="j"} 0.015
0 0 report scrape_samples_scraped{instance="a:1",job="j"} 1
0 0 report scrape_samples_post_metric_relabeling{instance="a:1",job="j"} 1
0 0 report scrape_series_added{instance="a:1",job="j"} 1
0 1 sample y{instance="b:1",job="j"} 1
0 1 report up{instance="b:1",job="j"} 1
0 1 report scrape_duration_seconds{instance="b:1",job="j"} 0.015
0 1 report scrape_samples_scraped{instance="b:1",job="j"} 1
0 1 report scrape_samples_post_metric_relabeling{instance="b:1",job="j"} 1
0 1 report scrape_series_added{instance="b:1",job="j"} 1
60000 0 stale x{instance="a:1",job="j"}
60000 0 report up{instance="a:1",job="j"} 0
60000 0 report scrape_duration_seconds{instance="a:1",job="j"} 0.000
60000 0 report scrape_samples_scraped{instance="a:1",job="j"} 0
60000 0 report scrape_samples_post_metric_relabeling{instance="a:1",job="j"} 0
60000 0 report scrape_series_added{instance="a:1",job="j"} 0
60000 1 stale y{instance="b:1",job="j"}
60000 1 report up{instance="b:1",job="j"} 0
60000 1 report scrape_duration_seconds{instance="b:1",job="j"} 0.000
60000 1 report scrape_samples_scraped{instance="b:1",job="j"} 0
60000 1 report scrape_samples_post_metric_relabeling{instance="b:1",job="j"} 0
60000 1 report scrape_series_added{instance="b:1",job="j"} 0
120000 1 report up{instance="b:1",job="j"} 0
120000 1 report scrape_duration_seconds{instance="b:1",job="j"} 0.000
120000 1 report scrape_samples_scraped{instance="b:1",job="j"} 0
120000 1 report scrape_samples_post_metric_relabeling{instance="b:1",job="j"} 0
120000 1 report scrape_series_added{instance="b:1",job="j"} 0
180001 0 sample x{instance="a:1",job="j"} 3
180001 0 report up{instance="a:1",job="j"} 1
180001 0 report scrape_duration_seconds{instance="a:1",job="j"} 0.015
180001 0 report scrape_samples_scraped{instance="a:1",job="j"} 1
180001 0 report scrape_samples_post_metric_relabeling{instance="a:1",job="j"} 1
180001 0 report scrape_series_added{instance="a:1",job="j"} 0
-- status 0

== files_in_the_order_in_which_they_are_named
$ replay s
-- file s
scrape-journal 1
load 0 259
{"scrape_configs":[{"job_name":"j","target_limit":3,"file_sd_configs":[{"files":["y.json","x.json","y.json"]},{"files":["x.json","z.json"]}],"static_configs":[{"targets":["d:1"]}],"relabel_configs":[{"source_labels":["__meta_filepath"],"target_label":"f"}]}]}
targets 1 1 6 47
jz.json[{"targets":["c:1"],"labels":{"instance":"i"}}]
targets 1 1 6 24
jx.json[{"targets":["b:1"]},{}]
targets 1 1 6 25
jy.json[{"targets":["a:1","/"]}]
load 2 279
{"scrape_configs":[{"job_name":"j","target_limit":3,"honor_labels":true,"file_sd_configs":[{"files":["y.json","x.json","y.json"]},{"files":["x.json","z.json"]}],"static_configs":[{"targets":["d:1"]}],"relabel_configs":[{"source_labels":["__meta_filepath"],"target_label":"f"}]}]}
sweep 2
-- out
2 4 report up{instance="d:1",job="j"} 0
2 4 report scrape_duration_seconds{instance="d:1",job="j"} 0.000
2 4 report scrape_samples_scraped{instance="d:1",job="j"} 0
2 4 report scrape_samples_post_metric_relabeling{instance="d:1",job="j"} 0
2 4 report scrape_series_added{instance="d:1",job="j"} 0
2 5 report up{f="y.json",instance="a:1",job="j"} 0
2 5 report scrape_duration_seconds{f="y.json",instance="a:1",job="j"} 0.000
2 5 report scrape_samples_scraped{f="y.json",instance="a:1",job="j"} 0
2 5 report scrape_samples_post_metric_relabeling{f="y.json",instance="a:1",job="j"} 0
2 5 report scrape_series_added{f="y.json",instance="a:1",job="j"} 0
2 6 report up{f="x.json",instance="b:1",job="j"} 0
2 6 report scrape_duration_seconds{f="x.json",instance="b:1",job="j"} 0.000
2 6 report scrape_samples_scraped{f="x.json",instance="b:1",job="j"} 0
2 6 report scrape_samples_post_metric_relabeling{f="x.json",instance="b:1",job="j"} 0
2 6 report scrape_series_added{f="x.json",instance="b:1",job="j"} 0
2 7 report up{f="z.json",instance="i",job="j"} 0
2 7 report scrape_duration_seconds{f="z.json",instance="i",job="j"} 0.000
2 7 report scrape_samples_scraped{f="z.json",instance="i",job="j"} 0
2 7 report scrape_samples_post_metric_relabeling{f="z.json",instance="i",job="j"} 0
2 7 report scrape_series_added{f="z.json",instance="i",job="j"} 0
-- status 0
"#;
