//! Books with verdicts: what a store makes of each entry.

pub const CASES: &str = r#"
== renamed_series_across_reload_kept
$ replay --kept s
-- file s
scrape-journal 1
load 0 76
{"scrape_configs":[{"job_name":"j","static_configs":[{"targets":["a:1"]}]}]}
sweep 0
body 15 0 200 4
x 1

sweep 60000
load 60010 191
{"scrape_configs":[{"job_name":"j","metric_relabel_configs":[{"source_labels":["__name__"],"regex":"x","target_label":"__name__","replacement":"x2"}],"static_configs":[{"targets":["a:1"]}]}]}
body 15 1 200 4
x 9

sweep 60010
body 15 2 200 4
x 2

sweep 120010
body 15 3 200 4
x 3

sweep 185999
sweep 186000
-- out
kept 0 0 sample x{instance="a:1",job="j"} 1
kept 0 0 report up{instance="a:1",job="j"} 1
kept 0 0 report scrape_duration_seconds{instance="a:1",job="j"} 0.015
kept 0 0 report scrape_samples_scraped{instance="a:1",job="j"} 1
kept 0 0 report scrape_samples_post_metric_relabeling{instance="a:1",job="j"} 1
kept 0 0 report scrape_series_added{instance="a:1",job="j"} 1
kept 60010 1 sample x2{instance="a:1",job="j"} 2
kept 60010 1 report up{instance="a:1",job="j"} 1
kept 60010 1 report scrape_duration_seconds{instance="a:1",job="j"} 0.015
kept 60010 1 report scrape_samples_scraped{instance="a:1",job="j"} 1
kept 60010 1 report scrape_samples_post_metric_relabeling{instance="a:1",job="j"} 1
kept 60010 1 report scrape_series_added{instance="a:1",job="j"} 1
kept 120010 1 sample x2{instance="a:1",job="j"} 3
kept 120010 1 report up{instance="a:1",job="j"} 1
kept 120010 1 report scrape_duration_seconds{instance="a:1",job="j"} 0.015
kept 120010 1 report scrape_samples_scraped{instance="a:1",job="j"} 1
kept 120010 1 report scrape_samples_post_metric_relabeling{instance="a:1",job="j"} 1
kept 120010 1 report scrape_series_added{instance="a:1",job="j"} 0
kept 120000 0 stale x{instance="a:1",job="j"}
outoforder 120000 0 report-stale up{instance="a:1",job="j"}
outoforder 120000 0 report-stale scrape_duration_seconds{instance="a:1",job="j"}
outoforder 120000 0 report-stale scrape_samples_scraped{instance="a:1",job="j"}
outoforder 120000 0 report-stale scrape_samples_post_metric_relabeling{instance="a:1",job="j"}
outoforder 120000 0 report-stale scrape_series_added{instance="a:1",job="j"}
-- status 0

== duplicates_in_time
$ replay --kept s
-- file s
scrape-journal 1
load 0 76
{"scrape_configs":[{"job_name":"j","static_configs":[{"targets":["a:1"]}]}]}
sweep 0
body 10000 0 200 12
x 1
x 2
x 2

-- out
kept 0 0 sample x{instance="a:1",job="j"} 1
duplicate 0 0 sample x{instance="a:1",job="j"} 2
duplicate 0 0 sample x{instance="a:1",job="j"} 2
kept 0 0 report up{instance="a:1",job="j"} 1
kept 0 0 report scrape_duration_seconds{instance="a:1",job="j"} 10.000
kept 0 0 report scrape_samples_scraped{instance="a:1",job="j"} 3
kept 0 0 report scrape_samples_post_metric_relabeling{instance="a:1",job="j"} 3
kept 0 0 report scrape_series_added{instance="a:1",job="j"} 1
-- status 0

== duplicates_of_one_value
$ replay --kept s
-- file s
scrape-journal 1
load 0 76
{"scrape_configs":[{"job_name":"j","static_configs":[{"targets":["a:1"]}]}]}
sweep 0
body 15 0 200 8
x 1
x 1

-- out
kept 0 0 sample x{instance="a:1",job="j"} 1
same 0 0 sample x{instance="a:1",job="j"} 1
kept 0 0 report up{instance="a:1",job="j"} 1
kept 0 0 report scrape_duration_seconds{instance="a:1",job="j"} 0.015
kept 0 0 report scrape_samples_scraped{instance="a:1",job="j"} 2
kept 0 0 report scrape_samples_post_metric_relabeling{instance="a:1",job="j"} 2
kept 0 0 report scrape_series_added{instance="a:1",job="j"} 1
-- status 0

== duplicates_too_slow
$ replay --kept s
-- file s
scrape-journal 1
load 0 76
{"scrape_configs":[{"job_name":"j","static_configs":[{"targets":["a:1"]}]}]}
sweep 0
body 10001 0 200 12
x 1
x 2
x 2

-- out
kept 0 0 report up{instance="a:1",job="j"} 0
kept 0 0 report scrape_duration_seconds{instance="a:1",job="j"} 10.001
kept 0 0 report scrape_samples_scraped{instance="a:1",job="j"} 0
kept 0 0 report scrape_samples_post_metric_relabeling{instance="a:1",job="j"} 0
kept 0 0 report scrape_series_added{instance="a:1",job="j"} 0
-- status 0

== verdicts_of_no_entries
$ replay --kept s
-- file s
scrape-journal 1
-- status 0

== verdicts_of_markers
$ replay --kept s
-- file s
scrape-journal 1
load 0 278
{"scrape_configs":[{"job_name":"j","metric_relabel_configs":[{"regex":"instance|job","action":"labeldrop"}],"static_configs":[{"targets":["a:1"]}]},{"job_name":"k","metric_relabel_configs":[{"regex":"instance|job","action":"labeldrop"}],"static_configs":[{"targets":["a:1"]}]}]}
sweep 0
body 15 0 200 12
x 1
y 1
z 1

body 15 1 200 4
x 1

sweep 60000
body 15 2 200 40
y 2 60000
z 3 70000
z 4 69999
z 5 70001

body 15 3 200 10
x 5 60000

-- out
kept 0 0 sample x 1
kept 0 0 sample y 1
kept 0 0 sample z 1
kept 0 0 report up{instance="a:1",job="j"} 1
kept 0 0 report scrape_duration_seconds{instance="a:1",job="j"} 0.015
kept 0 0 report scrape_samples_scraped{instance="a:1",job="j"} 3
kept 0 0 report scrape_samples_post_metric_relabeling{instance="a:1",job="j"} 3
kept 0 0 report scrape_series_added{instance="a:1",job="j"} 3
same 0 1 sample x 1
kept 0 1 report up{instance="a:1",job="k"} 1
kept 0 1 report scrape_duration_seconds{instance="a:1",job="k"} 0.015
kept 0 1 report scrape_samples_scraped{instance="a:1",job="k"} 1
kept 0 1 report scrape_samples_post_metric_relabeling{instance="a:1",job="k"} 1
kept 0 1 report scrape_series_added{instance="a:1",job="k"} 1
kept 60000 0 sample y 2
kept 70000 0 sample z 3
outoforder 69999 0 sample z 4
kept 70001 0 sample z 5
kept 60000 0 stale x
duplicate 60000 0 stale y
outoforder 60000 0 stale z
kept 60000 0 report up{instance="a:1",job="j"} 1
kept 60000 0 report scrape_duration_seconds{instance="a:1",job="j"} 0.015
kept 60000 0 report scrape_samples_scraped{instance="a:1",job="j"} 4
kept 60000 0 report scrape_samples_post_metric_relabeling{instance="a:1",job="j"} 4
kept 60000 0 report scrape_series_added{instance="a:1",job="j"} 0
duplicate 60000 1 sample x 5
same 60000 1 stale x
kept 60000 1 report up{instance="a:1",job="k"} 1
kept 60000 1 report scrape_duration_seconds{instance="a:1",job="k"} 0.015
kept 60000 1 report scrape_samples_scraped{instance="a:1",job="k"} 1
kept 60000 1 report scrape_samples_post_metric_relabeling{instance="a:1",job="k"} 1
kept 60000 1 report scrape_series_added{instance="a:1",job="k"} 0
-- status 0
"#;
