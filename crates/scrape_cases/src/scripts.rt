//! Scripts: what a scrape appends, and series that vanish.

pub const CASES: &str = r#"
== journal_without_events
$ replay s
-- file s
scrape-journal 1
-- status 0

== one_load
$ replay s
-- file s
scrape-journal 1
load 0 76
{"scrape_configs":[{"job_name":"j","static_configs":[{"targets":["a:1"]}]}]}
sweep 0
body 15 0 200 8
x 1
y 2

-- out
0 0 sample x{instance="a:1",job="j"} 1
0 0 sample y{instance="a:1",job="j"} 2
0 0 report up{instance="a:1",job="j"} 1
0 0 report scrape_duration_seconds{instance="a:1",job="j"} 0.015
0 0 report scrape_samples_scraped{instance="a:1",job="j"} 2
0 0 report scrape_samples_post_metric_relabeling{instance="a:1",job="j"} 2
0 0 report scrape_series_added{instance="a:1",job="j"} 2
-- status 0

== series_vanishes
$ replay s
-- file s
scrape-journal 1
load 0 76
{"scrape_configs":[{"job_name":"j","static_configs":[{"targets":["a:1"]}]}]}
sweep 0
body 15 0 200 8
x 1
y 2

sweep 60000
body 15 1 200 4
x 1

-- out
0 0 sample x{instance="a:1",job="j"} 1
0 0 sample y{instance="a:1",job="j"} 2
0 0 report up{instance="a:1",job="j"} 1
0 0 report scrape_duration_seconds{instance="a:1",job="j"} 0.015
0 0 report scrape_samples_scraped{instance="a:1",job="j"} 2
0 0 report scrape_samples_post_metric_relabeling{instance="a:1",job="j"} 2
0 0 report scrape_series_added{instance="a:1",job="j"} 2
60000 0 sample x{instance="a:1",job="j"} 1
60000 0 stale y{instance="a:1",job="j"}
60000 0 report up{instance="a:1",job="j"} 1
60000 0 report scrape_duration_seconds{instance="a:1",job="j"} 0.015
60000 0 report scrape_samples_scraped{instance="a:1",job="j"} 1
60000 0 report scrape_samples_post_metric_relabeling{instance="a:1",job="j"} 1
60000 0 report scrape_series_added{instance="a:1",job="j"} 0
-- status 0

== failed_scrape_ends_series
$ replay s
-- file s
scrape-journal 1
load 0 76
{"scrape_configs":[{"job_name":"j","static_configs":[{"targets":["a:1"]}]}]}
sweep 0
body 15 0 200 8
x 1
y 2

sweep 60000
body 15 1 200 4
x 1

sweep 120000
lost 20 2
sweep 180000
lost 20 3
-- out
0 0 sample x{instance="a:1",job="j"} 1
0 0 sample y{instance="a:1",job="j"} 2
0 0 report up{instance="a:1",job="j"} 1
0 0 report scrape_duration_seconds{instance="a:1",job="j"} 0.015
0 0 report scrape_samples_scraped{instance="a:1",job="j"} 2
0 0 report scrape_samples_post_metric_relabeling{instance="a:1",job="j"} 2
0 0 report scrape_series_added{instance="a:1",job="j"} 2
60000 0 sample x{instance="a:1",job="j"} 1
60000 0 stale y{instance="a:1",job="j"}
60000 0 report up{instance="a:1",job="j"} 1
60000 0 report scrape_duration_seconds{instance="a:1",job="j"} 0.015
60000 0 report scrape_samples_scraped{instance="a:1",job="j"} 1
60000 0 report scrape_samples_post_metric_relabeling{instance="a:1",job="j"} 1
60000 0 report scrape_series_added{instance="a:1",job="j"} 0
120000 0 stale x{instance="a:1",job="j"}
120000 0 report up{instance="a:1",job="j"} 0
120000 0 report scrape_duration_seconds{instance="a:1",job="j"} 0.020
120000 0 report scrape_samples_scraped{instance="a:1",job="j"} 0
120000 0 report scrape_samples_post_metric_relabeling{instance="a:1",job="j"} 0
120000 0 report scrape_series_added{instance="a:1",job="j"} 0
180000 0 report up{instance="a:1",job="j"} 0
180000 0 report scrape_duration_seconds{instance="a:1",job="j"} 0.020
180000 0 report scrape_samples_scraped{instance="a:1",job="j"} 0
180000 0 report scrape_samples_post_metric_relabeling{instance="a:1",job="j"} 0
180000 0 report scrape_series_added{instance="a:1",job="j"} 0
-- status 0

== empty_body
$ replay s
-- file s
scrape-journal 1
load 0 76
{"scrape_configs":[{"job_name":"j","static_configs":[{"targets":["a:1"]}]}]}
sweep 0
body 15 0 200 8
x 1
y 2

sweep 60000
body 15 1 200 0

-- out
0 0 sample x{instance="a:1",job="j"} 1
0 0 sample y{instance="a:1",job="j"} 2
0 0 report up{instance="a:1",job="j"} 1
0 0 report scrape_duration_seconds{instance="a:1",job="j"} 0.015
0 0 report scrape_samples_scraped{instance="a:1",job="j"} 2
0 0 report scrape_samples_post_metric_relabeling{instance="a:1",job="j"} 2
0 0 report scrape_series_added{instance="a:1",job="j"} 2
60000 0 stale x{instance="a:1",job="j"}
60000 0 stale y{instance="a:1",job="j"}
60000 0 report up{instance="a:1",job="j"} 1
60000 0 report scrape_duration_seconds{instance="a:1",job="j"} 0.015
60000 0 report scrape_samples_scraped{instance="a:1",job="j"} 0
60000 0 report scrape_samples_post_metric_relabeling{instance="a:1",job="j"} 0
60000 0 report scrape_series_added{instance="a:1",job="j"} 0
-- status 0

== series_comes_back_after_a_failure
$ replay s
-- file s
scrape-journal 1
load 0 76
{"scrape_configs":[{"job_name":"j","static_configs":[{"targets":["a:1"]}]}]}
sweep 0
body 15 0 200 8
y 2
x 1

sweep 60000
lost 20 1
sweep 120000
body 15 2 200 4
x 5

-- out
0 0 sample y{instance="a:1",job="j"} 2
0 0 sample x{instance="a:1",job="j"} 1
0 0 report up{instance="a:1",job="j"} 1
0 0 report scrape_duration_seconds{instance="a:1",job="j"} 0.015
0 0 report scrape_samples_scraped{instance="a:1",job="j"} 2
0 0 report scrape_samples_post_metric_relabeling{instance="a:1",job="j"} 2
0 0 report scrape_series_added{instance="a:1",job="j"} 2
60000 0 stale x{instance="a:1",job="j"}
60000 0 stale y{instance="a:1",job="j"}
60000 0 report up{instance="a:1",job="j"} 0
60000 0 report scrape_duration_seconds{instance="a:1",job="j"} 0.020
60000 0 report scrape_samples_scraped{instance="a:1",job="j"} 0
60000 0 report scrape_samples_post_metric_relabeling{instance="a:1",job="j"} 0
60000 0 report scrape_series_added{instance="a:1",job="j"} 0
120000 0 sample x{instance="a:1",job="j"} 5
120000 0 report up{instance="a:1",job="j"} 1
120000 0 report scrape_duration_seconds{instance="a:1",job="j"} 0.015
120000 0 report scrape_samples_scraped{instance="a:1",job="j"} 1
120000 0 report scrape_samples_post_metric_relabeling{instance="a:1",job="j"} 1
120000 0 report scrape_series_added{instance="a:1",job="j"} 0
-- status 0

== finish_of_no_ticket
$ replay s
-- file s
scrape-journal 1
load 0 76
{"scrape_configs":[{"job_name":"j","static_configs":[{"targets":["a:1"]}]}]}
sweep 0
body 15 0 200 8
x 1
y 2

body 15 0 200 4
x 3

body 15 7 200 4
x 3

-- out
0 0 sample x{instance="a:1",job="j"} 1
0 0 sample y{instance="a:1",job="j"} 2
0 0 report up{instance="a:1",job="j"} 1
0 0 report scrape_duration_seconds{instance="a:1",job="j"} 0.015
0 0 report scrape_samples_scraped{instance="a:1",job="j"} 2
0 0 report scrape_samples_post_metric_relabeling{instance="a:1",job="j"} 2
0 0 report scrape_series_added{instance="a:1",job="j"} 2
-- status 0

== sweep_before_the_next_plan
$ replay s
-- file s
scrape-journal 1
load 0 76
{"scrape_configs":[{"job_name":"j","static_configs":[{"targets":["a:1"]}]}]}
sweep 0
body 15 0 200 8
x 1
y 2

sweep 59999
body 15 1 200 4
x 3

-- out
0 0 sample x{instance="a:1",job="j"} 1
0 0 sample y{instance="a:1",job="j"} 2
0 0 report up{instance="a:1",job="j"} 1
0 0 report scrape_duration_seconds{instance="a:1",job="j"} 0.015
0 0 report scrape_samples_scraped{instance="a:1",job="j"} 2
0 0 report scrape_samples_post_metric_relabeling{instance="a:1",job="j"} 2
0 0 report scrape_series_added{instance="a:1",job="j"} 2
-- status 0

== second_scrape_in_flight
$ replay s
-- file s
scrape-journal 1
load 0 76
{"scrape_configs":[{"job_name":"j","static_configs":[{"targets":["a:1"]}]}]}
sweep 0
sweep 60000
body 15 0 200 4
x 1

body 15 1 200 4
x 1

-- out
0 0 sample x{instance="a:1",job="j"} 1
0 0 report up{instance="a:1",job="j"} 1
0 0 report scrape_duration_seconds{instance="a:1",job="j"} 0.015
0 0 report scrape_samples_scraped{instance="a:1",job="j"} 1
0 0 report scrape_samples_post_metric_relabeling{instance="a:1",job="j"} 1
0 0 report scrape_series_added{instance="a:1",job="j"} 1
-- status 0

== lengths_of_fetches
$ at 0 scrape_duration_seconds s
-- file s
scrape-journal 1
load 0 94
{"scrape_configs":[{"job_name":"j","static_configs":[{"targets":["a:1","b:1","c:1","d:1"]}]}]}
sweep 0
lost 15 0
lost 10000 1
lost 0 2
lost 3982045 3
-- out
0 scrape_duration_seconds{instance="a:1",job="j"} 0.015
0 scrape_duration_seconds{instance="b:1",job="j"} 10.000
0 scrape_duration_seconds{instance="c:1",job="j"} 0.000
0 scrape_duration_seconds{instance="d:1",job="j"} 3982.045
-- status 0
"#;
