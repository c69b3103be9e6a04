//! Series whose own timestamps are tracked, and the three extra reports.

pub const CASES: &str = r#"
== tracked_timestamps
$ replay s
-- file s
scrape-journal 1
load 0 110
{"scrape_configs":[{"job_name":"j","track_timestamps_staleness":true,"static_configs":[{"targets":["a:1"]}]}]}
sweep 0
body 15 0 200 9
x 1 5000

sweep 60000
lost 20 1
-- out
5000 0 sample x{instance="a:1",job="j"} 1
0 0 report up{instance="a:1",job="j"} 1
0 0 report scrape_duration_seconds{instance="a:1",job="j"} 0.015
0 0 report scrape_samples_scraped{instance="a:1",job="j"} 1
0 0 report scrape_samples_post_metric_relabeling{instance="a:1",job="j"} 1
0 0 report scrape_series_added{instance="a:1",job="j"} 1
60000 0 stale x{instance="a:1",job="j"}
60000 0 report up{instance="a:1",job="j"} 0
60000 0 report scrape_duration_seconds{instance="a:1",job="j"} 0.020
60000 0 report scrape_samples_scraped{instance="a:1",job="j"} 0
60000 0 report scrape_samples_post_metric_relabeling{instance="a:1",job="j"} 0
60000 0 report scrape_series_added{instance="a:1",job="j"} 0
-- status 0

== tracked_timestamps_off
$ replay s
-- file s
scrape-journal 1
load 0 111
{"scrape_configs":[{"job_name":"j","track_timestamps_staleness":false,"static_configs":[{"targets":["a:1"]}]}]}
sweep 0
body 15 0 200 9
x 1 5000

sweep 60000
lost 20 1
-- out
5000 0 sample x{instance="a:1",job="j"} 1
0 0 report up{instance="a:1",job="j"} 1
0 0 report scrape_duration_seconds{instance="a:1",job="j"} 0.015
0 0 report scrape_samples_scraped{instance="a:1",job="j"} 1
0 0 report scrape_samples_post_metric_relabeling{instance="a:1",job="j"} 1
0 0 report scrape_series_added{instance="a:1",job="j"} 1
60000 0 report up{instance="a:1",job="j"} 0
60000 0 report scrape_duration_seconds{instance="a:1",job="j"} 0.020
60000 0 report scrape_samples_scraped{instance="a:1",job="j"} 0
60000 0 report scrape_samples_post_metric_relabeling{instance="a:1",job="j"} 0
60000 0 report scrape_series_added{instance="a:1",job="j"} 0
-- status 0

== tracked_timestamp_falls
$ replay s
-- file s
scrape-journal 1
load 0 110
{"scrape_configs":[{"job_name":"j","track_timestamps_staleness":true,"static_configs":[{"targets":["a:1"]}]}]}
sweep 0
body 15 0 200 9
x 1 5000

sweep 60000
body 15 1 200 9
x 2 4000

sweep 120000
lost 20 2
-- out
5000 0 sample x{instance="a:1",job="j"} 1
0 0 report up{instance="a:1",job="j"} 1
0 0 report scrape_duration_seconds{instance="a:1",job="j"} 0.015
0 0 report scrape_samples_scraped{instance="a:1",job="j"} 1
0 0 report scrape_samples_post_metric_relabeling{instance="a:1",job="j"} 1
0 0 report scrape_series_added{instance="a:1",job="j"} 1
4000 0 sample x{instance="a:1",job="j"} 2
60000 0 report up{instance="a:1",job="j"} 1
60000 0 report scrape_duration_seconds{instance="a:1",job="j"} 0.015
60000 0 report scrape_samples_scraped{instance="a:1",job="j"} 1
60000 0 report scrape_samples_post_metric_relabeling{instance="a:1",job="j"} 1
60000 0 report scrape_series_added{instance="a:1",job="j"} 0
120000 0 stale x{instance="a:1",job="j"}
120000 0 report up{instance="a:1",job="j"} 0
120000 0 report scrape_duration_seconds{instance="a:1",job="j"} 0.020
120000 0 report scrape_samples_scraped{instance="a:1",job="j"} 0
120000 0 report scrape_samples_post_metric_relabeling{instance="a:1",job="j"} 0
120000 0 report scrape_series_added{instance="a:1",job="j"} 0
-- status 0

== tracked_timestamp_stays
$ replay s
-- file s
scrape-journal 1
load 0 110
{"scrape_configs":[{"job_name":"j","track_timestamps_staleness":true,"static_configs":[{"targets":["a:1"]}]}]}
sweep 0
body 15 0 200 9
x 1 5000

sweep 60000
body 15 1 200 9
x 1 5000

sweep 120000
lost 20 2
-- out
5000 0 sample x{instance="a:1",job="j"} 1
0 0 report up{instance="a:1",job="j"} 1
0 0 report scrape_duration_seconds{instance="a:1",job="j"} 0.015
0 0 report scrape_samples_scraped{instance="a:1",job="j"} 1
0 0 report scrape_samples_post_metric_relabeling{instance="a:1",job="j"} 1
0 0 report scrape_series_added{instance="a:1",job="j"} 1
5000 0 sample x{instance="a:1",job="j"} 1
60000 0 report up{instance="a:1",job="j"} 1
60000 0 report scrape_duration_seconds{instance="a:1",job="j"} 0.015
60000 0 report scrape_samples_scraped{instance="a:1",job="j"} 1
60000 0 report scrape_samples_post_metric_relabeling{instance="a:1",job="j"} 1
60000 0 report scrape_series_added{instance="a:1",job="j"} 0
120000 0 stale x{instance="a:1",job="j"}
120000 0 report up{instance="a:1",job="j"} 0
120000 0 report scrape_duration_seconds{instance="a:1",job="j"} 0.020
120000 0 report scrape_samples_scraped{instance="a:1",job="j"} 0
120000 0 report scrape_samples_post_metric_relabeling{instance="a:1",job="j"} 0
120000 0 report scrape_series_added{instance="a:1",job="j"} 0
-- status 0

== mixed_lines
$ replay s
-- file s
scrape-journal 1
load 0 76
{"scrape_configs":[{"job_name":"j","static_configs":[{"targets":["a:1"]}]}]}
sweep 0
body 15 0 200 13
x 1 5000
x 2

sweep 60000
body 15 1 200 10
x 3 70000

sweep 120000
lost 20 2
-- out
5000 0 sample x{instance="a:1",job="j"} 1
0 0 sample x{instance="a:1",job="j"} 2
0 0 report up{instance="a:1",job="j"} 1
0 0 report scrape_duration_seconds{instance="a:1",job="j"} 0.015
0 0 report scrape_samples_scraped{instance="a:1",job="j"} 2
0 0 report scrape_samples_post_metric_relabeling{instance="a:1",job="j"} 2
0 0 report scrape_series_added{instance="a:1",job="j"} 1
70000 0 sample x{instance="a:1",job="j"} 3
60000 0 stale x{instance="a:1",job="j"}
60000 0 report up{instance="a:1",job="j"} 1
60000 0 report scrape_duration_seconds{instance="a:1",job="j"} 0.015
60000 0 report scrape_samples_scraped{instance="a:1",job="j"} 1
60000 0 report scrape_samples_post_metric_relabeling{instance="a:1",job="j"} 1
60000 0 report scrape_series_added{instance="a:1",job="j"} 0
120000 0 report up{instance="a:1",job="j"} 0
120000 0 report scrape_duration_seconds{instance="a:1",job="j"} 0.020
120000 0 report scrape_samples_scraped{instance="a:1",job="j"} 0
120000 0 report scrape_samples_post_metric_relabeling{instance="a:1",job="j"} 0
120000 0 report scrape_series_added{instance="a:1",job="j"} 0
-- status 0

== mixed_lines_tracked
$ replay s
-- file s
scrape-journal 1
load 0 110
{"scrape_configs":[{"job_name":"j","track_timestamps_staleness":true,"static_configs":[{"targets":["a:1"]}]}]}
sweep 0
body 15 0 200 13
x 1 5000
x 2

sweep 60000
body 15 1 200 10
x 3 70000

sweep 120000
lost 20 2
-- out
5000 0 sample x{instance="a:1",job="j"} 1
0 0 sample x{instance="a:1",job="j"} 2
0 0 report up{instance="a:1",job="j"} 1
0 0 report scrape_duration_seconds{instance="a:1",job="j"} 0.015
0 0 report scrape_samples_scraped{instance="a:1",job="j"} 2
0 0 report scrape_samples_post_metric_relabeling{instance="a:1",job="j"} 2
0 0 report scrape_series_added{instance="a:1",job="j"} 1
70000 0 sample x{instance="a:1",job="j"} 3
60000 0 report up{instance="a:1",job="j"} 1
60000 0 report scrape_duration_seconds{instance="a:1",job="j"} 0.015
60000 0 report scrape_samples_scraped{instance="a:1",job="j"} 1
60000 0 report scrape_samples_post_metric_relabeling{instance="a:1",job="j"} 1
60000 0 report scrape_series_added{instance="a:1",job="j"} 0
120000 0 stale x{instance="a:1",job="j"}
120000 0 report up{instance="a:1",job="j"} 0
120000 0 report scrape_duration_seconds{instance="a:1",job="j"} 0.020
120000 0 report scrape_samples_scraped{instance="a:1",job="j"} 0
120000 0 report scrape_samples_post_metric_relabeling{instance="a:1",job="j"} 0
120000 0 report scrape_series_added{instance="a:1",job="j"} 0
-- status 0

== tracked_and_not_honoured
$ replay s
-- file s
scrape-journal 1
load 0 135
{"scrape_configs":[{"job_name":"j","honor_timestamps":false,"track_timestamps_staleness":true,"static_configs":[{"targets":["a:1"]}]}]}
sweep 0
body 15 0 200 9
x 1 5000

sweep 60000
lost 20 1
-- out
0 0 sample x{instance="a:1",job="j"} 1
0 0 report up{instance="a:1",job="j"} 1
0 0 report scrape_duration_seconds{instance="a:1",job="j"} 0.015
0 0 report scrape_samples_scraped{instance="a:1",job="j"} 1
0 0 report scrape_samples_post_metric_relabeling{instance="a:1",job="j"} 1
0 0 report scrape_series_added{instance="a:1",job="j"} 1
60000 0 stale x{instance="a:1",job="j"}
60000 0 report up{instance="a:1",job="j"} 0
60000 0 report scrape_duration_seconds{instance="a:1",job="j"} 0.020
60000 0 report scrape_samples_scraped{instance="a:1",job="j"} 0
60000 0 report scrape_samples_post_metric_relabeling{instance="a:1",job="j"} 0
60000 0 report scrape_series_added{instance="a:1",job="j"} 0
-- status 0

== extra_reports
$ replay s
-- file s
scrape-journal 1
load 0 124
{"scrape_configs":[{"job_name":"j","extra_scrape_metrics":true,"body_size_limit":4,"static_configs":[{"targets":["a:1"]}]}]}
sweep 0
body 15 0 200 4
x 1

sweep 60000
body 15 1 200 5
x 10

sweep 120000
lost 20 2
-- out
0 0 sample x{instance="a:1",job="j"} 1
0 0 report up{instance="a:1",job="j"} 1
0 0 report scrape_duration_seconds{instance="a:1",job="j"} 0.015
0 0 report scrape_samples_scraped{instance="a:1",job="j"} 1
0 0 report scrape_samples_post_metric_relabeling{instance="a:1",job="j"} 1
0 0 report scrape_series_added{instance="a:1",job="j"} 1
0 0 report scrape_timeout_seconds{instance="a:1",job="j"} 10.000
0 0 report scrape_sample_limit{instance="a:1",job="j"} 0
0 0 report scrape_body_size_bytes{instance="a:1",job="j"} 4
60000 0 stale x{instance="a:1",job="j"}
60000 0 report up{instance="a:1",job="j"} 0
60000 0 report scrape_duration_seconds{instance="a:1",job="j"} 0.015
60000 0 report scrape_samples_scraped{instance="a:1",job="j"} 0
60000 0 report scrape_samples_post_metric_relabeling{instance="a:1",job="j"} 0
60000 0 report scrape_series_added{instance="a:1",job="j"} 0
60000 0 report scrape_timeout_seconds{instance="a:1",job="j"} 10.000
60000 0 report scrape_sample_limit{instance="a:1",job="j"} 0
60000 0 report scrape_body_size_bytes{instance="a:1",job="j"} -1
120000 0 report up{instance="a:1",job="j"} 0
120000 0 report scrape_duration_seconds{instance="a:1",job="j"} 0.020
120000 0 report scrape_samples_scraped{instance="a:1",job="j"} 0
120000 0 report scrape_samples_post_metric_relabeling{instance="a:1",job="j"} 0
120000 0 report scrape_series_added{instance="a:1",job="j"} 0
120000 0 report scrape_timeout_seconds{instance="a:1",job="j"} 10.000
120000 0 report scrape_sample_limit{instance="a:1",job="j"} 0
120000 0 report scrape_body_size_bytes{instance="a:1",job="j"} 0
-- status 0

== extra_reports_forced
$ replay s
-- file s
scrape-journal 1
load 0 166
{"scrape_configs":[{"job_name":"j","extra_scrape_metrics":true,"sample_limit":7,"scrape_timeout":"5s","target_limit":1,"static_configs":[{"targets":["a:1","b:1"]}]}]}
sweep 0
-- out
0 0 report up{instance="a:1",job="j"} 0
0 0 report scrape_duration_seconds{instance="a:1",job="j"} 0.000
0 0 report scrape_samples_scraped{instance="a:1",job="j"} 0
0 0 report scrape_samples_post_metric_relabeling{instance="a:1",job="j"} 0
0 0 report scrape_series_added{instance="a:1",job="j"} 0
0 0 report scrape_timeout_seconds{instance="a:1",job="j"} 5.000
0 0 report scrape_sample_limit{instance="a:1",job="j"} 7
0 0 report scrape_body_size_bytes{instance="a:1",job="j"} 0
0 1 report up{instance="b:1",job="j"} 0
0 1 report scrape_duration_seconds{instance="b:1",job="j"} 0.000
0 1 report scrape_samples_scraped{instance="b:1",job="j"} 0
0 1 report scrape_samples_post_metric_relabeling{instance="b:1",job="j"} 0
0 1 report scrape_series_added{instance="b:1",job="j"} 0
0 1 report scrape_timeout_seconds{instance="b:1",job="j"} 5.000
0 1 report scrape_sample_limit{instance="b:1",job="j"} 7
0 1 report scrape_body_size_bytes{instance="b:1",job="j"} 0
-- status 0

== extra_reports_oversize
$ replay s
-- file s
scrape-journal 1
load 0 104
{"scrape_configs":[{"job_name":"j","extra_scrape_metrics":true,"static_configs":[{"targets":["a:1"]}]}]}
sweep 0
oversize 15 0
sweep 60000
oversize 20000 1
-- out
0 0 report up{instance="a:1",job="j"} 0
0 0 report scrape_duration_seconds{instance="a:1",job="j"} 0.015
0 0 report scrape_samples_scraped{instance="a:1",job="j"} 0
0 0 report scrape_samples_post_metric_relabeling{instance="a:1",job="j"} 0
0 0 report scrape_series_added{instance="a:1",job="j"} 0
0 0 report scrape_timeout_seconds{instance="a:1",job="j"} 10.000
0 0 report scrape_sample_limit{instance="a:1",job="j"} 0
0 0 report scrape_body_size_bytes{instance="a:1",job="j"} -1
60000 0 report up{instance="a:1",job="j"} 0
60000 0 report scrape_duration_seconds{instance="a:1",job="j"} 20.000
60000 0 report scrape_samples_scraped{instance="a:1",job="j"} 0
60000 0 report scrape_samples_post_metric_relabeling{instance="a:1",job="j"} 0
60000 0 report scrape_series_added{instance="a:1",job="j"} 0
60000 0 report scrape_timeout_seconds{instance="a:1",job="j"} 10.000
60000 0 report scrape_sample_limit{instance="a:1",job="j"} 0
60000 0 report scrape_body_size_bytes{instance="a:1",job="j"} 0
-- status 0

== extra_reports_turned_off
$ replay s
-- file s
scrape-journal 1
load 0 104
{"scrape_configs":[{"job_name":"j","extra_scrape_metrics":true,"static_configs":[{"targets":["a:1"]}]}]}
sweep 0
body 15 0 200 4
x 1

load 30000 76
{"scrape_configs":[{"job_name":"j","static_configs":[{"targets":["a:1"]}]}]}
sweep 126000
lost 20 1
-- out
0 0 sample x{instance="a:1",job="j"} 1
0 0 report up{instance="a:1",job="j"} 1
0 0 report scrape_duration_seconds{instance="a:1",job="j"} 0.015
0 0 report scrape_samples_scraped{instance="a:1",job="j"} 1
0 0 report scrape_samples_post_metric_relabeling{instance="a:1",job="j"} 1
0 0 report scrape_series_added{instance="a:1",job="j"} 1
0 0 report scrape_timeout_seconds{instance="a:1",job="j"} 10.000
0 0 report scrape_sample_limit{instance="a:1",job="j"} 0
0 0 report scrape_body_size_bytes{instance="a:1",job="j"} 4
60000 0 stale x{instance="a:1",job="j"}
60000 0 report-stale up{instance="a:1",job="j"}
60000 0 report-stale scrape_duration_seconds{instance="a:1",job="j"}
60000 0 report-stale scrape_samples_scraped{instance="a:1",job="j"}
60000 0 report-stale scrape_samples_post_metric_relabeling{instance="a:1",job="j"}
60000 0 report-stale scrape_series_added{instance="a:1",job="j"}
60000 0 report-stale scrape_timeout_seconds{instance="a:1",job="j"}
60000 0 report-stale scrape_sample_limit{instance="a:1",job="j"}
60000 0 report-stale scrape_body_size_bytes{instance="a:1",job="j"}
126000 1 report up{instance="a:1",job="j"} 0
126000 1 report scrape_duration_seconds{instance="a:1",job="j"} 0.020
126000 1 report scrape_samples_scraped{instance="a:1",job="j"} 0
126000 1 report scrape_samples_post_metric_relabeling{instance="a:1",job="j"} 0
126000 1 report scrape_series_added{instance="a:1",job="j"} 0
-- status 0

== tracking_turned_on
$ replay s
-- file s
scrape-journal 1
load 0 76
{"scrape_configs":[{"job_name":"j","static_configs":[{"targets":["a:1"]}]}]}
sweep 0
body 15 0 200 9
x 1 5000

load 30000 110
{"scrape_configs":[{"job_name":"j","track_timestamps_staleness":true,"static_configs":[{"targets":["a:1"]}]}]}
sweep 126000
lost 20 1
-- out
5000 0 sample x{instance="a:1",job="j"} 1
0 0 report up{instance="a:1",job="j"} 1
0 0 report scrape_duration_seconds{instance="a:1",job="j"} 0.015
0 0 report scrape_samples_scraped{instance="a:1",job="j"} 1
0 0 report scrape_samples_post_metric_relabeling{instance="a:1",job="j"} 1
0 0 report scrape_series_added{instance="a:1",job="j"} 1
60000 0 report-stale up{instance="a:1",job="j"}
60000 0 report-stale scrape_duration_seconds{instance="a:1",job="j"}
60000 0 report-stale scrape_samples_scraped{instance="a:1",job="j"}
60000 0 report-stale scrape_samples_post_metric_relabeling{instance="a:1",job="j"}
60000 0 report-stale scrape_series_added{instance="a:1",job="j"}
126000 1 report up{instance="a:1",job="j"} 0
126000 1 report scrape_duration_seconds{instance="a:1",job="j"} 0.020
126000 1 report scrape_samples_scraped{instance="a:1",job="j"} 0
126000 1 report scrape_samples_post_metric_relabeling{instance="a:1",job="j"} 0
126000 1 report scrape_series_added{instance="a:1",job="j"} 0
-- status 0

== tracked_timestamp_ends_with_life
$ replay s
-- file s
scrape-journal 1
load 0 110
{"scrape_configs":[{"job_name":"j","track_timestamps_staleness":true,"static_configs":[{"targets":["a:1"]}]}]}
sweep 0
body 15 0 200 9
x 1 5000

load 10 2
{}
sweep 126000
-- out
5000 0 sample x{instance="a:1",job="j"} 1
0 0 report up{instance="a:1",job="j"} 1
0 0 report scrape_duration_seconds{instance="a:1",job="j"} 0.015
0 0 report scrape_samples_scraped{instance="a:1",job="j"} 1
0 0 report scrape_samples_post_metric_relabeling{instance="a:1",job="j"} 1
0 0 report scrape_series_added{instance="a:1",job="j"} 1
60000 0 stale x{instance="a:1",job="j"}
60000 0 report-stale up{instance="a:1",job="j"}
60000 0 report-stale scrape_duration_seconds{instance="a:1",job="j"}
60000 0 report-stale scrape_samples_scraped{instance="a:1",job="j"}
60000 0 report-stale scrape_samples_post_metric_relabeling{instance="a:1",job="j"}
60000 0 report-stale scrape_series_added{instance="a:1",job="j"}
-- status 0
"#;
