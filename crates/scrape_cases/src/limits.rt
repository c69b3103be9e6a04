//! Limits, timestamps, statuses, slow replies, and targets past their limit.

pub const CASES: &str = r#"
== own_timestamp_not_tracked
$ replay s
-- file s
scrape-journal 1
load 0 76
{"scrape_configs":[{"job_name":"j","static_configs":[{"targets":["a:1"]}]}]}
sweep 0
body 15 0 200 8
x 1
y 2

sweep 60000
body 15 1 200 9
x 1 5000

-- out
0 0 sample x{instance="a:1",job="j"} 1
0 0 sample y{instance="a:1",job="j"} 2
0 0 report up{instance="a:1",job="j"} 1
0 0 report scrape_duration_seconds{instance="a:1",job="j"} 0.015
0 0 report scrape_samples_scraped{instance="a:1",job="j"} 2
0 0 report scrape_samples_post_metric_relabeling{instance="a:1",job="j"} 2
0 0 report scrape_series_added{instance="a:1",job="j"} 2
5000 0 sample x{instance="a:1",job="j"} 1
60000 0 stale x{instance="a:1",job="j"}
60000 0 stale y{instance="a:1",job="j"}
60000 0 report up{instance="a:1",job="j"} 1
60000 0 report scrape_duration_seconds{instance="a:1",job="j"} 0.015
60000 0 report scrape_samples_scraped{instance="a:1",job="j"} 1
60000 0 report scrape_samples_post_metric_relabeling{instance="a:1",job="j"} 1
60000 0 report scrape_series_added{instance="a:1",job="j"} 0
-- status 0

== timestamps_not_honoured
$ replay s
-- file s
scrape-journal 1
load 0 101
{"scrape_configs":[{"job_name":"j","honor_timestamps":false,"static_configs":[{"targets":["a:1"]}]}]}
sweep 0
body 15 0 200 9
x 1 5000

sweep 60000
lost 20 1
-- out
0 0 sample x{instance="a:1",job="j"} 1
0 0 report up{instance="a:1",job="j"} 1
0 0 report scrape_duration_seconds{instance="a:1",job="j"} 0.015
0 0 report scrape_samples_scraped{instance="a:1",job="j"} 1
0 0 report scrape_samples_post_metric_relabeling{instance="a:1",job="j"} 1
0 0 report scrape_series_added{instance="a:1",job="j"} 1
60000 0 stale x{instance="a:1",job="j"}
60000 0 report up{instance="a:1",job="j"} 0
60000 0 report scrape_duration_seconds{instance="a:1",job="j"} 0.020
60000 0 report scrape_samples_scraped{instance="a:1",job="j"} 0
60000 0 report scrape_samples_post_metric_relabeling{instance="a:1",job="j"} 0
60000 0 report scrape_series_added{instance="a:1",job="j"} 0
-- status 0

== sample_limit
$ replay s
-- file s
scrape-journal 1
load 0 181
{"scrape_configs":[{"job_name":"j","sample_limit":2,"metric_relabel_configs":[{"source_labels":["__name__"],"regex":"z.*","action":"drop"}],"static_configs":[{"targets":["a:1"]}]}]}
sweep 0
body 15 0 200 13
x 1
y 2
z1 3

sweep 60000
body 15 1 200 17
x 1
y 2
w 3
z1 4

-- out
0 0 sample x{instance="a:1",job="j"} 1
0 0 sample y{instance="a:1",job="j"} 2
0 0 report up{instance="a:1",job="j"} 1
0 0 report scrape_duration_seconds{instance="a:1",job="j"} 0.015
0 0 report scrape_samples_scraped{instance="a:1",job="j"} 3
0 0 report scrape_samples_post_metric_relabeling{instance="a:1",job="j"} 2
0 0 report scrape_series_added{instance="a:1",job="j"} 2
60000 0 stale x{instance="a:1",job="j"}
60000 0 stale y{instance="a:1",job="j"}
60000 0 report up{instance="a:1",job="j"} 0
60000 0 report scrape_duration_seconds{instance="a:1",job="j"} 0.015
60000 0 report scrape_samples_scraped{instance="a:1",job="j"} 4
60000 0 report scrape_samples_post_metric_relabeling{instance="a:1",job="j"} 3
60000 0 report scrape_series_added{instance="a:1",job="j"} 0
-- status 0

== target_limit_forces
$ replay s
-- file s
scrape-journal 1
load 0 99
{"scrape_configs":[{"job_name":"j","target_limit":1,"static_configs":[{"targets":["a:1","b:1"]}]}]}
sweep 0
-- out
0 0 report up{instance="a:1",job="j"} 0
0 0 report scrape_duration_seconds{instance="a:1",job="j"} 0.000
0 0 report scrape_samples_scraped{instance="a:1",job="j"} 0
0 0 report scrape_samples_post_metric_relabeling{instance="a:1",job="j"} 0
0 0 report scrape_series_added{instance="a:1",job="j"} 0
0 1 report up{instance="b:1",job="j"} 0
0 1 report scrape_duration_seconds{instance="b:1",job="j"} 0.000
0 1 report scrape_samples_scraped{instance="b:1",job="j"} 0
0 1 report scrape_samples_post_metric_relabeling{instance="b:1",job="j"} 0
0 1 report scrape_series_added{instance="b:1",job="j"} 0
-- status 0

== target_limit_counts_kept_targets
$ replay s
-- file s
scrape-journal 1
load 0 103
{"scrape_configs":[{"job_name":"j","target_limit":1,"static_configs":[{"targets":["a:1","a:1","/"]}]}]}
sweep 0
lost 5 0
-- out
0 0 report up{instance="a:1",job="j"} 0
0 0 report scrape_duration_seconds{instance="a:1",job="j"} 0.005
0 0 report scrape_samples_scraped{instance="a:1",job="j"} 0
0 0 report scrape_samples_post_metric_relabeling{instance="a:1",job="j"} 0
0 0 report scrape_series_added{instance="a:1",job="j"} 0
-- status 0

== duplicates_and_slow
$ replay s
-- file s
scrape-journal 1
load 0 76
{"scrape_configs":[{"job_name":"j","static_configs":[{"targets":["a:1"]}]}]}
sweep 0
body 10000 0 200 12
x 1
x 2
x 2

sweep 60000
body 10001 1 200 4
x 3

sweep 120000
body 15 2 404 4
x 4

sweep 180000
oversize 15 3
-- out
0 0 sample x{instance="a:1",job="j"} 1
0 0 sample x{instance="a:1",job="j"} 2
0 0 sample x{instance="a:1",job="j"} 2
0 0 report up{instance="a:1",job="j"} 1
0 0 report scrape_duration_seconds{instance="a:1",job="j"} 10.000
0 0 report scrape_samples_scraped{instance="a:1",job="j"} 3
0 0 report scrape_samples_post_metric_relabeling{instance="a:1",job="j"} 3
0 0 report scrape_series_added{instance="a:1",job="j"} 1
60000 0 stale x{instance="a:1",job="j"}
60000 0 report up{instance="a:1",job="j"} 0
60000 0 report scrape_duration_seconds{instance="a:1",job="j"} 10.001
60000 0 report scrape_samples_scraped{instance="a:1",job="j"} 0
60000 0 report scrape_samples_post_metric_relabeling{instance="a:1",job="j"} 0
60000 0 report scrape_series_added{instance="a:1",job="j"} 0
120000 0 report up{instance="a:1",job="j"} 0
120000 0 report scrape_duration_seconds{instance="a:1",job="j"} 0.015
120000 0 report scrape_samples_scraped{instance="a:1",job="j"} 0
120000 0 report scrape_samples_post_metric_relabeling{instance="a:1",job="j"} 0
120000 0 report scrape_series_added{instance="a:1",job="j"} 0
180000 0 report up{instance="a:1",job="j"} 0
180000 0 report scrape_duration_seconds{instance="a:1",job="j"} 0.015
180000 0 report scrape_samples_scraped{instance="a:1",job="j"} 0
180000 0 report scrape_samples_post_metric_relabeling{instance="a:1",job="j"} 0
180000 0 report scrape_series_added{instance="a:1",job="j"} 0
-- status 0

== other_replies
$ replay s
-- file s
scrape-journal 1
load 0 76
{"scrape_configs":[{"job_name":"j","static_configs":[{"targets":["a:1"]}]}]}
sweep 0
garbled 5 0
sweep 60000
unsent 5 1
sweep 120000
lost 20000 2
sweep 180000
oversize 20000 3
-- out
0 0 report up{instance="a:1",job="j"} 0
0 0 report scrape_duration_seconds{instance="a:1",job="j"} 0.005
0 0 report scrape_samples_scraped{instance="a:1",job="j"} 0
0 0 report scrape_samples_post_metric_relabeling{instance="a:1",job="j"} 0
0 0 report scrape_series_added{instance="a:1",job="j"} 0
60000 0 report up{instance="a:1",job="j"} 0
60000 0 report scrape_duration_seconds{instance="a:1",job="j"} 0.005
60000 0 report scrape_samples_scraped{instance="a:1",job="j"} 0
60000 0 report scrape_samples_post_metric_relabeling{instance="a:1",job="j"} 0
60000 0 report scrape_series_added{instance="a:1",job="j"} 0
120000 0 report up{instance="a:1",job="j"} 0
120000 0 report scrape_duration_seconds{instance="a:1",job="j"} 20.000
120000 0 report scrape_samples_scraped{instance="a:1",job="j"} 0
120000 0 report scrape_samples_post_metric_relabeling{instance="a:1",job="j"} 0
120000 0 report scrape_series_added{instance="a:1",job="j"} 0
180000 0 report up{instance="a:1",job="j"} 0
180000 0 report scrape_duration_seconds{instance="a:1",job="j"} 20.000
180000 0 report scrape_samples_scraped{instance="a:1",job="j"} 0
180000 0 report scrape_samples_post_metric_relabeling{instance="a:1",job="j"} 0
180000 0 report scrape_series_added{instance="a:1",job="j"} 0
-- status 0

== rows_left_and_dropped
$ replay s
-- file s
scrape-journal 1
load 0 263
{"scrape_configs":[{"job_name":"j","scrape_timeout":"1s","metric_relabel_configs":[{"source_labels":["__name__"],"regex":"z","action":"drop"},{"source_labels":["n"],"regex":"1","target_label":"__name__","replacement":""}],"static_configs":[{"targets":["a:1"]}]}]}
sweep 0
body 1000 0 200 26
x 1
z 2
y{job="a"} 3 5000

-- out
0 0 sample x{instance="a:1",job="j"} 1
5000 0 sample y{exported_job="a",instance="a:1",job="j"} 3
0 0 report up{instance="a:1",job="j"} 1
0 0 report scrape_duration_seconds{instance="a:1",job="j"} 1.000
0 0 report scrape_samples_scraped{instance="a:1",job="j"} 3
0 0 report scrape_samples_post_metric_relabeling{instance="a:1",job="j"} 2
0 0 report scrape_series_added{instance="a:1",job="j"} 2
-- status 0

== slow_before_its_status
$ replay s
-- file s
scrape-journal 1
load 0 263
{"scrape_configs":[{"job_name":"j","scrape_timeout":"1s","metric_relabel_configs":[{"source_labels":["__name__"],"regex":"z","action":"drop"},{"source_labels":["n"],"regex":"1","target_label":"__name__","replacement":""}],"static_configs":[{"targets":["a:1"]}]}]}
sweep 0
body 1001 0 404 4
x 1

-- out
0 0 report up{instance="a:1",job="j"} 0
0 0 report scrape_duration_seconds{instance="a:1",job="j"} 1.001
0 0 report scrape_samples_scraped{instance="a:1",job="j"} 0
0 0 report scrape_samples_post_metric_relabeling{instance="a:1",job="j"} 0
0 0 report scrape_series_added{instance="a:1",job="j"} 0
-- status 0

== status_before_its_size
$ replay s
-- file s
scrape-journal 1
load 0 283
{"scrape_configs":[{"job_name":"j","scrape_timeout":"1s","metric_relabel_configs":[{"source_labels":["__name__"],"regex":"z","action":"drop"},{"source_labels":["n"],"regex":"1","target_label":"__name__","replacement":""}],"body_size_limit":3,"static_configs":[{"targets":["a:1"]}]}]}
sweep 0
body 1000 0 404 4
x 1

-- out
0 0 report up{instance="a:1",job="j"} 0
0 0 report scrape_duration_seconds{instance="a:1",job="j"} 1.000
0 0 report scrape_samples_scraped{instance="a:1",job="j"} 0
0 0 report scrape_samples_post_metric_relabeling{instance="a:1",job="j"} 0
0 0 report scrape_series_added{instance="a:1",job="j"} 0
-- status 0

== body_past_its_limit
$ replay s
-- file s
scrape-journal 1
load 0 283
{"scrape_configs":[{"job_name":"j","scrape_timeout":"1s","metric_relabel_configs":[{"source_labels":["__name__"],"regex":"z","action":"drop"},{"source_labels":["n"],"regex":"1","target_label":"__name__","replacement":""}],"body_size_limit":3,"static_configs":[{"targets":["a:1"]}]}]}
sweep 0
body 1000 0 200 4
x 1

-- out
0 0 report up{instance="a:1",job="j"} 0
0 0 report scrape_duration_seconds{instance="a:1",job="j"} 1.000
0 0 report scrape_samples_scraped{instance="a:1",job="j"} 0
0 0 report scrape_samples_post_metric_relabeling{instance="a:1",job="j"} 0
0 0 report scrape_series_added{instance="a:1",job="j"} 0
-- status 0

== body_at_its_limit
$ replay s
-- file s
scrape-journal 1
load 0 283
{"scrape_configs":[{"job_name":"j","scrape_timeout":"1s","metric_relabel_configs":[{"source_labels":["__name__"],"regex":"z","action":"drop"},{"source_labels":["n"],"regex":"1","target_label":"__name__","replacement":""}],"body_size_limit":4,"static_configs":[{"targets":["a:1"]}]}]}
sweep 0
body 1000 0 200 4
x 1

-- out
0 0 sample x{instance="a:1",job="j"} 1
0 0 report up{instance="a:1",job="j"} 1
0 0 report scrape_duration_seconds{instance="a:1",job="j"} 1.000
0 0 report scrape_samples_scraped{instance="a:1",job="j"} 1
0 0 report scrape_samples_post_metric_relabeling{instance="a:1",job="j"} 1
0 0 report scrape_series_added{instance="a:1",job="j"} 1
-- status 0

== faulty_line_tells_no_rows
$ replay s
-- file s
scrape-journal 1
load 0 263
{"scrape_configs":[{"job_name":"j","scrape_timeout":"1s","metric_relabel_configs":[{"source_labels":["__name__"],"regex":"z","action":"drop"},{"source_labels":["n"],"regex":"1","target_label":"__name__","replacement":""}],"static_configs":[{"targets":["a:1"]}]}]}
sweep 0
body 0 0 200 6
x 1
y

-- out
0 0 report up{instance="a:1",job="j"} 0
0 0 report scrape_duration_seconds{instance="a:1",job="j"} 0.000
0 0 report scrape_samples_scraped{instance="a:1",job="j"} 0
0 0 report scrape_samples_post_metric_relabeling{instance="a:1",job="j"} 0
0 0 report scrape_series_added{instance="a:1",job="j"} 0
-- status 0

== nameless_row
$ replay s
-- file s
scrape-journal 1
load 0 263
{"scrape_configs":[{"job_name":"j","scrape_timeout":"1s","metric_relabel_configs":[{"source_labels":["__name__"],"regex":"z","action":"drop"},{"source_labels":["n"],"regex":"1","target_label":"__name__","replacement":""}],"static_configs":[{"targets":["a:1"]}]}]}
sweep 0
body 0 0 200 26
z 1
x{n="1"} 1
y{n="1"} 1

-- out
0 0 report up{instance="a:1",job="j"} 0
0 0 report scrape_duration_seconds{instance="a:1",job="j"} 0.000
0 0 report scrape_samples_scraped{instance="a:1",job="j"} 3
0 0 report scrape_samples_post_metric_relabeling{instance="a:1",job="j"} 2
0 0 report scrape_series_added{instance="a:1",job="j"} 0
-- status 0

== too_many_labels
$ replay s
-- file s
scrape-journal 1
load 0 279
{"scrape_configs":[{"job_name":"j","scrape_timeout":"1s","metric_relabel_configs":[{"source_labels":["__name__"],"regex":"z","action":"drop"},{"source_labels":["n"],"regex":"1","target_label":"__name__","replacement":""}],"label_limit":3,"static_configs":[{"targets":["a:1"]}]}]}
sweep 0
body 0 0 200 19
z 1
x 1
y{a="1"} 1

-- out
0 0 report up{instance="a:1",job="j"} 0
0 0 report scrape_duration_seconds{instance="a:1",job="j"} 0.000
0 0 report scrape_samples_scraped{instance="a:1",job="j"} 3
0 0 report scrape_samples_post_metric_relabeling{instance="a:1",job="j"} 2
0 0 report scrape_series_added{instance="a:1",job="j"} 0
-- status 0

== labels_at_their_limit
$ replay s
-- file s
scrape-journal 1
load 0 279
{"scrape_configs":[{"job_name":"j","scrape_timeout":"1s","metric_relabel_configs":[{"source_labels":["__name__"],"regex":"z","action":"drop"},{"source_labels":["n"],"regex":"1","target_label":"__name__","replacement":""}],"label_limit":4,"static_configs":[{"targets":["a:1"]}]}]}
sweep 0
body 0 0 200 19
z 1
x 1
y{a="1"} 1

-- out
0 0 sample x{instance="a:1",job="j"} 1
0 0 sample y{a="1",instance="a:1",job="j"} 1
0 0 report up{instance="a:1",job="j"} 1
0 0 report scrape_duration_seconds{instance="a:1",job="j"} 0.000
0 0 report scrape_samples_scraped{instance="a:1",job="j"} 3
0 0 report scrape_samples_post_metric_relabeling{instance="a:1",job="j"} 2
0 0 report scrape_series_added{instance="a:1",job="j"} 2
-- status 0

== long_label_name
$ replay s
-- file s
scrape-journal 1
load 0 291
{"scrape_configs":[{"job_name":"j","scrape_timeout":"1s","metric_relabel_configs":[{"source_labels":["__name__"],"regex":"z","action":"drop"},{"source_labels":["n"],"regex":"1","target_label":"__name__","replacement":""}],"label_name_length_limit":8,"static_configs":[{"targets":["a:1"]}]}]}
sweep 0
body 0 0 200 42
x 1
y{a_longer="1"} 1
w{a_long_one="1"} 1

-- out
0 0 report up{instance="a:1",job="j"} 0
0 0 report scrape_duration_seconds{instance="a:1",job="j"} 0.000
0 0 report scrape_samples_scraped{instance="a:1",job="j"} 3
0 0 report scrape_samples_post_metric_relabeling{instance="a:1",job="j"} 3
0 0 report scrape_series_added{instance="a:1",job="j"} 0
-- status 0

== long_label_value
$ replay s
-- file s
scrape-journal 1
load 0 292
{"scrape_configs":[{"job_name":"j","scrape_timeout":"1s","metric_relabel_configs":[{"source_labels":["__name__"],"regex":"z","action":"drop"},{"source_labels":["n"],"regex":"1","target_label":"__name__","replacement":""}],"label_value_length_limit":3,"static_configs":[{"targets":["a:1"]}]}]}
sweep 0
body 0 0 200 26
x{a="12"} 1
y{a="1234"} 1

-- out
0 0 report up{instance="a:1",job="j"} 0
0 0 report scrape_duration_seconds{instance="a:1",job="j"} 0.000
0 0 report scrape_samples_scraped{instance="a:1",job="j"} 2
0 0 report scrape_samples_post_metric_relabeling{instance="a:1",job="j"} 2
0 0 report scrape_series_added{instance="a:1",job="j"} 0
-- status 0

== samples_at_their_limit
$ replay s
-- file s
scrape-journal 1
load 0 280
{"scrape_configs":[{"job_name":"j","scrape_timeout":"1s","metric_relabel_configs":[{"source_labels":["__name__"],"regex":"z","action":"drop"},{"source_labels":["n"],"regex":"1","target_label":"__name__","replacement":""}],"sample_limit":2,"static_configs":[{"targets":["a:1"]}]}]}
sweep 0
body 0 0 200 12
x 1
y 2
z 3

-- out
0 0 sample x{instance="a:1",job="j"} 1
0 0 sample y{instance="a:1",job="j"} 2
0 0 report up{instance="a:1",job="j"} 1
0 0 report scrape_duration_seconds{instance="a:1",job="j"} 0.000
0 0 report scrape_samples_scraped{instance="a:1",job="j"} 3
0 0 report scrape_samples_post_metric_relabeling{instance="a:1",job="j"} 2
0 0 report scrape_series_added{instance="a:1",job="j"} 2
-- status 0

== samples_past_their_limit
$ replay s
-- file s
scrape-journal 1
load 0 280
{"scrape_configs":[{"job_name":"j","scrape_timeout":"1s","metric_relabel_configs":[{"source_labels":["__name__"],"regex":"z","action":"drop"},{"source_labels":["n"],"regex":"1","target_label":"__name__","replacement":""}],"sample_limit":2,"static_configs":[{"targets":["a:1"]}]}]}
sweep 0
body 0 0 200 16
x 1
y 2
w 3
z 4

-- out
0 0 report up{instance="a:1",job="j"} 0
0 0 report scrape_duration_seconds{instance="a:1",job="j"} 0.000
0 0 report scrape_samples_scraped{instance="a:1",job="j"} 4
0 0 report scrape_samples_post_metric_relabeling{instance="a:1",job="j"} 3
0 0 report scrape_series_added{instance="a:1",job="j"} 0
-- status 0

== no_samples
$ replay s
-- file s
scrape-journal 1
load 0 280
{"scrape_configs":[{"job_name":"j","scrape_timeout":"1s","metric_relabel_configs":[{"source_labels":["__name__"],"regex":"z","action":"drop"},{"source_labels":["n"],"regex":"1","target_label":"__name__","replacement":""}],"sample_limit":1,"static_configs":[{"targets":["a:1"]}]}]}
sweep 0
body 0 0 200 0

-- out
0 0 report up{instance="a:1",job="j"} 1
0 0 report scrape_duration_seconds{instance="a:1",job="j"} 0.000
0 0 report scrape_samples_scraped{instance="a:1",job="j"} 0
0 0 report scrape_samples_post_metric_relabeling{instance="a:1",job="j"} 0
0 0 report scrape_series_added{instance="a:1",job="j"} 0
-- status 0

== timeouts_as_said_or_by_default
$ at 9 scrape_timeout_seconds s
-- file s
scrape-journal 1
load 0 500
{"scrape_configs":[{"job_name":"a1","scrape_interval":"1h30m","scrape_timeout":"1h29m","extra_scrape_metrics":true,"static_configs":[{"targets":["a:1"]}]},{"job_name":"a2","scrape_interval":"0s","scrape_timeout":"0","extra_scrape_metrics":true,"static_configs":[{"targets":["a:1"]}]},{"job_name":"a3","scrape_interval":"3s","scrape_timeout":"2s","extra_scrape_metrics":true,"static_configs":[{"targets":["a:1"]}]},{"job_name":"a4","extra_scrape_metrics":true,"static_configs":[{"targets":["a:1"]}]}]}
sweep 0
lost 5 0
lost 5 1
lost 5 2
lost 5 3
load 1 139
{"global":{"scrape_interval":"15s"},"scrape_configs":[{"job_name":"b","extra_scrape_metrics":true,"static_configs":[{"targets":["a:1"]}]}]}
sweep 1
lost 5 4
load 2 247
{"global":{"scrape_interval":"5s"},"scrape_configs":[{"job_name":"c1","extra_scrape_metrics":true,"static_configs":[{"targets":["a:1"]}]},{"job_name":"c2","scrape_interval":"1m","extra_scrape_metrics":true,"static_configs":[{"targets":["a:1"]}]}]}
sweep 2
lost 5 5
lost 5 6
load 3 138
{"global":{"scrape_timeout":"20s"},"scrape_configs":[{"job_name":"d","extra_scrape_metrics":true,"static_configs":[{"targets":["a:1"]}]}]}
sweep 3
lost 5 7
load 4 185
{"global":{"scrape_interval":"15s","scrape_timeout":"15s"},"scrape_configs":[{"job_name":"e","scrape_interval":"7s","extra_scrape_metrics":true,"static_configs":[{"targets":["a:1"]}]}]}
sweep 4
lost 5 8
load 5 137
{"global":{"scrape_interval":"0"},"scrape_configs":[{"job_name":"f","extra_scrape_metrics":true,"static_configs":[{"targets":["a:1"]}]}]}
sweep 5
lost 5 9
-- out
0 scrape_timeout_seconds{instance="a:1",job="a1"} 5340.000
0 scrape_timeout_seconds{instance="a:1",job="a2"} 10.000
0 scrape_timeout_seconds{instance="a:1",job="a3"} 2.000
0 scrape_timeout_seconds{instance="a:1",job="a4"} 10.000
1 scrape_timeout_seconds{instance="a:1",job="b"} 10.000
2 scrape_timeout_seconds{instance="a:1",job="c1"} 5.000
2 scrape_timeout_seconds{instance="a:1",job="c2"} 5.000
3 scrape_timeout_seconds{instance="a:1",job="d"} 20.000
4 scrape_timeout_seconds{instance="a:1",job="e"} 7.000
5 scrape_timeout_seconds{instance="a:1",job="f"} 10.000
-- status 0

== intervals_as_said_or_by_default
$ at 195000 up s
-- file s
scrape-journal 1
load 0 280
{"scrape_configs":[{"job_name":"a2","scrape_interval":"0s","scrape_timeout":"0","static_configs":[{"targets":["a:1"]}]},{"job_name":"a3","scrape_interval":"3s","scrape_timeout":"2s","static_configs":[{"targets":["a:1"]}]},{"job_name":"a4","static_configs":[{"targets":["a:1"]}]}]}
sweep 0
lost 5 0
lost 5 1
lost 5 2
tick 2999 1
tick 3000 1
tick 59999 0
tick 59999 2
tick 60000 0
tick 60000 2
lost 5 3
lost 5 4
lost 5 5
load 60000 111
{"global":{"scrape_interval":"15s"},"scrape_configs":[{"job_name":"b","static_configs":[{"targets":["a:1"]}]}]}
tick 60000 3
lost 5 6
tick 74999 3
tick 75000 3
lost 5 7
load 75000 191
{"global":{"scrape_interval":"5s"},"scrape_configs":[{"job_name":"c1","static_configs":[{"targets":["a:1"]}]},{"job_name":"c2","scrape_interval":"1m","static_configs":[{"targets":["a:1"]}]}]}
tick 75000 4
lost 5 8
tick 75000 5
lost 5 9
tick 79999 4
tick 80000 4
lost 5 10
tick 134999 5
tick 135000 5
lost 5 11
load 135000 109
{"global":{"scrape_interval":"0"},"scrape_configs":[{"job_name":"f","static_configs":[{"targets":["a:1"]}]}]}
tick 135000 6
lost 5 12
tick 194999 6
tick 195000 6
lost 5 13
-- out
60000 up{instance="a:1",job="a2"} 0
3000 up{instance="a:1",job="a3"} 0
60000 up{instance="a:1",job="a4"} 0
75000 up{instance="a:1",job="b"} 0
80000 up{instance="a:1",job="c1"} 0
135000 up{instance="a:1",job="c2"} 0
195000 up{instance="a:1",job="f"} 0
-- status 0

== limits_of_a_job_and_by_default
$ at 0 up s
-- file s
scrape-journal 1
load 0 1387
{"global":{"sample_limit":1,"label_limit":3,"label_name_length_limit":8,"label_value_length_limit":4,"body_size_limit":26,"target_limit":1},"scrape_configs":[{"job_name":"all","sample_limit":2,"label_limit":4,"label_name_length_limit":9,"label_value_length_limit":5,"body_size_limit":27,"target_limit":2,"static_configs":[{"targets":["a:1"]}]},{"job_name":"smp","label_limit":4,"label_name_length_limit":9,"label_value_length_limit":5,"body_size_limit":27,"target_limit":2,"static_configs":[{"targets":["a:1"]}]},{"job_name":"lab","sample_limit":2,"label_name_length_limit":9,"label_value_length_limit":5,"body_size_limit":27,"target_limit":2,"static_configs":[{"targets":["a:1"]}]},{"job_name":"nam","sample_limit":2,"label_limit":4,"label_name_length_limit":0,"label_value_length_limit":5,"body_size_limit":27,"target_limit":2,"static_configs":[{"targets":["a:1"]}]},{"job_name":"val","sample_limit":2,"label_limit":4,"label_name_length_limit":9,"body_size_limit":27,"target_limit":2,"static_configs":[{"targets":["a:1"]}]},{"job_name":"bod","sample_limit":2,"label_limit":4,"label_name_length_limit":9,"label_value_length_limit":5,"body_size_limit":0,"target_limit":2,"static_configs":[{"targets":["a:1"]}]},{"job_name":"tgt","sample_limit":2,"label_limit":4,"label_name_length_limit":9,"label_value_length_limit":5,"body_size_limit":27,"static_configs":[{"targets":["a:1","b:1"]}]}]}
sweep 0
body 15 0 200 27
x{long_name="12345"} 1
y 2

body 15 1 200 27
x{long_name="12345"} 1
y 2

body 15 2 200 27
x{long_name="12345"} 1
y 2

body 15 3 200 27
x{long_name="12345"} 1
y 2

body 15 4 200 27
x{long_name="12345"} 1
y 2

body 15 5 200 27
x{long_name="12345"} 1
y 2

-- out
0 up{instance="a:1",job="all"} 1
0 up{instance="a:1",job="bod"} 0
0 up{instance="a:1",job="lab"} 0
0 up{instance="a:1",job="nam"} 0
0 up{instance="a:1",job="smp"} 0
0 up{instance="a:1",job="tgt"} 0
0 up{instance="a:1",job="val"} 0
0 up{instance="b:1",job="tgt"} 0
-- status 0
"#;
