//! Raw texts of sample lines that come again, stay away or have one series, and lives one after another.

pub const CASES: &str = r#"
== slot_used_again
$ replay s
-- file s
scrape-journal 1
load 0 76
{"scrape_configs":[{"job_name":"j","static_configs":[{"targets":["a:1"]}]}]}
sweep 0
body 15 0 200 4
x 1

sweep 60000
load 60010 2
{}
sweep 186000
load 186000 76
{"scrape_configs":[{"job_name":"j","static_configs":[{"targets":["a:1"]}]}]}
sweep 186000
body 15 1 200 4
x 9

body 15 2 200 4
x 2

-- out
0 0 sample x{instance="a:1",job="j"} 1
0 0 report up{instance="a:1",job="j"} 1
0 0 report scrape_duration_seconds{instance="a:1",job="j"} 0.015
0 0 report scrape_samples_scraped{instance="a:1",job="j"} 1
0 0 report scrape_samples_post_metric_relabeling{instance="a:1",job="j"} 1
0 0 report scrape_series_added{instance="a:1",job="j"} 1
120000 0 stale x{instance="a:1",job="j"}
120000 0 report-stale up{instance="a:1",job="j"}
120000 0 report-stale scrape_duration_seconds{instance="a:1",job="j"}
120000 0 report-stale scrape_samples_scraped{instance="a:1",job="j"}
120000 0 report-stale scrape_samples_post_metric_relabeling{instance="a:1",job="j"}
120000 0 report-stale scrape_series_added{instance="a:1",job="j"}
186000 1 sample x{instance="a:1",job="j"} 2
186000 1 report up{instance="a:1",job="j"} 1
186000 1 report scrape_duration_seconds{instance="a:1",job="j"} 0.015
186000 1 report scrape_samples_scraped{instance="a:1",job="j"} 1
186000 1 report scrape_samples_post_metric_relabeling{instance="a:1",job="j"} 1
186000 1 report scrape_series_added{instance="a:1",job="j"} 1
-- status 0

== two_texts_of_one_series
$ replay s
-- file s
scrape-journal 1
load 0 76
{"scrape_configs":[{"job_name":"j","static_configs":[{"targets":["a:1"]}]}]}
sweep 0
body 15 0 200 23
x{a="1"} 1
x{a="1",} 2

sweep 60000
body 15 1 200 12
x{a="1",} 3

sweep 120000
body 15 2 200 0

-- out
0 0 sample x{a="1",instance="a:1",job="j"} 1
0 0 sample x{a="1",instance="a:1",job="j"} 2
0 0 report up{instance="a:1",job="j"} 1
0 0 report scrape_duration_seconds{instance="a:1",job="j"} 0.015
0 0 report scrape_samples_scraped{instance="a:1",job="j"} 2
0 0 report scrape_samples_post_metric_relabeling{instance="a:1",job="j"} 2
0 0 report scrape_series_added{instance="a:1",job="j"} 1
60000 0 sample x{a="1",instance="a:1",job="j"} 3
60000 0 report up{instance="a:1",job="j"} 1
60000 0 report scrape_duration_seconds{instance="a:1",job="j"} 0.015
60000 0 report scrape_samples_scraped{instance="a:1",job="j"} 1
60000 0 report scrape_samples_post_metric_relabeling{instance="a:1",job="j"} 1
60000 0 report scrape_series_added{instance="a:1",job="j"} 0
120000 0 stale x{a="1",instance="a:1",job="j"}
120000 0 report up{instance="a:1",job="j"} 1
120000 0 report scrape_duration_seconds{instance="a:1",job="j"} 0.015
120000 0 report scrape_samples_scraped{instance="a:1",job="j"} 0
120000 0 report scrape_samples_post_metric_relabeling{instance="a:1",job="j"} 0
120000 0 report scrape_series_added{instance="a:1",job="j"} 0
-- status 0

== dropped_text_comes_back
$ replay s
-- file s
scrape-journal 1
load 0 162
{"scrape_configs":[{"job_name":"j","metric_relabel_configs":[{"source_labels":["__name__"],"regex":"y","action":"drop"}],"static_configs":[{"targets":["a:1"]}]}]}
sweep 0
body 15 0 200 8
x 1
y 2

sweep 60000
body 15 1 200 4
x 1

sweep 120000
body 15 2 200 8
y 3
x 1

-- out
0 0 sample x{instance="a:1",job="j"} 1
0 0 report up{instance="a:1",job="j"} 1
0 0 report scrape_duration_seconds{instance="a:1",job="j"} 0.015
0 0 report scrape_samples_scraped{instance="a:1",job="j"} 2
0 0 report scrape_samples_post_metric_relabeling{instance="a:1",job="j"} 1
0 0 report scrape_series_added{instance="a:1",job="j"} 1
60000 0 sample x{instance="a:1",job="j"} 1
60000 0 report up{instance="a:1",job="j"} 1
60000 0 report scrape_duration_seconds{instance="a:1",job="j"} 0.015
60000 0 report scrape_samples_scraped{instance="a:1",job="j"} 1
60000 0 report scrape_samples_post_metric_relabeling{instance="a:1",job="j"} 1
60000 0 report scrape_series_added{instance="a:1",job="j"} 0
120000 0 sample x{instance="a:1",job="j"} 1
120000 0 report up{instance="a:1",job="j"} 1
120000 0 report scrape_duration_seconds{instance="a:1",job="j"} 0.015
120000 0 report scrape_samples_scraped{instance="a:1",job="j"} 2
120000 0 report scrape_samples_post_metric_relabeling{instance="a:1",job="j"} 1
120000 0 report scrape_series_added{instance="a:1",job="j"} 0
-- status 0

== known_texts_after_a_failed_scrape
$ replay s
-- file s
scrape-journal 1
load 0 76
{"scrape_configs":[{"job_name":"j","static_configs":[{"targets":["a:1"]}]}]}
sweep 0
body 15 0 200 8
x 1
z 4

sweep 60000
lost 20 1
sweep 120000
body 15 2 200 14
z 5
x 2
new 1

-- out
0 0 sample x{instance="a:1",job="j"} 1
0 0 sample z{instance="a:1",job="j"} 4
0 0 report up{instance="a:1",job="j"} 1
0 0 report scrape_duration_seconds{instance="a:1",job="j"} 0.015
0 0 report scrape_samples_scraped{instance="a:1",job="j"} 2
0 0 report scrape_samples_post_metric_relabeling{instance="a:1",job="j"} 2
0 0 report scrape_series_added{instance="a:1",job="j"} 2
60000 0 stale x{instance="a:1",job="j"}
60000 0 stale z{instance="a:1",job="j"}
60000 0 report up{instance="a:1",job="j"} 0
60000 0 report scrape_duration_seconds{instance="a:1",job="j"} 0.020
60000 0 report scrape_samples_scraped{instance="a:1",job="j"} 0
60000 0 report scrape_samples_post_metric_relabeling{instance="a:1",job="j"} 0
60000 0 report scrape_series_added{instance="a:1",job="j"} 0
120000 0 sample z{instance="a:1",job="j"} 5
120000 0 sample x{instance="a:1",job="j"} 2
120000 0 sample new{instance="a:1",job="j"} 1
120000 0 report up{instance="a:1",job="j"} 1
120000 0 report scrape_duration_seconds{instance="a:1",job="j"} 0.015
120000 0 report scrape_samples_scraped{instance="a:1",job="j"} 3
120000 0 report scrape_samples_post_metric_relabeling{instance="a:1",job="j"} 3
120000 0 report scrape_series_added{instance="a:1",job="j"} 1
-- status 0

== texts_in_another_order
$ replay s
-- file s
scrape-journal 1
load 0 76
{"scrape_configs":[{"job_name":"j","static_configs":[{"targets":["a:1"]}]}]}
sweep 0
body 15 0 200 12
b 1
a 1
c 1

sweep 60000
body 15 1 200 12
c 2
a 2
d 2

sweep 120000
body 15 2 200 16
d 3
b 3
c 3
b 4

-- out
0 0 sample b{instance="a:1",job="j"} 1
0 0 sample a{instance="a:1",job="j"} 1
0 0 sample c{instance="a:1",job="j"} 1
0 0 report up{instance="a:1",job="j"} 1
0 0 report scrape_duration_seconds{instance="a:1",job="j"} 0.015
0 0 report scrape_samples_scraped{instance="a:1",job="j"} 3
0 0 report scrape_samples_post_metric_relabeling{instance="a:1",job="j"} 3
0 0 report scrape_series_added{instance="a:1",job="j"} 3
60000 0 sample c{instance="a:1",job="j"} 2
60000 0 sample a{instance="a:1",job="j"} 2
60000 0 sample d{instance="a:1",job="j"} 2
60000 0 stale b{instance="a:1",job="j"}
60000 0 report up{instance="a:1",job="j"} 1
60000 0 report scrape_duration_seconds{instance="a:1",job="j"} 0.015
60000 0 report scrape_samples_scraped{instance="a:1",job="j"} 3
60000 0 report scrape_samples_post_metric_relabeling{instance="a:1",job="j"} 3
60000 0 report scrape_series_added{instance="a:1",job="j"} 1
120000 0 sample d{instance="a:1",job="j"} 3
120000 0 sample b{instance="a:1",job="j"} 3
120000 0 sample c{instance="a:1",job="j"} 3
120000 0 sample b{instance="a:1",job="j"} 4
120000 0 stale a{instance="a:1",job="j"}
120000 0 report up{instance="a:1",job="j"} 1
120000 0 report scrape_duration_seconds{instance="a:1",job="j"} 0.015
120000 0 report scrape_samples_scraped{instance="a:1",job="j"} 4
120000 0 report scrape_samples_post_metric_relabeling{instance="a:1",job="j"} 4
120000 0 report scrape_series_added{instance="a:1",job="j"} 1
-- status 0

== text_with_and_without_a_timestamp
$ replay s
-- file s
scrape-journal 1
load 0 76
{"scrape_configs":[{"job_name":"j","static_configs":[{"targets":["a:1"]}]}]}
sweep 0
body 15 0 200 4
x 1

sweep 60000
body 15 1 200 10
x 2 50000

sweep 120000
body 15 2 200 4
x 3

sweep 180000
body 15 3 200 15
x 4 170000
x 5

-- out
0 0 sample x{instance="a:1",job="j"} 1
0 0 report up{instance="a:1",job="j"} 1
0 0 report scrape_duration_seconds{instance="a:1",job="j"} 0.015
0 0 report scrape_samples_scraped{instance="a:1",job="j"} 1
0 0 report scrape_samples_post_metric_relabeling{instance="a:1",job="j"} 1
0 0 report scrape_series_added{instance="a:1",job="j"} 1
50000 0 sample x{instance="a:1",job="j"} 2
60000 0 stale x{instance="a:1",job="j"}
60000 0 report up{instance="a:1",job="j"} 1
60000 0 report scrape_duration_seconds{instance="a:1",job="j"} 0.015
60000 0 report scrape_samples_scraped{instance="a:1",job="j"} 1
60000 0 report scrape_samples_post_metric_relabeling{instance="a:1",job="j"} 1
60000 0 report scrape_series_added{instance="a:1",job="j"} 0
120000 0 sample x{instance="a:1",job="j"} 3
120000 0 report up{instance="a:1",job="j"} 1
120000 0 report scrape_duration_seconds{instance="a:1",job="j"} 0.015
120000 0 report scrape_samples_scraped{instance="a:1",job="j"} 1
120000 0 report scrape_samples_post_metric_relabeling{instance="a:1",job="j"} 1
120000 0 report scrape_series_added{instance="a:1",job="j"} 0
170000 0 sample x{instance="a:1",job="j"} 4
180000 0 sample x{instance="a:1",job="j"} 5
180000 0 report up{instance="a:1",job="j"} 1
180000 0 report scrape_duration_seconds{instance="a:1",job="j"} 0.015
180000 0 report scrape_samples_scraped{instance="a:1",job="j"} 2
180000 0 report scrape_samples_post_metric_relabeling{instance="a:1",job="j"} 2
180000 0 report scrape_series_added{instance="a:1",job="j"} 0
-- status 0
"#;
