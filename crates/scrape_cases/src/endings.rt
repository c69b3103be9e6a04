//! Endings of lives, and lives at the ends of the range of moments.

pub const CASES: &str = r#"
== life_without_scrape
$ replay s
-- file s
scrape-journal 1
load 0 76
{"scrape_configs":[{"job_name":"j","static_configs":[{"targets":["a:1"]}]}]}
load 10 2
{}
sweep 66009
sweep 66010
-- status 0

== life_with_one_scrape
$ replay s
-- file s
scrape-journal 1
load 0 76
{"scrape_configs":[{"job_name":"j","static_configs":[{"targets":["a:1"]}]}]}
sweep 0
body 15 0 200 4
x 1

load 10 2
{}
sweep 125999
sweep 126000
-- out
0 0 sample x{instance="a:1",job="j"} 1
0 0 report up{instance="a:1",job="j"} 1
0 0 report scrape_duration_seconds{instance="a:1",job="j"} 0.015
0 0 report scrape_samples_scraped{instance="a:1",job="j"} 1
0 0 report scrape_samples_post_metric_relabeling{instance="a:1",job="j"} 1
0 0 report scrape_series_added{instance="a:1",job="j"} 1
60000 0 stale x{instance="a:1",job="j"}
60000 0 report-stale up{instance="a:1",job="j"}
60000 0 report-stale scrape_duration_seconds{instance="a:1",job="j"}
60000 0 report-stale scrape_samples_scraped{instance="a:1",job="j"}
60000 0 report-stale scrape_samples_post_metric_relabeling{instance="a:1",job="j"}
60000 0 report-stale scrape_series_added{instance="a:1",job="j"}
-- status 0

== renamed_series_across_reload
$ replay s
-- file s
scrape-journal 1
load 0 76
{"scrape_configs":[{"job_name":"j","static_configs":[{"targets":["a:1"]}]}]}
sweep 0
body 15 0 200 4
x 1

sweep 60000
load 60010 191
{"scrape_configs":[{"job_name":"j","metric_relabel_configs":[{"source_labels":["__name__"],"regex":"x","target_label":"__name__","replacement":"x2"}],"static_configs":[{"targets":["a:1"]}]}]}
body 15 1 200 4
x 9

sweep 60010
body 15 2 200 4
x 2

sweep 120010
body 15 3 200 4
x 3

sweep 185999
sweep 186000
-- out
0 0 sample x{instance="a:1",job="j"} 1
0 0 report up{instance="a:1",job="j"} 1
0 0 report scrape_duration_seconds{instance="a:1",job="j"} 0.015
0 0 report scrape_samples_scraped{instance="a:1",job="j"} 1
0 0 report scrape_samples_post_metric_relabeling{instance="a:1",job="j"} 1
0 0 report scrape_series_added{instance="a:1",job="j"} 1
60010 1 sample x2{instance="a:1",job="j"} 2
60010 1 report up{instance="a:1",job="j"} 1
60010 1 report scrape_duration_seconds{instance="a:1",job="j"} 0.015
60010 1 report scrape_samples_scraped{instance="a:1",job="j"} 1
60010 1 report scrape_samples_post_metric_relabeling{instance="a:1",job="j"} 1
60010 1 report scrape_series_added{instance="a:1",job="j"} 1
120010 1 sample x2{instance="a:1",job="j"} 3
120010 1 report up{instance="a:1",job="j"} 1
120010 1 report scrape_duration_seconds{instance="a:1",job="j"} 0.015
120010 1 report scrape_samples_scraped{instance="a:1",job="j"} 1
120010 1 report scrape_samples_post_metric_relabeling{instance="a:1",job="j"} 1
120010 1 report scrape_series_added{instance="a:1",job="j"} 0
120000 0 stale x{instance="a:1",job="j"}
120000 0 report-stale up{instance="a:1",job="j"}
120000 0 report-stale scrape_duration_seconds{instance="a:1",job="j"}
120000 0 report-stale scrape_samples_scraped{instance="a:1",job="j"}
120000 0 report-stale scrape_samples_post_metric_relabeling{instance="a:1",job="j"}
120000 0 report-stale scrape_series_added{instance="a:1",job="j"}
-- status 0

== reply_after_a_close
$ replay s
-- file s
scrape-journal 1
load 0 76
{"scrape_configs":[{"job_name":"j","static_configs":[{"targets":["a:1"]}]}]}
sweep 0
load 5 2
{}
body 15 0 200 4
x 1

sweep 66005
sweep 1000000000
-- status 0

== target_gone_and_back
$ replay s
-- file s
scrape-journal 1
load 0 76
{"scrape_configs":[{"job_name":"j","static_configs":[{"targets":["a:1"]}]}]}
sweep 0
body 15 0 200 4
x 1

load 5 2
{}
load 6 76
{"scrape_configs":[{"job_name":"j","static_configs":[{"targets":["a:1"]}]}]}
sweep 6
body 15 1 200 4
x 2

sweep 125999
sweep 126000
sweep 126000
sweep 1000000000
-- out
0 0 sample x{instance="a:1",job="j"} 1
0 0 report up{instance="a:1",job="j"} 1
0 0 report scrape_duration_seconds{instance="a:1",job="j"} 0.015
0 0 report scrape_samples_scraped{instance="a:1",job="j"} 1
0 0 report scrape_samples_post_metric_relabeling{instance="a:1",job="j"} 1
0 0 report scrape_series_added{instance="a:1",job="j"} 1
6 1 sample x{instance="a:1",job="j"} 2
6 1 report up{instance="a:1",job="j"} 1
6 1 report scrape_duration_seconds{instance="a:1",job="j"} 0.015
6 1 report scrape_samples_scraped{instance="a:1",job="j"} 1
6 1 report scrape_samples_post_metric_relabeling{instance="a:1",job="j"} 1
6 1 report scrape_series_added{instance="a:1",job="j"} 1
60000 0 stale x{instance="a:1",job="j"}
60000 0 report-stale up{instance="a:1",job="j"}
60000 0 report-stale scrape_duration_seconds{instance="a:1",job="j"}
60000 0 report-stale scrape_samples_scraped{instance="a:1",job="j"}
60000 0 report-stale scrape_samples_post_metric_relabeling{instance="a:1",job="j"}
60000 0 report-stale scrape_series_added{instance="a:1",job="j"}
-- status 0

== ending_past_the_last_moment
$ replay s
-- file s
scrape-journal 1
load 0 112
{"scrape_configs":[{"job_name":"j","scrape_interval":"1099511627776ms","static_configs":[{"targets":["a:1"]}]}]}
sweep 0
body 15 0 200 4
x 1

load 4503599627370495 2
{}
sweep 4503599627370495
-- out
0 0 sample x{instance="a:1",job="j"} 1
0 0 report up{instance="a:1",job="j"} 1
0 0 report scrape_duration_seconds{instance="a:1",job="j"} 0.015
0 0 report scrape_samples_scraped{instance="a:1",job="j"} 1
0 0 report scrape_samples_post_metric_relabeling{instance="a:1",job="j"} 1
0 0 report scrape_series_added{instance="a:1",job="j"} 1
-- status 0

== ending_after_the_longest_interval
$ replay s
-- file s
scrape-journal 1
load 0 112
{"scrape_configs":[{"job_name":"j","scrape_interval":"1099511627776ms","static_configs":[{"targets":["a:1"]}]}]}
sweep 0
body 15 0 200 4
x 1

load 1 2
{}
sweep 2308974418328
sweep 2308974418329
sweep 2308974418329
sweep 4503599627370495
-- out
0 0 sample x{instance="a:1",job="j"} 1
0 0 report up{instance="a:1",job="j"} 1
0 0 report scrape_duration_seconds{instance="a:1",job="j"} 0.015
0 0 report scrape_samples_scraped{instance="a:1",job="j"} 1
0 0 report scrape_samples_post_metric_relabeling{instance="a:1",job="j"} 1
0 0 report scrape_series_added{instance="a:1",job="j"} 1
1099511627776 0 stale x{instance="a:1",job="j"}
1099511627776 0 report-stale up{instance="a:1",job="j"}
1099511627776 0 report-stale scrape_duration_seconds{instance="a:1",job="j"}
1099511627776 0 report-stale scrape_samples_scraped{instance="a:1",job="j"}
1099511627776 0 report-stale scrape_samples_post_metric_relabeling{instance="a:1",job="j"}
1099511627776 0 report-stale scrape_series_added{instance="a:1",job="j"}
-- status 0

== lives_at_the_last_moment
$ replay s
-- file s
scrape-journal 1
load 4503599627370495 76
{"scrape_configs":[{"job_name":"j","static_configs":[{"targets":["a:1"]}]}]}
sweep 4503599627370495
body 15 0 200 4
x 1

sweep 4503599627370495
load 4503599627370495 2
{}
sweep 4503599627370495
-- out
4503599627370495 0 sample x{instance="a:1",job="j"} 1
4503599627370495 0 report up{instance="a:1",job="j"} 1
4503599627370495 0 report scrape_duration_seconds{instance="a:1",job="j"} 0.015
4503599627370495 0 report scrape_samples_scraped{instance="a:1",job="j"} 1
4503599627370495 0 report scrape_samples_post_metric_relabeling{instance="a:1",job="j"} 1
4503599627370495 0 report scrape_series_added{instance="a:1",job="j"} 1
-- status 0
"#;
