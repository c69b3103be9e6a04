//! Loads of a configuration behind the first.

pub const CASES: &str = r#"
== reload_in_flight
$ replay s
-- file s
scrape-journal 1
load 0 76
{"scrape_configs":[{"job_name":"j","static_configs":[{"targets":["a:1"]}]}]}
sweep 0
load 5 76
{"scrape_configs":[{"job_name":"j","static_configs":[{"targets":["a:1"]}]}]}
body 15 0 200 8
x 1
y 2

-- out
0 0 sample x{instance="a:1",job="j"} 1
0 0 sample y{instance="a:1",job="j"} 2
0 0 report up{instance="a:1",job="j"} 1
0 0 report scrape_duration_seconds{instance="a:1",job="j"} 0.015
0 0 report scrape_samples_scraped{instance="a:1",job="j"} 2
0 0 report scrape_samples_post_metric_relabeling{instance="a:1",job="j"} 2
0 0 report scrape_series_added{instance="a:1",job="j"} 2
-- status 0

== changed_interval_cancels
$ replay s
-- file s
scrape-journal 1
load 0 76
{"scrape_configs":[{"job_name":"j","static_configs":[{"targets":["a:1"]}]}]}
sweep 0
body 15 0 200 8
x 1
y 2

sweep 60000
load 60005 100
{"scrape_configs":[{"job_name":"j","scrape_interval":"30s","static_configs":[{"targets":["a:1"]}]}]}
body 15 1 200 4
x 1

sweep 90004
sweep 90005
body 15 2 200 4
x 1

-- out
0 0 sample x{instance="a:1",job="j"} 1
0 0 sample y{instance="a:1",job="j"} 2
0 0 report up{instance="a:1",job="j"} 1
0 0 report scrape_duration_seconds{instance="a:1",job="j"} 0.015
0 0 report scrape_samples_scraped{instance="a:1",job="j"} 2
0 0 report scrape_samples_post_metric_relabeling{instance="a:1",job="j"} 2
0 0 report scrape_series_added{instance="a:1",job="j"} 2
90005 0 sample x{instance="a:1",job="j"} 1
90005 0 stale y{instance="a:1",job="j"}
90005 0 report up{instance="a:1",job="j"} 1
90005 0 report scrape_duration_seconds{instance="a:1",job="j"} 0.015
90005 0 report scrape_samples_scraped{instance="a:1",job="j"} 1
90005 0 report scrape_samples_post_metric_relabeling{instance="a:1",job="j"} 1
90005 0 report scrape_series_added{instance="a:1",job="j"} 0
-- status 0

== same_configuration_again
$ replay s
-- file s
scrape-journal 1
load 0 76
{"scrape_configs":[{"job_name":"j","static_configs":[{"targets":["a:1"]}]}]}
sweep 0
body 15 0 200 8
x 1
y 2

load 60000 76
{"scrape_configs":[{"job_name":"j","static_configs":[{"targets":["a:1"]}]}]}
sweep 60000
body 15 1 200 4
x 1

-- out
0 0 sample x{instance="a:1",job="j"} 1
0 0 sample y{instance="a:1",job="j"} 2
0 0 report up{instance="a:1",job="j"} 1
0 0 report scrape_duration_seconds{instance="a:1",job="j"} 0.015
0 0 report scrape_samples_scraped{instance="a:1",job="j"} 2
0 0 report scrape_samples_post_metric_relabeling{instance="a:1",job="j"} 2
0 0 report scrape_series_added{instance="a:1",job="j"} 2
60000 0 sample x{instance="a:1",job="j"} 1
60000 0 stale y{instance="a:1",job="j"}
60000 0 report up{instance="a:1",job="j"} 1
60000 0 report scrape_duration_seconds{instance="a:1",job="j"} 0.015
60000 0 report scrape_samples_scraped{instance="a:1",job="j"} 1
60000 0 report scrape_samples_post_metric_relabeling{instance="a:1",job="j"} 1
60000 0 report scrape_series_added{instance="a:1",job="j"} 0
-- status 0

== refused_load_closes_nothing
$ replay s
-- file s
scrape-journal 1
load 0 76
{"scrape_configs":[{"job_name":"j","static_configs":[{"targets":["a:1"]}]}]}
sweep 0
body 15 0 200 4
x 1

load 100 48
{"scrape_configs":[{"job_name":"j","colour":1}]}
sweep 60000
body 15 1 200 4
x 2

-- out
0 0 sample x{instance="a:1",job="j"} 1
0 0 report up{instance="a:1",job="j"} 1
0 0 report scrape_duration_seconds{instance="a:1",job="j"} 0.015
0 0 report scrape_samples_scraped{instance="a:1",job="j"} 1
0 0 report scrape_samples_post_metric_relabeling{instance="a:1",job="j"} 1
0 0 report scrape_series_added{instance="a:1",job="j"} 1
60000 0 sample x{instance="a:1",job="j"} 2
60000 0 report up{instance="a:1",job="j"} 1
60000 0 report scrape_duration_seconds{instance="a:1",job="j"} 0.015
60000 0 report scrape_samples_scraped{instance="a:1",job="j"} 1
60000 0 report scrape_samples_post_metric_relabeling{instance="a:1",job="j"} 1
60000 0 report scrape_series_added{instance="a:1",job="j"} 0
-- status 0

== load_with_a_pattern_that_is_none_refused
$ replay s
-- file s
scrape-journal 1
load 0 76
{"scrape_configs":[{"job_name":"j","static_configs":[{"targets":["a:1"]}]}]}
sweep 0
load 5 90
{"scrape_configs":[{"job_name":"j","relabel_configs":[{"regex":"(","target_label":"t"}]}]}
body 15 0 200 4
x 1

-- out
0 0 sample x{instance="a:1",job="j"} 1
0 0 report up{instance="a:1",job="j"} 1
0 0 report scrape_duration_seconds{instance="a:1",job="j"} 0.015
0 0 report scrape_samples_scraped{instance="a:1",job="j"} 1
0 0 report scrape_samples_post_metric_relabeling{instance="a:1",job="j"} 1
0 0 report scrape_series_added{instance="a:1",job="j"} 1
-- status 0

== restored_settings_revive_no_flight
$ replay s
-- file s
scrape-journal 1
load 0 76
{"scrape_configs":[{"job_name":"j","static_configs":[{"targets":["a:1"]}]}]}
sweep 0
load 1 100
{"scrape_configs":[{"job_name":"j","scrape_interval":"30s","static_configs":[{"targets":["a:1"]}]}]}
load 2 76
{"scrape_configs":[{"job_name":"j","static_configs":[{"targets":["a:1"]}]}]}
body 15 0 200 4
x 1

sweep 30001
body 15 1 200 4
x 2

-- out
30001 0 sample x{instance="a:1",job="j"} 2
30001 0 report up{instance="a:1",job="j"} 1
30001 0 report scrape_duration_seconds{instance="a:1",job="j"} 0.015
30001 0 report scrape_samples_scraped{instance="a:1",job="j"} 1
30001 0 report scrape_samples_post_metric_relabeling{instance="a:1",job="j"} 1
30001 0 report scrape_series_added{instance="a:1",job="j"} 1
-- status 0

== jobs_and_targets_added
$ replay s
-- file s
scrape-journal 1
load 0 76
{"scrape_configs":[{"job_name":"j","static_configs":[{"targets":["a:1"]}]}]}
sweep 0
load 5 138
{"scrape_configs":[{"job_name":"k","static_configs":[{"targets":["a:1"]}]},{"job_name":"j","static_configs":[{"targets":["b:1","a:1"]}]}]}
sweep 5
body 15 0 200 4
x 1

body 15 1 200 4
x 2

body 15 2 200 4
x 3

-- out
0 0 sample x{instance="a:1",job="j"} 1
0 0 report up{instance="a:1",job="j"} 1
0 0 report scrape_duration_seconds{instance="a:1",job="j"} 0.015
0 0 report scrape_samples_scraped{instance="a:1",job="j"} 1
0 0 report scrape_samples_post_metric_relabeling{instance="a:1",job="j"} 1
0 0 report scrape_series_added{instance="a:1",job="j"} 1
5 1 sample x{instance="a:1",job="k"} 2
5 1 report up{instance="a:1",job="k"} 1
5 1 report scrape_duration_seconds{instance="a:1",job="k"} 0.015
5 1 report scrape_samples_scraped{instance="a:1",job="k"} 1
5 1 report scrape_samples_post_metric_relabeling{instance="a:1",job="k"} 1
5 1 report scrape_series_added{instance="a:1",job="k"} 1
5 2 sample x{instance="b:1",job="j"} 3
5 2 report up{instance="b:1",job="j"} 1
5 2 report scrape_duration_seconds{instance="b:1",job="j"} 0.015
5 2 report scrape_samples_scraped{instance="b:1",job="j"} 1
5 2 report scrape_samples_post_metric_relabeling{instance="b:1",job="j"} 1
5 2 report scrape_series_added{instance="b:1",job="j"} 1
-- status 0

== reload_with_each_setting_changed
$ at 5 up s
-- file s
scrape-journal 1
load 0 2165
{"scrape_configs":[{"job_name":"defaults","params":{"a":["1"]},"relabel_configs":[{"target_label":"t"}],"static_configs":[{"targets":["a:1"]}]},{"job_name":"default_of_a_rule","params":{"a":["1"]},"relabel_configs":[{"target_label":"t"}],"static_configs":[{"targets":["a:1"]}]},{"job_name":"interval","params":{"a":["1"]},"relabel_configs":[{"target_label":"t"}],"static_configs":[{"targets":["a:1"]}]},{"job_name":"timeout","params":{"a":["1"]},"relabel_configs":[{"target_label":"t"}],"static_configs":[{"targets":["a:1"]}]},{"job_name":"target_limit","params":{"a":["1"]},"relabel_configs":[{"target_label":"t"}],"static_configs":[{"targets":["a:1"]}]},{"job_name":"name","params":{"a":["1"]},"relabel_configs":[{"target_label":"t"}],"static_configs":[{"targets":["a:1"]}]},{"job_name":"scheme","params":{"a":["1"]},"relabel_configs":[{"target_label":"t"}],"static_configs":[{"targets":["a:1"]}]},{"job_name":"path","params":{"a":["1"]},"relabel_configs":[{"target_label":"t"}],"static_configs":[{"targets":["a:1"]}]},{"job_name":"honor_labels","params":{"a":["1"]},"relabel_configs":[{"target_label":"t"}],"static_configs":[{"targets":["a:1"]}]},{"job_name":"honor_timestamps","params":{"a":["1"]},"relabel_configs":[{"target_label":"t"}],"static_configs":[{"targets":["a:1"]}]},{"job_name":"track","params":{"a":["1"]},"relabel_configs":[{"target_label":"t"}],"static_configs":[{"targets":["a:1"]}]},{"job_name":"extra","params":{"a":["1"]},"relabel_configs":[{"target_label":"t"}],"static_configs":[{"targets":["a:1"]}]},{"job_name":"parameter","params":{"a":["1"]},"relabel_configs":[{"target_label":"t"}],"static_configs":[{"targets":["a:1"]}]},{"job_name":"parameter_more","params":{"a":["1"]},"relabel_configs":[{"target_label":"t"}],"static_configs":[{"targets":["a:1"]}]},{"job_name":"rule","params":{"a":["1"]},"relabel_configs":[{"target_label":"t"}],"static_configs":[{"targets":["a:1"]}]},{"job_name":"rule_more","params":{"a":["1"]},"relabel_configs":[{"target_label":"t"}],"static_configs":[{"targets":["a:1"]}]},{"job_name":"rule_for_samples","params":{"a":["1"]},"relabel_configs":[{"target_label":"t"}],"static_configs":[{"targets":["a:1"]}]}]}
sweep 0
load 5 2477
{"scrape_configs":[{"job_name":"defaults","params":{"a":["1"]},"relabel_configs":[{"target_label":"t"}],"scheme":"http","scrape_interval":"60s","static_configs":[{"targets":["a:1"]}]},{"job_name":"default_of_a_rule","params":{"a":["1"]},"relabel_configs":[{"target_label":"t","separator":";"}],"static_configs":[{"targets":["a:1"]}]},{"job_name":"interval","params":{"a":["1"]},"relabel_configs":[{"target_label":"t"}],"scrape_interval":"50s","static_configs":[{"targets":["a:1"]}]},{"job_name":"timeout","params":{"a":["1"]},"relabel_configs":[{"target_label":"t"}],"scrape_timeout":"9s","static_configs":[{"targets":["a:1"]}]},{"job_name":"target_limit","params":{"a":["1"]},"relabel_configs":[{"target_label":"t"}],"target_limit":1,"static_configs":[{"targets":["a:1"]}]},{"job_name":"name_2","params":{"a":["1"]},"relabel_configs":[{"target_label":"t"}],"static_configs":[{"targets":["a:1"]}]},{"job_name":"scheme","params":{"a":["1"]},"relabel_configs":[{"target_label":"t"}],"scheme":"https","static_configs":[{"targets":["a:1"]}]},{"job_name":"path","params":{"a":["1"]},"relabel_configs":[{"target_label":"t"}],"metrics_path":"/m","static_configs":[{"targets":["a:1"]}]},{"job_name":"honor_labels","params":{"a":["1"]},"relabel_configs":[{"target_label":"t"}],"honor_labels":true,"static_configs":[{"targets":["a:1"]}]},{"job_name":"honor_timestamps","params":{"a":["1"]},"relabel_configs":[{"target_label":"t"}],"honor_timestamps":false,"static_configs":[{"targets":["a:1"]}]},{"job_name":"track","params":{"a":["1"]},"relabel_configs":[{"target_label":"t"}],"track_timestamps_staleness":true,"static_configs":[{"targets":["a:1"]}]},{"job_name":"extra","params":{"a":["1"]},"relabel_configs":[{"target_label":"t"}],"extra_scrape_metrics":true,"static_configs":[{"targets":["a:1"]}]},{"job_name":"parameter","params":{"a":["2"]},"relabel_configs":[{"target_label":"t"}],"static_configs":[{"targets":["a:1"]}]},{"job_name":"parameter_more","params":{"a":["1"],"b":[]},"relabel_configs":[{"target_label":"t"}],"static_configs":[{"targets":["a:1"]}]},{"job_name":"rule","params":{"a":["1"]},"relabel_configs":[{"target_label":"t","modulus":3}],"static_configs":[{"targets":["a:1"]}]},{"job_name":"rule_more","params":{"a":["1"]},"relabel_configs":[{"target_label":"t"},{"target_label":"t"}],"static_configs":[{"targets":["a:1"]}]},{"job_name":"rule_for_samples","params":{"a":["1"]},"metric_relabel_configs":[{"target_label":"t"}],"static_configs":[{"targets":["a:1"]}]}]}
lost 5 0
lost 5 1
lost 5 2
lost 5 3
lost 5 4
lost 5 5
lost 5 6
lost 5 7
lost 5 8
lost 5 9
lost 5 10
lost 5 11
lost 5 12
lost 5 13
lost 5 14
lost 5 15
lost 5 16
sweep 5
lost 5 17
lost 5 18
lost 5 19
lost 5 20
lost 5 21
lost 5 22
lost 5 23
lost 5 24
lost 5 25
lost 5 26
lost 5 27
lost 5 28
-- out
0 up{instance="a:1",job="default_of_a_rule"} 0
0 up{instance="a:1",job="defaults"} 0
5 up{instance="a:1",job="extra"} 0
5 up{instance="a:1",job="honor_labels"} 0
5 up{instance="a:1",job="honor_timestamps"} 0
5 up{instance="a:1",job="name_2"} 0
5 up{instance="a:1",job="parameter"} 0
5 up{instance="a:1",job="parameter_more"} 0
5 up{instance="a:1",job="path"} 0
5 up{instance="a:1",job="rule"} 0
5 up{instance="a:1",job="rule_for_samples"} 0
5 up{instance="a:1",job="rule_more"} 0
5 up{instance="a:1",job="scheme"} 0
5 up{instance="a:1",job="track"} 0
-- status 0

== loads_with_patterns_that_are_none
$ at 1 up s
-- file s
scrape-journal 1
load 0 76
{"scrape_configs":[{"job_name":"j","static_configs":[{"targets":["a:1"]}]}]}
load 1 127
{"scrape_configs":[{"job_name":"j","static_configs":[{"targets":["b:1"]}],"relabel_configs":[{"action":"drop","regex":"a)"}]}]}
load 1 130
{"scrape_configs":[{"job_name":"j","static_configs":[{"targets":["b:1"]}],"relabel_configs":[{"action":"drop","regex":"[b-a]"}]}]}
load 1 133
{"scrape_configs":[{"job_name":"j","static_configs":[{"targets":["b:1"]}],"relabel_configs":[{"action":"drop","regex":"(?P<9>a)"}]}]}
load 1 126
{"scrape_configs":[{"job_name":"j","static_configs":[{"targets":["b:1"]}],"relabel_configs":[{"action":"drop","regex":"*"}]}]}
sweep 1
lost 5 0
lost 5 1
-- out
1 up{instance="a:1",job="j"} 0
-- status 0
"#;
