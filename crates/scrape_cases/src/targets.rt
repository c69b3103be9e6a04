//! Targets of several jobs and groups: which are kept, and what their samples bear.

pub const CASES: &str = r#"
== two_jobs
$ replay s
-- file s
scrape-journal 1
load 0 361
{"scrape_configs":[{"job_name":"j","static_configs":[{"targets":["b:1","a/b","","a:1","b:1","drop:1"],"labels":{"env":"p"}}],"relabel_configs":[{"source_labels":["__address__"],"regex":"drop:.*","action":"drop"}]},{"job_name":"k","scrape_timeout":"20s","file_sd_configs":[{"files":["f.json"]}],"static_configs":[{"targets":["a:1"],"labels":{"instance":"i"}}]}]}
sweep 0
body 20000 2 200 13
x{job="a"} 1

lost 10000 1
body 15 0 200 13
x{env="q"} 2

lost 20001 7
-- out
0 2 sample x{exported_job="a",instance="i",job="k"} 1
0 2 report up{instance="i",job="k"} 1
0 2 report scrape_duration_seconds{instance="i",job="k"} 20.000
0 2 report scrape_samples_scraped{instance="i",job="k"} 1
0 2 report scrape_samples_post_metric_relabeling{instance="i",job="k"} 1
0 2 report scrape_series_added{instance="i",job="k"} 1
0 1 report up{env="p",instance="a:1",job="j"} 0
0 1 report scrape_duration_seconds{env="p",instance="a:1",job="j"} 10.000
0 1 report scrape_samples_scraped{env="p",instance="a:1",job="j"} 0
0 1 report scrape_samples_post_metric_relabeling{env="p",instance="a:1",job="j"} 0
0 1 report scrape_series_added{env="p",instance="a:1",job="j"} 0
0 0 sample x{env="p",exported_env="q",instance="b:1",job="j"} 2
0 0 report up{env="p",instance="b:1",job="j"} 1
0 0 report scrape_duration_seconds{env="p",instance="b:1",job="j"} 0.015
0 0 report scrape_samples_scraped{env="p",instance="b:1",job="j"} 1
0 0 report scrape_samples_post_metric_relabeling{env="p",instance="b:1",job="j"} 1
0 0 report scrape_series_added{env="p",instance="b:1",job="j"} 1
-- status 0

== no_jobs
$ replay s
-- file s
scrape-journal 1
load 0 21
{"scrape_configs":[]}
sweep 0
lost 5 0
-- status 0

== one_target
$ replay s
-- file s
scrape-journal 1
load 0 76
{"scrape_configs":[{"job_name":"j","static_configs":[{"targets":["a:1"]}]}]}
sweep 0
lost 5 0
lost 5 1
-- out
0 0 report up{instance="a:1",job="j"} 0
0 0 report scrape_duration_seconds{instance="a:1",job="j"} 0.005
0 0 report scrape_samples_scraped{instance="a:1",job="j"} 0
0 0 report scrape_samples_post_metric_relabeling{instance="a:1",job="j"} 0
0 0 report scrape_series_added{instance="a:1",job="j"} 0
-- status 0

== refused_and_repeated_targets
$ replay s
-- file s
scrape-journal 1
load 0 91
{"scrape_configs":[{"job_name":"j","static_configs":[{"targets":["a:1","a/b","a:1",""]}]}]}
sweep 0
lost 5 0
lost 5 1
-- out
0 0 report up{instance="a:1",job="j"} 0
0 0 report scrape_duration_seconds{instance="a:1",job="j"} 0.005
0 0 report scrape_samples_scraped{instance="a:1",job="j"} 0
0 0 report scrape_samples_post_metric_relabeling{instance="a:1",job="j"} 0
0 0 report scrape_series_added{instance="a:1",job="j"} 0
-- status 0

== bad_addresses
$ replay s
-- file s
scrape-journal 1
load 0 100
{"scrape_configs":[{"job_name":"j","static_configs":[{"targets":["/","a?","a#","u@a","a\\b",""]}]}]}
sweep 0
lost 5 0
-- status 0

== bad_urls
$ replay s
-- file s
scrape-journal 1
load 0 100
{"scrape_configs":[{"job_name":"j","static_configs":[{"targets":["a b","a[","[","a:99999",":1"]}]}]}
sweep 0
lost 5 0
-- status 0

== address_of_version_6
$ replay s
-- file s
scrape-journal 1
load 0 80
{"scrape_configs":[{"job_name":"j","static_configs":[{"targets":["[::1]:9"]}]}]}
sweep 0
lost 5 0
lost 5 1
-- out
0 0 report up{instance="[::1]:9",job="j"} 0
0 0 report scrape_duration_seconds{instance="[::1]:9",job="j"} 0.005
0 0 report scrape_samples_scraped{instance="[::1]:9",job="j"} 0
0 0 report scrape_samples_post_metric_relabeling{instance="[::1]:9",job="j"} 0
0 0 report scrape_series_added{instance="[::1]:9",job="j"} 0
-- status 0

== address_beyond_ascii
$ replay s
-- file s
scrape-journal 1
load 0 75
{"scrape_configs":[{"job_name":"j","static_configs":[{"targets":["é"]}]}]}
sweep 0
lost 5 0
lost 5 1
-- out
0 0 report up{instance="é",job="j"} 0
0 0 report scrape_duration_seconds{instance="é",job="j"} 0.005
0 0 report scrape_samples_scraped{instance="é",job="j"} 0
0 0 report scrape_samples_post_metric_relabeling{instance="é",job="j"} 0
0 0 report scrape_series_added{instance="é",job="j"} 0
-- status 0

== path_and_scheme
$ replay s
-- file s
scrape-journal 1
load 0 113
{"scrape_configs":[{"job_name":"j","scheme":"https","metrics_path":"/m?x","static_configs":[{"targets":["a"]}]}]}
sweep 0
lost 5 0
lost 5 1
-- out
0 0 report up{instance="a",job="j"} 0
0 0 report scrape_duration_seconds{instance="a",job="j"} 0.005
0 0 report scrape_samples_scraped{instance="a",job="j"} 0
0 0 report scrape_samples_post_metric_relabeling{instance="a",job="j"} 0
0 0 report scrape_series_added{instance="a",job="j"} 0
-- status 0

== address_removed_by_a_rule
$ replay s
-- file s
scrape-journal 1
load 0 144
{"scrape_configs":[{"job_name":"j","relabel_configs":[{"target_label":"__address__","replacement":""}],"static_configs":[{"targets":["a:1"]}]}]}
sweep 0
lost 5 0
-- status 0

== scheme_set_to_another
$ replay s
-- file s
scrape-journal 1
load 0 155
{"scrape_configs":[{"job_name":"j","relabel_configs":[{"target_label":"__scheme__","replacement":"ftp"}],"static_configs":[{"targets":["a:1","a/b",""]}]}]}
sweep 0
lost 5 0
-- status 0

== scheme_removed
$ replay s
-- file s
scrape-journal 1
load 0 143
{"scrape_configs":[{"job_name":"j","relabel_configs":[{"target_label":"__scheme__","replacement":""}],"static_configs":[{"targets":["a b"]}]}]}
sweep 0
lost 5 0
-- status 0

== labels_of_a_group_win_over_defaults
$ replay s
-- file s
scrape-journal 1
load 0 155
{"scrape_configs":[{"job_name":"j","static_configs":[{"targets":["a:1"],"labels":{"__x":"1","__address__":"z:9","__scheme__":"https","e":"","job":"k"}}]}]}
sweep 0
lost 5 0
lost 5 1
-- out
0 0 report up{instance="a:1",job="k"} 0
0 0 report scrape_duration_seconds{instance="a:1",job="k"} 0.005
0 0 report scrape_samples_scraped{instance="a:1",job="k"} 0
0 0 report scrape_samples_post_metric_relabeling{instance="a:1",job="k"} 0
0 0 report scrape_series_added{instance="a:1",job="k"} 0
-- status 0

== first_place_of_an_identity
$ replay s
-- file s
scrape-journal 1
load 0 126
{"scrape_configs":[{"job_name":"j","static_configs":[{"targets":["b","a","b"],"labels":{"__meta_x":"1"}},{"targets":["a"]}]}]}
sweep 0
lost 5 0
lost 5 1
lost 5 2
-- out
0 0 report up{instance="b",job="j"} 0
0 0 report scrape_duration_seconds{instance="b",job="j"} 0.005
0 0 report scrape_samples_scraped{instance="b",job="j"} 0
0 0 report scrape_samples_post_metric_relabeling{instance="b",job="j"} 0
0 0 report scrape_series_added{instance="b",job="j"} 0
0 1 report up{instance="a",job="j"} 0
0 1 report scrape_duration_seconds{instance="a",job="j"} 0.005
0 1 report scrape_samples_scraped{instance="a",job="j"} 0
0 1 report scrape_samples_post_metric_relabeling{instance="a",job="j"} 0
0 1 report scrape_series_added{instance="a",job="j"} 0
-- status 0

== targets_dropped_by_a_rule
$ replay s
-- file s
scrape-journal 1
load 0 171
{"scrape_configs":[{"job_name":"j","relabel_configs":[{"source_labels":["__address__"],"regex":"a.*","action":"drop"}],"static_configs":[{"targets":["a/","b","a","/"]}]}]}
sweep 0
lost 5 0
lost 5 1
-- out
0 0 report up{instance="b",job="j"} 0
0 0 report scrape_duration_seconds{instance="b",job="j"} 0.005
0 0 report scrape_samples_scraped{instance="b",job="j"} 0
0 0 report scrape_samples_post_metric_relabeling{instance="b",job="j"} 0
0 0 report scrape_series_added{instance="b",job="j"} 0
-- status 0

== parameters_are_labels_for_rules
$ replay s
-- file s
scrape-journal 1
load 0 204
{"scrape_configs":[{"job_name":"j","params":{"m":["v","w"],"a-b":["1"],"9":["x"]},"relabel_configs":[{"source_labels":["__param_m","__param_9"],"target_label":"p"}],"static_configs":[{"targets":["a"]}]}]}
sweep 0
lost 5 0
lost 5 1
-- out
0 0 report up{instance="a",job="j",p="v;x"} 0
0 0 report scrape_duration_seconds{instance="a",job="j",p="v;x"} 0.005
0 0 report scrape_samples_scraped{instance="a",job="j",p="v;x"} 0
0 0 report scrape_samples_post_metric_relabeling{instance="a",job="j",p="v;x"} 0
0 0 report scrape_series_added{instance="a",job="j",p="v;x"} 0
-- status 0

== parameter_of_a_group
$ replay s
-- file s
scrape-journal 1
load 0 193
{"scrape_configs":[{"job_name":"j","params":{"m":["v"]},"relabel_configs":[{"source_labels":["__param_m"],"target_label":"p"}],"static_configs":[{"targets":["a"],"labels":{"__param_m":"w"}}]}]}
sweep 0
lost 5 0
lost 5 1
-- out
0 0 report up{instance="a",job="j",p="w"} 0
0 0 report scrape_duration_seconds{instance="a",job="j",p="w"} 0.005
0 0 report scrape_samples_scraped{instance="a",job="j",p="w"} 0
0 0 report scrape_samples_post_metric_relabeling{instance="a",job="j",p="w"} 0
0 0 report scrape_series_added{instance="a",job="j",p="w"} 0
-- status 0

== rules_set_the_instance
$ replay s
-- file s
scrape-journal 1
load 0 142
{"scrape_configs":[{"job_name":"j","relabel_configs":[{"target_label":"instance","replacement":"i"}],"static_configs":[{"targets":["a:1"]}]}]}
sweep 0
lost 5 0
lost 5 1
-- out
0 0 report up{instance="i",job="j"} 0
0 0 report scrape_duration_seconds{instance="i",job="j"} 0.005
0 0 report scrape_samples_scraped{instance="i",job="j"} 0
0 0 report scrape_samples_post_metric_relabeling{instance="i",job="j"} 0
0 0 report scrape_series_added{instance="i",job="j"} 0
-- status 0

== meta_labels_make_no_second_target
$ replay s
-- file s
scrape-journal 1
load 0 144
{"scrape_configs":[{"job_name":"j","static_configs":[{"targets":["a"],"labels":{"__meta_x":"1"}},{"targets":["a"],"labels":{"__meta_x":"2"}}]}]}
sweep 0
lost 5 0
lost 5 1
-- out
0 0 report up{instance="a",job="j"} 0
0 0 report scrape_duration_seconds{instance="a",job="j"} 0.005
0 0 report scrape_samples_scraped{instance="a",job="j"} 0
0 0 report scrape_samples_post_metric_relabeling{instance="a",job="j"} 0
0 0 report scrape_series_added{instance="a",job="j"} 0
-- status 0

== other_hidden_labels_make_one
$ replay s
-- file s
scrape-journal 1
load 0 134
{"scrape_configs":[{"job_name":"j","static_configs":[{"targets":["a"],"labels":{"__x":"1"}},{"targets":["a"],"labels":{"__x":"2"}}]}]}
sweep 0
lost 5 0
lost 5 1
lost 5 2
-- out
0 0 report up{instance="a",job="j"} 0
0 0 report scrape_duration_seconds{instance="a",job="j"} 0.005
0 0 report scrape_samples_scraped{instance="a",job="j"} 0
0 0 report scrape_samples_post_metric_relabeling{instance="a",job="j"} 0
0 0 report scrape_series_added{instance="a",job="j"} 0
0 1 report up{instance="a",job="j"} 0
0 1 report scrape_duration_seconds{instance="a",job="j"} 0.005
0 1 report scrape_samples_scraped{instance="a",job="j"} 0
0 1 report scrape_samples_post_metric_relabeling{instance="a",job="j"} 0
0 1 report scrape_series_added{instance="a",job="j"} 0
-- status 0

== hidden_labels_that_rules_see
$ at 0 up s
-- file s
scrape-journal 1
load 0 620
{"scrape_configs":[{"job_name":"d","relabel_configs":[{"source_labels":["__scheme__","__address__","__metrics_path__","__x"],"target_label":"p"}],"static_configs":[{"targets":["a:1"]}]},{"job_name":"s","relabel_configs":[{"source_labels":["__scheme__","__address__","__metrics_path__","__x"],"target_label":"p"}],"scheme":"https","metrics_path":"/m?x","static_configs":[{"targets":["a"]}]},{"job_name":"g","relabel_configs":[{"source_labels":["__scheme__","__address__","__metrics_path__","__x"],"target_label":"p"}],"static_configs":[{"targets":["a:1"],"labels":{"__x":"1","__address__":"z:9","__scheme__":"https"}}]}]}
sweep 0
lost 5 0
lost 5 1
lost 5 2
-- out
0 up{instance="a",job="s",p="https;a;/m?x;"} 0
0 up{instance="a:1",job="d",p="http;a:1;/metrics;"} 0
0 up{instance="a:1",job="g",p="https;a:1;/metrics;1"} 0
-- status 0
"#;
