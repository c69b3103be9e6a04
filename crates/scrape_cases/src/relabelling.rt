//! Rules for samples, one action a case. A first rule takes the target's own labels away, so that a set is that of its line.

pub const CASES: &str = r#"
== replace_1
$ replay s
-- file s
scrape-journal 1
load 0 192
{"scrape_configs":[{"job_name":"j","metric_relabel_configs":[{"regex":"instance|job","action":"labeldrop"},{"source_labels":["a"],"target_label":"t"}],"static_configs":[{"targets":["a:1"]}]}]}
sweep 0
body 15 0 200 11
m{a="x"} 1

-- out
0 0 sample m{a="x",t="x"} 1
0 0 report up{instance="a:1",job="j"} 1
0 0 report scrape_duration_seconds{instance="a:1",job="j"} 0.015
0 0 report scrape_samples_scraped{instance="a:1",job="j"} 1
0 0 report scrape_samples_post_metric_relabeling{instance="a:1",job="j"} 1
0 0 report scrape_series_added{instance="a:1",job="j"} 1
-- status 0

== replace_2
$ replay s
-- file s
scrape-journal 1
load 0 196
{"scrape_configs":[{"job_name":"j","metric_relabel_configs":[{"regex":"instance|job","action":"labeldrop"},{"source_labels":["a","b"],"target_label":"t"}],"static_configs":[{"targets":["a:1"]}]}]}
sweep 0
body 15 0 200 17
m{a="x",b="y"} 1

-- out
0 0 sample m{a="x",b="y",t="x;y"} 1
0 0 report up{instance="a:1",job="j"} 1
0 0 report scrape_duration_seconds{instance="a:1",job="j"} 0.015
0 0 report scrape_samples_scraped{instance="a:1",job="j"} 1
0 0 report scrape_samples_post_metric_relabeling{instance="a:1",job="j"} 1
0 0 report scrape_series_added{instance="a:1",job="j"} 1
-- status 0

== replace_3
$ replay s
-- file s
scrape-journal 1
load 0 212
{"scrape_configs":[{"job_name":"j","metric_relabel_configs":[{"regex":"instance|job","action":"labeldrop"},{"source_labels":["a","z"],"separator":"-","target_label":"t"}],"static_configs":[{"targets":["a:1"]}]}]}
sweep 0
body 15 0 200 11
m{a="x"} 1

-- out
0 0 sample m{a="x",t="x-"} 1
0 0 report up{instance="a:1",job="j"} 1
0 0 report scrape_duration_seconds{instance="a:1",job="j"} 0.015
0 0 report scrape_samples_scraped{instance="a:1",job="j"} 1
0 0 report scrape_samples_post_metric_relabeling{instance="a:1",job="j"} 1
0 0 report scrape_series_added{instance="a:1",job="j"} 1
-- status 0

== replace_4
$ replay s
-- file s
scrape-journal 1
load 0 208
{"scrape_configs":[{"job_name":"j","metric_relabel_configs":[{"regex":"instance|job","action":"labeldrop"},{"source_labels":["a"],"regex":"y(.*)","target_label":"t"}],"static_configs":[{"targets":["a:1"]}]}]}
sweep 0
body 15 0 200 11
m{a="x"} 1

-- out
0 0 sample m{a="x"} 1
0 0 report up{instance="a:1",job="j"} 1
0 0 report scrape_duration_seconds{instance="a:1",job="j"} 0.015
0 0 report scrape_samples_scraped{instance="a:1",job="j"} 1
0 0 report scrape_samples_post_metric_relabeling{instance="a:1",job="j"} 1
0 0 report scrape_series_added{instance="a:1",job="j"} 1
-- status 0

== replace_5
$ replay s
-- file s
scrape-journal 1
load 0 248
{"scrape_configs":[{"job_name":"j","metric_relabel_configs":[{"regex":"instance|job","action":"labeldrop"},{"source_labels":["__address__"],"regex":"(.*):([0-9]+)","target_label":"port","replacement":"$2"}],"static_configs":[{"targets":["a:1"]}]}]}
sweep 0
body 15 0 200 24
m{__address__="h:80"} 1

-- out
0 0 sample m{__address__="h:80",port="80"} 1
0 0 report up{instance="a:1",job="j"} 1
0 0 report scrape_duration_seconds{instance="a:1",job="j"} 0.015
0 0 report scrape_samples_scraped{instance="a:1",job="j"} 1
0 0 report scrape_samples_post_metric_relabeling{instance="a:1",job="j"} 1
0 0 report scrape_series_added{instance="a:1",job="j"} 1
-- status 0

== replace_6
$ replay s
-- file s
scrape-journal 1
load 0 224
{"scrape_configs":[{"job_name":"j","metric_relabel_configs":[{"regex":"instance|job","action":"labeldrop"},{"source_labels":["a"],"regex":"h","target_label":"t","replacement":"new"}],"static_configs":[{"targets":["a:1"]}]}]}
sweep 0
body 15 0 200 14
m{a="h:80"} 1

-- out
0 0 sample m{a="h:80"} 1
0 0 report up{instance="a:1",job="j"} 1
0 0 report scrape_duration_seconds{instance="a:1",job="j"} 0.015
0 0 report scrape_samples_scraped{instance="a:1",job="j"} 1
0 0 report scrape_samples_post_metric_relabeling{instance="a:1",job="j"} 1
0 0 report scrape_series_added{instance="a:1",job="j"} 1
-- status 0

== replace_7
$ replay s
-- file s
scrape-journal 1
load 0 222
{"scrape_configs":[{"job_name":"j","metric_relabel_configs":[{"regex":"instance|job","action":"labeldrop"},{"source_labels":["a"],"regex":".*","target_label":"a","replacement":""}],"static_configs":[{"targets":["a:1"]}]}]}
sweep 0
body 15 0 200 17
m{a="x",b="y"} 1

-- out
0 0 sample m{b="y"} 1
0 0 report up{instance="a:1",job="j"} 1
0 0 report scrape_duration_seconds{instance="a:1",job="j"} 0.015
0 0 report scrape_samples_scraped{instance="a:1",job="j"} 1
0 0 report scrape_samples_post_metric_relabeling{instance="a:1",job="j"} 1
0 0 report scrape_series_added{instance="a:1",job="j"} 1
-- status 0

== replace_8
$ replay s
-- file s
scrape-journal 1
load 0 214
{"scrape_configs":[{"job_name":"j","metric_relabel_configs":[{"regex":"instance|job","action":"labeldrop"},{"source_labels":["a"],"target_label":"t","replacement":"const"}],"static_configs":[{"targets":["a:1"]}]}]}
sweep 0
body 15 0 200 11
m{a="x"} 1

-- out
0 0 sample m{a="x",t="const"} 1
0 0 report up{instance="a:1",job="j"} 1
0 0 report scrape_duration_seconds{instance="a:1",job="j"} 0.015
0 0 report scrape_samples_scraped{instance="a:1",job="j"} 1
0 0 report scrape_samples_post_metric_relabeling{instance="a:1",job="j"} 1
0 0 report scrape_series_added{instance="a:1",job="j"} 1
-- status 0

== replace_9
$ replay s
-- file s
scrape-journal 1
load 0 192
{"scrape_configs":[{"job_name":"j","metric_relabel_configs":[{"regex":"instance|job","action":"labeldrop"},{"target_label":"t","replacement":"const"}],"static_configs":[{"targets":["a:1"]}]}]}
sweep 0
body 15 0 200 11
m{a="x"} 1

-- out
0 0 sample m{a="x",t="const"} 1
0 0 report up{instance="a:1",job="j"} 1
0 0 report scrape_duration_seconds{instance="a:1",job="j"} 0.015
0 0 report scrape_samples_scraped{instance="a:1",job="j"} 1
0 0 report scrape_samples_post_metric_relabeling{instance="a:1",job="j"} 1
0 0 report scrape_series_added{instance="a:1",job="j"} 1
-- status 0

== replace_10
$ replay s
-- file s
scrape-journal 1
load 0 234
{"scrape_configs":[{"job_name":"j","metric_relabel_configs":[{"regex":"instance|job","action":"labeldrop"},{"source_labels":["a"],"regex":"(.*)/(.*)","target_label":"${1}","replacement":"$2"}],"static_configs":[{"targets":["a:1"]}]}]}
sweep 0
body 15 0 200 13
m{a="k/v"} 1

-- out
0 0 sample m{a="k/v",k="v"} 1
0 0 report up{instance="a:1",job="j"} 1
0 0 report scrape_duration_seconds{instance="a:1",job="j"} 0.015
0 0 report scrape_samples_scraped{instance="a:1",job="j"} 1
0 0 report scrape_samples_post_metric_relabeling{instance="a:1",job="j"} 1
0 0 report scrape_series_added{instance="a:1",job="j"} 1
-- status 0

== replace_11
$ replay s
-- file s
scrape-journal 1
load 0 232
{"scrape_configs":[{"job_name":"j","metric_relabel_configs":[{"regex":"instance|job","action":"labeldrop"},{"source_labels":["a"],"regex":"(.*)/(.*)","target_label":"$1","replacement":"$2"}],"static_configs":[{"targets":["a:1"]}]}]}
sweep 0
body 15 0 200 13
m{a="1/v"} 1

-- out
0 0 sample m{a="1/v"} 1
0 0 report up{instance="a:1",job="j"} 1
0 0 report scrape_duration_seconds{instance="a:1",job="j"} 0.015
0 0 report scrape_samples_scraped{instance="a:1",job="j"} 1
0 0 report scrape_samples_post_metric_relabeling{instance="a:1",job="j"} 1
0 0 report scrape_series_added{instance="a:1",job="j"} 1
-- status 0

== replace_17
$ replay s
-- file s
scrape-journal 1
load 0 222
{"scrape_configs":[{"job_name":"j","metric_relabel_configs":[{"regex":"instance|job","action":"labeldrop"},{"source_labels":["a"],"regex":"x","target_label":"a","replacement":"y"}],"static_configs":[{"targets":["a:1"]}]}]}
sweep 0
body 15 0 200 11
m{a="x"} 1

-- out
0 0 sample m{a="y"} 1
0 0 report up{instance="a:1",job="j"} 1
0 0 report scrape_duration_seconds{instance="a:1",job="j"} 0.015
0 0 report scrape_samples_scraped{instance="a:1",job="j"} 1
0 0 report scrape_samples_post_metric_relabeling{instance="a:1",job="j"} 1
0 0 report scrape_series_added{instance="a:1",job="j"} 1
-- status 0

== replace_18
$ replay s
-- file s
scrape-journal 1
load 0 256
{"scrape_configs":[{"job_name":"j","metric_relabel_configs":[{"regex":"instance","action":"labeldrop"},{"source_labels":["__name__"],"regex":"up","target_label":"__name__","replacement":"down"}],"honor_labels":true,"static_configs":[{"targets":["a:1"]}]}]}
sweep 0
body 15 0 200 14
up{job="j"} 1

-- out
0 0 sample down{job="j"} 1
0 0 report up{instance="a:1",job="j"} 1
0 0 report scrape_duration_seconds{instance="a:1",job="j"} 0.015
0 0 report scrape_samples_scraped{instance="a:1",job="j"} 1
0 0 report scrape_samples_post_metric_relabeling{instance="a:1",job="j"} 1
0 0 report scrape_series_added{instance="a:1",job="j"} 1
-- status 0

== replace_19
$ replay s
-- file s
scrape-journal 1
load 0 224
{"scrape_configs":[{"job_name":"j","metric_relabel_configs":[{"regex":"instance|job","action":"labeldrop"},{"source_labels":["a"],"regex":".","target_label":"t","replacement":"one"}],"static_configs":[{"targets":["a:1"]}]}]}
sweep 0
body 15 0 200 12
m{a="é"} 1

-- out
0 0 sample m{a="é",t="one"} 1
0 0 report up{instance="a:1",job="j"} 1
0 0 report scrape_duration_seconds{instance="a:1",job="j"} 0.015
0 0 report scrape_samples_scraped{instance="a:1",job="j"} 1
0 0 report scrape_samples_post_metric_relabeling{instance="a:1",job="j"} 1
0 0 report scrape_series_added{instance="a:1",job="j"} 1
-- status 0

== replace_20
$ replay s
-- file s
scrape-journal 1
load 0 192
{"scrape_configs":[{"job_name":"j","metric_relabel_configs":[{"regex":"instance|job","action":"labeldrop"},{"source_labels":["z"],"target_label":"t"}],"static_configs":[{"targets":["a:1"]}]}]}
sweep 0
body 15 0 200 19
m{a="x",t="old"} 1

-- out
0 0 sample m{a="x"} 1
0 0 report up{instance="a:1",job="j"} 1
0 0 report scrape_duration_seconds{instance="a:1",job="j"} 0.015
0 0 report scrape_samples_scraped{instance="a:1",job="j"} 1
0 0 report scrape_samples_post_metric_relabeling{instance="a:1",job="j"} 1
0 0 report scrape_series_added{instance="a:1",job="j"} 1
-- status 0

== keep_1
$ replay s
-- file s
scrape-journal 1
load 0 203
{"scrape_configs":[{"job_name":"j","metric_relabel_configs":[{"regex":"instance|job","action":"labeldrop"},{"source_labels":["a"],"regex":"abc","action":"keep"}],"static_configs":[{"targets":["a:1"]}]}]}
sweep 0
body 15 0 200 13
m{a="abc"} 1

-- out
0 0 sample m{a="abc"} 1
0 0 report up{instance="a:1",job="j"} 1
0 0 report scrape_duration_seconds{instance="a:1",job="j"} 0.015
0 0 report scrape_samples_scraped{instance="a:1",job="j"} 1
0 0 report scrape_samples_post_metric_relabeling{instance="a:1",job="j"} 1
0 0 report scrape_series_added{instance="a:1",job="j"} 1
-- status 0

== keep_2
$ replay s
-- file s
scrape-journal 1
load 0 203
{"scrape_configs":[{"job_name":"j","metric_relabel_configs":[{"regex":"instance|job","action":"labeldrop"},{"source_labels":["a"],"regex":"abd","action":"keep"}],"static_configs":[{"targets":["a:1"]}]}]}
sweep 0
body 15 0 200 13
m{a="abc"} 1

-- out
0 0 report up{instance="a:1",job="j"} 1
0 0 report scrape_duration_seconds{instance="a:1",job="j"} 0.015
0 0 report scrape_samples_scraped{instance="a:1",job="j"} 1
0 0 report scrape_samples_post_metric_relabeling{instance="a:1",job="j"} 0
0 0 report scrape_series_added{instance="a:1",job="j"} 0
-- status 0

== keep_3
$ replay s
-- file s
scrape-journal 1
load 0 201
{"scrape_configs":[{"job_name":"j","metric_relabel_configs":[{"regex":"instance|job","action":"labeldrop"},{"source_labels":["a"],"regex":"b","action":"keep"}],"static_configs":[{"targets":["a:1"]}]}]}
sweep 0
body 15 0 200 13
m{a="abc"} 1

-- out
0 0 report up{instance="a:1",job="j"} 1
0 0 report scrape_duration_seconds{instance="a:1",job="j"} 0.015
0 0 report scrape_samples_scraped{instance="a:1",job="j"} 1
0 0 report scrape_samples_post_metric_relabeling{instance="a:1",job="j"} 0
0 0 report scrape_series_added{instance="a:1",job="j"} 0
-- status 0

== keep_4
$ replay s
-- file s
scrape-journal 1
load 0 207
{"scrape_configs":[{"job_name":"j","metric_relabel_configs":[{"regex":"instance|job","action":"labeldrop"},{"source_labels":["a","b"],"regex":"x;y","action":"keep"}],"static_configs":[{"targets":["a:1"]}]}]}
sweep 0
body 15 0 200 17
m{a="x",b="y"} 1

-- out
0 0 sample m{a="x",b="y"} 1
0 0 report up{instance="a:1",job="j"} 1
0 0 report scrape_duration_seconds{instance="a:1",job="j"} 0.015
0 0 report scrape_samples_scraped{instance="a:1",job="j"} 1
0 0 report scrape_samples_post_metric_relabeling{instance="a:1",job="j"} 1
0 0 report scrape_series_added{instance="a:1",job="j"} 1
-- status 0

== keep_5
$ replay s
-- file s
scrape-journal 1
load 0 200
{"scrape_configs":[{"job_name":"j","metric_relabel_configs":[{"regex":"instance|job","action":"labeldrop"},{"source_labels":["z"],"regex":"","action":"keep"}],"static_configs":[{"targets":["a:1"]}]}]}
sweep 0
body 15 0 200 11
m{a="x"} 1

-- out
0 0 sample m{a="x"} 1
0 0 report up{instance="a:1",job="j"} 1
0 0 report scrape_duration_seconds{instance="a:1",job="j"} 0.015
0 0 report scrape_samples_scraped{instance="a:1",job="j"} 1
0 0 report scrape_samples_post_metric_relabeling{instance="a:1",job="j"} 1
0 0 report scrape_series_added{instance="a:1",job="j"} 1
-- status 0

== keep_6
$ replay s
-- file s
scrape-journal 1
load 0 202
{"scrape_configs":[{"job_name":"j","metric_relabel_configs":[{"regex":"instance|job","action":"labeldrop"},{"source_labels":["z"],"regex":".+","action":"keep"}],"static_configs":[{"targets":["a:1"]}]}]}
sweep 0
body 15 0 200 11
m{a="x"} 1

-- out
0 0 report up{instance="a:1",job="j"} 1
0 0 report scrape_duration_seconds{instance="a:1",job="j"} 0.015
0 0 report scrape_samples_scraped{instance="a:1",job="j"} 1
0 0 report scrape_samples_post_metric_relabeling{instance="a:1",job="j"} 0
0 0 report scrape_series_added{instance="a:1",job="j"} 0
-- status 0

== drop_1
$ replay s
-- file s
scrape-journal 1
load 0 203
{"scrape_configs":[{"job_name":"j","metric_relabel_configs":[{"regex":"instance|job","action":"labeldrop"},{"source_labels":["a"],"regex":"a.c","action":"drop"}],"static_configs":[{"targets":["a:1"]}]}]}
sweep 0
body 15 0 200 13
m{a="abc"} 1

-- out
0 0 report up{instance="a:1",job="j"} 1
0 0 report scrape_duration_seconds{instance="a:1",job="j"} 0.015
0 0 report scrape_samples_scraped{instance="a:1",job="j"} 1
0 0 report scrape_samples_post_metric_relabeling{instance="a:1",job="j"} 0
0 0 report scrape_series_added{instance="a:1",job="j"} 0
-- status 0

== drop_2
$ replay s
-- file s
scrape-journal 1
load 0 201
{"scrape_configs":[{"job_name":"j","metric_relabel_configs":[{"regex":"instance|job","action":"labeldrop"},{"source_labels":["a"],"regex":"b","action":"drop"}],"static_configs":[{"targets":["a:1"]}]}]}
sweep 0
body 15 0 200 13
m{a="abc"} 1

-- out
0 0 sample m{a="abc"} 1
0 0 report up{instance="a:1",job="j"} 1
0 0 report scrape_duration_seconds{instance="a:1",job="j"} 0.015
0 0 report scrape_samples_scraped{instance="a:1",job="j"} 1
0 0 report scrape_samples_post_metric_relabeling{instance="a:1",job="j"} 1
0 0 report scrape_series_added{instance="a:1",job="j"} 1
-- status 0

== drop_3
$ replay s
-- file s
scrape-journal 1
load 0 205
{"scrape_configs":[{"job_name":"j","metric_relabel_configs":[{"regex":"instance|job","action":"labeldrop"},{"source_labels":["a"],"regex":"x|abc","action":"drop"}],"static_configs":[{"targets":["a:1"]}]}]}
sweep 0
body 15 0 200 13
m{a="abc"} 1

-- out
0 0 report up{instance="a:1",job="j"} 1
0 0 report scrape_duration_seconds{instance="a:1",job="j"} 0.015
0 0 report scrape_samples_scraped{instance="a:1",job="j"} 1
0 0 report scrape_samples_post_metric_relabeling{instance="a:1",job="j"} 0
0 0 report scrape_series_added{instance="a:1",job="j"} 0
-- status 0

== keepequal_1
$ replay s
-- file s
scrape-journal 1
load 0 213
{"scrape_configs":[{"job_name":"j","metric_relabel_configs":[{"regex":"instance|job","action":"labeldrop"},{"source_labels":["a"],"target_label":"b","action":"keepequal"}],"static_configs":[{"targets":["a:1"]}]}]}
sweep 0
body 15 0 200 17
m{a="x",b="x"} 1

-- out
0 0 sample m{a="x",b="x"} 1
0 0 report up{instance="a:1",job="j"} 1
0 0 report scrape_duration_seconds{instance="a:1",job="j"} 0.015
0 0 report scrape_samples_scraped{instance="a:1",job="j"} 1
0 0 report scrape_samples_post_metric_relabeling{instance="a:1",job="j"} 1
0 0 report scrape_series_added{instance="a:1",job="j"} 1
-- status 0

== keepequal_2
$ replay s
-- file s
scrape-journal 1
load 0 213
{"scrape_configs":[{"job_name":"j","metric_relabel_configs":[{"regex":"instance|job","action":"labeldrop"},{"source_labels":["a"],"target_label":"b","action":"keepequal"}],"static_configs":[{"targets":["a:1"]}]}]}
sweep 0
body 15 0 200 17
m{a="x",b="y"} 1

-- out
0 0 report up{instance="a:1",job="j"} 1
0 0 report scrape_duration_seconds{instance="a:1",job="j"} 0.015
0 0 report scrape_samples_scraped{instance="a:1",job="j"} 1
0 0 report scrape_samples_post_metric_relabeling{instance="a:1",job="j"} 0
0 0 report scrape_series_added{instance="a:1",job="j"} 0
-- status 0

== keepequal_3
$ replay s
-- file s
scrape-journal 1
load 0 213
{"scrape_configs":[{"job_name":"j","metric_relabel_configs":[{"regex":"instance|job","action":"labeldrop"},{"source_labels":["a"],"target_label":"b","action":"keepequal"}],"static_configs":[{"targets":["a:1"]}]}]}
sweep 0
body 15 0 200 11
m{c="x"} 1

-- out
0 0 sample m{c="x"} 1
0 0 report up{instance="a:1",job="j"} 1
0 0 report scrape_duration_seconds{instance="a:1",job="j"} 0.015
0 0 report scrape_samples_scraped{instance="a:1",job="j"} 1
0 0 report scrape_samples_post_metric_relabeling{instance="a:1",job="j"} 1
0 0 report scrape_series_added{instance="a:1",job="j"} 1
-- status 0

== dropequal_1
$ replay s
-- file s
scrape-journal 1
load 0 213
{"scrape_configs":[{"job_name":"j","metric_relabel_configs":[{"regex":"instance|job","action":"labeldrop"},{"source_labels":["a"],"target_label":"b","action":"dropequal"}],"static_configs":[{"targets":["a:1"]}]}]}
sweep 0
body 15 0 200 17
m{a="x",b="x"} 1

-- out
0 0 report up{instance="a:1",job="j"} 1
0 0 report scrape_duration_seconds{instance="a:1",job="j"} 0.015
0 0 report scrape_samples_scraped{instance="a:1",job="j"} 1
0 0 report scrape_samples_post_metric_relabeling{instance="a:1",job="j"} 0
0 0 report scrape_series_added{instance="a:1",job="j"} 0
-- status 0

== dropequal_2
$ replay s
-- file s
scrape-journal 1
load 0 213
{"scrape_configs":[{"job_name":"j","metric_relabel_configs":[{"regex":"instance|job","action":"labeldrop"},{"source_labels":["a"],"target_label":"b","action":"dropequal"}],"static_configs":[{"targets":["a:1"]}]}]}
sweep 0
body 15 0 200 17
m{a="x",b="y"} 1

-- out
0 0 sample m{a="x",b="y"} 1
0 0 report up{instance="a:1",job="j"} 1
0 0 report scrape_duration_seconds{instance="a:1",job="j"} 0.015
0 0 report scrape_samples_scraped{instance="a:1",job="j"} 1
0 0 report scrape_samples_post_metric_relabeling{instance="a:1",job="j"} 1
0 0 report scrape_series_added{instance="a:1",job="j"} 1
-- status 0

== dropequal_3
$ replay s
-- file s
scrape-journal 1
load 0 213
{"scrape_configs":[{"job_name":"j","metric_relabel_configs":[{"regex":"instance|job","action":"labeldrop"},{"source_labels":["a"],"target_label":"b","action":"dropequal"}],"static_configs":[{"targets":["a:1"]}]}]}
sweep 0
body 15 0 200 11
m{c="x"} 1

-- out
0 0 report up{instance="a:1",job="j"} 1
0 0 report scrape_duration_seconds{instance="a:1",job="j"} 0.015
0 0 report scrape_samples_scraped{instance="a:1",job="j"} 1
0 0 report scrape_samples_post_metric_relabeling{instance="a:1",job="j"} 0
0 0 report scrape_series_added{instance="a:1",job="j"} 0
-- status 0

== dropequal_4
$ replay s
-- file s
scrape-journal 1
load 0 213
{"scrape_configs":[{"job_name":"j","metric_relabel_configs":[{"regex":"instance|job","action":"labeldrop"},{"source_labels":["a"],"target_label":"b","action":"dropequal"}],"static_configs":[{"targets":["a:1"]}]}]}
sweep 0
body 15 0 200 11
m{a="x"} 1

-- out
0 0 sample m{a="x"} 1
0 0 report up{instance="a:1",job="j"} 1
0 0 report scrape_duration_seconds{instance="a:1",job="j"} 0.015
0 0 report scrape_samples_scraped{instance="a:1",job="j"} 1
0 0 report scrape_samples_post_metric_relabeling{instance="a:1",job="j"} 1
0 0 report scrape_series_added{instance="a:1",job="j"} 1
-- status 0

== hashmod_1
$ replay s
-- file s
scrape-journal 1
load 0 229
{"scrape_configs":[{"job_name":"j","metric_relabel_configs":[{"regex":"instance|job","action":"labeldrop"},{"source_labels":["a"],"modulus":256,"target_label":"shard","action":"hashmod"}],"static_configs":[{"targets":["a:1"]}]}]}
sweep 0
body 15 0 200 13
m{a="abc"} 1

-- out
0 0 sample m{a="abc",shard="114"} 1
0 0 report up{instance="a:1",job="j"} 1
0 0 report scrape_duration_seconds{instance="a:1",job="j"} 0.015
0 0 report scrape_samples_scraped{instance="a:1",job="j"} 1
0 0 report scrape_samples_post_metric_relabeling{instance="a:1",job="j"} 1
0 0 report scrape_series_added{instance="a:1",job="j"} 1
-- status 0

== hashmod_2
$ replay s
-- file s
scrape-journal 1
load 0 227
{"scrape_configs":[{"job_name":"j","metric_relabel_configs":[{"regex":"instance|job","action":"labeldrop"},{"source_labels":["a"],"modulus":1,"target_label":"shard","action":"hashmod"}],"static_configs":[{"targets":["a:1"]}]}]}
sweep 0
body 15 0 200 13
m{a="abc"} 1

-- out
0 0 sample m{a="abc",shard="0"} 1
0 0 report up{instance="a:1",job="j"} 1
0 0 report scrape_duration_seconds{instance="a:1",job="j"} 0.015
0 0 report scrape_samples_scraped{instance="a:1",job="j"} 1
0 0 report scrape_samples_post_metric_relabeling{instance="a:1",job="j"} 1
0 0 report scrape_series_added{instance="a:1",job="j"} 1
-- status 0

== hashmod_3
$ replay s
-- file s
scrape-journal 1
load 0 230
{"scrape_configs":[{"job_name":"j","metric_relabel_configs":[{"regex":"instance|job","action":"labeldrop"},{"source_labels":["a","b"],"modulus":1000,"target_label":"s","action":"hashmod"}],"static_configs":[{"targets":["a:1"]}]}]}
sweep 0
body 15 0 200 17
m{a="x",b="y"} 1

-- out
0 0 sample m{a="x",b="y",s="238"} 1
0 0 report up{instance="a:1",job="j"} 1
0 0 report scrape_duration_seconds{instance="a:1",job="j"} 0.015
0 0 report scrape_samples_scraped{instance="a:1",job="j"} 1
0 0 report scrape_samples_post_metric_relabeling{instance="a:1",job="j"} 1
0 0 report scrape_series_added{instance="a:1",job="j"} 1
-- status 0

== hashmod_4
$ replay s
-- file s
scrape-journal 1
load 0 242
{"scrape_configs":[{"job_name":"j","metric_relabel_configs":[{"regex":"instance|job","action":"labeldrop"},{"source_labels":["a"],"modulus":18446744073709551615,"target_label":"s","action":"hashmod"}],"static_configs":[{"targets":["a:1"]}]}]}
sweep 0
body 15 0 200 19
m{a="host:9090"} 1

-- out
0 0 sample m{a="host:9090",s="3328237783362004077"} 1
0 0 report up{instance="a:1",job="j"} 1
0 0 report scrape_duration_seconds{instance="a:1",job="j"} 0.015
0 0 report scrape_samples_scraped{instance="a:1",job="j"} 1
0 0 report scrape_samples_post_metric_relabeling{instance="a:1",job="j"} 1
0 0 report scrape_series_added{instance="a:1",job="j"} 1
-- status 0

== hashmod_5
$ replay s
-- file s
scrape-journal 1
load 0 223
{"scrape_configs":[{"job_name":"j","metric_relabel_configs":[{"regex":"instance|job","action":"labeldrop"},{"source_labels":["z"],"modulus":8,"target_label":"s","action":"hashmod"}],"static_configs":[{"targets":["a:1"]}]}]}
sweep 0
body 15 0 200 11
m{a="x"} 1

-- out
0 0 sample m{a="x",s="6"} 1
0 0 report up{instance="a:1",job="j"} 1
0 0 report scrape_duration_seconds{instance="a:1",job="j"} 0.015
0 0 report scrape_samples_scraped{instance="a:1",job="j"} 1
0 0 report scrape_samples_post_metric_relabeling{instance="a:1",job="j"} 1
0 0 report scrape_series_added{instance="a:1",job="j"} 1
-- status 0

== labelmap_1
$ replay s
-- file s
scrape-journal 1
load 0 193
{"scrape_configs":[{"job_name":"j","metric_relabel_configs":[{"regex":"instance|job","action":"labeldrop"},{"regex":"__meta_(.+)","action":"labelmap"}],"static_configs":[{"targets":["a:1"]}]}]}
sweep 0
body 15 0 200 18
m{__meta_x="1"} 1

-- out
0 0 sample m{__meta_x="1",x="1"} 1
0 0 report up{instance="a:1",job="j"} 1
0 0 report scrape_duration_seconds{instance="a:1",job="j"} 0.015
0 0 report scrape_samples_scraped{instance="a:1",job="j"} 1
0 0 report scrape_samples_post_metric_relabeling{instance="a:1",job="j"} 1
0 0 report scrape_series_added{instance="a:1",job="j"} 1
-- status 0

== labelmap_2
$ replay s
-- file s
scrape-journal 1
load 0 189
{"scrape_configs":[{"job_name":"j","metric_relabel_configs":[{"regex":"instance|job","action":"labeldrop"},{"regex":"no_(.+)","action":"labelmap"}],"static_configs":[{"targets":["a:1"]}]}]}
sweep 0
body 15 0 200 11
m{a="1"} 1

-- out
0 0 sample m{a="1"} 1
0 0 report up{instance="a:1",job="j"} 1
0 0 report scrape_duration_seconds{instance="a:1",job="j"} 0.015
0 0 report scrape_samples_scraped{instance="a:1",job="j"} 1
0 0 report scrape_samples_post_metric_relabeling{instance="a:1",job="j"} 1
0 0 report scrape_series_added{instance="a:1",job="j"} 1
-- status 0

== labelmap_3
$ replay s
-- file s
scrape-journal 1
load 0 208
{"scrape_configs":[{"job_name":"j","metric_relabel_configs":[{"regex":"instance|job","action":"labeldrop"},{"regex":"(a+)","replacement":"${1}a","action":"labelmap"}],"static_configs":[{"targets":["a:1"]}]}]}
sweep 0
body 15 0 200 11
m{a="1"} 1

-- out
0 0 sample m{a="1",aa="1"} 1
0 0 report up{instance="a:1",job="j"} 1
0 0 report scrape_duration_seconds{instance="a:1",job="j"} 0.015
0 0 report scrape_samples_scraped{instance="a:1",job="j"} 1
0 0 report scrape_samples_post_metric_relabeling{instance="a:1",job="j"} 1
0 0 report scrape_series_added{instance="a:1",job="j"} 1
-- status 0

== labelmap_4
$ replay s
-- file s
scrape-journal 1
load 0 208
{"scrape_configs":[{"job_name":"j","metric_relabel_configs":[{"regex":"instance|job","action":"labeldrop"},{"regex":"(a+)","replacement":"${1}a","action":"labelmap"}],"static_configs":[{"targets":["a:1"]}]}]}
sweep 0
body 15 0 200 18
m{a="1",aa="2"} 1

-- out
0 0 sample m{a="1",aa="1",aaa="2"} 1
0 0 report up{instance="a:1",job="j"} 1
0 0 report scrape_duration_seconds{instance="a:1",job="j"} 0.015
0 0 report scrape_samples_scraped{instance="a:1",job="j"} 1
0 0 report scrape_samples_post_metric_relabeling{instance="a:1",job="j"} 1
0 0 report scrape_series_added{instance="a:1",job="j"} 1
-- status 0

== labeldrop_1
$ replay s
-- file s
scrape-journal 1
load 0 184
{"scrape_configs":[{"job_name":"j","metric_relabel_configs":[{"regex":"instance|job","action":"labeldrop"},{"regex":"c","action":"labeldrop"}],"static_configs":[{"targets":["a:1"]}]}]}
sweep 0
body 15 0 200 19
m{abc="1",b="2"} 1

-- out
0 0 sample m{abc="1",b="2"} 1
0 0 report up{instance="a:1",job="j"} 1
0 0 report scrape_duration_seconds{instance="a:1",job="j"} 0.015
0 0 report scrape_samples_scraped{instance="a:1",job="j"} 1
0 0 report scrape_samples_post_metric_relabeling{instance="a:1",job="j"} 1
0 0 report scrape_series_added{instance="a:1",job="j"} 1
-- status 0

== labelkeep_1
$ replay s
-- file s
scrape-journal 1
load 0 195
{"scrape_configs":[{"job_name":"j","metric_relabel_configs":[{"regex":"instance|job","action":"labeldrop"},{"regex":"b|c|__name__","action":"labelkeep"}],"static_configs":[{"targets":["a:1"]}]}]}
sweep 0
body 15 0 200 23
m{a="1",b="2",c="3"} 1

-- out
0 0 sample m{b="2",c="3"} 1
0 0 report up{instance="a:1",job="j"} 1
0 0 report scrape_duration_seconds{instance="a:1",job="j"} 0.015
0 0 report scrape_samples_scraped{instance="a:1",job="j"} 1
0 0 report scrape_samples_post_metric_relabeling{instance="a:1",job="j"} 1
0 0 report scrape_series_added{instance="a:1",job="j"} 1
-- status 0

== labelkeep_2
$ replay s
-- file s
scrape-journal 1
load 0 193
{"scrape_configs":[{"job_name":"j","metric_relabel_configs":[{"regex":"instance|job","action":"labeldrop"},{"regex":"b|__name__","action":"labelkeep"}],"static_configs":[{"targets":["a:1"]}]}]}
sweep 0
body 15 0 200 18
m{ab="1",b="2"} 1

-- out
0 0 sample m{b="2"} 1
0 0 report up{instance="a:1",job="j"} 1
0 0 report scrape_duration_seconds{instance="a:1",job="j"} 0.015
0 0 report scrape_samples_scraped{instance="a:1",job="j"} 1
0 0 report scrape_samples_post_metric_relabeling{instance="a:1",job="j"} 1
0 0 report scrape_series_added{instance="a:1",job="j"} 1
-- status 0

== lowercase_1
$ replay s
-- file s
scrape-journal 1
load 0 213
{"scrape_configs":[{"job_name":"j","metric_relabel_configs":[{"regex":"instance|job","action":"labeldrop"},{"source_labels":["a"],"target_label":"t","action":"lowercase"}],"static_configs":[{"targets":["a:1"]}]}]}
sweep 0
body 15 0 200 15
m{a="ABÉz"} 1

-- out
0 0 sample m{a="ABÉz",t="abÉz"} 1
0 0 report up{instance="a:1",job="j"} 1
0 0 report scrape_duration_seconds{instance="a:1",job="j"} 0.015
0 0 report scrape_samples_scraped{instance="a:1",job="j"} 1
0 0 report scrape_samples_post_metric_relabeling{instance="a:1",job="j"} 1
0 0 report scrape_series_added{instance="a:1",job="j"} 1
-- status 0

== uppercase_1
$ replay s
-- file s
scrape-journal 1
load 0 233
{"scrape_configs":[{"job_name":"j","metric_relabel_configs":[{"regex":"instance|job","action":"labeldrop"},{"source_labels":["a","b"],"separator":"-","target_label":"t","action":"uppercase"}],"static_configs":[{"targets":["a:1"]}]}]}
sweep 0
body 15 0 200 19
m{a="aé",b="b"} 1

-- out
0 0 sample m{a="aé",b="b",t="Aé-B"} 1
0 0 report up{instance="a:1",job="j"} 1
0 0 report scrape_duration_seconds{instance="a:1",job="j"} 0.015
0 0 report scrape_samples_scraped{instance="a:1",job="j"} 1
0 0 report scrape_samples_post_metric_relabeling{instance="a:1",job="j"} 1
0 0 report scrape_series_added{instance="a:1",job="j"} 1
-- status 0

== uppercase_2
$ replay s
-- file s
scrape-journal 1
load 0 213
{"scrape_configs":[{"job_name":"j","metric_relabel_configs":[{"regex":"instance|job","action":"labeldrop"},{"source_labels":["z"],"target_label":"a","action":"uppercase"}],"static_configs":[{"targets":["a:1"]}]}]}
sweep 0
body 15 0 200 17
m{a="x",b="y"} 1

-- out
0 0 sample m{b="y"} 1
0 0 report up{instance="a:1",job="j"} 1
0 0 report scrape_duration_seconds{instance="a:1",job="j"} 0.015
0 0 report scrape_samples_scraped{instance="a:1",job="j"} 1
0 0 report scrape_samples_post_metric_relabeling{instance="a:1",job="j"} 1
0 0 report scrape_series_added{instance="a:1",job="j"} 1
-- status 0

== rules_run_in_order
$ replay s
-- file s
scrape-journal 1
load 0 301
{"scrape_configs":[{"job_name":"j","metric_relabel_configs":[{"regex":"instance|job","action":"labeldrop"},{"source_labels":["a"],"regex":"x(.)y","target_label":"b"},{"regex":"a","action":"labeldrop"},{"source_labels":["b"],"regex":"(\n)","target_label":"c"}],"static_configs":[{"targets":["a:1"]}]}]}
sweep 0
body 15 0 200 14
m{a="x\ny"} 1

-- out
0 0 sample m{b="\n",c="\n"} 1
0 0 report up{instance="a:1",job="j"} 1
0 0 report scrape_duration_seconds{instance="a:1",job="j"} 0.015
0 0 report scrape_samples_scraped{instance="a:1",job="j"} 1
0 0 report scrape_samples_post_metric_relabeling{instance="a:1",job="j"} 1
0 0 report scrape_series_added{instance="a:1",job="j"} 1
-- status 0

== series_without_a_name
$ replay s
-- file s
scrape-journal 1
load 0 177
{"scrape_configs":[{"job_name":"j","metric_relabel_configs":[{"source_labels":["__name__"],"target_label":"__name__","replacement":""}],"static_configs":[{"targets":["a:1"]}]}]}
sweep 0
body 15 0 200 4
x 1

-- out
0 0 report up{instance="a:1",job="j"} 0
0 0 report scrape_duration_seconds{instance="a:1",job="j"} 0.015
0 0 report scrape_samples_scraped{instance="a:1",job="j"} 1
0 0 report scrape_samples_post_metric_relabeling{instance="a:1",job="j"} 1
0 0 report scrape_series_added{instance="a:1",job="j"} 0
-- status 0

== set_without_labels_is_not_left
$ replay s
-- file s
scrape-journal 1
load 0 139
{"scrape_configs":[{"job_name":"j","metric_relabel_configs":[{"regex":".*","action":"labeldrop"}],"static_configs":[{"targets":["a:1"]}]}]}
sweep 0
body 15 0 200 4
x 1

-- out
0 0 report up{instance="a:1",job="j"} 1
0 0 report scrape_duration_seconds{instance="a:1",job="j"} 0.015
0 0 report scrape_samples_scraped{instance="a:1",job="j"} 1
0 0 report scrape_samples_post_metric_relabeling{instance="a:1",job="j"} 0
0 0 report scrape_series_added{instance="a:1",job="j"} 0
-- status 0

== templates_at_the_match_of_a_whole_text
$ at 0 m s
-- file s
scrape-journal 1
load 0 2253
{"scrape_configs":[{"job_name":"j","metric_relabel_configs":[{"regex":"instance|job","action":"labeldrop"},{"source_labels":["abc"],"regex":"a(.)c","target_label":"t00","replacement":"$1-${1}"},{"source_labels":["abc"],"regex":"b","target_label":"t01","replacement":"x"},{"source_labels":["abc"],"regex":"ab","target_label":"t02","replacement":"x"},{"source_labels":["abc"],"regex":"(.*)","target_label":"t03","replacement":"$1"},{"source_labels":["e"],"regex":"(.*)","target_label":"t04","replacement":"$1"},{"source_labels":["none"],"regex":"(.*)","target_label":"t05","replacement":"<$1>"},{"source_labels":["abc"],"regex":"(.*)","target_label":"t06","replacement":"<$2>"},{"source_labels":["abc"],"regex":"(.*)","target_label":"t07","replacement":"x${9}y"},{"source_labels":["abc"],"regex":"(.*)","target_label":"t08","replacement":"$1$1"},{"source_labels":["nl"],"regex":"a.c","target_label":"t09","replacement":"x"},{"source_labels":["e"],"regex":".","target_label":"t10","replacement":"x"},{"source_labels":["abc"],"regex":"^abc$","target_label":"t11","replacement":"x"},{"source_labels":["b"],"regex":"a|b","target_label":"t12","replacement":"x"},{"source_labels":["ab"],"regex":"a|b","target_label":"t13","replacement":"x"},{"source_labels":["b"],"regex":"(a)|(b)","target_label":"t14","replacement":"<$1$2>"},{"source_labels":["a"],"regex":"(a)","target_label":"t15","replacement":"$1a-"},{"source_labels":["a"],"regex":"(a)","target_label":"t16","replacement":"${1}a"},{"source_labels":["a"],"regex":"(a)","target_label":"t17","replacement":"$$1"},{"source_labels":["aab"],"regex":"(?<n>a+)b","target_label":"t18","replacement":"$n"},{"source_labels":["abc"],"regex":"(?P<n>.*)","target_label":"t19","replacement":"${n}!"},{"source_labels":["none"],"regex":"","target_label":"t20","replacement":"x"},{"source_labels":["big"],"regex":"(?i)a","target_label":"t21","replacement":"$0"},{"source_labels":["host"],"regex":"node-1:a","target_label":"t22","replacement":"$0"},{"source_labels":["n12"],"regex":"node-1","target_label":"t23","replacement":"x"},{"source_labels":["n1"],"regex":"node-1","target_label":"t24","replacement":"y"},{"regex":"abc|b|ab|a|aab|big|nl|e|host|n12|n1","action":"LabelDrop"}],"static_configs":[{"targets":["a:1"]}]}]}
sweep 0
body 15 0 200 114
m{abc="abc",b="b",ab="ab",a="a",aab="aab",big="A",nl="a\nc",e="é\n",host="node-1:a",n12="node-12",n1="node-1"} 1

-- out
0 m{t00="b-b",t03="abc",t04="é\n",t05="<>",t06="<>",t07="xy",t08="abcabc",t09="x",t11="x",t12="x",t14="<b>",t15="-",t16="aa",t17="$1",t18="aa",t19="abc!",t20="x",t21="A",t22="node-1:a",t24="y"} 1
-- status 0

== rules_one_after_another
$ at 0 {__name__=~"m.|gone"} s
-- file s
scrape-journal 1
load 0 541
{"scrape_configs":[{"job_name":"j","metric_relabel_configs":[{"regex":"instance|job","action":"labeldrop"},{"regex":"[xy]_(.*)","action":"LabelMap"},{"regex":"(.*)","replacement":"1$1","action":"labelmap"},{"regex":"(.*)","action":"labelmap"},{"regex":"__.*a","action":"labeldrop"},{"source_labels":["p"],"regex":"x(.)y","target_label":"q"},{"regex":"p","action":"labeldrop"},{"source_labels":["q"],"regex":"(\n)","target_label":"r"},{"source_labels":["__name__","p"],"regex":"m.;","action":"KEEP"}],"static_configs":[{"targets":["a:1"]}]}]}
sweep 0
body 15 0 200 77
m1{x_a="1",y_a="2"} 1
m2{b="1",__is_a="2"} 2
m3{p="x\ny"} 3
gone{p="x\ny"} 4

-- out
0 m1{a="2",x_a="1",y_a="2"} 1
0 m2{b="1"} 2
0 m3{q="\n",r="\n"} 3
-- status 0
"#;
