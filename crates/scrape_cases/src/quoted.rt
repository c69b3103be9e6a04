//! Bodies that may have names in quotes, and journal text of version 2.

pub const CASES: &str = r#"
== quoted_body
$ replay s
-- file s
scrape-journal 2
load 0 76
{"scrape_configs":[{"job_name":"j","static_configs":[{"targets":["a:1"]}]}]}
sweep 0
quoted 15 0 200 20
{"a.b","c.d"="x"} 1

-- out
0 0 sample {"a.b","c.d"="x",instance="a:1",job="j"} 1
0 0 report up{instance="a:1",job="j"} 1
0 0 report scrape_duration_seconds{instance="a:1",job="j"} 0.015
0 0 report scrape_samples_scraped{instance="a:1",job="j"} 1
0 0 report scrape_samples_post_metric_relabeling{instance="a:1",job="j"} 1
0 0 report scrape_series_added{instance="a:1",job="j"} 1
-- status 0

== quoted_body_read_plain
$ replay s
-- file s
scrape-journal 2
load 0 76
{"scrape_configs":[{"job_name":"j","static_configs":[{"targets":["a:1"]}]}]}
sweep 0
body 15 0 200 20
{"a.b","c.d"="x"} 1

-- out
0 0 report up{instance="a:1",job="j"} 0
0 0 report scrape_duration_seconds{instance="a:1",job="j"} 0.015
0 0 report scrape_samples_scraped{instance="a:1",job="j"} 0
0 0 report scrape_samples_post_metric_relabeling{instance="a:1",job="j"} 0
0 0 report scrape_series_added{instance="a:1",job="j"} 0
-- status 0

== quoted_line_of_version_1
$ replay s
-- file s
scrape-journal 1
load 0 76
{"scrape_configs":[{"job_name":"j","static_configs":[{"targets":["a:1"]}]}]}
sweep 0
quoted 15 0 200 20
{"a.b","c.d"="x"} 1

-- err
scrape: script Line at 112
-- status 5

== body_of_version_2
$ replay s
-- file s
scrape-journal 2
load 0 76
{"scrape_configs":[{"job_name":"j","static_configs":[{"targets":["a:1"]}]}]}
sweep 0
body 15 0 200 4
x 1

-- out
0 0 sample x{instance="a:1",job="j"} 1
0 0 report up{instance="a:1",job="j"} 1
0 0 report scrape_duration_seconds{instance="a:1",job="j"} 0.015
0 0 report scrape_samples_scraped{instance="a:1",job="j"} 1
0 0 report scrape_samples_post_metric_relabeling{instance="a:1",job="j"} 1
0 0 report scrape_series_added{instance="a:1",job="j"} 1
-- status 0

== plain_lines_of_a_quoted_body
$ replay s
-- file s
scrape-journal 2
load 0 76
{"scrape_configs":[{"job_name":"j","static_configs":[{"targets":["a:1"]}]}]}
sweep 0
quoted 15 0 200 15
x 1
y{b="c"} 2

-- out
0 0 sample x{instance="a:1",job="j"} 1
0 0 sample y{b="c",instance="a:1",job="j"} 2
0 0 report up{instance="a:1",job="j"} 1
0 0 report scrape_duration_seconds{instance="a:1",job="j"} 0.015
0 0 report scrape_samples_scraped{instance="a:1",job="j"} 2
0 0 report scrape_samples_post_metric_relabeling{instance="a:1",job="j"} 2
0 0 report scrape_series_added{instance="a:1",job="j"} 2
-- status 0

== one_series_in_both_spellings
$ replay s
-- file s
scrape-journal 2
load 0 76
{"scrape_configs":[{"job_name":"j","static_configs":[{"targets":["a:1"]}]}]}
sweep 0
quoted 15 0 200 16
{"a","b"="x"} 1

sweep 60000
body 15 1 200 11
a{b="x"} 2

-- out
0 0 sample a{b="x",instance="a:1",job="j"} 1
0 0 report up{instance="a:1",job="j"} 1
0 0 report scrape_duration_seconds{instance="a:1",job="j"} 0.015
0 0 report scrape_samples_scraped{instance="a:1",job="j"} 1
0 0 report scrape_samples_post_metric_relabeling{instance="a:1",job="j"} 1
0 0 report scrape_series_added{instance="a:1",job="j"} 1
60000 0 sample a{b="x",instance="a:1",job="j"} 2
60000 0 report up{instance="a:1",job="j"} 1
60000 0 report scrape_duration_seconds{instance="a:1",job="j"} 0.015
60000 0 report scrape_samples_scraped{instance="a:1",job="j"} 1
60000 0 report scrape_samples_post_metric_relabeling{instance="a:1",job="j"} 1
60000 0 report scrape_series_added{instance="a:1",job="j"} 0
-- status 0

== quoted_series_vanishes
$ replay s
-- file s
scrape-journal 2
load 0 76
{"scrape_configs":[{"job_name":"j","static_configs":[{"targets":["a:1"]}]}]}
sweep 0
quoted 15 0 200 20
{"a.b","c.d"="x"} 1

sweep 60000
quoted 15 1 200 4
x 1

-- out
0 0 sample {"a.b","c.d"="x",instance="a:1",job="j"} 1
0 0 report up{instance="a:1",job="j"} 1
0 0 report scrape_duration_seconds{instance="a:1",job="j"} 0.015
0 0 report scrape_samples_scraped{instance="a:1",job="j"} 1
0 0 report scrape_samples_post_metric_relabeling{instance="a:1",job="j"} 1
0 0 report scrape_series_added{instance="a:1",job="j"} 1
60000 0 sample x{instance="a:1",job="j"} 1
60000 0 stale {"a.b","c.d"="x",instance="a:1",job="j"}
60000 0 report up{instance="a:1",job="j"} 1
60000 0 report scrape_duration_seconds{instance="a:1",job="j"} 0.015
60000 0 report scrape_samples_scraped{instance="a:1",job="j"} 1
60000 0 report scrape_samples_post_metric_relabeling{instance="a:1",job="j"} 1
60000 0 report scrape_series_added{instance="a:1",job="j"} 1
-- status 0

== quoted_text_is_not_known_in_a_plain_body
$ replay s
-- file s
scrape-journal 2
load 0 76
{"scrape_configs":[{"job_name":"j","static_configs":[{"targets":["a:1"]}]}]}
sweep 0
quoted 15 0 200 20
{"a.b","c.d"="x"} 1

sweep 60000
body 15 1 200 20
{"a.b","c.d"="x"} 1

-- out
0 0 sample {"a.b","c.d"="x",instance="a:1",job="j"} 1
0 0 report up{instance="a:1",job="j"} 1
0 0 report scrape_duration_seconds{instance="a:1",job="j"} 0.015
0 0 report scrape_samples_scraped{instance="a:1",job="j"} 1
0 0 report scrape_samples_post_metric_relabeling{instance="a:1",job="j"} 1
0 0 report scrape_series_added{instance="a:1",job="j"} 1
60000 0 stale {"a.b","c.d"="x",instance="a:1",job="j"}
60000 0 report up{instance="a:1",job="j"} 0
60000 0 report scrape_duration_seconds{instance="a:1",job="j"} 0.015
60000 0 report scrape_samples_scraped{instance="a:1",job="j"} 0
60000 0 report scrape_samples_post_metric_relabeling{instance="a:1",job="j"} 0
60000 0 report scrape_series_added{instance="a:1",job="j"} 0
-- status 0

== quoted_label_in_conflict
$ replay s
-- file s
scrape-journal 2
load 0 76
{"scrape_configs":[{"job_name":"j","static_configs":[{"targets":["a:1"]}]}]}
sweep 0
quoted 15 0 200 15
x{"job"="a"} 1

-- out
0 0 sample x{exported_job="a",instance="a:1",job="j"} 1
0 0 report up{instance="a:1",job="j"} 1
0 0 report scrape_duration_seconds{instance="a:1",job="j"} 0.015
0 0 report scrape_samples_scraped{instance="a:1",job="j"} 1
0 0 report scrape_samples_post_metric_relabeling{instance="a:1",job="j"} 1
0 0 report scrape_series_added{instance="a:1",job="j"} 1
-- status 0

== quoted_label_honoured
$ replay s
-- file s
scrape-journal 2
load 0 96
{"scrape_configs":[{"job_name":"j","static_configs":[{"targets":["a:1"]}],"honor_labels":true}]}
sweep 0
quoted 15 0 200 15
x{"job"="a"} 1

-- out
0 0 sample x{instance="a:1",job="a"} 1
0 0 report up{instance="a:1",job="j"} 1
0 0 report scrape_duration_seconds{instance="a:1",job="j"} 0.015
0 0 report scrape_samples_scraped{instance="a:1",job="j"} 1
0 0 report scrape_samples_post_metric_relabeling{instance="a:1",job="j"} 1
0 0 report scrape_series_added{instance="a:1",job="j"} 1
-- status 0

== quoted_label_dropped
$ replay s
-- file s
scrape-journal 2
load 0 142
{"scrape_configs":[{"job_name":"j","static_configs":[{"targets":["a:1"]}],"metric_relabel_configs":[{"regex":"c\\.d","action":"labeldrop"}]}]}
sweep 0
quoted 15 0 200 20
{"a.b","c.d"="x"} 1

-- out
0 0 sample {"a.b",instance="a:1",job="j"} 1
0 0 report up{instance="a:1",job="j"} 1
0 0 report scrape_duration_seconds{instance="a:1",job="j"} 0.015
0 0 report scrape_samples_scraped{instance="a:1",job="j"} 1
0 0 report scrape_samples_post_metric_relabeling{instance="a:1",job="j"} 1
0 0 report scrape_series_added{instance="a:1",job="j"} 1
-- status 0

== quoted_label_mapped
$ replay s
-- file s
scrape-journal 2
load 0 165
{"scrape_configs":[{"job_name":"j","static_configs":[{"targets":["a:1"]}],"metric_relabel_configs":[{"regex":"c\\.(.*)","replacement":"c_$1","action":"labelmap"}]}]}
sweep 0
quoted 15 0 200 20
{"a.b","c.d"="x"} 1

-- out
0 0 sample {"a.b","c.d"="x",c_d="x",instance="a:1",job="j"} 1
0 0 report up{instance="a:1",job="j"} 1
0 0 report scrape_duration_seconds{instance="a:1",job="j"} 0.015
0 0 report scrape_samples_scraped{instance="a:1",job="j"} 1
0 0 report scrape_samples_post_metric_relabeling{instance="a:1",job="j"} 1
0 0 report scrape_series_added{instance="a:1",job="j"} 1
-- status 0

== quoted_name_with_escapes
$ replay s
-- file s
scrape-journal 2
load 0 76
{"scrape_configs":[{"job_name":"j","static_configs":[{"targets":["a:1"]}]}]}
sweep 0
quoted 15 0 200 23
{"a\"\n","b\\"="\q"} 1

-- out
0 0 sample {"a\"\n","b\\"="\\q",instance="a:1",job="j"} 1
0 0 report up{instance="a:1",job="j"} 1
0 0 report scrape_duration_seconds{instance="a:1",job="j"} 0.015
0 0 report scrape_samples_scraped{instance="a:1",job="j"} 1
0 0 report scrape_samples_post_metric_relabeling{instance="a:1",job="j"} 1
0 0 report scrape_series_added{instance="a:1",job="j"} 1
-- status 0

== quoted_name_of_one_byte
$ replay s
-- file s
scrape-journal 2
load 0 76
{"scrape_configs":[{"job_name":"j","static_configs":[{"targets":["a:1"]}]}]}
sweep 0
quoted 15 0 200 8
{"."} 1

-- out
0 0 sample {".",instance="a:1",job="j"} 1
0 0 report up{instance="a:1",job="j"} 1
0 0 report scrape_duration_seconds{instance="a:1",job="j"} 0.015
0 0 report scrape_samples_scraped{instance="a:1",job="j"} 1
0 0 report scrape_samples_post_metric_relabeling{instance="a:1",job="j"} 1
0 0 report scrape_series_added{instance="a:1",job="j"} 1
-- status 0

== quoted_name_of_a_metric
$ replay s
-- file s
scrape-journal 2
load 0 76
{"scrape_configs":[{"job_name":"j","static_configs":[{"targets":["a:1"]}]}]}
sweep 0
quoted 15 0 200 24
{"__name__"} 1
{"x",} 2

-- out
0 0 sample __name__{instance="a:1",job="j"} 1
0 0 sample x{instance="a:1",job="j"} 2
0 0 report up{instance="a:1",job="j"} 1
0 0 report scrape_duration_seconds{instance="a:1",job="j"} 0.015
0 0 report scrape_samples_scraped{instance="a:1",job="j"} 2
0 0 report scrape_samples_post_metric_relabeling{instance="a:1",job="j"} 2
0 0 report scrape_series_added{instance="a:1",job="j"} 2
-- status 0

== quoted_name_label
$ replay s
-- file s
scrape-journal 2
load 0 76
{"scrape_configs":[{"job_name":"j","static_configs":[{"targets":["a:1"]}]}]}
sweep 0
quoted 15 0 200 23
{"x","__name__"="y"} 1

-- out
0 0 report up{instance="a:1",job="j"} 0
0 0 report scrape_duration_seconds{instance="a:1",job="j"} 0.015
0 0 report scrape_samples_scraped{instance="a:1",job="j"} 0
0 0 report scrape_samples_post_metric_relabeling{instance="a:1",job="j"} 0
0 0 report scrape_series_added{instance="a:1",job="j"} 0
-- status 0

== quoted_name_with_a_line_feed
$ replay s
-- file s
scrape-journal 2
load 0 76
{"scrape_configs":[{"job_name":"j","static_configs":[{"targets":["a:1"]}]}]}
sweep 0
quoted 15 0 200 19
x{"a\nb"="c\nd"} 1

-- out
0 0 sample x{"a\nb"="c\nd",instance="a:1",job="j"} 1
0 0 report up{instance="a:1",job="j"} 1
0 0 report scrape_duration_seconds{instance="a:1",job="j"} 0.015
0 0 report scrape_samples_scraped{instance="a:1",job="j"} 1
0 0 report scrape_samples_post_metric_relabeling{instance="a:1",job="j"} 1
0 0 report scrape_series_added{instance="a:1",job="j"} 1
-- status 0

== quoted_name_twice_behind_its_escapes
$ replay s
-- file s
scrape-journal 2
load 0 76
{"scrape_configs":[{"job_name":"j","static_configs":[{"targets":["a:1"]}]}]}
sweep 0
quoted 15 0 200 24
x{"\\q"="1","\q"="2"} 1

-- out
0 0 report up{instance="a:1",job="j"} 0
0 0 report scrape_duration_seconds{instance="a:1",job="j"} 0.015
0 0 report scrape_samples_scraped{instance="a:1",job="j"} 0
0 0 report scrape_samples_post_metric_relabeling{instance="a:1",job="j"} 0
0 0 report scrape_series_added{instance="a:1",job="j"} 0
-- status 0

== quoted_name_that_is_no_text
$ replay s
-- file s
scrape-journal 2
load 0 76
{"scrape_configs":[{"job_name":"j","static_configs":[{"targets":["a:1"]}]}]}
sweep 0
quoted 15 0 200 8
\ 7b 22 ff 22 7d 20 31 0a

-- out
0 0 report up{instance="a:1",job="j"} 0
0 0 report scrape_duration_seconds{instance="a:1",job="j"} 0.015
0 0 report scrape_samples_scraped{instance="a:1",job="j"} 0
0 0 report scrape_samples_post_metric_relabeling{instance="a:1",job="j"} 0
0 0 report scrape_series_added{instance="a:1",job="j"} 0
-- status 0

== blanks_and_last_commas_around_quoted_names
$ replay s
-- file s
scrape-journal 2
load 0 76
{"scrape_configs":[{"job_name":"j","static_configs":[{"targets":["a:1"]}]}]}
sweep 0
quoted 15 0 200 58
 { "a.b" , "c.d" = "x" , } 1
x{"c.d"="y",} 2
{"a.c" , } 3

-- out
0 0 sample {"a.b","c.d"="x",instance="a:1",job="j"} 1
0 0 sample x{"c.d"="y",instance="a:1",job="j"} 2
0 0 sample {"a.c",instance="a:1",job="j"} 3
0 0 report up{instance="a:1",job="j"} 1
0 0 report scrape_duration_seconds{instance="a:1",job="j"} 0.015
0 0 report scrape_samples_scraped{instance="a:1",job="j"} 3
0 0 report scrape_samples_post_metric_relabeling{instance="a:1",job="j"} 3
0 0 report scrape_series_added{instance="a:1",job="j"} 3
-- status 0

== quoted_label_whose_free_name_is_taken
$ replay s
-- file s
scrape-journal 2
load 0 76
{"scrape_configs":[{"job_name":"j","static_configs":[{"targets":["a:1"]}]}]}
sweep 0
quoted 15 0 200 34
x{"exported_job"="b","job"="a"} 1

-- out
0 0 sample x{exported_exported_job="a",exported_job="b",instance="a:1",job="j"} 1
0 0 report up{instance="a:1",job="j"} 1
0 0 report scrape_duration_seconds{instance="a:1",job="j"} 0.015
0 0 report scrape_samples_scraped{instance="a:1",job="j"} 1
0 0 report scrape_samples_post_metric_relabeling{instance="a:1",job="j"} 1
0 0 report scrape_series_added{instance="a:1",job="j"} 1
-- status 0

== quoted_label_kept
$ replay s
-- file s
scrape-journal 2
load 0 156
{"scrape_configs":[{"job_name":"j","static_configs":[{"targets":["a:1"]}],"metric_relabel_configs":[{"regex":"__name__|c\\..*|job","action":"labelkeep"}]}]}
sweep 0
quoted 15 0 200 30
{"a.b","c.d"="x","e.f"="y"} 1

-- out
0 0 sample {"a.b","c.d"="x",job="j"} 1
0 0 report up{instance="a:1",job="j"} 1
0 0 report scrape_duration_seconds{instance="a:1",job="j"} 0.015
0 0 report scrape_samples_scraped{instance="a:1",job="j"} 1
0 0 report scrape_samples_post_metric_relabeling{instance="a:1",job="j"} 1
0 0 report scrape_series_added{instance="a:1",job="j"} 1
-- status 0

== verdicts_over_both_spellings
$ replay --kept s
-- file s
scrape-journal 2
load 0 76
{"scrape_configs":[{"job_name":"j","static_configs":[{"targets":["a:1"]}]}]}
sweep 0
quoted 15 0 200 22
{"a","b"="x"} 1 60000

sweep 60000
body 15 1 200 17
a{b="x"} 2 60000

-- out
kept 60000 0 sample a{b="x",instance="a:1",job="j"} 1
kept 0 0 report up{instance="a:1",job="j"} 1
kept 0 0 report scrape_duration_seconds{instance="a:1",job="j"} 0.015
kept 0 0 report scrape_samples_scraped{instance="a:1",job="j"} 1
kept 0 0 report scrape_samples_post_metric_relabeling{instance="a:1",job="j"} 1
kept 0 0 report scrape_series_added{instance="a:1",job="j"} 1
duplicate 60000 0 sample a{b="x",instance="a:1",job="j"} 2
kept 60000 0 report up{instance="a:1",job="j"} 1
kept 60000 0 report scrape_duration_seconds{instance="a:1",job="j"} 0.015
kept 60000 0 report scrape_samples_scraped{instance="a:1",job="j"} 1
kept 60000 0 report scrape_samples_post_metric_relabeling{instance="a:1",job="j"} 1
kept 60000 0 report scrape_series_added{instance="a:1",job="j"} 0
-- status 0

== quoted_names_of_other_kinds
$ replay s
-- file s
scrape-journal 2
load 0 76
{"scrape_configs":[{"job_name":"j","static_configs":[{"targets":["a:1"]}]}]}
sweep 0
quoted 15 0 200 96
{"a"}1
x{"c.d"="y"} 2
{"a",b="x"} 3
{"\\\"\n\q","\\"="\n"} 4
{"ä"} 5
{"__name__"} 6
{"a b",} 7

-- out
0 0 sample a{instance="a:1",job="j"} 1
0 0 sample x{"c.d"="y",instance="a:1",job="j"} 2
0 0 sample a{b="x",instance="a:1",job="j"} 3
0 0 sample {"\\\"\n\\q","\\"="\n",instance="a:1",job="j"} 4
0 0 sample {"ä",instance="a:1",job="j"} 5
0 0 sample __name__{instance="a:1",job="j"} 6
0 0 sample {"a b",instance="a:1",job="j"} 7
0 0 report up{instance="a:1",job="j"} 1
0 0 report scrape_duration_seconds{instance="a:1",job="j"} 0.015
0 0 report scrape_samples_scraped{instance="a:1",job="j"} 7
0 0 report scrape_samples_post_metric_relabeling{instance="a:1",job="j"} 7
0 0 report scrape_series_added{instance="a:1",job="j"} 7
-- status 0

== faulty_lines_of_quoted_bodies
$ at 0 up s
-- file s
scrape-journal 2
load 0 138
{"scrape_configs":[{"job_name":"j","static_configs":[{"targets":["a","b","c","d","e","f","g","h","i","j","k","l","m","n","o","p","q"]}]}]}
sweep 0
quoted 15 0 200 5
{} 1

quoted 15 1 200 10
{c="x"} 1

quoted 15 2 200 9
x{"a"} 1

quoted 15 3 200 7
{""} 1

quoted 15 4 200 19
x{a="1","a"="2"} 1

quoted 15 5 200 23
{"a","__name__"="x"} 1

quoted 15 6 200 20
x{"__name__"="x"} 1

quoted 15 7 200 12
x{""="x"} 1

quoted 15 8 200 27
x{"a\\b"="1","a\\b"="2"} 1

quoted 15 9 200 13
\ 78 7b 22 ff 22 3d 22 31 22 7d 20 31 0a

quoted 15 10 200 12
{"a" "b"} 1

quoted 15 11 200 9
{,"a"} 1

quoted 15 12 200 10
{"a",,} 1

quoted 15 13 200 14
{b="x","a"} 1

quoted 15 14 200 12
{"a"="x"} 1

quoted 15 15 200 12
{"a","b"} 1

quoted 15 16 200 7
{"a} 1

-- out
0 up{instance="a",job="j"} 0
0 up{instance="b",job="j"} 0
0 up{instance="c",job="j"} 0
0 up{instance="d",job="j"} 0
0 up{instance="e",job="j"} 0
0 up{instance="f",job="j"} 0
0 up{instance="g",job="j"} 0
0 up{instance="h",job="j"} 0
0 up{instance="i",job="j"} 0
0 up{instance="j",job="j"} 0
0 up{instance="k",job="j"} 0
0 up{instance="l",job="j"} 0
0 up{instance="m",job="j"} 0
0 up{instance="n",job="j"} 0
0 up{instance="o",job="j"} 0
0 up{instance="p",job="j"} 0
0 up{instance="q",job="j"} 0
-- status 0

== lines_with_quoted_names_are_faulty_in_plain_bodies
$ at 0 up s
-- file s
scrape-journal 2
load 0 82
{"scrape_configs":[{"job_name":"j","static_configs":[{"targets":["a","b","c"]}]}]}
sweep 0
body 15 0 200 7
{"a"}1

body 15 1 200 15
x{"c.d"="y"} 2

body 15 2 200 11
{"a b",} 7

-- out
0 up{instance="a",job="j"} 0
0 up{instance="b",job="j"} 0
0 up{instance="c",job="j"} 0
-- status 0
"#;
