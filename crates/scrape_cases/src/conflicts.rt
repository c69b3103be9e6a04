//! Labels of a line and of its target that bear the same name.

pub const CASES: &str = r#"
== exported_chain
$ replay s
-- file s
scrape-journal 1
load 0 76
{"scrape_configs":[{"job_name":"j","static_configs":[{"targets":["a:1"]}]}]}
sweep 0
body 15 0 200 30
x{exported_job="b",job="a"} 1

-- out
0 0 sample x{exported_exported_job="a",exported_job="b",instance="a:1",job="j"} 1
0 0 report up{instance="a:1",job="j"} 1
0 0 report scrape_duration_seconds{instance="a:1",job="j"} 0.015
0 0 report scrape_samples_scraped{instance="a:1",job="j"} 1
0 0 report scrape_samples_post_metric_relabeling{instance="a:1",job="j"} 1
0 0 report scrape_series_added{instance="a:1",job="j"} 1
-- status 0

== empty_label_is_none
$ replay s
-- file s
scrape-journal 1
load 0 76
{"scrape_configs":[{"job_name":"j","static_configs":[{"targets":["a:1"]}]}]}
sweep 0
body 15 0 200 29
x{exported_job="",job="a"} 1

-- out
0 0 sample x{exported_job="a",instance="a:1",job="j"} 1
0 0 report up{instance="a:1",job="j"} 1
0 0 report scrape_duration_seconds{instance="a:1",job="j"} 0.015
0 0 report scrape_samples_scraped{instance="a:1",job="j"} 1
0 0 report scrape_samples_post_metric_relabeling{instance="a:1",job="j"} 1
0 0 report scrape_series_added{instance="a:1",job="j"} 1
-- status 0

== empty_label_of_the_same_name
$ replay s
-- file s
scrape-journal 1
load 0 76
{"scrape_configs":[{"job_name":"j","static_configs":[{"targets":["a:1"]}]}]}
sweep 0
body 15 0 200 12
x{job=""} 1

-- out
0 0 sample x{instance="a:1",job="j"} 1
0 0 report up{instance="a:1",job="j"} 1
0 0 report scrape_duration_seconds{instance="a:1",job="j"} 0.015
0 0 report scrape_samples_scraped{instance="a:1",job="j"} 1
0 0 report scrape_samples_post_metric_relabeling{instance="a:1",job="j"} 1
0 0 report scrape_series_added{instance="a:1",job="j"} 1
-- status 0

== one_label
$ replay s
-- file s
scrape-journal 1
load 0 76
{"scrape_configs":[{"job_name":"j","static_configs":[{"targets":["a:1"]}]}]}
sweep 0
body 15 0 200 13
x{job="a"} 1

-- out
0 0 sample x{exported_job="a",instance="a:1",job="j"} 1
0 0 report up{instance="a:1",job="j"} 1
0 0 report scrape_duration_seconds{instance="a:1",job="j"} 0.015
0 0 report scrape_samples_scraped{instance="a:1",job="j"} 1
0 0 report scrape_samples_post_metric_relabeling{instance="a:1",job="j"} 1
0 0 report scrape_series_added{instance="a:1",job="j"} 1
-- status 0

== other_labels_stay
$ replay s
-- file s
scrape-journal 1
load 0 76
{"scrape_configs":[{"job_name":"j","static_configs":[{"targets":["a:1"]}]}]}
sweep 0
body 15 0 200 25
x{z="1",job="a",b="2"} 1

-- out
0 0 sample x{b="2",exported_job="a",instance="a:1",job="j",z="1"} 1
0 0 report up{instance="a:1",job="j"} 1
0 0 report scrape_duration_seconds{instance="a:1",job="j"} 0.015
0 0 report scrape_samples_scraped{instance="a:1",job="j"} 1
0 0 report scrape_samples_post_metric_relabeling{instance="a:1",job="j"} 1
0 0 report scrape_series_added{instance="a:1",job="j"} 1
-- status 0

== no_labels
$ replay s
-- file s
scrape-journal 1
load 0 76
{"scrape_configs":[{"job_name":"j","static_configs":[{"targets":["a:1"]}]}]}
sweep 0
body 15 0 200 4
x 1

-- out
0 0 sample x{instance="a:1",job="j"} 1
0 0 report up{instance="a:1",job="j"} 1
0 0 report scrape_duration_seconds{instance="a:1",job="j"} 0.015
0 0 report scrape_samples_scraped{instance="a:1",job="j"} 1
0 0 report scrape_samples_post_metric_relabeling{instance="a:1",job="j"} 1
0 0 report scrape_series_added{instance="a:1",job="j"} 1
-- status 0

== two_of_a_kind
$ replay s
-- file s
scrape-journal 1
load 0 112
{"scrape_configs":[{"job_name":"j","static_configs":[{"targets":["a:1"],"labels":{"a":"3","exported_a":"4"}}]}]}
sweep 0
body 15 0 200 26
x{a="1",exported_a="2"} 1

-- out
0 0 sample x{a="3",exported_a="4",exported_exported_a="1",exported_exported_exported_a="2",instance="a:1",job="j"} 1
0 0 report up{a="3",exported_a="4",instance="a:1",job="j"} 1
0 0 report scrape_duration_seconds{a="3",exported_a="4",instance="a:1",job="j"} 0.015
0 0 report scrape_samples_scraped{a="3",exported_a="4",instance="a:1",job="j"} 1
0 0 report scrape_samples_post_metric_relabeling{a="3",exported_a="4",instance="a:1",job="j"} 1
0 0 report scrape_series_added{a="3",exported_a="4",instance="a:1",job="j"} 1
-- status 0

== two_of_a_kind_turned
$ replay s
-- file s
scrape-journal 1
load 0 112
{"scrape_configs":[{"job_name":"j","static_configs":[{"targets":["a:1"],"labels":{"a":"3","exported_a":"4"}}]}]}
sweep 0
body 15 0 200 26
x{exported_a="2",a="1"} 1

-- out
0 0 sample x{a="3",exported_a="4",exported_exported_a="1",exported_exported_exported_a="2",instance="a:1",job="j"} 1
0 0 report up{a="3",exported_a="4",instance="a:1",job="j"} 1
0 0 report scrape_duration_seconds{a="3",exported_a="4",instance="a:1",job="j"} 0.015
0 0 report scrape_samples_scraped{a="3",exported_a="4",instance="a:1",job="j"} 1
0 0 report scrape_samples_post_metric_relabeling{a="3",exported_a="4",instance="a:1",job="j"} 1
0 0 report scrape_series_added{a="3",exported_a="4",instance="a:1",job="j"} 1
-- status 0

== shorter_name_first
$ replay s
-- file s
scrape-journal 1
load 0 112
{"scrape_configs":[{"job_name":"j","static_configs":[{"targets":["a:1"],"labels":{"exported_z":"4","z":"3"}}]}]}
sweep 0
body 15 0 200 26
x{z="1",exported_z="2"} 1

-- out
0 0 sample x{exported_exported_exported_z="2",exported_exported_z="1",exported_z="4",instance="a:1",job="j",z="3"} 1
0 0 report up{exported_z="4",instance="a:1",job="j",z="3"} 1
0 0 report scrape_duration_seconds{exported_z="4",instance="a:1",job="j",z="3"} 0.015
0 0 report scrape_samples_scraped{exported_z="4",instance="a:1",job="j",z="3"} 1
0 0 report scrape_samples_post_metric_relabeling{exported_z="4",instance="a:1",job="j",z="3"} 1
0 0 report scrape_series_added{exported_z="4",instance="a:1",job="j",z="3"} 1
-- status 0

== by_name_where_equally_long
$ replay s
-- file s
scrape-journal 1
load 0 103
{"scrape_configs":[{"job_name":"j","static_configs":[{"targets":["a:1"],"labels":{"a":"3","b":"4"}}]}]}
sweep 0
body 15 0 200 17
x{b="1",a="2"} 1

-- out
0 0 sample x{a="3",b="4",exported_a="2",exported_b="1",instance="a:1",job="j"} 1
0 0 report up{a="3",b="4",instance="a:1",job="j"} 1
0 0 report scrape_duration_seconds{a="3",b="4",instance="a:1",job="j"} 0.015
0 0 report scrape_samples_scraped{a="3",b="4",instance="a:1",job="j"} 1
0 0 report scrape_samples_post_metric_relabeling{a="3",b="4",instance="a:1",job="j"} 1
0 0 report scrape_series_added{a="3",b="4",instance="a:1",job="j"} 1
-- status 0

== honoured
$ replay s
-- file s
scrape-journal 1
load 0 96
{"scrape_configs":[{"job_name":"j","static_configs":[{"targets":["a:1"]}],"honor_labels":true}]}
sweep 0
body 15 0 200 13
x{job="a"} 1

-- out
0 0 sample x{instance="a:1",job="a"} 1
0 0 report up{instance="a:1",job="j"} 1
0 0 report scrape_duration_seconds{instance="a:1",job="j"} 0.015
0 0 report scrape_samples_scraped{instance="a:1",job="j"} 1
0 0 report scrape_samples_post_metric_relabeling{instance="a:1",job="j"} 1
0 0 report scrape_series_added{instance="a:1",job="j"} 1
-- status 0

== honoured_empty_label
$ replay s
-- file s
scrape-journal 1
load 0 96
{"scrape_configs":[{"job_name":"j","static_configs":[{"targets":["a:1"]}],"honor_labels":true}]}
sweep 0
body 15 0 200 17
x{instance=""} 1

-- out
0 0 sample x{job="j"} 1
0 0 report up{instance="a:1",job="j"} 1
0 0 report scrape_duration_seconds{instance="a:1",job="j"} 0.015
0 0 report scrape_samples_scraped{instance="a:1",job="j"} 1
0 0 report scrape_samples_post_metric_relabeling{instance="a:1",job="j"} 1
0 0 report scrape_series_added{instance="a:1",job="j"} 1
-- status 0

== honoured_empty_label_beside_another
$ replay s
-- file s
scrape-journal 1
load 0 96
{"scrape_configs":[{"job_name":"j","static_configs":[{"targets":["a:1"]}],"honor_labels":true}]}
sweep 0
body 15 0 200 25
x{instance="",job="a"} 1

-- out
0 0 sample x{job="a"} 1
0 0 report up{instance="a:1",job="j"} 1
0 0 report scrape_duration_seconds{instance="a:1",job="j"} 0.015
0 0 report scrape_samples_scraped{instance="a:1",job="j"} 1
0 0 report scrape_samples_post_metric_relabeling{instance="a:1",job="j"} 1
0 0 report scrape_series_added{instance="a:1",job="j"} 1
-- status 0

== honoured_labels_in_any_order
$ replay s
-- file s
scrape-journal 1
load 0 96
{"scrape_configs":[{"job_name":"j","static_configs":[{"targets":["a:1"]}],"honor_labels":true}]}
sweep 0
body 15 0 200 22
x{z="1",b="",a="2"} 1

-- out
0 0 sample x{a="2",instance="a:1",job="j",z="1"} 1
0 0 report up{instance="a:1",job="j"} 1
0 0 report scrape_duration_seconds{instance="a:1",job="j"} 0.015
0 0 report scrape_samples_scraped{instance="a:1",job="j"} 1
0 0 report scrape_samples_post_metric_relabeling{instance="a:1",job="j"} 1
0 0 report scrape_series_added{instance="a:1",job="j"} 1
-- status 0

== honoured_exported_label
$ replay s
-- file s
scrape-journal 1
load 0 96
{"scrape_configs":[{"job_name":"j","static_configs":[{"targets":["a:1"]}],"honor_labels":true}]}
sweep 0
body 15 0 200 30
x{exported_job="b",job="a"} 1

-- out
0 0 sample x{exported_job="b",instance="a:1",job="a"} 1
0 0 report up{instance="a:1",job="j"} 1
0 0 report scrape_duration_seconds{instance="a:1",job="j"} 0.015
0 0 report scrape_samples_scraped{instance="a:1",job="j"} 1
0 0 report scrape_samples_post_metric_relabeling{instance="a:1",job="j"} 1
0 0 report scrape_series_added{instance="a:1",job="j"} 1
-- status 0

== honoured_without_labels
$ replay s
-- file s
scrape-journal 1
load 0 96
{"scrape_configs":[{"job_name":"j","static_configs":[{"targets":["a:1"]}],"honor_labels":true}]}
sweep 0
body 15 0 200 4
x 1

-- out
0 0 sample x{instance="a:1",job="j"} 1
0 0 report up{instance="a:1",job="j"} 1
0 0 report scrape_duration_seconds{instance="a:1",job="j"} 0.015
0 0 report scrape_samples_scraped{instance="a:1",job="j"} 1
0 0 report scrape_samples_post_metric_relabeling{instance="a:1",job="j"} 1
0 0 report scrape_series_added{instance="a:1",job="j"} 1
-- status 0

== forty_labels_in_conflict
$ at 0 x s
-- file s
scrape-journal 1
load 0 954
{"scrape_configs":[{"job_name":"j","static_configs":[{"targets":["a:1"],"labels":{"a0":"v","a1":"v","a2":"v","a3":"v","a4":"v","a5":"v","a6":"v","a7":"v","a8":"v","a9":"v","a10":"v","a11":"v","a12":"v","a13":"v","a14":"v","a15":"v","a16":"v","a17":"v","a18":"v","a19":"v","a20":"v","a21":"v","a22":"v","a23":"v","a24":"v","a25":"v","a26":"v","a27":"v","a28":"v","a29":"v","a30":"v","a31":"v","a32":"v","a33":"v","a34":"v","a35":"v","a36":"v","a37":"v","a38":"v","a39":"v"}}]},{"job_name":"k","honor_labels":true,"static_configs":[{"targets":["a:1"],"labels":{"a0":"v","a1":"v","a2":"v","a3":"v","a4":"v","a5":"v","a6":"v","a7":"v","a8":"v","a9":"v","a10":"v","a11":"v","a12":"v","a13":"v","a14":"v","a15":"v","a16":"v","a17":"v","a18":"v","a19":"v","a20":"v","a21":"v","a22":"v","a23":"v","a24":"v","a25":"v","a26":"v","a27":"v","a28":"v","a29":"v","a30":"v","a31":"v","a32":"v","a33":"v","a34":"v","a35":"v","a36":"v","a37":"v","a38":"v","a39":"v"}}]}]}
sweep 0
body 15 0 200 315
x{a0="v",a1="v",a2="v",a3="v",a4="v",a5="v",a6="v",a7="v",a8="v",a9="v",a10="v",a11="v",a12="v",a13="v",a14="v",a15="v",a16="v",a17="v",a18="v",a19="v",a20="v",a21="v",a22="v",a23="v",a24="v",a25="v",a26="v",a27="v",a28="v",a29="v",a30="v",a31="v",a32="v",a33="v",a34="v",a35="v",a36="v",a37="v",a38="v",a39="v"} 1

body 15 1 200 315
x{a0="v",a1="v",a2="v",a3="v",a4="v",a5="v",a6="v",a7="v",a8="v",a9="v",a10="v",a11="v",a12="v",a13="v",a14="v",a15="v",a16="v",a17="v",a18="v",a19="v",a20="v",a21="v",a22="v",a23="v",a24="v",a25="v",a26="v",a27="v",a28="v",a29="v",a30="v",a31="v",a32="v",a33="v",a34="v",a35="v",a36="v",a37="v",a38="v",a39="v"} 1

-- out
0 x{a0="v",a1="v",a10="v",a11="v",a12="v",a13="v",a14="v",a15="v",a16="v",a17="v",a18="v",a19="v",a2="v",a20="v",a21="v",a22="v",a23="v",a24="v",a25="v",a26="v",a27="v",a28="v",a29="v",a3="v",a30="v",a31="v",a32="v",a33="v",a34="v",a35="v",a36="v",a37="v",a38="v",a39="v",a4="v",a5="v",a6="v",a7="v",a8="v",a9="v",exported_a0="v",exported_a1="v",exported_a10="v",exported_a11="v",exported_a12="v",exported_a13="v",exported_a14="v",exported_a15="v",exported_a16="v",exported_a17="v",exported_a18="v",exported_a19="v",exported_a2="v",exported_a20="v",exported_a21="v",exported_a22="v",exported_a23="v",exported_a24="v",exported_a25="v",exported_a26="v",exported_a27="v",exported_a28="v",exported_a29="v",exported_a3="v",exported_a30="v",exported_a31="v",exported_a32="v",exported_a33="v",exported_a34="v",exported_a35="v",exported_a36="v",exported_a37="v",exported_a38="v",exported_a39="v",exported_a4="v",exported_a5="v",exported_a6="v",exported_a7="v",exported_a8="v",exported_a9="v",instance="a:1",job="j"} 1
0 x{a0="v",a1="v",a10="v",a11="v",a12="v",a13="v",a14="v",a15="v",a16="v",a17="v",a18="v",a19="v",a2="v",a20="v",a21="v",a22="v",a23="v",a24="v",a25="v",a26="v",a27="v",a28="v",a29="v",a3="v",a30="v",a31="v",a32="v",a33="v",a34="v",a35="v",a36="v",a37="v",a38="v",a39="v",a4="v",a5="v",a6="v",a7="v",a8="v",a9="v",instance="a:1",job="k"} 1
-- status 0
"#;
