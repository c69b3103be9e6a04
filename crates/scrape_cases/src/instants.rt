//! `at`: what a selector sees at a moment in the book of a script.

pub const CASES: &str = r##"
== instant_of_a_name
$ at 60000 x s
-- file s
scrape-journal 1
load 0 76
{"scrape_configs":[{"job_name":"j","static_configs":[{"targets":["a:1"]}]}]}
sweep 0
body 15 0 200 8
x 1
y 2

sweep 60000
body 15 1 200 4
x 1

-- out
60000 x{instance="a:1",job="j"} 1
-- status 0

== instant_of_a_series_that_is_gone
$ at 60000 y s
-- file s
scrape-journal 1
load 0 76
{"scrape_configs":[{"job_name":"j","static_configs":[{"targets":["a:1"]}]}]}
sweep 0
body 15 0 200 8
x 1
y 2

sweep 60000
body 15 1 200 4
x 1

-- status 0

== instant_of_a_label
$ at 59999 {job="j"} s
-- file s
scrape-journal 1
load 0 76
{"scrape_configs":[{"job_name":"j","static_configs":[{"targets":["a:1"]}]}]}
sweep 0
body 15 0 200 8
x 1
y 2

sweep 60000
body 15 1 200 4
x 1

-- out
0 scrape_duration_seconds{instance="a:1",job="j"} 0.015
0 scrape_samples_post_metric_relabeling{instance="a:1",job="j"} 2
0 scrape_samples_scraped{instance="a:1",job="j"} 2
0 scrape_series_added{instance="a:1",job="j"} 2
0 up{instance="a:1",job="j"} 1
0 x{instance="a:1",job="j"} 1
0 y{instance="a:1",job="j"} 2
-- status 0

== instant_within_lookback
$ at 299999 y s
-- file s
scrape-journal 1
load 0 76
{"scrape_configs":[{"job_name":"j","static_configs":[{"targets":["a:1"]}]}]}
sweep 0
body 15 0 200 8
x 1
y 2

-- out
0 y{instance="a:1",job="j"} 2
-- status 0

== instant_at_the_edge_of_lookback
$ at 300000 y s
-- file s
scrape-journal 1
load 0 76
{"scrape_configs":[{"job_name":"j","static_configs":[{"targets":["a:1"]}]}]}
sweep 0
body 15 0 200 8
x 1
y 2

-- status 0

== instant_before_all_samples
$ at 0 x s
-- file s
scrape-journal 1
load 0 76
{"scrape_configs":[{"job_name":"j","static_configs":[{"targets":["a:1"]}]}]}
sweep 1
body 15 0 200 4
x 1

-- status 0

== instant_of_an_empty_book
$ at 5 x s
-- file s
scrape-journal 1
-- status 0

== instant_behind_a_failed_scrape
$ at 60000 x s
-- file s
scrape-journal 1
load 0 76
{"scrape_configs":[{"job_name":"j","static_configs":[{"targets":["a:1"]}]}]}
sweep 0
body 15 0 200 8
x 1
y 2

sweep 60000
lost 20 1
-- status 0

== instant_of_reports_of_a_failed_scrape
$ at 60000 up s
-- file s
scrape-journal 1
load 0 76
{"scrape_configs":[{"job_name":"j","static_configs":[{"targets":["a:1"]}]}]}
sweep 0
body 15 0 200 8
x 1
y 2

sweep 60000
lost 20 1
-- out
60000 up{instance="a:1",job="j"} 0
-- status 0

== instant_before_the_report_marker
$ at 59999 up s
-- file s
scrape-journal 1
load 0 76
{"scrape_configs":[{"job_name":"j","static_configs":[{"targets":["a:1"]}]}]}
sweep 0
body 15 0 200 8
x 1
y 2

load 60000 2
{}
sweep 60000
sweep 126000
-- out
0 up{instance="a:1",job="j"} 1
-- status 0

== instant_at_the_report_marker
$ at 60000 up s
-- file s
scrape-journal 1
load 0 76
{"scrape_configs":[{"job_name":"j","static_configs":[{"targets":["a:1"]}]}]}
sweep 0
body 15 0 200 8
x 1
y 2

load 60000 2
{}
sweep 60000
sweep 126000
-- status 0

== instant_at_the_marker_of_an_ended_life
$ at 60000 x s
-- file s
scrape-journal 1
load 0 76
{"scrape_configs":[{"job_name":"j","static_configs":[{"targets":["a:1"]}]}]}
sweep 0
body 15 0 200 8
x 1
y 2

load 60000 2
{}
sweep 60000
sweep 126000
-- status 0

== instant_of_out_of_order_and_duplicate_samples
$ at 120000 x s
-- file s
scrape-journal 1
load 0 76
{"scrape_configs":[{"job_name":"j","static_configs":[{"targets":["a:1"]}]}]}
sweep 0
body 15 0 200 9
x 1 5000

sweep 60000
body 15 1 200 9
x 2 4000

sweep 120000
body 15 2 200 9
x 3 5000

-- out
5000 x{instance="a:1",job="j"} 1
-- status 0

== instant_before_a_stamped_sample
$ at 69999 x s
-- file s
scrape-journal 1
load 0 76
{"scrape_configs":[{"job_name":"j","static_configs":[{"targets":["a:1"]}]}]}
sweep 60000
body 15 0 200 10
x 1 70000

-- status 0

== instant_of_a_stamped_sample
$ at 70000 x s
-- file s
scrape-journal 1
load 0 76
{"scrape_configs":[{"job_name":"j","static_configs":[{"targets":["a:1"]}]}]}
sweep 60000
body 15 0 200 10
x 1 70000

-- out
70000 x{instance="a:1",job="j"} 1
-- status 0

== instant_of_a_sample_before_the_epoch
$ at 0 x s
-- file s
scrape-journal 1
load 0 76
{"scrape_configs":[{"job_name":"j","static_configs":[{"targets":["a:1"]}]}]}
sweep 0
body 15 0 200 12
x 1 -299999

-- out
-299999 x{instance="a:1",job="j"} 1
-- status 0

== instant_of_a_sample_too_far_before_the_epoch
$ at 0 x s
-- file s
scrape-journal 1
load 0 76
{"scrape_configs":[{"job_name":"j","static_configs":[{"targets":["a:1"]}]}]}
sweep 0
body 15 0 200 12
x 1 -300000

-- status 0

== instant_over_two_lives_in_the_first
$ at 59999 x s
-- file s
scrape-journal 1
load 0 76
{"scrape_configs":[{"job_name":"j","static_configs":[{"targets":["a:1"]}]}]}
sweep 0
body 15 0 200 4
x 1

load 30000 101
{"scrape_configs":[{"job_name":"j","honor_timestamps":false,"static_configs":[{"targets":["a:1"]}]}]}
sweep 60000
body 15 1 200 4
x 2

sweep 66000
-- out
0 x{instance="a:1",job="j"} 1
-- status 0

== instant_over_two_lives_in_the_second
$ at 66000 x s
-- file s
scrape-journal 1
load 0 76
{"scrape_configs":[{"job_name":"j","static_configs":[{"targets":["a:1"]}]}]}
sweep 0
body 15 0 200 4
x 1

load 30000 101
{"scrape_configs":[{"job_name":"j","honor_timestamps":false,"static_configs":[{"targets":["a:1"]}]}]}
sweep 60000
body 15 1 200 4
x 2

sweep 66000
-- out
60000 x{instance="a:1",job="j"} 2
-- status 0

== instant_equal
$ at 0 x{p="/a"} s
-- file s
scrape-journal 1
load 0 76
{"scrape_configs":[{"job_name":"j","static_configs":[{"targets":["a:1"]}]}]}
sweep 0
body 15 0 200 39
x{p="/a"} 1
x{p="/b"} 2
x{q="1"} 3
z 4

-- out
0 x{instance="a:1",job="j",p="/a"} 1
-- status 0

== instant_unequal_of_an_absent_label
$ at 0 x{p!="/a"} s
-- file s
scrape-journal 1
load 0 76
{"scrape_configs":[{"job_name":"j","static_configs":[{"targets":["a:1"]}]}]}
sweep 0
body 15 0 200 39
x{p="/a"} 1
x{p="/b"} 2
x{q="1"} 3
z 4

-- out
0 x{instance="a:1",job="j",p="/b"} 2
0 x{instance="a:1",job="j",q="1"} 3
-- status 0

== instant_equal_to_nothing
$ at 0 x{p=""} s
-- file s
scrape-journal 1
load 0 76
{"scrape_configs":[{"job_name":"j","static_configs":[{"targets":["a:1"]}]}]}
sweep 0
body 15 0 200 39
x{p="/a"} 1
x{p="/b"} 2
x{q="1"} 3
z 4

-- out
0 x{instance="a:1",job="j",q="1"} 3
-- status 0

== instant_unequal_to_nothing
$ at 0 x{p!=""} s
-- file s
scrape-journal 1
load 0 76
{"scrape_configs":[{"job_name":"j","static_configs":[{"targets":["a:1"]}]}]}
sweep 0
body 15 0 200 39
x{p="/a"} 1
x{p="/b"} 2
x{q="1"} 3
z 4

-- out
0 x{instance="a:1",job="j",p="/a"} 1
0 x{instance="a:1",job="j",p="/b"} 2
-- status 0

== instant_pattern_of_the_whole_value
$ at 0 x{p=~"/"} s
-- file s
scrape-journal 1
load 0 76
{"scrape_configs":[{"job_name":"j","static_configs":[{"targets":["a:1"]}]}]}
sweep 0
body 15 0 200 39
x{p="/a"} 1
x{p="/b"} 2
x{q="1"} 3
z 4

-- status 0

== instant_pattern
$ at 0 x{p=~"/[ab]",q!~".+"} s
-- file s
scrape-journal 1
load 0 76
{"scrape_configs":[{"job_name":"j","static_configs":[{"targets":["a:1"]}]}]}
sweep 0
body 15 0 200 39
x{p="/a"} 1
x{p="/b"} 2
x{q="1"} 3
z 4

-- out
0 x{instance="a:1",job="j",p="/a"} 1
0 x{instance="a:1",job="j",p="/b"} 2
-- status 0

== instant_pattern_that_an_absent_label_matches
$ at 0 x{p!~"/a|"} s
-- file s
scrape-journal 1
load 0 76
{"scrape_configs":[{"job_name":"j","static_configs":[{"targets":["a:1"]}]}]}
sweep 0
body 15 0 200 39
x{p="/a"} 1
x{p="/b"} 2
x{q="1"} 3
z 4

-- out
0 x{instance="a:1",job="j",p="/b"} 2
-- status 0

== instant_name_as_a_matcher
$ at 0 {__name__="z"} s
-- file s
scrape-journal 1
load 0 76
{"scrape_configs":[{"job_name":"j","static_configs":[{"targets":["a:1"]}]}]}
sweep 0
body 15 0 200 39
x{p="/a"} 1
x{p="/b"} 2
x{q="1"} 3
z 4

-- out
0 z{instance="a:1",job="j"} 4
-- status 0

== instant_names_by_a_pattern
$ at 0 {__name__=~"z|y",job="j"} s
-- file s
scrape-journal 1
load 0 76
{"scrape_configs":[{"job_name":"j","static_configs":[{"targets":["a:1"]}]}]}
sweep 0
body 15 0 200 39
x{p="/a"} 1
x{p="/b"} 2
x{q="1"} 3
z 4

-- out
0 z{instance="a:1",job="j"} 4
-- status 0

== instant_name_and_empty_braces
$ at 0 z{} s
-- file s
scrape-journal 1
load 0 76
{"scrape_configs":[{"job_name":"j","static_configs":[{"targets":["a:1"]}]}]}
sweep 0
body 15 0 200 39
x{p="/a"} 1
x{p="/b"} 2
x{q="1"} 3
z 4

-- out
0 z{instance="a:1",job="j"} 4
-- status 0

== instant_last_comma
$ at 0 z{job="j",} s
-- file s
scrape-journal 1
load 0 76
{"scrape_configs":[{"job_name":"j","static_configs":[{"targets":["a:1"]}]}]}
sweep 0
body 15 0 200 39
x{p="/a"} 1
x{p="/b"} 2
x{q="1"} 3
z 4

-- out
0 z{instance="a:1",job="j"} 4
-- status 0

== instant_of_no_series
$ at 0 w s
-- file s
scrape-journal 1
load 0 76
{"scrape_configs":[{"job_name":"j","static_configs":[{"targets":["a:1"]}]}]}
sweep 0
body 15 0 200 39
x{p="/a"} 1
x{p="/b"} 2
x{q="1"} 3
z 4

-- status 0

== instant_escapes_in_a_text
$ at 0 x{p="a\"b\\c\nd"} s
-- file s
scrape-journal 1
load 0 76
{"scrape_configs":[{"job_name":"j","static_configs":[{"targets":["a:1"]}]}]}
sweep 0
body 15 0 200 20
x{p="a\"b\\c\nd"} 1

-- out
0 x{instance="a:1",job="j",p="a\"b\\c\nd"} 1
-- status 0

== instant_matchers_of_one_label
$ at 0 {p!="ü",p=~"a.b.*",__name__=~"x|y",p!~"c",z="",p!="",} s
-- file s
scrape-journal 1
load 0 76
{"scrape_configs":[{"job_name":"j","static_configs":[{"targets":["a:1"]}]}]}
sweep 0
body 15 0 200 78
x{p="a\nb\q"} 1
y{p="a\nc"} 2
y{p="ü"} 3
y{p="aab",z="1"} 4
y 5
z{p="aab"} 6

-- out
0 x{instance="a:1",job="j",p="a\nb\\q"} 1
-- status 0
"##;
