//! Bodies of the text exposition format: what is read, and the first faulty line.

pub const CASES: &str = r#"
== nan_and_faulty_line
$ replay s
-- file s
scrape-journal 1
load 0 76
{"scrape_configs":[{"job_name":"j","static_configs":[{"targets":["a:1"]}]}]}
sweep 0
body 15 0 200 21
a nan
b -Inf
c 1e999

sweep 60000
body 15 1 200 12
a 1
d 0x1p3

-- out
0 0 sample a{instance="a:1",job="j"} nan
0 0 sample b{instance="a:1",job="j"} -Inf
0 0 sample c{instance="a:1",job="j"} 1e999
0 0 report up{instance="a:1",job="j"} 1
0 0 report scrape_duration_seconds{instance="a:1",job="j"} 0.015
0 0 report scrape_samples_scraped{instance="a:1",job="j"} 3
0 0 report scrape_samples_post_metric_relabeling{instance="a:1",job="j"} 3
0 0 report scrape_series_added{instance="a:1",job="j"} 3
60000 0 stale a{instance="a:1",job="j"}
60000 0 stale b{instance="a:1",job="j"}
60000 0 stale c{instance="a:1",job="j"}
60000 0 report up{instance="a:1",job="j"} 0
60000 0 report scrape_duration_seconds{instance="a:1",job="j"} 0.015
60000 0 report scrape_samples_scraped{instance="a:1",job="j"} 0
60000 0 report scrape_samples_post_metric_relabeling{instance="a:1",job="j"} 0
60000 0 report scrape_series_added{instance="a:1",job="j"} 0
-- status 0

== documentation_page
$ replay s
-- file s
scrape-journal 1
load 0 76
{"scrape_configs":[{"job_name":"j","static_configs":[{"targets":["a:1"]}]}]}
sweep 0
body 15 0 200 783
# HELP http_requests_total The total number of HTTP requests.
# TYPE http_requests_total counter
http_requests_total{method="post",code="200"} 1027 1395066363000
http_requests_total{method="post",code="400"}    3 1395066363000

# Escaping in label values:
msdos_file_access_time_seconds{path="C:\\DIR\\FILE.TXT",error="Cannot find file:\n\"FILE.TXT\""} 1.458255915e9

# Minimalistic line:
metric_without_timestamp_and_labels 12.47

# A weird metric from before the epoch:
something_weird{problem="division by zero"} +Inf -3982045

# A histogram:
# TYPE http_request_duration_seconds histogram
http_request_duration_seconds_bucket{le="0.05"} 24054
http_request_duration_seconds_bucket{le="0.1"} 33444
http_request_duration_seconds_sum 53423
http_request_duration_seconds_count 144320

sweep 60000
lost 20 1
-- out
1395066363000 0 sample http_requests_total{code="200",instance="a:1",job="j",method="post"} 1027
1395066363000 0 sample http_requests_total{code="400",instance="a:1",job="j",method="post"} 3
0 0 sample msdos_file_access_time_seconds{error="Cannot find file:\n\"FILE.TXT\"",instance="a:1",job="j",path="C:\\DIR\\FILE.TXT"} 1.458255915e9
0 0 sample metric_without_timestamp_and_labels{instance="a:1",job="j"} 12.47
-3982045 0 sample something_weird{instance="a:1",job="j",problem="division by zero"} +Inf
0 0 sample http_request_duration_seconds_bucket{instance="a:1",job="j",le="0.05"} 24054
0 0 sample http_request_duration_seconds_bucket{instance="a:1",job="j",le="0.1"} 33444
0 0 sample http_request_duration_seconds_sum{instance="a:1",job="j"} 53423
0 0 sample http_request_duration_seconds_count{instance="a:1",job="j"} 144320
0 0 report up{instance="a:1",job="j"} 1
0 0 report scrape_duration_seconds{instance="a:1",job="j"} 0.015
0 0 report scrape_samples_scraped{instance="a:1",job="j"} 9
0 0 report scrape_samples_post_metric_relabeling{instance="a:1",job="j"} 9
0 0 report scrape_series_added{instance="a:1",job="j"} 9
60000 0 stale http_request_duration_seconds_bucket{instance="a:1",job="j",le="0.05"}
60000 0 stale http_request_duration_seconds_bucket{instance="a:1",job="j",le="0.1"}
60000 0 stale http_request_duration_seconds_count{instance="a:1",job="j"}
60000 0 stale http_request_duration_seconds_sum{instance="a:1",job="j"}
60000 0 stale metric_without_timestamp_and_labels{instance="a:1",job="j"}
60000 0 stale msdos_file_access_time_seconds{error="Cannot find file:\n\"FILE.TXT\"",instance="a:1",job="j",path="C:\\DIR\\FILE.TXT"}
60000 0 report up{instance="a:1",job="j"} 0
60000 0 report scrape_duration_seconds{instance="a:1",job="j"} 0.020
60000 0 report scrape_samples_scraped{instance="a:1",job="j"} 0
60000 0 report scrape_samples_post_metric_relabeling{instance="a:1",job="j"} 0
60000 0 report scrape_series_added{instance="a:1",job="j"} 0
-- status 0

== blank_lines_and_comments
$ replay s
-- file s
scrape-journal 1
load 0 76
{"scrape_configs":[{"job_name":"j","static_configs":[{"targets":["a:1"]}]}]}
sweep 0
body 15 0 200 12

\ 20 09 0a
\ 09 23 20 78 20 31 0a
#
-- out
0 0 report up{instance="a:1",job="j"} 1
0 0 report scrape_duration_seconds{instance="a:1",job="j"} 0.015
0 0 report scrape_samples_scraped{instance="a:1",job="j"} 0
0 0 report scrape_samples_post_metric_relabeling{instance="a:1",job="j"} 0
0 0 report scrape_series_added{instance="a:1",job="j"} 0
-- status 0

== empty_braces
$ replay s
-- file s
scrape-journal 1
load 0 76
{"scrape_configs":[{"job_name":"j","static_configs":[{"targets":["a:1"]}]}]}
sweep 0
body 15 0 200 5
x{} 1
-- out
0 0 sample x{instance="a:1",job="j"} 1
0 0 report up{instance="a:1",job="j"} 1
0 0 report scrape_duration_seconds{instance="a:1",job="j"} 0.015
0 0 report scrape_samples_scraped{instance="a:1",job="j"} 1
0 0 report scrape_samples_post_metric_relabeling{instance="a:1",job="j"} 1
0 0 report scrape_series_added{instance="a:1",job="j"} 1
-- status 0

== comma_behind_the_last_label
$ replay s
-- file s
scrape-journal 1
load 0 76
{"scrape_configs":[{"job_name":"j","static_configs":[{"targets":["a:1"]}]}]}
sweep 0
body 15 0 200 10
x{a="b",}1
-- out
0 0 sample x{a="b",instance="a:1",job="j"} 1
0 0 report up{instance="a:1",job="j"} 1
0 0 report scrape_duration_seconds{instance="a:1",job="j"} 0.015
0 0 report scrape_samples_scraped{instance="a:1",job="j"} 1
0 0 report scrape_samples_post_metric_relabeling{instance="a:1",job="j"} 1
0 0 report scrape_series_added{instance="a:1",job="j"} 1
-- status 0

== timestamp_with_a_plus
$ replay s
-- file s
scrape-journal 1
load 0 76
{"scrape_configs":[{"job_name":"j","static_configs":[{"targets":["a:1"]}]}]}
sweep 0
body 15 0 200 6
x 1 +5
-- out
5 0 sample x{instance="a:1",job="j"} 1
0 0 report up{instance="a:1",job="j"} 1
0 0 report scrape_duration_seconds{instance="a:1",job="j"} 0.015
0 0 report scrape_samples_scraped{instance="a:1",job="j"} 1
0 0 report scrape_samples_post_metric_relabeling{instance="a:1",job="j"} 1
0 0 report scrape_series_added{instance="a:1",job="j"} 1
-- status 0

== other_escape_keeps_its_backslash
$ replay s
-- file s
scrape-journal 1
load 0 76
{"scrape_configs":[{"job_name":"j","static_configs":[{"targets":["a:1"]}]}]}
sweep 0
body 15 0 200 11
x{a="\q"} 1
-- out
0 0 sample x{a="\\q",instance="a:1",job="j"} 1
0 0 report up{instance="a:1",job="j"} 1
0 0 report scrape_duration_seconds{instance="a:1",job="j"} 0.015
0 0 report scrape_samples_scraped{instance="a:1",job="j"} 1
0 0 report scrape_samples_post_metric_relabeling{instance="a:1",job="j"} 1
0 0 report scrape_series_added{instance="a:1",job="j"} 1
-- status 0

== value_without_a_whole_part
$ replay s
-- file s
scrape-journal 1
load 0 76
{"scrape_configs":[{"job_name":"j","static_configs":[{"targets":["a:1"]}]}]}
sweep 0
body 15 0 200 7
x .5e+3
-- out
0 0 sample x{instance="a:1",job="j"} .5e+3
0 0 report up{instance="a:1",job="j"} 1
0 0 report scrape_duration_seconds{instance="a:1",job="j"} 0.015
0 0 report scrape_samples_scraped{instance="a:1",job="j"} 1
0 0 report scrape_samples_post_metric_relabeling{instance="a:1",job="j"} 1
0 0 report scrape_series_added{instance="a:1",job="j"} 1
-- status 0

== blanks_within_a_line
$ replay s
-- file s
scrape-journal 1
load 0 76
{"scrape_configs":[{"job_name":"j","static_configs":[{"targets":["a:1"]}]}]}
sweep 0
body 15 0 200 58

\ 09 78 3a 79 20 09 20 7b 20 61 20 3d 20 22 7d 2c 20 22 20 2c 20 62 3d 22 22 20 7d 09 4e 61 4e 09 2d 39 32 32 33 33 37 32 30 33 36 38 35 34 37 37 35 38 30 38 20 0a
z 2
-- out
-9223372036854775808 0 sample x:y{a="}, ",instance="a:1",job="j"} NaN
0 0 sample z{instance="a:1",job="j"} 2
0 0 report up{instance="a:1",job="j"} 1
0 0 report scrape_duration_seconds{instance="a:1",job="j"} 0.015
0 0 report scrape_samples_scraped{instance="a:1",job="j"} 2
0 0 report scrape_samples_post_metric_relabeling{instance="a:1",job="j"} 2
0 0 report scrape_series_added{instance="a:1",job="j"} 2
-- status 0

== last_line_without_a_line_feed
$ replay s
-- file s
scrape-journal 1
load 0 76
{"scrape_configs":[{"job_name":"j","static_configs":[{"targets":["a:1"]}]}]}
sweep 0
body 15 0 200 7
x 1
y 2
-- out
0 0 sample x{instance="a:1",job="j"} 1
0 0 sample y{instance="a:1",job="j"} 2
0 0 report up{instance="a:1",job="j"} 1
0 0 report scrape_duration_seconds{instance="a:1",job="j"} 0.015
0 0 report scrape_samples_scraped{instance="a:1",job="j"} 2
0 0 report scrape_samples_post_metric_relabeling{instance="a:1",job="j"} 2
0 0 report scrape_series_added{instance="a:1",job="j"} 2
-- status 0

== colon_in_a_metric_name
$ replay s
-- file s
scrape-journal 1
load 0 76
{"scrape_configs":[{"job_name":"j","static_configs":[{"targets":["a:1"]}]}]}
sweep 0
body 15 0 200 6
a:b 1

-- out
0 0 sample a:b{instance="a:1",job="j"} 1
0 0 report up{instance="a:1",job="j"} 1
0 0 report scrape_duration_seconds{instance="a:1",job="j"} 0.015
0 0 report scrape_samples_scraped{instance="a:1",job="j"} 1
0 0 report scrape_samples_post_metric_relabeling{instance="a:1",job="j"} 1
0 0 report scrape_series_added{instance="a:1",job="j"} 1
-- status 0

== faulty_comma_alone
$ replay s
-- file s
scrape-journal 1
load 0 76
{"scrape_configs":[{"job_name":"j","static_configs":[{"targets":["a:1"]}]}]}
sweep 0
body 15 0 200 18
x 1

# c
x{,} 1
x{
-- out
0 0 report up{instance="a:1",job="j"} 0
0 0 report scrape_duration_seconds{instance="a:1",job="j"} 0.015
0 0 report scrape_samples_scraped{instance="a:1",job="j"} 0
0 0 report scrape_samples_post_metric_relabeling{instance="a:1",job="j"} 0
0 0 report scrape_series_added{instance="a:1",job="j"} 0
-- status 0

== faulty_timestamp_past_the_range
$ replay s
-- file s
scrape-journal 1
load 0 76
{"scrape_configs":[{"job_name":"j","static_configs":[{"targets":["a:1"]}]}]}
sweep 0
body 15 0 200 35
x 1

# c
x 1 9223372036854775808
x{
-- out
0 0 report up{instance="a:1",job="j"} 0
0 0 report scrape_duration_seconds{instance="a:1",job="j"} 0.015
0 0 report scrape_samples_scraped{instance="a:1",job="j"} 0
0 0 report scrape_samples_post_metric_relabeling{instance="a:1",job="j"} 0
0 0 report scrape_series_added{instance="a:1",job="j"} 0
-- status 0

== faulty_label_twice
$ replay s
-- file s
scrape-journal 1
load 0 76
{"scrape_configs":[{"job_name":"j","static_configs":[{"targets":["a:1"]}]}]}
sweep 0
body 15 0 200 27
x 1

# c
x{a="1",a=""} 1
x{
-- out
0 0 report up{instance="a:1",job="j"} 0
0 0 report scrape_duration_seconds{instance="a:1",job="j"} 0.015
0 0 report scrape_samples_scraped{instance="a:1",job="j"} 0
0 0 report scrape_samples_post_metric_relabeling{instance="a:1",job="j"} 0
0 0 report scrape_series_added{instance="a:1",job="j"} 0
-- status 0

== faulty_negative_nan
$ replay s
-- file s
scrape-journal 1
load 0 76
{"scrape_configs":[{"job_name":"j","static_configs":[{"targets":["a:1"]}]}]}
sweep 0
body 15 0 200 18
x 1

# c
x -nan
x{
-- out
0 0 report up{instance="a:1",job="j"} 0
0 0 report scrape_duration_seconds{instance="a:1",job="j"} 0.015
0 0 report scrape_samples_scraped{instance="a:1",job="j"} 0
0 0 report scrape_samples_post_metric_relabeling{instance="a:1",job="j"} 0
0 0 report scrape_series_added{instance="a:1",job="j"} 0
-- status 0

== faulty_carriage_return
$ replay s
-- file s
scrape-journal 1
load 0 76
{"scrape_configs":[{"job_name":"j","static_configs":[{"targets":["a:1"]}]}]}
sweep 0
body 15 0 200 16
x 1

# c
\ 78 20 31 0d 0a
x{
-- out
0 0 report up{instance="a:1",job="j"} 0
0 0 report scrape_duration_seconds{instance="a:1",job="j"} 0.015
0 0 report scrape_samples_scraped{instance="a:1",job="j"} 0
0 0 report scrape_samples_post_metric_relabeling{instance="a:1",job="j"} 0
0 0 report scrape_series_added{instance="a:1",job="j"} 0
-- status 0

== faulty_no_value
$ replay s
-- file s
scrape-journal 1
load 0 76
{"scrape_configs":[{"job_name":"j","static_configs":[{"targets":["a:1"]}]}]}
sweep 0
body 15 0 200 13
x 1

# c
x
x{
-- out
0 0 report up{instance="a:1",job="j"} 0
0 0 report scrape_duration_seconds{instance="a:1",job="j"} 0.015
0 0 report scrape_samples_scraped{instance="a:1",job="j"} 0
0 0 report scrape_samples_post_metric_relabeling{instance="a:1",job="j"} 0
0 0 report scrape_series_added{instance="a:1",job="j"} 0
-- status 0

== faulty_sign_for_a_blank
$ replay s
-- file s
scrape-journal 1
load 0 76
{"scrape_configs":[{"job_name":"j","static_configs":[{"targets":["a:1"]}]}]}
sweep 0
body 15 0 200 15
x 1

# c
x+1
x{
-- out
0 0 report up{instance="a:1",job="j"} 0
0 0 report scrape_duration_seconds{instance="a:1",job="j"} 0.015
0 0 report scrape_samples_scraped{instance="a:1",job="j"} 0
0 0 report scrape_samples_post_metric_relabeling{instance="a:1",job="j"} 0
0 0 report scrape_series_added{instance="a:1",job="j"} 0
-- status 0

== faulty_no_metric_name
$ replay s
-- file s
scrape-journal 1
load 0 76
{"scrape_configs":[{"job_name":"j","static_configs":[{"targets":["a:1"]}]}]}
sweep 0
body 15 0 200 21
x 1

# c
{a="b"} 1
x{
-- out
0 0 report up{instance="a:1",job="j"} 0
0 0 report scrape_duration_seconds{instance="a:1",job="j"} 0.015
0 0 report scrape_samples_scraped{instance="a:1",job="j"} 0
0 0 report scrape_samples_post_metric_relabeling{instance="a:1",job="j"} 0
0 0 report scrape_series_added{instance="a:1",job="j"} 0
-- status 0

== faulty_braces_not_closed
$ replay s
-- file s
scrape-journal 1
load 0 76
{"scrape_configs":[{"job_name":"j","static_configs":[{"targets":["a:1"]}]}]}
sweep 0
body 15 0 200 19
x 1

# c
x{a="b"
x{
-- out
0 0 report up{instance="a:1",job="j"} 0
0 0 report scrape_duration_seconds{instance="a:1",job="j"} 0.015
0 0 report scrape_samples_scraped{instance="a:1",job="j"} 0
0 0 report scrape_samples_post_metric_relabeling{instance="a:1",job="j"} 0
0 0 report scrape_series_added{instance="a:1",job="j"} 0
-- status 0

== faulty_quote_not_closed
$ replay s
-- file s
scrape-journal 1
load 0 76
{"scrape_configs":[{"job_name":"j","static_configs":[{"targets":["a:1"]}]}]}
sweep 0
body 15 0 200 21
x 1

# c
x{a="b} 1
x{
-- out
0 0 report up{instance="a:1",job="j"} 0
0 0 report scrape_duration_seconds{instance="a:1",job="j"} 0.015
0 0 report scrape_samples_scraped{instance="a:1",job="j"} 0
0 0 report scrape_samples_post_metric_relabeling{instance="a:1",job="j"} 0
0 0 report scrape_series_added{instance="a:1",job="j"} 0
-- status 0

== faulty_escape_at_the_end
$ replay s
-- file s
scrape-journal 1
load 0 76
{"scrape_configs":[{"job_name":"j","static_configs":[{"targets":["a:1"]}]}]}
sweep 0
body 15 0 200 19
x 1

# c
x{a="b\
x{
-- out
0 0 report up{instance="a:1",job="j"} 0
0 0 report scrape_duration_seconds{instance="a:1",job="j"} 0.015
0 0 report scrape_samples_scraped{instance="a:1",job="j"} 0
0 0 report scrape_samples_post_metric_relabeling{instance="a:1",job="j"} 0
0 0 report scrape_series_added{instance="a:1",job="j"} 0
-- status 0

== faulty_two_commas
$ replay s
-- file s
scrape-journal 1
load 0 76
{"scrape_configs":[{"job_name":"j","static_configs":[{"targets":["a:1"]}]}]}
sweep 0
body 15 0 200 24
x 1

# c
x{a="b",,} 1
x{
-- out
0 0 report up{instance="a:1",job="j"} 0
0 0 report scrape_duration_seconds{instance="a:1",job="j"} 0.015
0 0 report scrape_samples_scraped{instance="a:1",job="j"} 0
0 0 report scrape_samples_post_metric_relabeling{instance="a:1",job="j"} 0
0 0 report scrape_series_added{instance="a:1",job="j"} 0
-- status 0

== faulty_name_as_a_label
$ replay s
-- file s
scrape-journal 1
load 0 76
{"scrape_configs":[{"job_name":"j","static_configs":[{"targets":["a:1"]}]}]}
sweep 0
body 15 0 200 29
x 1

# c
x{__name__="y"} 1
x{
-- out
0 0 report up{instance="a:1",job="j"} 0
0 0 report scrape_duration_seconds{instance="a:1",job="j"} 0.015
0 0 report scrape_samples_scraped{instance="a:1",job="j"} 0
0 0 report scrape_samples_post_metric_relabeling{instance="a:1",job="j"} 0
0 0 report scrape_series_added{instance="a:1",job="j"} 0
-- status 0

== faulty_colon_in_a_label_name
$ replay s
-- file s
scrape-journal 1
load 0 76
{"scrape_configs":[{"job_name":"j","static_configs":[{"targets":["a:1"]}]}]}
sweep 0
body 15 0 200 24
x 1

# c
x{a:b="c"} 1
x{
-- out
0 0 report up{instance="a:1",job="j"} 0
0 0 report scrape_duration_seconds{instance="a:1",job="j"} 0.015
0 0 report scrape_samples_scraped{instance="a:1",job="j"} 0
0 0 report scrape_samples_post_metric_relabeling{instance="a:1",job="j"} 0
0 0 report scrape_series_added{instance="a:1",job="j"} 0
-- status 0

== faulty_value_without_quotes
$ replay s
-- file s
scrape-journal 1
load 0 76
{"scrape_configs":[{"job_name":"j","static_configs":[{"targets":["a:1"]}]}]}
sweep 0
body 15 0 200 20
x 1

# c
x{a=b} 1
x{
-- out
0 0 report up{instance="a:1",job="j"} 0
0 0 report scrape_duration_seconds{instance="a:1",job="j"} 0.015
0 0 report scrape_samples_scraped{instance="a:1",job="j"} 0
0 0 report scrape_samples_post_metric_relabeling{instance="a:1",job="j"} 0
0 0 report scrape_series_added{instance="a:1",job="j"} 0
-- status 0

== faulty_three_numbers
$ replay s
-- file s
scrape-journal 1
load 0 76
{"scrape_configs":[{"job_name":"j","static_configs":[{"targets":["a:1"]}]}]}
sweep 0
body 15 0 200 19
x 1

# c
x 1 2 3
x{
-- out
0 0 report up{instance="a:1",job="j"} 0
0 0 report scrape_duration_seconds{instance="a:1",job="j"} 0.015
0 0 report scrape_samples_scraped{instance="a:1",job="j"} 0
0 0 report scrape_samples_post_metric_relabeling{instance="a:1",job="j"} 0
0 0 report scrape_series_added{instance="a:1",job="j"} 0
-- status 0

== faulty_fraction_in_a_timestamp
$ replay s
-- file s
scrape-journal 1
load 0 76
{"scrape_configs":[{"job_name":"j","static_configs":[{"targets":["a:1"]}]}]}
sweep 0
body 15 0 200 19
x 1

# c
x 1 2.0
x{
-- out
0 0 report up{instance="a:1",job="j"} 0
0 0 report scrape_duration_seconds{instance="a:1",job="j"} 0.015
0 0 report scrape_samples_scraped{instance="a:1",job="j"} 0
0 0 report scrape_samples_post_metric_relabeling{instance="a:1",job="j"} 0
0 0 report scrape_series_added{instance="a:1",job="j"} 0
-- status 0

== faulty_zero_byte
$ replay s
-- file s
scrape-journal 1
load 0 76
{"scrape_configs":[{"job_name":"j","static_configs":[{"targets":["a:1"]}]}]}
sweep 0
body 15 0 200 16
x 1

# c
\ 78 00 20 31 0a
x{
-- out
0 0 report up{instance="a:1",job="j"} 0
0 0 report scrape_duration_seconds{instance="a:1",job="j"} 0.015
0 0 report scrape_samples_scraped{instance="a:1",job="j"} 0
0 0 report scrape_samples_post_metric_relabeling{instance="a:1",job="j"} 0
0 0 report scrape_series_added{instance="a:1",job="j"} 0
-- status 0

== faulty_digit_begins_a_name
$ replay s
-- file s
scrape-journal 1
load 0 76
{"scrape_configs":[{"job_name":"j","static_configs":[{"targets":["a:1"]}]}]}
sweep 0
body 15 0 200 16
x 1

# c
1x 1
x{
-- out
0 0 report up{instance="a:1",job="j"} 0
0 0 report scrape_duration_seconds{instance="a:1",job="j"} 0.015
0 0 report scrape_samples_scraped{instance="a:1",job="j"} 0
0 0 report scrape_samples_post_metric_relabeling{instance="a:1",job="j"} 0
0 0 report scrape_series_added{instance="a:1",job="j"} 0
-- status 0

== faulty_labels_without_a_comma
$ replay s
-- file s
scrape-journal 1
load 0 76
{"scrape_configs":[{"job_name":"j","static_configs":[{"targets":["a:1"]}]}]}
sweep 0
body 15 0 200 28
x 1

# c
x{a="b" c="d"} 1
x{
-- out
0 0 report up{instance="a:1",job="j"} 0
0 0 report scrape_duration_seconds{instance="a:1",job="j"} 0.015
0 0 report scrape_samples_scraped{instance="a:1",job="j"} 0
0 0 report scrape_samples_post_metric_relabeling{instance="a:1",job="j"} 0
0 0 report scrape_series_added{instance="a:1",job="j"} 0
-- status 0

== faulty_no_break_space
$ replay s
-- file s
scrape-journal 1
load 0 76
{"scrape_configs":[{"job_name":"j","static_configs":[{"targets":["a:1"]}]}]}
sweep 0
body 15 0 200 17
x 1

# c
\ c2 a0 78 20 31 0a
x{
-- out
0 0 report up{instance="a:1",job="j"} 0
0 0 report scrape_duration_seconds{instance="a:1",job="j"} 0.015
0 0 report scrape_samples_scraped{instance="a:1",job="j"} 0
0 0 report scrape_samples_post_metric_relabeling{instance="a:1",job="j"} 0
0 0 report scrape_series_added{instance="a:1",job="j"} 0
-- status 0

== faulty_hexadecimal_value
$ replay s
-- file s
scrape-journal 1
load 0 76
{"scrape_configs":[{"job_name":"j","static_configs":[{"targets":["a:1"]}]}]}
sweep 0
body 15 0 200 19
x 1

# c
x 0x1p3
x{
-- out
0 0 report up{instance="a:1",job="j"} 0
0 0 report scrape_duration_seconds{instance="a:1",job="j"} 0.015
0 0 report scrape_samples_scraped{instance="a:1",job="j"} 0
0 0 report scrape_samples_post_metric_relabeling{instance="a:1",job="j"} 0
0 0 report scrape_series_added{instance="a:1",job="j"} 0
-- status 0

== faulty_underscore_in_a_value
$ replay s
-- file s
scrape-journal 1
load 0 76
{"scrape_configs":[{"job_name":"j","static_configs":[{"targets":["a:1"]}]}]}
sweep 0
body 15 0 200 19
x 1

# c
x 1_000
x{
-- out
0 0 report up{instance="a:1",job="j"} 0
0 0 report scrape_duration_seconds{instance="a:1",job="j"} 0.015
0 0 report scrape_samples_scraped{instance="a:1",job="j"} 0
0 0 report scrape_samples_post_metric_relabeling{instance="a:1",job="j"} 0
0 0 report scrape_series_added{instance="a:1",job="j"} 0
-- status 0

== faulty_value_that_is_no_utf_8
$ replay s
-- file s
scrape-journal 1
load 0 76
{"scrape_configs":[{"job_name":"j","static_configs":[{"targets":["a:1"]}]}]}
sweep 0
body 15 0 200 22
x 1

# c
\ 78 7b 61 3d 22 ff 22 7d 20 31 0a
x{
-- out
0 0 report up{instance="a:1",job="j"} 0
0 0 report scrape_duration_seconds{instance="a:1",job="j"} 0.015
0 0 report scrape_samples_scraped{instance="a:1",job="j"} 0
0 0 report scrape_samples_post_metric_relabeling{instance="a:1",job="j"} 0
0 0 report scrape_series_added{instance="a:1",job="j"} 0
-- status 0

== twenty_labels_and_one_of_them_twice
$ at 59999 {job="j"} s
-- file s
scrape-journal 1
load 0 82
{"scrape_configs":[{"job_name":"j","static_configs":[{"targets":["a:1","b:1"]}]}]}
sweep 0
body 15 0 200 156
x{l0="v",l1="v",l2="v",l3="v",l4="v",l5="v",l6="v",l7="v",l8="v",l9="v",l10="v",l11="v",l12="v",l13="v",l14="v",l15="v",l16="v",l17="v",l18="v",l19="v",} 1

body 15 1 200 161
x{l0="v",l1="v",l2="v",l3="v",l4="v",l5="v",l6="v",l7="v",l8="v",l9="v",l10="v",l11="v",l12="v",l13="v",l14="v",l15="v",l16="v",l17="v",l18="v",l19="v",l3=""} 1

-- out
0 scrape_duration_seconds{instance="a:1",job="j"} 0.015
0 scrape_duration_seconds{instance="b:1",job="j"} 0.015
0 scrape_samples_post_metric_relabeling{instance="a:1",job="j"} 1
0 scrape_samples_post_metric_relabeling{instance="b:1",job="j"} 0
0 scrape_samples_scraped{instance="a:1",job="j"} 1
0 scrape_samples_scraped{instance="b:1",job="j"} 0
0 scrape_series_added{instance="a:1",job="j"} 1
0 scrape_series_added{instance="b:1",job="j"} 0
0 up{instance="a:1",job="j"} 1
0 up{instance="b:1",job="j"} 0
0 x{instance="a:1",job="j",l0="v",l1="v",l10="v",l11="v",l12="v",l13="v",l14="v",l15="v",l16="v",l17="v",l18="v",l19="v",l2="v",l3="v",l4="v",l5="v",l6="v",l7="v",l8="v",l9="v"} 1
-- status 0

== values_of_each_form
$ replay s
-- file s
scrape-journal 1
load 0 76
{"scrape_configs":[{"job_name":"j","static_configs":[{"targets":["a:1"]}]}]}
sweep 0
body 15 0 200 211
v0 0
v1 1
v2 +Inf
v3 -infinity
v4 NaN
v5 .5e+3
v6 1.458255915e9
v7 7.
v8 -1E-9
v9 77777777777777777777777777777777777777777777777777777777777777777777777777777777777777777777777777777777777777777777777777777777

-- out
0 0 sample v0{instance="a:1",job="j"} 0
0 0 sample v1{instance="a:1",job="j"} 1
0 0 sample v2{instance="a:1",job="j"} +Inf
0 0 sample v3{instance="a:1",job="j"} -infinity
0 0 sample v4{instance="a:1",job="j"} NaN
0 0 sample v5{instance="a:1",job="j"} .5e+3
0 0 sample v6{instance="a:1",job="j"} 1.458255915e9
0 0 sample v7{instance="a:1",job="j"} 7.
0 0 sample v8{instance="a:1",job="j"} -1E-9
0 0 sample v9{instance="a:1",job="j"} 77777777777777777777777777777777777777777777777777777777777777777777777777777777777777777777777777777777777777777777777777777777
0 0 report up{instance="a:1",job="j"} 1
0 0 report scrape_duration_seconds{instance="a:1",job="j"} 0.015
0 0 report scrape_samples_scraped{instance="a:1",job="j"} 10
0 0 report scrape_samples_post_metric_relabeling{instance="a:1",job="j"} 10
0 0 report scrape_series_added{instance="a:1",job="j"} 10
-- status 0

== faulty_values
$ at 0 up s
-- file s
scrape-journal 1
load 0 130
{"scrape_configs":[{"job_name":"j","static_configs":[{"targets":["a:1","b:1","c:1","d:1","e:1","f:1","g:1","h:1","i:1","j:1"]}]}]}
sweep 0
body 15 0 200 3
x 

body 15 1 200 7
x -nan

body 15 2 200 4
x x

body 15 3 200 5
x 1e

body 15 4 200 4
x .

body 15 5 200 6
x 1_0

body 15 6 200 6
x --1

body 15 7 200 10
x infinit

body 15 8 200 132
x 777777777777777777777777777777777777777777777777777777777777777777777777777777777777777777777777777777777777777777777777777777777

body 15 9 200 4
x 1

-- out
0 up{instance="a:1",job="j"} 0
0 up{instance="b:1",job="j"} 0
0 up{instance="c:1",job="j"} 0
0 up{instance="d:1",job="j"} 0
0 up{instance="e:1",job="j"} 0
0 up{instance="f:1",job="j"} 0
0 up{instance="g:1",job="j"} 0
0 up{instance="h:1",job="j"} 0
0 up{instance="i:1",job="j"} 0
0 up{instance="j:1",job="j"} 1
-- status 0

== timestamps_of_each_form
$ replay s
-- file s
scrape-journal 1
load 0 76
{"scrape_configs":[{"job_name":"j","static_configs":[{"targets":["a:1"]}]}]}
sweep 0
body 15 0 200 134
t0 1 0
t1 1 +5
t2 1 -3982045
t3 1 1395066363000
t4 1 9223372036854775807
t5 1 -9223372036854775808
t6 1 00000000000000000000000000007

-- out
0 0 sample t0{instance="a:1",job="j"} 1
5 0 sample t1{instance="a:1",job="j"} 1
-3982045 0 sample t2{instance="a:1",job="j"} 1
1395066363000 0 sample t3{instance="a:1",job="j"} 1
9223372036854775807 0 sample t4{instance="a:1",job="j"} 1
-9223372036854775808 0 sample t5{instance="a:1",job="j"} 1
7 0 sample t6{instance="a:1",job="j"} 1
0 0 report up{instance="a:1",job="j"} 1
0 0 report scrape_duration_seconds{instance="a:1",job="j"} 0.015
0 0 report scrape_samples_scraped{instance="a:1",job="j"} 7
0 0 report scrape_samples_post_metric_relabeling{instance="a:1",job="j"} 7
0 0 report scrape_series_added{instance="a:1",job="j"} 7
-- status 0

== faulty_timestamps
$ at 0 up s
-- file s
scrape-journal 1
load 0 118
{"scrape_configs":[{"job_name":"j","static_configs":[{"targets":["a:1","b:1","c:1","d:1","e:1","f:1","g:1","h:1"]}]}]}
sweep 0
body 15 0 200 6
x 1 +

body 15 1 200 6
x 1 -

body 15 2 200 8
x 1 1.0

body 15 3 200 8
x 1 1e3

body 15 4 200 24
x 1 9223372036854775808

body 15 5 200 25
x 1 -9223372036854775809

body 15 6 200 25
x 1 18446744073709551616

body 15 7 200 4
x 1

-- out
0 up{instance="a:1",job="j"} 0
0 up{instance="b:1",job="j"} 0
0 up{instance="c:1",job="j"} 0
0 up{instance="d:1",job="j"} 0
0 up{instance="e:1",job="j"} 0
0 up{instance="f:1",job="j"} 0
0 up{instance="g:1",job="j"} 0
0 up{instance="h:1",job="j"} 1
-- status 0

== names_of_each_form
$ replay s
-- file s
scrape-journal 1
load 0 76
{"scrape_configs":[{"job_name":"j","static_configs":[{"targets":["a:1"]}]}]}
sweep 0
body 15 0 200 42
_A9z 1
: 2
a:b{job_="x",_A9z="y",Z="z"} 3

-- out
0 0 sample _A9z{instance="a:1",job="j"} 1
0 0 sample :{instance="a:1",job="j"} 2
0 0 sample a:b{Z="z",_A9z="y",instance="a:1",job="j",job_="x"} 3
0 0 report up{instance="a:1",job="j"} 1
0 0 report scrape_duration_seconds{instance="a:1",job="j"} 0.015
0 0 report scrape_samples_scraped{instance="a:1",job="j"} 3
0 0 report scrape_samples_post_metric_relabeling{instance="a:1",job="j"} 3
0 0 report scrape_series_added{instance="a:1",job="j"} 3
-- status 0

== faulty_names
$ at 0 up s
-- file s
scrape-journal 1
load 0 118
{"scrape_configs":[{"job_name":"j","static_configs":[{"targets":["a:1","b:1","c:1","d:1","e:1","f:1","g:1","h:1"]}]}]}
sweep 0
body 15 0 200 5
9a 1

body 15 1 200 6
a-b 1

body 15 2 200 5
é 1

body 15 3 200 12
x{9a="1"} 1

body 15 4 200 13
x{a-b="1"} 1

body 15 5 200 12
x{é="1"} 1

body 15 6 200 11
x{:="1"} 1

body 15 7 200 4
x 1

-- out
0 up{instance="a:1",job="j"} 0
0 up{instance="b:1",job="j"} 0
0 up{instance="c:1",job="j"} 0
0 up{instance="d:1",job="j"} 0
0 up{instance="e:1",job="j"} 0
0 up{instance="f:1",job="j"} 0
0 up{instance="g:1",job="j"} 0
0 up{instance="h:1",job="j"} 1
-- status 0
"#;
