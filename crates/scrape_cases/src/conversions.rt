//! `convert`: bodies of OpenMetrics as bodies of the text exposition format, and their first faulty lines.

pub const CASES: &str = r##"
== openmetrics_rows
$ convert s
-- file s
# TYPE foo counter
foo_total{a="b"} 17.0 1520879607.789 # {id="x"} 0.67
foo_created 1.5e9
# EOF
-- out
foo_total{a="b"} 17.0 1520879607789
foo_created 1.5e9
-- status 0

== openmetrics_timestamps
$ convert s
-- file s
a 1 1.520879607789e+09
b 1 -0.0015
c 1 0.0009999
d 1 +1.
e 1 .5
f 1 1e-3
g 1 12345e-2
h 1 0e999999999
i 1 9223372036854775.807
j 1 -9223372036854775.808
k 1 1520879607
# EOF
-- out
a 1 1520879607789
b 1 -1
c 1 0
d 1 1000
e 1 500
f 1 1
g 1 123450
h 1 0
i 1 9223372036854775807
j 1 -9223372036854775808
k 1 1520879607000
-- status 0

== openmetrics_exemplars
$ convert s
-- file s
# HELP foo Buckets.
# UNIT foo seconds
foo_bucket{le="0.1"} 8 # {} 0.054
foo_bucket{le="1.0"} 11 # {trace_id="KOO",span="a\"b\\c"} 0.67 1520879607.8
foo_bucket{le="+Inf"} 17 1520879608 # {id="x"} 9.8
foo_count{} 17
# EOF
-- out
foo_bucket{le="0.1"} 8
foo_bucket{le="1.0"} 11
foo_bucket{le="+Inf"} 17 1520879608000
foo_count{} 17
-- status 0

== openmetrics_page_of_the_python_client
$ convert s
-- file s
# HELP jobs Jobs done, by \"queue\".
# TYPE jobs counter
jobs_total{queue="a\\b \"c\"\nd"} 3.0 # {trace_id="abc123"} 3.0 1796056052.851473
jobs_created{queue="a\\b \"c\"\nd"} 1.7960560528514545e+09
jobs_total{queue="e"} 1.0
jobs_created{queue="e"} 1.796056052851495e+09
# HELP room_temperature_celsius Warmth
# TYPE room_temperature_celsius gauge
room_temperature_celsius{room="hall"} -1.5
# HELP wait_seconds Waits
# TYPE wait_seconds histogram
wait_seconds_bucket{le="0.1"} 1.0 # {span="x"} 0.05 1796056052.851675
wait_seconds_bucket{le="1.0"} 1.0
wait_seconds_bucket{le="+Inf"} 2.0
wait_seconds_count 2.0
wait_seconds_sum 3.05
wait_seconds_created 1.796056052851612e+09
# HELP size_bytes Sizes
# TYPE size_bytes summary
size_bytes_count 1.0
size_bytes_sum 17.0
size_bytes_created 1.7960560528516984e+09
# HELP build Build
# TYPE build info
build_info{goversion="x",version="1.2"} 1.0
# HELP state State
# TYPE state stateset
state{state="on"} 0.0
state{state="off"} 1.0
# EOF
-- out
jobs_total{queue="a\\b \"c\"\nd"} 3.0
jobs_created{queue="a\\b \"c\"\nd"} 1.7960560528514545e+09
jobs_total{queue="e"} 1.0
jobs_created{queue="e"} 1.796056052851495e+09
room_temperature_celsius{room="hall"} -1.5
wait_seconds_bucket{le="0.1"} 1.0
wait_seconds_bucket{le="1.0"} 1.0
wait_seconds_bucket{le="+Inf"} 2.0
wait_seconds_count 2.0
wait_seconds_sum 3.05
wait_seconds_created 1.796056052851612e+09
size_bytes_count 1.0
size_bytes_sum 17.0
size_bytes_created 1.7960560528516984e+09
build_info{goversion="x",version="1.2"} 1.0
state{state="on"} 0.0
state{state="off"} 1.0
-- status 0

== openmetrics_without_samples
$ convert s
-- file s
# EOF
-- status 0

== openmetrics_end_without_a_line_feed
$ convert s
-- file s
a 1
# EOF
\
-- out
a 1
-- status 0

== openmetrics_without_its_end
$ convert s
-- file s
a 1
-- err
scrape: openmetrics line 2
-- status 13

== openmetrics_of_no_bytes
$ convert s
-- file s
-- err
scrape: openmetrics line 1
-- status 13

== openmetrics_behind_its_end
$ convert s
-- file s
# EOF
a 1
-- err
scrape: openmetrics line 2
-- status 13

== openmetrics_empty_line_behind_its_end
$ convert s
-- file s
# EOF

-- err
scrape: openmetrics line 2
-- status 13

== openmetrics_two_blanks
$ convert s
-- file s
a  1
# EOF
-- err
scrape: openmetrics line 1
-- status 13

== openmetrics_empty_line
$ convert s
-- file s
a 1

b 1
# EOF
-- err
scrape: openmetrics line 2
-- status 13

== openmetrics_end_with_a_blank
$ convert s
-- file s
a 1
# EOF 
-- err
scrape: openmetrics line 3
-- status 13

== openmetrics_label_twice
$ convert s
-- file s
a{b="1",b="1"} 1
# EOF
-- err
scrape: openmetrics line 1
-- status 13

== openmetrics_label_twice_in_an_exemplar
$ convert s
-- file s
a 1
b 1 # {c="1",c="2"} 1
# EOF
-- err
scrape: openmetrics line 2
-- status 13

== openmetrics_exponent_past_all
$ convert s
-- file s
a 1 1e999999999
# EOF
-- err
scrape: openmetrics line 1
-- status 13

== openmetrics_timestamp_out_of_range
$ convert s
-- file s
a 1 9223372036854775.808
# EOF
-- err
scrape: openmetrics line 1
-- status 13

== openmetrics_quoted_name
$ convert s
-- file s
{"a.b"} 1
# EOF
-- err
scrape: openmetrics line 1
-- status 13

== openmetrics_comma_behind_the_last_label
$ convert s
-- file s
a{b="1",} 1
# EOF
-- err
scrape: openmetrics line 1
-- status 13

== openmetrics_name_of_the_metric_as_a_label
$ convert s
-- file s
a{__name__="b"} 1
# EOF
-- err
scrape: openmetrics line 1
-- status 13

== convert_without_a_file
$ convert
-- file s
# EOF
-- err
scrape: bad words
-- status 2

== convert_with_a_flag
$ convert --kept s
-- file s
# EOF
-- err
scrape: bad words
-- status 2

== convert_of_an_absent_file
$ convert t
-- file s
# EOF
-- err
scrape: absent t
-- status 3

== openmetrics_lines_that_are_read
$ convert s
-- file s
#
#EOF
# EOF 
\ 23 20 45 4f 46 0d 0a
a:b 1
_c{} +Inf
a{b="}, \" \n",c=""} NaN
a{b="é\\é"} 1
a 1 # {} 1
a 1 2 # {} 1 2
a{b="c"} 1 # {__name__="x y",b=""} 1e3 .5
a 1 # {b="c"} 1 9e15
# EOF
-- out
a:b 1
_c{} +Inf
a{b="}, \" \n",c=""} NaN
a{b="é\\é"} 1
a 1
a 1 2000
a{b="c"} 1
a 1
-- status 0

== openmetrics_timestamps_whose_point_moves
$ convert s
-- file s
a 1 0
a 1 -0
a 1 1520879607.789
a 1 1.5208796077899e9
a 1 -0.0009
a 1 0.0019999
a 1 -1
a 1 5.
a 1 5.E1
a 1 12345e-4
a 1 12345e-8
a 1 123.45e-9
a 1 0.00000012e7
a 1 1e-999999999999999999999999
a 1 0.000e99999999999999999999999
a 1 000000000000000000000000000000000001
a 1 9223372036854775.8079
a 1 -9223372036854775.8089
a 1 1e15
a 1 000000000000000000000000000000000000000000000000000000000000000000000000000000000000000000000000000000000000000000000000000025.5
# EOF
-- out
a 1 0
a 1 0
a 1 1520879607789
a 1 1520879607789
a 1 0
a 1 1
a 1 -1000
a 1 5000
a 1 50000
a 1 1234
a 1 0
a 1 0
a 1 1200
a 1 0
a 1 0
a 1 1000
a 1 9223372036854775807
a 1 -9223372036854775808
a 1 1000000000000000000
a 1 25500
-- status 0

== openmetrics_timestamp_of_129_bytes
$ convert s
-- file s
a 1 0000000000000000000000000000000000000000000000000000000000000000000000000000000000000000000000000000000000000000000000000000025.5
# EOF
-- err
scrape: openmetrics line 1
-- status 13
"##;
