//! The flag `--kept`, and the forms of words that the commands take or don't.

pub const CASES: &str = r#"
== flag_before_the_file
$ replay --kept s
-- file s
scrape-journal 1
load 0 76
{"scrape_configs":[{"job_name":"j","static_configs":[{"targets":["a:1"]}]}]}
sweep 0
body 15 0 200 4
x 1

-- out
kept 0 0 sample x{instance="a:1",job="j"} 1
kept 0 0 report up{instance="a:1",job="j"} 1
kept 0 0 report scrape_duration_seconds{instance="a:1",job="j"} 0.015
kept 0 0 report scrape_samples_scraped{instance="a:1",job="j"} 1
kept 0 0 report scrape_samples_post_metric_relabeling{instance="a:1",job="j"} 1
kept 0 0 report scrape_series_added{instance="a:1",job="j"} 1
-- status 0

== flag_behind_the_file
$ replay s --kept
-- file s
scrape-journal 1
load 0 76
{"scrape_configs":[{"job_name":"j","static_configs":[{"targets":["a:1"]}]}]}
sweep 0
body 15 0 200 4
x 1

-- out
kept 0 0 sample x{instance="a:1",job="j"} 1
kept 0 0 report up{instance="a:1",job="j"} 1
kept 0 0 report scrape_duration_seconds{instance="a:1",job="j"} 0.015
kept 0 0 report scrape_samples_scraped{instance="a:1",job="j"} 1
kept 0 0 report scrape_samples_post_metric_relabeling{instance="a:1",job="j"} 1
kept 0 0 report scrape_series_added{instance="a:1",job="j"} 1
-- status 0

== file_behind_two_dashes
$ replay -- s
-- file s
scrape-journal 1
load 0 76
{"scrape_configs":[{"job_name":"j","static_configs":[{"targets":["a:1"]}]}]}
sweep 0
body 15 0 200 4
x 1

-- out
0 0 sample x{instance="a:1",job="j"} 1
0 0 report up{instance="a:1",job="j"} 1
0 0 report scrape_duration_seconds{instance="a:1",job="j"} 0.015
0 0 report scrape_samples_scraped{instance="a:1",job="j"} 1
0 0 report scrape_samples_post_metric_relabeling{instance="a:1",job="j"} 1
0 0 report scrape_series_added{instance="a:1",job="j"} 1
-- status 0

== flag_and_file_behind_two_dashes
$ replay --kept -- s
-- file s
scrape-journal 1
load 0 76
{"scrape_configs":[{"job_name":"j","static_configs":[{"targets":["a:1"]}]}]}
sweep 0
body 15 0 200 4
x 1

-- out
kept 0 0 sample x{instance="a:1",job="j"} 1
kept 0 0 report up{instance="a:1",job="j"} 1
kept 0 0 report scrape_duration_seconds{instance="a:1",job="j"} 0.015
kept 0 0 report scrape_samples_scraped{instance="a:1",job="j"} 1
kept 0 0 report scrape_samples_post_metric_relabeling{instance="a:1",job="j"} 1
kept 0 0 report scrape_series_added{instance="a:1",job="j"} 1
-- status 0

== two_dashes_behind_the_file
$ replay s --
-- file s
scrape-journal 1
load 0 76
{"scrape_configs":[{"job_name":"j","static_configs":[{"targets":["a:1"]}]}]}
sweep 0
body 15 0 200 4
x 1

-- out
0 0 sample x{instance="a:1",job="j"} 1
0 0 report up{instance="a:1",job="j"} 1
0 0 report scrape_duration_seconds{instance="a:1",job="j"} 0.015
0 0 report scrape_samples_scraped{instance="a:1",job="j"} 1
0 0 report scrape_samples_post_metric_relabeling{instance="a:1",job="j"} 1
0 0 report scrape_series_added{instance="a:1",job="j"} 1
-- status 0

== file_of_a_dash
$ replay -
-- file -
scrape-journal 1
load 0 76
{"scrape_configs":[{"job_name":"j","static_configs":[{"targets":["a:1"]}]}]}
sweep 0
body 15 0 200 4
x 1

-- out
0 0 sample x{instance="a:1",job="j"} 1
0 0 report up{instance="a:1",job="j"} 1
0 0 report scrape_duration_seconds{instance="a:1",job="j"} 0.015
0 0 report scrape_samples_scraped{instance="a:1",job="j"} 1
0 0 report scrape_samples_post_metric_relabeling{instance="a:1",job="j"} 1
0 0 report scrape_series_added{instance="a:1",job="j"} 1
-- status 0

== file_named_as_the_flag
$ replay -- --kept
-- file --kept
scrape-journal 1
load 0 76
{"scrape_configs":[{"job_name":"j","static_configs":[{"targets":["a:1"]}]}]}
sweep 0
body 15 0 200 4
x 1

-- out
0 0 sample x{instance="a:1",job="j"} 1
0 0 report up{instance="a:1",job="j"} 1
0 0 report scrape_duration_seconds{instance="a:1",job="j"} 0.015
0 0 report scrape_samples_scraped{instance="a:1",job="j"} 1
0 0 report scrape_samples_post_metric_relabeling{instance="a:1",job="j"} 1
0 0 report scrape_series_added{instance="a:1",job="j"} 1
-- status 0

== file_named_as_a_command
$ replay check
-- file check
scrape-journal 1
load 0 76
{"scrape_configs":[{"job_name":"j","static_configs":[{"targets":["a:1"]}]}]}
sweep 0
body 15 0 200 4
x 1

-- out
0 0 sample x{instance="a:1",job="j"} 1
0 0 report up{instance="a:1",job="j"} 1
0 0 report scrape_duration_seconds{instance="a:1",job="j"} 0.015
0 0 report scrape_samples_scraped{instance="a:1",job="j"} 1
0 0 report scrape_samples_post_metric_relabeling{instance="a:1",job="j"} 1
0 0 report scrape_series_added{instance="a:1",job="j"} 1
-- status 0

== check_behind_two_dashes
$ check -- s
-- file s
{}
\
-- out
ok 0
-- status 0

== empty_name_of_a_file
$ replay ''
-- file s
scrape-journal 1
-- err
scrape: absent 
-- status 3

== flag_twice
$ replay --kept --kept s
-- file s
scrape-journal 1
-- err
scrape: bad words
-- status 2

== flag_twice_round_the_file
$ replay --kept s --kept
-- file s
scrape-journal 1
-- err
scrape: bad words
-- status 2

== flag_without_a_file
$ replay --kept
-- file s
scrape-journal 1
-- err
scrape: bad words
-- status 2

== flag_with_a_value
$ replay --kept=true s
-- file s
scrape-journal 1
-- err
scrape: bad words
-- status 2

== flag_cut_short
$ replay --kep s
-- file s
scrape-journal 1
-- err
scrape: bad words
-- status 2

== flag_of_one_dash
$ replay -kept s
-- file s
scrape-journal 1
-- err
scrape: bad words
-- status 2

== unknown_flag
$ replay --all s
-- file s
scrape-journal 1
-- err
scrape: bad words
-- status 2

== unknown_short_flag
$ replay -k s
-- file s
scrape-journal 1
-- err
scrape: bad words
-- status 2

== number_with_a_sign
$ replay -1
-- file s
scrape-journal 1
-- err
scrape: bad words
-- status 2

== no_help
$ replay --help
-- file s
scrape-journal 1
-- err
scrape: bad words
-- status 2

== no_short_help
$ check -h
-- file s
scrape-journal 1
-- err
scrape: bad words
-- status 2

== no_version
$ replay --version s
-- file s
scrape-journal 1
-- err
scrape: bad words
-- status 2

== flag_before_the_command
$ --kept replay s
-- file s
scrape-journal 1
-- err
scrape: bad words
-- status 2

== flag_of_another_command
$ check --kept s
-- file s
scrape-journal 1
-- err
scrape: bad words
-- status 2

== flag_of_another_command_behind_the_file
$ check s --kept
-- file s
scrape-journal 1
-- err
scrape: bad words
-- status 2

== two_dashes_alone
$ replay --
-- file s
scrape-journal 1
-- err
scrape: bad words
-- status 2

== two_files_behind_two_dashes
$ replay -- s s
-- file s
scrape-journal 1
-- err
scrape: bad words
-- status 2

== flag_behind_two_dashes_and_the_file
$ replay -- s --kept
-- file s
scrape-journal 1
-- err
scrape: bad words
-- status 2

== two_files_and_the_flag
$ replay s --kept s
-- file s
scrape-journal 1
-- err
scrape: bad words
-- status 2

== empty_word_behind_the_file
$ replay s ''
-- file s
scrape-journal 1
-- err
scrape: bad words
-- status 2

== empty_word_before_the_file
$ check '' s
-- file s
scrape-journal 1
-- err
scrape: bad words
-- status 2
"#;
