//! One configuration at least for each field and each fault.

pub const CASES: &str = r#"
== taken_scrape_interval
$ check s
-- file s
{"scrape_configs":[{"job_name":"j","scrape_interval":"34y"}]}
\
-- out
ok 1
-- status 0

== taken_scrape_interval_2
$ check s
-- file s
{"scrape_configs":[{"job_name":"j","scrape_interval":"5s"}]}
\
-- out
ok 1
-- status 0

== taken_scrape_timeout
$ check s
-- file s
{"scrape_configs":[{"job_name":"j","scrape_timeout":"0"}]}
\
-- out
ok 1
-- status 0

== taken_scheme
$ check s
-- file s
{"scrape_configs":[{"job_name":"j","scheme":"https"}]}
\
-- out
ok 1
-- status 0

== taken_label_value_length_limit
$ check s
-- file s
{"scrape_configs":[{"job_name":"j","label_value_length_limit":0}]}
\
-- out
ok 1
-- status 0

== taken_target_label
$ check s
-- file s
{"scrape_configs":[{"job_name":"j","relabel_configs":[{"target_label":"$1"}]}]}
\
-- out
ok 1
-- status 0

== taken_target_label_2
$ check s
-- file s
{"scrape_configs":[{"job_name":"j","relabel_configs":[{"action":"KEEP","target_label":""}]}]}
\
-- out
ok 1
-- status 0

== taken_target_label_3
$ check s
-- file s
{"scrape_configs":[{"job_name":"j","relabel_configs":[{"action":"hashmod","modulus":18446744073709551615,"target_label":"t"}]}]}
\
-- out
ok 1
-- status 0

== taken_tracing
$ check s
-- file s
{"rule_files":null,"alerting":1,"remote_write":2,"remote_read":3,"storage":4,"tracing":5}
\
-- out
ok 0
-- status 0

== taken_query_log_file
$ check s
-- file s
{"global":{"evaluation_interval":1,"external_labels":null,"query_log_file":3}}
\
-- out
ok 0
-- status 0

== taken_body_size_limit
$ check s
-- file s
{"global":{"body_size_limit":4503599627370495}}
\
-- out
ok 0
-- status 0

== taken_scrape_interval_3
$ check s
-- file s
{"scrape_configs":[{"job_name":"j","scrape_interval":"1h30m"}]}
\
-- out
ok 1
-- status 0

== unknown_color
$ check s
-- file s
{"scrape_configs":[{"job_name":"j","color":1}]}
\
-- err
scrape: config Unknown /scrape_configs/0/color
-- status 4

== shape_scrape_interval
$ check s
-- file s
{"scrape_configs":[{"job_name":"j","scrape_interval":null}]}
\
-- err
scrape: config Shape /scrape_configs/0/scrape_interval
-- status 4

== value_scrape_interval
$ check s
-- file s
{"scrape_configs":[{"job_name":"j","scrape_interval":"1099511627777ms"}]}
\
-- err
scrape: config Value /scrape_configs/0/scrape_interval
-- status 4

== value_scrape_timeout
$ check s
-- file s
{"scrape_configs":[{"job_name":"j","scrape_timeout":"2m"}]}
\
-- err
scrape: config Value /scrape_configs/0/scrape_timeout
-- status 4

== shape_metrics_path
$ check s
-- file s
{"scrape_configs":[{"job_name":"j","metrics_path":1}]}
\
-- err
scrape: config Shape /scrape_configs/0/metrics_path
-- status 4

== value_scheme
$ check s
-- file s
{"scrape_configs":[{"job_name":"j","scheme":"ftp"}]}
\
-- err
scrape: config Value /scrape_configs/0/scheme
-- status 4

== shape_honor_labels
$ check s
-- file s
{"scrape_configs":[{"job_name":"j","honor_labels":"true"}]}
\
-- err
scrape: config Shape /scrape_configs/0/honor_labels
-- status 4

== shape_honor_timestamps
$ check s
-- file s
{"scrape_configs":[{"job_name":"j","honor_timestamps":null}]}
\
-- err
scrape: config Shape /scrape_configs/0/honor_timestamps
-- status 4

== shape_params
$ check s
-- file s
{"scrape_configs":[{"job_name":"j","params":[]}]}
\
-- err
scrape: config Shape /scrape_configs/0/params
-- status 4

== shape_params_a
$ check s
-- file s
{"scrape_configs":[{"job_name":"j","params":{"a":"b"}}]}
\
-- err
scrape: config Shape /scrape_configs/0/params/a
-- status 4

== shape_params_a_2
$ check s
-- file s
{"scrape_configs":[{"job_name":"j","params":{"a":["b",1]}}]}
\
-- err
scrape: config Shape /scrape_configs/0/params/a/1
-- status 4

== value_sample_limit
$ check s
-- file s
{"scrape_configs":[{"job_name":"j","sample_limit":1e3}]}
\
-- err
scrape: config Value /scrape_configs/0/sample_limit
-- status 4

== shape_label_name_length_limit
$ check s
-- file s
{"scrape_configs":[{"job_name":"j","label_name_length_limit":null}]}
\
-- err
scrape: config Shape /scrape_configs/0/label_name_length_limit
-- status 4

== shape_body_size_limit
$ check s
-- file s
{"scrape_configs":[{"job_name":"j","body_size_limit":"1MB"}]}
\
-- err
scrape: config Shape /scrape_configs/0/body_size_limit
-- status 4

== shape_static_configs
$ check s
-- file s
{"scrape_configs":[{"job_name":"j","static_configs":{}}]}
\
-- err
scrape: config Shape /scrape_configs/0/static_configs
-- status 4

== shape_static_configs_2
$ check s
-- file s
{"scrape_configs":[{"job_name":"j","static_configs":[[]]}]}
\
-- err
scrape: config Shape /scrape_configs/0/static_configs/0
-- status 4

== shape_static_configs_targets
$ check s
-- file s
{"scrape_configs":[{"job_name":"j","static_configs":[{"targets":["a:1",2]}]}]}
\
-- err
scrape: config Shape /scrape_configs/0/static_configs/0/targets/1
-- status 4

== shape_static_configs_labels_a
$ check s
-- file s
{"scrape_configs":[{"job_name":"j","static_configs":[{"labels":{"a":1}}]}]}
\
-- err
scrape: config Shape /scrape_configs/0/static_configs/0/labels/a
-- status 4

== value_static_configs_labels
$ check s
-- file s
{"scrape_configs":[{"job_name":"j","static_configs":[{"labels":{"9a":""}}]}]}
\
-- err
scrape: config Value /scrape_configs/0/static_configs/0/labels
-- status 4

== unknown_static_configs_hosts
$ check s
-- file s
{"scrape_configs":[{"job_name":"j","static_configs":[{"hosts":[]}]}]}
\
-- err
scrape: config Unknown /scrape_configs/0/static_configs/0/hosts
-- status 4

== missing_file_sd_configs_files
$ check s
-- file s
{"scrape_configs":[{"job_name":"j","file_sd_configs":[{}]}]}
\
-- err
scrape: config Missing /scrape_configs/0/file_sd_configs/0/files
-- status 4

== value_file_sd_configs_files
$ check s
-- file s
{"scrape_configs":[{"job_name":"j","file_sd_configs":[{"files":["a",""]}]}]}
\
-- err
scrape: config Value /scrape_configs/0/file_sd_configs/0/files
-- status 4

== value_file_sd_configs_refresh_interval
$ check s
-- file s
{"scrape_configs":[{"job_name":"j","file_sd_configs":[{"files":["a"],"refresh_interval":"x"}]}]}
\
-- err
scrape: config Value /scrape_configs/0/file_sd_configs/0/refresh_interval
-- status 4

== shape_file_sd_configs_files
$ check s
-- file s
{"scrape_configs":[{"job_name":"j","file_sd_configs":[{"files":"a"}]}]}
\
-- err
scrape: config Shape /scrape_configs/0/file_sd_configs/0/files
-- status 4

== missing_relabel_configs_target_label
$ check s
-- file s
{"scrape_configs":[{"job_name":"j","relabel_configs":[{}]}]}
\
-- err
scrape: config Missing /scrape_configs/0/relabel_configs/0/target_label
-- status 4

== value_relabel_configs_target_label
$ check s
-- file s
{"scrape_configs":[{"job_name":"j","relabel_configs":[{"target_label":""}]}]}
\
-- err
scrape: config Value /scrape_configs/0/relabel_configs/0/target_label
-- status 4

== value_relabel_configs_action
$ check s
-- file s
{"scrape_configs":[{"job_name":"j","relabel_configs":[{"action":"kep"}]}]}
\
-- err
scrape: config Value /scrape_configs/0/relabel_configs/0/action
-- status 4

== missing_relabel_configs_modulus
$ check s
-- file s
{"scrape_configs":[{"job_name":"j","relabel_configs":[{"action":"hashmod","target_label":"t"}]}]}
\
-- err
scrape: config Missing /scrape_configs/0/relabel_configs/0/modulus
-- status 4

== value_relabel_configs_modulus
$ check s
-- file s
{"scrape_configs":[{"job_name":"j","relabel_configs":[{"action":"hashmod","modulus":0,"target_label":"t"}]}]}
\
-- err
scrape: config Value /scrape_configs/0/relabel_configs/0/modulus
-- status 4

== value_relabel_configs_target_label_2
$ check s
-- file s
{"scrape_configs":[{"job_name":"j","relabel_configs":[{"action":"lowercase","target_label":"$1"}]}]}
\
-- err
scrape: config Value /scrape_configs/0/relabel_configs/0/target_label
-- status 4

== missing_relabel_configs_target_label_2
$ check s
-- file s
{"scrape_configs":[{"job_name":"j","relabel_configs":[{"action":"keepequal"}]}]}
\
-- err
scrape: config Missing /scrape_configs/0/relabel_configs/0/target_label
-- status 4

== value_relabel_configs_source_labels
$ check s
-- file s
{"scrape_configs":[{"job_name":"j","relabel_configs":[{"action":"drop","source_labels":["a","9"]}]}]}
\
-- err
scrape: config Value /scrape_configs/0/relabel_configs/0/source_labels
-- status 4

== shape_relabel_configs_source_labels
$ check s
-- file s
{"scrape_configs":[{"job_name":"j","relabel_configs":[{"action":"drop","source_labels":["9",1]}]}]}
\
-- err
scrape: config Shape /scrape_configs/0/relabel_configs/0/source_labels/1
-- status 4

== shape_relabel_configs_separator
$ check s
-- file s
{"scrape_configs":[{"job_name":"j","relabel_configs":[{"action":"drop","separator":1}]}]}
\
-- err
scrape: config Shape /scrape_configs/0/relabel_configs/0/separator
-- status 4

== shape_relabel_configs_replacement
$ check s
-- file s
{"scrape_configs":[{"job_name":"j","relabel_configs":[{"action":"drop","replacement":1}]}]}
\
-- err
scrape: config Shape /scrape_configs/0/relabel_configs/0/replacement
-- status 4

== rule_relabel_configs_regex
$ check s
-- file s
{"scrape_configs":[{"job_name":"j","relabel_configs":[{"action":"drop","regex":"("}]}]}
\
-- err
scrape: config Rule /scrape_configs/0/relabel_configs/0/regex
-- status 4

== rule_relabel_configs_regex_2
$ check s
-- file s
{"scrape_configs":[{"job_name":"j","relabel_configs":[{"action":"keepequal","target_label":"t","regex":"("}]}]}
\
-- err
scrape: config Rule /scrape_configs/0/relabel_configs/0/regex
-- status 4

== rule_metric_relabel_configs_regex
$ check s
-- file s
{"scrape_configs":[{"job_name":"j","relabel_configs":[{"action":"drop","regex":"("}],"metric_relabel_configs":[{"action":"drop"},{"action":"keep","regex":"["}]}]}
\
-- err
scrape: config Rule /scrape_configs/0/metric_relabel_configs/1/regex
-- status 4

== unknown_a_b_c
$ check s
-- file s
{"a/b~c":1}
\
-- err
scrape: config Unknown /a~1b~0c
-- status 4

== shape_global
$ check s
-- file s
{"global":null}
\
-- err
scrape: config Shape /global
-- status 4

== unknown_global_color
$ check s
-- file s
{"global":{"color":1}}
\
-- err
scrape: config Unknown /global/color
-- status 4

== shape_global_scrape_interval
$ check s
-- file s
{"global":{"scrape_interval":5}}
\
-- err
scrape: config Shape /global/scrape_interval
-- status 4

== value_global_scrape_interval
$ check s
-- file s
{"global":{"scrape_interval":"5"}}
\
-- err
scrape: config Value /global/scrape_interval
-- status 4

== value_global_scrape_timeout
$ check s
-- file s
{"global":{"scrape_interval":"5s","scrape_timeout":"6s"}}
\
-- err
scrape: config Value /global/scrape_timeout
-- status 4

== value_global_scrape_interval_2
$ check s
-- file s
{"global":{"scrape_interval":"1m1h"}}
\
-- err
scrape: config Value /global/scrape_interval
-- status 4

== shape_global_sample_limit
$ check s
-- file s
{"global":{"sample_limit":"1"}}
\
-- err
scrape: config Shape /global/sample_limit
-- status 4

== value_global_sample_limit
$ check s
-- file s
{"global":{"sample_limit":1.0}}
\
-- err
scrape: config Value /global/sample_limit
-- status 4

== value_global_label_limit
$ check s
-- file s
{"global":{"label_limit":-1}}
\
-- err
scrape: config Value /global/label_limit
-- status 4

== value_global_target_limit
$ check s
-- file s
{"global":{"target_limit":4503599627370496}}
\
-- err
scrape: config Value /global/target_limit
-- status 4

== shape_scrape_configs
$ check s
-- file s
{"scrape_configs":{}}
\
-- err
scrape: config Shape /scrape_configs
-- status 4

== shape
$ check s
-- file s
{"scrape_configs":[null]}
\
-- err
scrape: config Shape /scrape_configs/0
-- status 4

== missing_job_name
$ check s
-- file s
{"scrape_configs":[{}]}
\
-- err
scrape: config Missing /scrape_configs/0/job_name
-- status 4

== value_scrape_interval_2
$ check s
-- file s
{"scrape_configs":[{"job_name":"j","scrape_interval":"1m1h"}]}
\
-- err
scrape: config Value /scrape_configs/0/scrape_interval
-- status 4

== value_job_name
$ check s
-- file s
{"scrape_configs":[{"job_name":""}]}
\
-- err
scrape: config Value /scrape_configs/0/job_name
-- status 4

== taken_track_timestamps_staleness
$ check s
-- file s
{"scrape_configs":[{"job_name":"j","track_timestamps_staleness":true}]}
\
-- out
ok 1
-- status 0

== taken_extra_scrape_metrics
$ check s
-- file s
{"scrape_configs":[{"job_name":"j","extra_scrape_metrics":true}]}
\
-- out
ok 1
-- status 0

== shape_track_timestamps_staleness
$ check s
-- file s
{"scrape_configs":[{"job_name":"j","track_timestamps_staleness":1}]}
\
-- err
scrape: config Shape /scrape_configs/0/track_timestamps_staleness
-- status 4

== shape_extra_scrape_metrics
$ check s
-- file s
{"scrape_configs":[{"job_name":"j","extra_scrape_metrics":"true"}]}
\
-- err
scrape: config Shape /scrape_configs/0/extra_scrape_metrics
-- status 4

== unknown_global_track_timestamps_staleness
$ check s
-- file s
{"global":{"track_timestamps_staleness":true}}
\
-- err
scrape: config Unknown /global/track_timestamps_staleness
-- status 4

== unknown_global_extra_scrape_metrics
$ check s
-- file s
{"global":{"extra_scrape_metrics":true}}
\
-- err
scrape: config Unknown /global/extra_scrape_metrics
-- status 4

== value_relabel_configs_action_2
$ check s
-- file s
{"scrape_configs":[{"job_name":"j","relabel_configs":[{"action":"label_drop"}]}]}
\
-- err
scrape: config Value /scrape_configs/0/relabel_configs/0/action
-- status 4

== value_relabel_configs_action_3
$ check s
-- file s
{"scrape_configs":[{"job_name":"j","relabel_configs":[{"action":""}]}]}
\
-- err
scrape: config Value /scrape_configs/0/relabel_configs/0/action
-- status 4

== shape_relabel_configs_action
$ check s
-- file s
{"scrape_configs":[{"job_name":"j","relabel_configs":[{"action":1}]}]}
\
-- err
scrape: config Shape /scrape_configs/0/relabel_configs/0/action
-- status 4

== value_relabel_configs_target_label_3
$ check s
-- file s
{"scrape_configs":[{"job_name":"j","relabel_configs":[{"action":"HashMod","modulus":2,"target_label":"1"}]}]}
\
-- err
scrape: config Value /scrape_configs/0/relabel_configs/0/target_label
-- status 4

== shape_of_the_eighteenth_target
$ check s
-- file s
{"scrape_configs":[{"job_name":"j","static_configs":[{"targets":["","","","","","","","","","","","","","","","","",17]}]}]}
\
-- err
scrape: config Shape /scrape_configs/0/static_configs/0/targets/17
-- status 4

== durations_of_each_form
$ check s
-- file s
{"scrape_configs":[
{"job_name":"0","scrape_interval":"1y","scrape_timeout":"31536000000ms"},
{"job_name":"1","scrape_interval":"31536000000ms","scrape_timeout":"1y"},
{"job_name":"2","scrape_interval":"1w","scrape_timeout":"604800000ms"},
{"job_name":"3","scrape_interval":"604800000ms","scrape_timeout":"1w"},
{"job_name":"4","scrape_interval":"1d","scrape_timeout":"86400000ms"},
{"job_name":"5","scrape_interval":"86400000ms","scrape_timeout":"1d"},
{"job_name":"6","scrape_interval":"1h30m","scrape_timeout":"5400000ms"},
{"job_name":"7","scrape_interval":"5400000ms","scrape_timeout":"1h30m"},
{"job_name":"8","scrape_interval":"1m1ms","scrape_timeout":"60001ms"},
{"job_name":"9","scrape_interval":"60001ms","scrape_timeout":"1m1ms"},
{"job_name":"10","scrape_interval":"00005s","scrape_timeout":"5000ms"},
{"job_name":"11","scrape_interval":"5000ms","scrape_timeout":"00005s"},
{"job_name":"12","scrape_interval":"5ms","scrape_timeout":"5ms"},
{"job_name":"13","scrape_interval":"5ms","scrape_timeout":"5ms"},
{"job_name":"14","scrape_interval":"1y2w3d4h5m6s7ms","scrape_timeout":"33019506007ms"},
{"job_name":"15","scrape_interval":"33019506007ms","scrape_timeout":"1y2w3d4h5m6s7ms"},
{"job_name":"16","scrape_interval":"00000000000000000000000000000000000000001s","scrape_timeout":"1000ms"},
{"job_name":"17","scrape_interval":"1000ms","scrape_timeout":"00000000000000000000000000000000000000001s"},
{"job_name":"18","scrape_interval":"34y315d","scrape_timeout":"1099440000000ms"},
{"job_name":"19","scrape_interval":"1099440000000ms","scrape_timeout":"34y315d"},
{"job_name":"20","scrape_interval":"1099511627776ms","scrape_timeout":"1099511627776ms"},
{"job_name":"21","scrape_interval":"1099511627776ms","scrape_timeout":"1099511627776ms"},
{"job_name":"22","scrape_interval":"0","scrape_timeout":"60000ms"},
{"job_name":"24","scrape_interval":"0s","scrape_timeout":"60000ms"}]}
\
-- out
ok 24
-- status 0

== value_of_no_duration_1
$ check s
-- file s
{"scrape_configs":[{"job_name":"j","scrape_interval":""}]}
\
-- err
scrape: config Value /scrape_configs/0/scrape_interval
-- status 4

== value_of_no_duration_2
$ check s
-- file s
{"scrape_configs":[{"job_name":"j","scrape_interval":"5"}]}
\
-- err
scrape: config Value /scrape_configs/0/scrape_interval
-- status 4

== value_of_no_duration_3
$ check s
-- file s
{"scrape_configs":[{"job_name":"j","scrape_interval":"00"}]}
\
-- err
scrape: config Value /scrape_configs/0/scrape_interval
-- status 4

== value_of_no_duration_4
$ check s
-- file s
{"scrape_configs":[{"job_name":"j","scrape_interval":"s"}]}
\
-- err
scrape: config Value /scrape_configs/0/scrape_interval
-- status 4

== value_of_no_duration_5
$ check s
-- file s
{"scrape_configs":[{"job_name":"j","scrape_interval":"1s1s"}]}
\
-- err
scrape: config Value /scrape_configs/0/scrape_interval
-- status 4

== value_of_no_duration_6
$ check s
-- file s
{"scrape_configs":[{"job_name":"j","scrape_interval":"1ms1m"}]}
\
-- err
scrape: config Value /scrape_configs/0/scrape_interval
-- status 4

== value_of_no_duration_7
$ check s
-- file s
{"scrape_configs":[{"job_name":"j","scrape_interval":"-1s"}]}
\
-- err
scrape: config Value /scrape_configs/0/scrape_interval
-- status 4

== value_of_no_duration_8
$ check s
-- file s
{"scrape_configs":[{"job_name":"j","scrape_interval":"1.5s"}]}
\
-- err
scrape: config Value /scrape_configs/0/scrape_interval
-- status 4

== value_of_no_duration_9
$ check s
-- file s
{"scrape_configs":[{"job_name":"j","scrape_interval":" 1s"}]}
\
-- err
scrape: config Value /scrape_configs/0/scrape_interval
-- status 4

== value_of_no_duration_10
$ check s
-- file s
{"scrape_configs":[{"job_name":"j","scrape_interval":"1s "}]}
\
-- err
scrape: config Value /scrape_configs/0/scrape_interval
-- status 4

== value_of_no_duration_11
$ check s
-- file s
{"scrape_configs":[{"job_name":"j","scrape_interval":"1S"}]}
\
-- err
scrape: config Value /scrape_configs/0/scrape_interval
-- status 4

== value_of_no_duration_12
$ check s
-- file s
{"scrape_configs":[{"job_name":"j","scrape_interval":"1mss"}]}
\
-- err
scrape: config Value /scrape_configs/0/scrape_interval
-- status 4

== value_of_no_duration_13
$ check s
-- file s
{"scrape_configs":[{"job_name":"j","scrape_interval":"1é"}]}
\
-- err
scrape: config Value /scrape_configs/0/scrape_interval
-- status 4

== value_of_no_duration_14
$ check s
-- file s
{"scrape_configs":[{"job_name":"j","scrape_interval":"34y320d"}]}
\
-- err
scrape: config Value /scrape_configs/0/scrape_interval
-- status 4

== value_of_no_duration_15
$ check s
-- file s
{"scrape_configs":[{"job_name":"j","scrape_interval":"36893488147419103232ms"}]}
\
-- err
scrape: config Value /scrape_configs/0/scrape_interval
-- status 4

== value_of_no_duration_16
$ check s
-- file s
{"scrape_configs":[{"job_name":"j","scrape_interval":"584942418y"}]}
\
-- err
scrape: config Value /scrape_configs/0/scrape_interval
-- status 4

== value_of_no_duration_17
$ check s
-- file s
{"scrape_configs":[{"job_name":"j","scrape_interval":"9999999999999999999999999999999999999999s"}]}
\
-- err
scrape: config Value /scrape_configs/0/scrape_interval
-- status 4

== value_of_no_label_name_1
$ check s
-- file s
{"scrape_configs":[{"job_name":"j","static_configs":[{"labels":{"":"x"}}]}]}
\
-- err
scrape: config Value /scrape_configs/0/static_configs/0/labels
-- status 4

== value_of_no_label_name_2
$ check s
-- file s
{"scrape_configs":[{"job_name":"j","static_configs":[{"labels":{"9a":"x"}}]}]}
\
-- err
scrape: config Value /scrape_configs/0/static_configs/0/labels
-- status 4

== value_of_no_label_name_3
$ check s
-- file s
{"scrape_configs":[{"job_name":"j","static_configs":[{"labels":{"a-b":"x"}}]}]}
\
-- err
scrape: config Value /scrape_configs/0/static_configs/0/labels
-- status 4

== value_of_no_label_name_4
$ check s
-- file s
{"scrape_configs":[{"job_name":"j","static_configs":[{"labels":{"é":"x"}}]}]}
\
-- err
scrape: config Value /scrape_configs/0/static_configs/0/labels
-- status 4

== value_of_no_label_name_5
$ check s
-- file s
{"scrape_configs":[{"job_name":"j","static_configs":[{"labels":{":":"x"}}]}]}
\
-- err
scrape: config Value /scrape_configs/0/static_configs/0/labels
-- status 4
"#;
