//! Words for `synth`, and scripts that are too large.
pub const CASES: &str = r#"
== no_scrapes
$ synth 7 3 0
-- out
events 4
entries 0
sample 0
stale 0
report 0
report-stale 0
digest d41d8cd98f00b204e9800998ecf8427e
runs 3
-- status 0

== largest_number_of_targets_without_scrapes
$ synth 4294967295 10000 0
-- out
events 4
entries 0
sample 0
stale 0
report 0
report-stale 0
digest d41d8cd98f00b204e9800998ecf8427e
runs 10000
-- status 0

== ten_digits
$ synth 0000000007 0000000001 0000000000
-- out
events 4
entries 0
sample 0
stale 0
report 0
report-stale 0
digest d41d8cd98f00b204e9800998ecf8427e
runs 1
-- status 0

== synth_seed_one_too_large
$ synth 4294967296 1 1
-- err
scrape: bad words
-- status 2

== synth_no_target
$ synth 7 0 1
-- err
scrape: bad words
-- status 2

== synth_one_target_too_many
$ synth 7 10001 0
-- err
scrape: bad words
-- status 2

== synth_one_scrape_too_many
$ synth 7 1 1001
-- err
scrape: bad words
-- status 2

== synth_product_one_too_large
$ synth 7 6667 3
-- err
scrape: bad words
-- status 2

== synth_eleven_digits
$ synth 00000000007 1 0
-- err
scrape: bad words
-- status 2

== synth_a_sign
$ synth +7 1 0
-- err
scrape: bad words
-- status 2

== synth_a_minus
$ synth 7 -1 0
-- err
scrape: bad words
-- status 2

== synth_no_digits
$ synth seven 1 0
-- err
scrape: bad words
-- status 2

== synth_an_empty_number
$ synth '' 1 0
-- err
scrape: bad words
-- status 2

== synth_a_blank_number
$ synth 7 1.0 0
-- err
scrape: bad words
-- status 2

== synth_a_digit_that_is_not_ascii
$ synth ٧ 1 0
-- err
scrape: bad words
-- status 2

== synth_a_number_left_out
$ synth 7 1
-- err
scrape: bad words
-- status 2

== synth_a_number_too_many
$ synth 7 1 0 0
-- err
scrape: bad words
-- status 2

== synth_kept_with_synth
$ synth --kept 7 1 0
-- err
scrape: bad words
-- status 2

== synth_two_dashes
$ synth -- 7 1 0 0
-- err
scrape: bad words
-- status 2

== synth_synth_alone
$ synth
-- err
scrape: bad words
-- status 2

== synth_synth_in_capitals
$ SYNTH 7 1 0
-- err
scrape: bad words
-- status 2

== synth_behind_two_dashes
$ synth -- 7 1 0
-- out
events 4
entries 0
sample 0
stale 0
report 0
report-stale 0
digest d41d8cd98f00b204e9800998ecf8427e
runs 1
-- status 0
"#;
