//! `at`: texts that are no selectors, other words that it doesn't take, and what it says of its file.

pub const CASES: &str = r##"
== selector_refused_0
$ at 0 {} s
-- file s
scrape-journal 1
load 0 76
{"scrape_configs":[{"job_name":"j","static_configs":[{"targets":["a:1"]}]}]}
sweep 0
body 15 0 200 8
x 1
y 2

-- err
scrape: selector Bare
-- status 12

== selector_refused_1
$ at 0 {a=""} s
-- err
scrape: selector Bare
-- status 12

== selector_refused_2
$ at 0 {a=~".*"} s
-- err
scrape: selector Bare
-- status 12

== selector_refused_3
$ at 0 {a!="x"} s
-- err
scrape: selector Bare
-- status 12

== selector_refused_4
$ at 0 x{ s
-- err
scrape: selector Syntax
-- status 12

== selector_refused_5
$ at 0 '' s
-- err
scrape: selector Syntax
-- status 12

== selector_refused_6
$ at 0 {,} s
-- err
scrape: selector Syntax
-- status 12

== selector_refused_7
$ at 0 x{__name__="x"} s
-- err
scrape: selector Syntax
-- status 12

== selector_refused_8
$ at 0 x{a="b"}y s
-- err
scrape: selector Syntax
-- status 12

== selector_refused_9
$ at 0 x{a="b} s
-- err
scrape: selector Syntax
-- status 12

== selector_refused_10
$ at 0 x{a="b",,} s
-- err
scrape: selector Syntax
-- status 12

== selector_refused_11
$ at 0 1x s
-- err
scrape: selector Syntax
-- status 12

== selector_refused_12
$ at 0 x{a~"b"} s
-- err
scrape: selector Syntax
-- status 12

== selector_refused_13
$ at 0 x{a=~"("} s
-- err
scrape: selector Pattern
-- status 12

== selector_refused_14
$ at 0 {a=~"(",b=""} s
-- err
scrape: selector Pattern
-- status 12

== selector_refused_15
$ at 0 {a=~"(" s
-- err
scrape: selector Syntax
-- status 12

== selector_refused_16
$ at 0 x{}} s
-- err
scrape: selector Syntax
-- status 12

== selector_refused_17
$ at 0 x{,} s
-- err
scrape: selector Syntax
-- status 12

== selector_refused_18
$ at 0 x{a=b} s
-- err
scrape: selector Syntax
-- status 12

== selector_refused_19
$ at 0 x{a=="b"} s
-- err
scrape: selector Syntax
-- status 12

== selector_refused_20
$ at 0 x{a~="b"} s
-- err
scrape: selector Syntax
-- status 12

== selector_refused_21
$ at 0 x{a!"b"} s
-- err
scrape: selector Syntax
-- status 12

== selector_refused_22
$ at 0 x{a} s
-- err
scrape: selector Syntax
-- status 12

== selector_refused_23
$ at 0 x{a=} s
-- err
scrape: selector Syntax
-- status 12

== selector_refused_24
$ at 0 x{a="b\"} s
-- err
scrape: selector Syntax
-- status 12

== selector_refused_25
$ at 0 x{a:b="c"} s
-- err
scrape: selector Syntax
-- status 12

== selector_refused_26
$ at 0 x{1a="c"} s
-- err
scrape: selector Syntax
-- status 12

== selector_refused_27
$ at 0 x{a=~"(",}{ s
-- err
scrape: selector Syntax
-- status 12

== selector_refused_28
$ at 0 {a!~"("} s
-- err
scrape: selector Pattern
-- status 12

== selector_refused_29
$ at 0 {a!="b",} s
-- err
scrape: selector Bare
-- status 12

== selector_refused_30
$ at 0 {a=~".*",b!~"c"} s
-- err
scrape: selector Bare
-- status 12

== selector_refused_31
$ at 0 {__name__=~"x?"} s
-- err
scrape: selector Bare
-- status 12

== selector_looked_for_before_the_file
$ at 0 x{ absent
-- err
scrape: selector Syntax
-- status 12

== selector_looked_for_before_the_script
$ at 0 {} s
-- file s
bad
-- err
scrape: selector Bare
-- status 12

== instant_of_no_file
$ at 0 x absent
-- err
scrape: absent absent
-- status 3

== instant_of_a_faulty_script
$ at 0 x s
-- file s
bad
-- err
scrape: script Header at 0
-- status 5

== instant_of_a_cut_script
$ at 0 x s
-- file s
scrape-journal 1
sweep 1
sweep
-- err
scrape: script Line at 25
-- status 5

== instant_at_the_last_moment
$ at 4503599627370495 x s
-- file s
scrape-journal 1
load 0 76
{"scrape_configs":[{"job_name":"j","static_configs":[{"targets":["a:1"]}]}]}
sweep 0
body 15 0 200 8
x 1
y 2

-- status 0

== instant_past_the_last_moment
$ at 4503599627370496 x s
-- file s
scrape-journal 1
load 0 76
{"scrape_configs":[{"job_name":"j","static_configs":[{"targets":["a:1"]}]}]}
sweep 0
body 15 0 200 8
x 1
y 2

-- err
scrape: bad words
-- status 2

== instant_with_leading_zeros
$ at 0000000000299999 y s
-- file s
scrape-journal 1
load 0 76
{"scrape_configs":[{"job_name":"j","static_configs":[{"targets":["a:1"]}]}]}
sweep 0
body 15 0 200 8
x 1
y 2

-- out
0 y{instance="a:1",job="j"} 2
-- status 0

== instant_words_0
$ at 00000000000299999 y s
-- file s
scrape-journal 1
load 0 76
{"scrape_configs":[{"job_name":"j","static_configs":[{"targets":["a:1"]}]}]}
sweep 0
body 15 0 200 8
x 1
y 2

-- err
scrape: bad words
-- status 2

== instant_words_1
$ at -1 y s
-- file s
scrape-journal 1
load 0 76
{"scrape_configs":[{"job_name":"j","static_configs":[{"targets":["a:1"]}]}]}
sweep 0
body 15 0 200 8
x 1
y 2

-- err
scrape: bad words
-- status 2

== instant_words_2
$ at +1 y s
-- file s
scrape-journal 1
load 0 76
{"scrape_configs":[{"job_name":"j","static_configs":[{"targets":["a:1"]}]}]}
sweep 0
body 15 0 200 8
x 1
y 2

-- err
scrape: bad words
-- status 2

== instant_words_3
$ at '' y s
-- file s
scrape-journal 1
load 0 76
{"scrape_configs":[{"job_name":"j","static_configs":[{"targets":["a:1"]}]}]}
sweep 0
body 15 0 200 8
x 1
y 2

-- err
scrape: bad words
-- status 2

== instant_words_4
$ at 1.5 y s
-- file s
scrape-journal 1
load 0 76
{"scrape_configs":[{"job_name":"j","static_configs":[{"targets":["a:1"]}]}]}
sweep 0
body 15 0 200 8
x 1
y 2

-- err
scrape: bad words
-- status 2

== instant_words_5
$ at 0 y
-- file s
scrape-journal 1
load 0 76
{"scrape_configs":[{"job_name":"j","static_configs":[{"targets":["a:1"]}]}]}
sweep 0
body 15 0 200 8
x 1
y 2

-- err
scrape: bad words
-- status 2

== instant_words_6
$ at 0
-- file s
scrape-journal 1
load 0 76
{"scrape_configs":[{"job_name":"j","static_configs":[{"targets":["a:1"]}]}]}
sweep 0
body 15 0 200 8
x 1
y 2

-- err
scrape: bad words
-- status 2

== instant_words_7
$ at
-- file s
scrape-journal 1
load 0 76
{"scrape_configs":[{"job_name":"j","static_configs":[{"targets":["a:1"]}]}]}
sweep 0
body 15 0 200 8
x 1
y 2

-- err
scrape: bad words
-- status 2

== instant_words_8
$ at 0 y s t
-- file s
scrape-journal 1
load 0 76
{"scrape_configs":[{"job_name":"j","static_configs":[{"targets":["a:1"]}]}]}
sweep 0
body 15 0 200 8
x 1
y 2

-- err
scrape: bad words
-- status 2

== instant_words_9
$ at --kept 0 y s
-- file s
scrape-journal 1
load 0 76
{"scrape_configs":[{"job_name":"j","static_configs":[{"targets":["a:1"]}]}]}
sweep 0
body 15 0 200 8
x 1
y 2

-- err
scrape: bad words
-- status 2

== instant_words_10
$ at 0 y s --cut
-- file s
scrape-journal 1
load 0 76
{"scrape_configs":[{"job_name":"j","static_configs":[{"targets":["a:1"]}]}]}
sweep 0
body 15 0 200 8
x 1
y 2

-- err
scrape: bad words
-- status 2
"##;
