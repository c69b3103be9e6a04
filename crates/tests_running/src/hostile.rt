//! Replies of servers that mean no good, or no end: each has its answer, at the last byte that is taken and one past
//! it.

/// Rows as those of `replies`.
pub(crate) const HOSTILE: &str = r##"
-- a head that never ends
9 garbled 0 |!200 OK~a: <200000:b>
9 garbled 0 |<100000:~>
-- 64 fields, and 65
9 body 200 x|!200 OK~<64:a: b~>~x
9 garbled 0 |!200 OK~<65:a: b~>~x
-- a head of 65,536 bytes, and of one more
9 body 200 x|!200 OK~a: <65512:b>~~x
9 garbled 0 |!200 OK~a: <65513:b>~~x
-- eight heads that tell of another, and nine
9 body 200 x|<8:!100 Continue~~>!200 OK~~x
9 garbled 0 |<9:!100 Continue~~>!200 OK~~x
-- a chunk line of 256 bytes, and of 257
9 body 200 x|!200 OK~%~~1;<252:a>~x~0~~
9 garbled 0 |!200 OK~%~~1;<253:a>~x~0~~
-- a chunk size of 16 digits, and of 17
9 body 200 x|!200 OK~%~~<15:0>1~x~0~~
9 garbled 0 |!200 OK~%~~<16:0>1~x~0~~
-- trailer lines of 65,532 bytes, of 65,538, and without end
9 body 200 |!200 OK~%~~0~<10922:a: b~>~
9 garbled 0 |!200 OK~%~~0~<10923:a: b~>~
9 garbled 0 |!200 OK~%~~0~<200000:a>
-- a body at the limit and one byte past it: by its length, by its chunks, to the end of the link
4 body 200 xxxx|!200 OK~Content-Length: 4~~<4:x>
4 oversize 0 |!200 OK~Content-Length: 5~~<5:x>
4 body 200 xxxx|!200 OK~%~~<4:1~x~>0~~
4 oversize 0 |!200 OK~%~~<5:1~x~>0~~
4 body 200 xxxx|!200 OK~~<4:x>
4 oversize 0 |!200 OK~~<5:x>
-- bodies that never end
9 oversize 0 |!200 OK~%~~<50000:1~x~>
9 oversize 0 |!200 OK~~<300000:x>
-- a link that stops
9 garbled 0 |!200 OK~Content-Length: 5~~<2:x>
"##;
