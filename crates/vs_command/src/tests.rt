//! Lines of words with the requests or the refusals that the rules give them, and picks of drawn words.
#![tactic(auto)]

ghost use Rattle.std.specs.Prelude.{IsTrue};
ghost use Rattle.vs_command.specs.Readings.{AreShort};

mod shown;

use super::*;
use shown::show_request;
use std::alloc::{AllocError, Global};
use std::process::Abort;
use std::test::Fail;
use vs_outside::{List, Text};

const PLAIN: [(&str, &str); 72] = [
    ("PING", "Ping"),
    ("ping", "Ping"),
    ("PiNg hello", "Ping hello"),
    ("PING ~0", "Ping ~0"),
    ("PING ~65536", "Ping ~65536"),
    ("PING a b", "WrongArity"),
    ("QUIT", "Quit"),
    ("qUIT", "Quit"),
    ("QUIT now", "WrongArity"),
    ("~0", "UnknownCommand"),
    ("~0 PING", "UnknownCommand"),
    ("PINGS", "UnknownCommand"),
    ("PIN", "UnknownCommand"),
    ("PİNG", "UnknownCommand"),
    ("~65536", "UnknownCommand"),
    ("GET k", "UnknownCommand"),
    ("HELLO 3", "UnknownCommand"),
    ("VSETATTRS k n t", "UnknownCommand"),
    ("FOO ~1025 ~0", "UnknownCommand"),
    ("DEL", "WrongArity"),
    ("DEL a", "Del a"),
    ("del a b a", "Del a b a"),
    ("DEL ~1024", "Del ~1024"),
    ("DEL ~1025", "BadKey { len: 1025 }"),
    ("DEL a ~0 b", "BadKey { len: 0 }"),
    ("DEL a ~1025 ~0", "BadKey { len: 1025 }"),
    ("DEL a^65535", "Del 65535 keys"),
    ("EXISTS", "WrongArity"),
    ("EXISTS a", "Exists a"),
    ("Exists a b a", "Exists a b a"),
    ("EXISTS ~0", "BadKey { len: 0 }"),
    ("EXISTS a b ~1025", "BadKey { len: 1025 }"),
    ("VCARD", "WrongArity"),
    ("VCARD k", "Vcard k"),
    ("vCard k x", "WrongArity"),
    ("VCARD ~0", "BadKey { len: 0 }"),
    ("VCARD ~1024", "Vcard ~1024"),
    ("VCARD ~1025", "BadKey { len: 1025 }"),
    ("VDIM", "WrongArity"),
    ("VDIM k", "Vdim k"),
    ("VDIM k x", "WrongArity"),
    ("VDIM ~0", "BadKey { len: 0 }"),
    ("VDIM ~65536", "BadKey { len: 65536 }"),
    ("VINFO", "WrongArity"),
    ("VINFO k", "Vinfo k"),
    ("VINFO k x", "WrongArity"),
    ("VINFO ~0", "BadKey { len: 0 }"),
    ("VINFO ~1025", "BadKey { len: 1025 }"),
    ("VRANDMEMBER", "WrongArity"),
    ("VRANDMEMBER k", "Vrandmember k None"),
    ("VRANDMEMBER k 0", "Vrandmember k Some(0)"),
    ("VRANDMEMBER k -0", "Vrandmember k Some(0)"),
    ("vrandmember k 3", "Vrandmember k Some(3)"),
    ("VRANDMEMBER k 65536", "Vrandmember k Some(65536)"),
    ("VRANDMEMBER k 00065536", "Vrandmember k Some(65536)"),
    ("VRANDMEMBER k 65537", "BadCount { at: 2 }"),
    ("VRANDMEMBER k -65536", "Vrandmember k Some(-65536)"),
    ("VRANDMEMBER k -65537", "BadCount { at: 2 }"),
    ("VRANDMEMBER k +1", "BadCount { at: 2 }"),
    ("VRANDMEMBER k ~0", "BadCount { at: 2 }"),
    ("VRANDMEMBER k 1.0", "BadCount { at: 2 }"),
    ("VRANDMEMBER k -", "BadCount { at: 2 }"),
    ("VRANDMEMBER k --1", "BadCount { at: 2 }"),
    ("VRANDMEMBER k 0000000000000000005", "Vrandmember k Some(5)"),
    ("VRANDMEMBER k 00000000000000000005", "BadCount { at: 2 }"),
    ("VRANDMEMBER k 9223372036854775807", "BadCount { at: 2 }"),
    ("VRANDMEMBER k 9223372036854775808", "BadCount { at: 2 }"),
    ("VRANDMEMBER k -9223372036854775808", "BadCount { at: 2 }"),
    ("VRANDMEMBER k 4294967296", "BadCount { at: 2 }"),
    ("VRANDMEMBER ~0 x", "BadKey { len: 0 }"),
    ("VRANDMEMBER ~1025", "BadKey { len: 1025 }"),
    ("VRANDMEMBER k 1 2", "WrongArity"),
];

const MEMBERS: [(&str, &str); 49] = [
    ("VREM k", "WrongArity"),
    ("VREM k n", "Vrem k n"),
    ("vrem k n x", "WrongArity"),
    ("VREM ~0 n", "BadKey { len: 0 }"),
    ("VREM ~1025 ~0", "BadKey { len: 1025 }"),
    ("VREM ~1024 ~1024", "Vrem ~1024 ~1024"),
    ("VREM k ~0", "BadName { len: 0 }"),
    ("VREM k ~1025", "BadName { len: 1025 }"),
    ("VGETATTR k", "WrongArity"),
    ("VGETATTR k n", "Vgetattr k n"),
    ("VGETATTR k n x", "WrongArity"),
    ("VGETATTR ~0 n", "BadKey { len: 0 }"),
    ("VGETATTR k ~0", "BadName { len: 0 }"),
    ("VGETATTR k ~1025", "BadName { len: 1025 }"),
    ("VISMEMBER k", "WrongArity"),
    ("vismember k n", "Vismember k n"),
    ("VISMEMBER k n x", "WrongArity"),
    ("VISMEMBER ~1025 n", "BadKey { len: 1025 }"),
    ("VISMEMBER k ~0", "BadName { len: 0 }"),
    ("VISMEMBER k ~1025", "BadName { len: 1025 }"),
    ("VEMB k", "WrongArity"),
    ("VEMB k n", "Vemb k n"),
    ("VEMB k n RAW", "Raw"),
    ("vemb k n raw", "Raw"),
    ("VEMB k n RAWS", "UnknownOption { at: 3 }"),
    ("VEMB k n ~0", "UnknownOption { at: 3 }"),
    ("VEMB k n RAW x", "WrongArity"),
    ("VEMB ~0 n RAW", "BadKey { len: 0 }"),
    ("VEMB k ~0 RAW", "BadName { len: 0 }"),
    ("VEMB k ~1025 x", "BadName { len: 1025 }"),
    ("VLINKS k", "WrongArity"),
    ("VLINKS k n", "Vlinks k n"),
    ("VLINKS k n WITHSCORES", "Vlinks k n scores"),
    ("VLINKS k n withScores", "Vlinks k n scores"),
    ("VLINKS k n RAW", "UnknownOption { at: 3 }"),
    ("VLINKS k n ~0", "UnknownOption { at: 3 }"),
    ("VLINKS k n WITHSCORES x", "WrongArity"),
    ("VLINKS ~1025 n x", "BadKey { len: 1025 }"),
    ("VLINKS k ~1025 x", "BadName { len: 1025 }"),
    ("VLINKS ~0 ~0", "BadKey { len: 0 }"),
    ("VSETATTR k n", "WrongArity"),
    ("VSETATTR k n t", "Vsetattr k n t"),
    ("VSETATTR k n ~0", "Vsetattr k n ~0"),
    ("VSETATTR k n ~16384", "Vsetattr k n ~16384"),
    ("VSETATTR k n ~16385", "LongAttribute { len: 16385 }"),
    ("VSETATTR k n ~65536", "LongAttribute { len: 65536 }"),
    ("VSETATTR k n t u", "WrongArity"),
    ("VSETATTR ~0 ~0 ~16385", "BadKey { len: 0 }"),
    ("VSETATTR k ~1025 ~16385", "BadName { len: 1025 }"),
];

const VECTORS: [(&str, &str); 80] = [
    ("VADD", "WrongArity"),
    ("VADD k VALUES 1", "WrongArity"),
    ("VADD k VALUES 1 1 n", "Vadd k n 1 ef 200"),
    ("vadd k Values 3 0.25 -1e-9 +7 n", "Vadd k n 101 ef 200"),
    (
        "VADD k VALUES 10 1. .5 -.5 +0 -0.0 1e5 1E-5 0e9 00.00e+00 -7 n",
        "Vadd k n 1100011000 ef 200",
    ),
    (
        "VADD k VALUES 2 -0 0.0000000000000000000001 n",
        "Vadd k n 01 ef 200",
    ),
    ("VADD k VALUES 01 1 n", "Vadd k n 1 ef 200"),
    ("VADD k VALUES 0000000000000000001 1 n", "Vadd k n 1 ef 200"),
    ("VADD k VALUES 4096 1^4096 n", "Vadd k n 4096 bits ef 200"),
    (
        "VADD k VALUES 4096 1^4095 -1 ~1024",
        "Vadd k ~1024 4096 bits ef 200",
    ),
    ("VADD k VALUES 0 n x", "BadDimension { at: 3 }"),
    ("VADD k VALUES -1 1 n", "BadDimension { at: 3 }"),
    ("VADD k VALUES +1 1 n", "BadDimension { at: 3 }"),
    ("VADD k VALUES 1.0 1 n", "BadDimension { at: 3 }"),
    ("VADD k VALUES ~0 1 n", "BadDimension { at: 3 }"),
    ("VADD k VALUES x 1 n", "BadDimension { at: 3 }"),
    ("VADD k VALUES 4097 1^4097 n", "BadDimension { at: 3 }"),
    ("VADD k VALUES 4294967297 1 n", "BadDimension { at: 3 }"),
    (
        "VADD k VALUES 18446744073709551617 1 n",
        "BadDimension { at: 3 }",
    ),
    ("VADD k VALUES 1 1", "ShortVector { want: 2, have: 1 }"),
    ("VADD k VALUES 2 1 1", "ShortVector { want: 3, have: 2 }"),
    ("VADD k VALUES 3 x y z", "ShortVector { want: 4, have: 3 }"),
    (
        "VADD k VALUES 4096 1 1",
        "ShortVector { want: 4097, have: 2 }",
    ),
    (
        "VADD k VALUES 4096 1^4096",
        "ShortVector { want: 4097, have: 4096 }",
    ),
    (
        "VADD k VALUES 4 1 1 1 n",
        "ShortVector { want: 5, have: 4 }",
    ),
    ("VADD k VALUES 3 1 1 n CAS", "BadComponent { at: 6 }"),
    ("VADD k VALUES 1 x n", "BadComponent { at: 4 }"),
    ("VADD k VALUES 3 1 1 x n", "BadComponent { at: 6 }"),
    ("VADD k VALUES 3 1 x y n", "BadComponent { at: 5 }"),
    ("VADD k VALUES 4096 1^4095 x n", "BadComponent { at: 4099 }"),
    ("VADD k VALUES 1 ~0 n", "BadComponent { at: 4 }"),
    ("VADD k VALUES 1 . n", "BadComponent { at: 4 }"),
    ("VADD k VALUES 1 + n", "BadComponent { at: 4 }"),
    ("VADD k VALUES 1 +-1 n", "BadComponent { at: 4 }"),
    ("VADD k VALUES 1 1e n", "BadComponent { at: 4 }"),
    ("VADD k VALUES 1 1e+ n", "BadComponent { at: 4 }"),
    ("VADD k VALUES 1 e5 n", "BadComponent { at: 4 }"),
    ("VADD k VALUES 1 1.2.3 n", "BadComponent { at: 4 }"),
    ("VADD k VALUES 1 1,5 n", "BadComponent { at: 4 }"),
    ("VADD k VALUES 1 0x1 n", "BadComponent { at: 4 }"),
    ("VADD k VALUES 1 inf n", "BadComponent { at: 4 }"),
    ("VADD k VALUES 1 nan n", "BadComponent { at: 4 }"),
    ("VADD k VALUES 1 x ~0 FOO", "BadComponent { at: 4 }"),
    ("VADD k FP32 blob n x", "Fp32"),
    ("VADD k fp32 blob n Q8", "Fp32"),
    ("VADD k REDUCE 2 VALUES 1", "Reduce"),
    ("VADD k reduce x y z", "Reduce"),
    ("VADD k ELE n 1 1", "BadVectorForm { at: 2 }"),
    ("VADD k ~0 0 1 n", "BadVectorForm { at: 2 }"),
    ("VADD k VALUE 0 1 n", "BadVectorForm { at: 2 }"),
    ("VADD k FP32 blob", "WrongArity"),
    ("VADD ~0 FP32 blob n x", "BadKey { len: 0 }"),
    ("VADD ~1025 VALUES 0 1 n", "BadKey { len: 1025 }"),
    ("VADD k VALUES 1 1 ~0", "BadName { len: 0 }"),
    ("VADD k VALUES 1 1 ~1025 FOO", "BadName { len: 1025 }"),
    ("VADD k VALUES 2 1 1 ~0 EF", "BadName { len: 0 }"),
    ("VSIM", "WrongArity"),
    ("VSIM k", "WrongArity"),
    ("VSIM k ELE", "WrongArity"),
    ("VSIM k ELE n", "Vsim k ele n count 10 ef 100 effort 0"),
    (
        "VSIM k ELE n TRUTH",
        "Vsim k ele n count 10 ef 100 effort 0 truth",
    ),
    (
        "vsim k ele ~1024 truth",
        "Vsim k ele ~1024 count 10 ef 100 effort 0 truth",
    ),
    (
        "VSIM k VALUES 2 1 -1 TRUTH",
        "Vsim k 10 count 10 ef 100 effort 0 truth",
    ),
    ("VSIM k VALUES 1 1", "Vsim k 1 count 10 ef 100 effort 0"),
    (
        "VSIM k VALUES 4096 1^4096 TRUTH",
        "Vsim k 4096 bits count 10 ef 100 effort 0 truth",
    ),
    ("VSIM k VALUES 0 TRUTH", "BadDimension { at: 3 }"),
    ("VSIM k VALUES 4097 1", "BadDimension { at: 3 }"),
    ("VSIM k VALUES TRUTH", "BadDimension { at: 3 }"),
    ("VSIM k VALUES 1", "ShortVector { want: 1, have: 0 }"),
    ("VSIM k VALUES 2 1", "ShortVector { want: 2, have: 1 }"),
    ("VSIM k VALUES 2 x", "ShortVector { want: 2, have: 1 }"),
    ("VSIM k VALUES 1 TRUTH", "BadComponent { at: 4 }"),
    ("VSIM k VALUES 2 1 TRUTH", "BadComponent { at: 5 }"),
    ("VSIM k FP32 x TRUTH", "Fp32"),
    ("VSIM k REDUCE 3 VALUES", "BadVectorForm { at: 2 }"),
    ("VSIM k ~0 n", "BadVectorForm { at: 2 }"),
    ("VSIM ~0 ELE n", "BadKey { len: 0 }"),
    ("VSIM ~1025 FP32 n", "BadKey { len: 1025 }"),
    ("VSIM k ELE ~0 FOO", "BadName { len: 0 }"),
    ("VSIM k ELE ~1025", "BadName { len: 1025 }"),
];

const ADDITIONS: [(&str, &str); 61] = [
    ("VADD k VALUES 1 1 n CAS", "Vadd k n 1 ef 200 cas"),
    ("VADD k VALUES 1 1 n cas bin Cas", "Vadd k n 1 ef 200 cas"),
    ("VADD k VALUES 1 1 n BIN", "Vadd k n 1 ef 200"),
    ("VADD k VALUES 1 1 n EF 1", "Vadd k n 1 ef 1"),
    ("VADD k VALUES 1 1 n ef 65536", "Vadd k n 1 ef 65536"),
    ("VADD k VALUES 1 1 n EF 00100", "Vadd k n 1 ef 100"),
    ("VADD k VALUES 1 1 n EF 65537", "BadEf { at: 7 }"),
    ("VADD k VALUES 1 1 n EF 0", "BadEf { at: 7 }"),
    ("VADD k VALUES 1 1 n EF -1", "BadEf { at: 7 }"),
    ("VADD k VALUES 1 1 n EF +5", "BadEf { at: 7 }"),
    ("VADD k VALUES 1 1 n EF 5.0", "BadEf { at: 7 }"),
    ("VADD k VALUES 1 1 n EF ~0", "BadEf { at: 7 }"),
    ("VADD k VALUES 1 1 n EF 4294967297", "BadEf { at: 7 }"),
    ("VADD k VALUES 1 1 n EF EF", "BadEf { at: 7 }"),
    ("VADD k VALUES 1 1 n EF CAS", "BadEf { at: 7 }"),
    ("VADD k VALUES 1 1 n EF", "MissingValue { at: 6 }"),
    ("VADD k VALUES 1 1 n CAS EF", "MissingValue { at: 7 }"),
    ("VADD k VALUES 1 1 n EF 5 EF 6", "Vadd k n 1 ef 6"),
    ("VADD k VALUES 1 1 n EF 0 EF 5", "BadEf { at: 7 }"),
    ("VADD k VALUES 1 1 n EF 65537 EF 5", "BadEf { at: 7 }"),
    ("VADD k VALUES 1 1 n EF 5 EF 0", "BadEf { at: 9 }"),
    ("VADD k VALUES 1 1 n EF 5 EF", "MissingValue { at: 8 }"),
    ("VADD k VALUES 1 1 n M 4", "Vadd k n 1 ef 200 m 4"),
    ("VADD k VALUES 1 1 n m 256", "Vadd k n 1 ef 200 m 256"),
    ("VADD k VALUES 1 1 n M 3", "BadM { at: 7 }"),
    ("VADD k VALUES 1 1 n M 257", "BadM { at: 7 }"),
    ("VADD k VALUES 1 1 n M -4", "BadM { at: 7 }"),
    ("VADD k VALUES 1 1 n M 65540", "BadM { at: 7 }"),
    ("VADD k VALUES 1 1 n M x", "BadM { at: 7 }"),
    ("VADD k VALUES 1 1 n M", "MissingValue { at: 6 }"),
    ("VADD k VALUES 1 1 n M 8 M 16", "Vadd k n 1 ef 200 m 16"),
    ("VADD k VALUES 1 1 n M 8 M 300", "BadM { at: 9 }"),
    ("VADD k VALUES 1 1 n M 300 M 8", "BadM { at: 7 }"),
    ("VADD k VALUES 1 1 n SETATTR t", "Vadd k n 1 ef 200 attr t"),
    (
        "VADD k VALUES 1 1 n setattr ~0",
        "Vadd k n 1 ef 200 attr ~0",
    ),
    (
        "VADD k VALUES 1 1 n SETATTR ~16384",
        "Vadd k n 1 ef 200 attr ~16384",
    ),
    (
        "VADD k VALUES 1 1 n SETATTR ~16385",
        "LongAttribute { len: 16385 }",
    ),
    ("VADD k VALUES 1 1 n SETATTR", "MissingValue { at: 6 }"),
    (
        "VADD k VALUES 1 1 n SETATTR a SETATTR b",
        "Vadd k n 1 ef 200 attr b",
    ),
    (
        "VADD k VALUES 1 1 n SETATTR ~16385 SETATTR b",
        "LongAttribute { len: 16385 }",
    ),
    (
        "VADD k VALUES 1 1 n SETATTR a SETATTR ~16385",
        "LongAttribute { len: 16385 }",
    ),
    (
        "VADD k VALUES 1 1 n SETATTR EF EF 9",
        "Vadd k n 1 ef 9 attr EF",
    ),
    (
        "VADD k VALUES 1 1 n SETATTR Q8 CAS",
        "Vadd k n 1 ef 200 cas attr Q8",
    ),
    ("VADD k VALUES 1 1 n Q8", "Quantiser { at: 6 }"),
    ("VADD k VALUES 1 1 n q8 EF 0", "Quantiser { at: 6 }"),
    ("VADD k VALUES 1 1 n NOQUANT", "Quantiser { at: 6 }"),
    ("VADD k VALUES 1 1 n BIN noQuant", "Quantiser { at: 7 }"),
    ("VADD k VALUES 1 1 n CAS EF 9 Q8", "Quantiser { at: 9 }"),
    ("VADD k VALUES 1 1 n Q8 FOO", "Quantiser { at: 6 }"),
    ("VADD k VALUES 1 1 n FOO", "UnknownOption { at: 6 }"),
    ("VADD k VALUES 1 1 n FOO Q8", "UnknownOption { at: 6 }"),
    ("VADD k VALUES 1 1 n FOO EF 0", "UnknownOption { at: 6 }"),
    ("VADD k VALUES 1 1 n EF 0 FOO", "BadEf { at: 7 }"),
    ("VADD k VALUES 1 1 n BIN FOO", "UnknownOption { at: 7 }"),
    ("VADD k VALUES 1 1 n EF 9 FOO", "UnknownOption { at: 8 }"),
    ("VADD k VALUES 1 1 n EF 9 10", "UnknownOption { at: 8 }"),
    ("VADD k VALUES 1 1 n ~0", "UnknownOption { at: 6 }"),
    ("VADD k VALUES 1 1 n TRUTH", "UnknownOption { at: 6 }"),
    ("VADD k VALUES 1 1 n COUNT 5", "UnknownOption { at: 6 }"),
    ("VADD k VALUES 1 1 n EFF 5", "UnknownOption { at: 6 }"),
    (
        "VADD k VALUES 1 1 n CAS EF 70 M 32 SETATTR {} BIN",
        "Vadd k n 1 ef 70 cas m 32 attr {}",
    ),
];

const SEARCHES: [(&str, &str); 66] = [
    (
        "VSIM k ELE n TRUTH",
        "Vsim k ele n count 10 ef 100 effort 0 truth",
    ),
    (
        "VSIM k ELE n WITHSCORES TRUTH",
        "Vsim k ele n count 10 ef 100 effort 0 scores truth",
    ),
    (
        "VSIM k ELE n truth withattribs nothread",
        "Vsim k ele n count 10 ef 100 effort 0 attrs truth nothread",
    ),
    (
        "VSIM k ELE n NOTHREAD WITHATTRIBS WITHSCORES TRUTH TRUTH",
        "Vsim k ele n count 10 ef 100 effort 0 scores attrs truth nothread",
    ),
    (
        "VSIM k ELE n WITHSCORES",
        "Vsim k ele n count 10 ef 100 effort 0 scores",
    ),
    (
        "VSIM k ELE n NOTHREAD COUNT 5",
        "Vsim k ele n count 5 ef 100 effort 0 nothread",
    ),
    (
        "VSIM k ELE n COUNT 1 TRUTH",
        "Vsim k ele n count 1 ef 100 effort 0 truth",
    ),
    (
        "VSIM k ELE n COUNT 65536 TRUTH",
        "Vsim k ele n count 65536 ef 100 effort 0 truth",
    ),
    ("VSIM k ELE n COUNT 65537 TRUTH", "BadCount { at: 5 }"),
    ("VSIM k ELE n COUNT 0 TRUTH", "BadCount { at: 5 }"),
    ("VSIM k ELE n COUNT -1", "BadCount { at: 5 }"),
    ("VSIM k ELE n COUNT EPSILON", "BadCount { at: 5 }"),
    ("VSIM k ELE n COUNT ~0", "BadCount { at: 5 }"),
    ("VSIM k ELE n COUNT", "MissingValue { at: 4 }"),
    ("VSIM k ELE n TRUTH COUNT", "MissingValue { at: 5 }"),
    (
        "VSIM k ELE n COUNT 5 COUNT 7 TRUTH",
        "Vsim k ele n count 7 ef 100 effort 0 truth",
    ),
    ("VSIM k ELE n COUNT 0 COUNT 7 TRUTH", "BadCount { at: 5 }"),
    ("VSIM k ELE n COUNT 7 COUNT 0 TRUTH", "BadCount { at: 7 }"),
    (
        "VSIM k ELE n EF 1 TRUTH",
        "Vsim k ele n count 10 ef 1 effort 0 truth",
    ),
    (
        "VSIM k ELE n TRUTH ef 65536",
        "Vsim k ele n count 10 ef 65536 effort 0 truth",
    ),
    ("VSIM k ELE n EF 65537", "BadEf { at: 5 }"),
    ("VSIM k ELE n EF 0", "BadEf { at: 5 }"),
    ("VSIM k ELE n EF x", "BadEf { at: 5 }"),
    ("VSIM k ELE n EF", "MissingValue { at: 4 }"),
    ("VSIM k ELE n EF 65537 EF 5 TRUTH", "BadEf { at: 5 }"),
    (
        "VSIM k ELE n EF 5 EF 6 TRUTH",
        "Vsim k ele n count 10 ef 6 effort 0 truth",
    ),
    (
        "VSIM k ELE n FILTER-EF 0 TRUTH",
        "Vsim k ele n count 10 ef 100 effort 0 truth",
    ),
    (
        "VSIM k ELE n filter-ef 2147483647 TRUTH",
        "Vsim k ele n count 10 ef 100 effort 0 truth",
    ),
    (
        "VSIM k ELE n FILTER-EF -0 TRUTH",
        "Vsim k ele n count 10 ef 100 effort 0 truth",
    ),
    ("VSIM k ELE n FILTER-EF 2147483648", "BadFilterEf { at: 5 }"),
    ("VSIM k ELE n FILTER-EF -1", "BadFilterEf { at: 5 }"),
    ("VSIM k ELE n FILTER-EF 4294967296", "BadFilterEf { at: 5 }"),
    ("VSIM k ELE n FILTER-EF x", "BadFilterEf { at: 5 }"),
    ("VSIM k ELE n FILTER-EF", "MissingValue { at: 4 }"),
    (
        "VSIM k ELE n FILTER-EF -1 FILTER-EF 5 TRUTH",
        "BadFilterEf { at: 5 }",
    ),
    (
        "VSIM k ELE n FILTER-EF 5 FILTER-EF -1 TRUTH",
        "BadFilterEf { at: 7 }",
    ),
    ("VSIM k ELE n EPSILON", "Epsilon { at: 4 }"),
    ("VSIM k ELE n EPSILON 0.5", "Epsilon { at: 4 }"),
    ("VSIM k ELE n TRUTH epsilon x", "Epsilon { at: 5 }"),
    ("VSIM k ELE n EPSILON FOO", "Epsilon { at: 4 }"),
    ("VSIM k ELE n FILTER ~0 TRUTH", "FilterSyntax { at: 0 }"),
    ("VSIM k ELE n FILTER ( TRUTH", "FilterSyntax { at: 1 }"),
    ("VSIM k ELE n FILTER ~4096 TRUTH", "FilterSyntax { at: 0 }"),
    (
        "VSIM k ELE n FILTER ~4097 TRUTH",
        "LongFilter { len: 4097 }",
    ),
    (
        "VSIM k ELE n FILTER ~4097 COUNT 0",
        "LongFilter { len: 4097 }",
    ),
    (
        "VSIM k ELE n FILTER ~4097 FILTER .a",
        "LongFilter { len: 4097 }",
    ),
    (
        "VSIM k ELE n FILTER .a FILTER ~4097",
        "LongFilter { len: 4097 }",
    ),
    ("VSIM k ELE n FILTER ( COUNT 0", "FilterSyntax { at: 1 }"),
    ("VSIM k ELE n COUNT 0 FILTER (", "BadCount { at: 5 }"),
    ("VSIM k ELE n FILTER ( FILTER .a", "FilterSyntax { at: 1 }"),
    ("VSIM k ELE n FILTER .a FILTER (", "FilterSyntax { at: 1 }"),
    ("VSIM k ELE n FILTER .a FOO", "UnknownOption { at: 6 }"),
    (
        "VSIM k ELE n FILTER .a FILTER-EF x",
        "BadFilterEf { at: 7 }",
    ),
    ("VSIM k ELE n FILTER", "MissingValue { at: 4 }"),
    (
        "VSIM k ELE n FILTER .a",
        "Vsim k ele n count 10 ef 100 effort 1000 filter",
    ),
    (
        "VSIM k ELE n FILTER .a COUNT 7 TRUTH",
        "Vsim k ele n count 7 ef 100 effort 700 filter truth",
    ),
    (
        "VSIM k ELE n FILTER-EF 9 FILTER .a TRUTH",
        "Vsim k ele n count 10 ef 100 effort 9 filter truth",
    ),
    ("VSIM k ELE n FOO", "UnknownOption { at: 4 }"),
    ("VSIM k ELE n FOO COUNT 0", "UnknownOption { at: 4 }"),
    ("VSIM k ELE n COUNT 0 FOO", "BadCount { at: 5 }"),
    ("VSIM k ELE n FOO EPSILON", "UnknownOption { at: 4 }"),
    ("VSIM k ELE n ~0 TRUTH", "UnknownOption { at: 4 }"),
    ("VSIM k ELE n CAS TRUTH", "UnknownOption { at: 4 }"),
    ("VSIM k ELE n WITHSCORE", "UnknownOption { at: 4 }"),
    (
        "VSIM k ELE n TRUTH WITHSCORES FOO",
        "UnknownOption { at: 6 }",
    ),
    ("VSIM k ELE n TRUTH COUNT 5 COUNT", "MissingValue { at: 7 }"),
];

// The texts of filters, with what a search by each is refused with.
const FILTERS: [(&str, &str); 6] = [
    (".year >", "FilterSyntax { at: 7 }"),
    ("1 and", "FilterSyntax { at: 5 }"),
    ("notx 1", "FilterSyntax { at: 0 }"),
    (
        "(((((((((((((((((((((((((((((((((((((((((((((((((((((((((((((((((1",
        "FilterTooDeep { at: 64 }",
    ),
    (
        "!!!!!!!!!!!!!!!!!!!!!!!!!!!!!!!!!!!!!!!!!!!!!!!!!!!!!!!!!!!!!!!!!1",
        "FilterTooDeep { at: 64 }",
    ),
    (
        ".year >= 1980 and .rating > 8.5",
        "Vsim k ele n count 10 ef 100 effort 1000 filter truth",
    ),
];

// A word as it is written, or `~N` for a word of N bytes.
fn word_of(alloc: Global, word: &str) -> Result<Text, AllocError> {
    if let Some(len) = word.strip_prefix('~') {
        let len = len.parse::<u32>().unwrap_or(0) as usize;
        return Ok(Text::from_vec(vec![in alloc; b'x'; len]?));
    }
    Ok(Text::from_vec(word.as_bytes().to_vec(alloc)?))
}

// The words of a line, parted by single spaces; `W^N` stands for N words W.
fn words_of(alloc: Global, line: &str) -> Result<List<Text>, AllocError> {
    let mut words = List::new(alloc);
    for part in line.split(' ') {
        let (word, times) = match part.split_once('^') {
            Some((word, times)) => (word, times.parse::<u32>().unwrap_or(0)),
            None => (part, 1),
        };
        for _ in 0..times {
            words.push(word_of(alloc, word)?)?;
        }
    }
    Ok(words)
}

fn are_short(words: &[Text]) -> bool
    ensures { IsTrue result → AreShort words.now }
{
    words.len() < 4294967296 && words.iter().all(|word| word.len() < 4294967296)
}

fn read_words(alloc: Global, rt: &impl Abort, words: &[Text]) -> Result<Request, Refusal> {
    assert!(rt; words.len() > 0);
    assert!(rt; are_short(words));
    read_request(alloc, words)
}

fn read_line(
    alloc: Global,
    rt: &impl Abort,
    line: &str,
) -> Result<Result<Request, Refusal>, AllocError> {
    let words = words_of(alloc, line)?;
    Ok(read_words(alloc, rt, words.as_slice()))
}

fn show(alloc: Global, read: Result<Request, Refusal>) -> Result<String, AllocError> {
    match read {
        Ok(request) => show_request(alloc, &request),
        Err(refusal) => format!(in alloc; "{refusal:?}"),
    }
}

fn check(alloc: Global, rt: &impl Abort, cases: &[(&str, &str)]) -> Result<(), AllocError> {
    for (line, wanted) in cases {
        let shown = show(alloc, read_line(alloc, rt, line)?)?;
        assert_eq!(rt; shown.as_str(), *wanted, "{line}");
    }
    Ok(())
}

#[test]
fn reads_lines(rt: HostRuntime) -> Result<(), Fail> {
    let alloc = rt.alloc();
    check(alloc, &rt, &PLAIN)?;
    check(alloc, &rt, &MEMBERS)?;
    check(alloc, &rt, &VECTORS)?;
    check(alloc, &rt, &ADDITIONS)?;
    check(alloc, &rt, &SEARCHES)?;
    Ok(())
}

#[test]
fn reads_filters(rt: HostRuntime) -> Result<(), Fail> {
    let alloc = rt.alloc();
    for (filter, wanted) in FILTERS {
        let mut words = words_of(alloc, "VSIM k ELE n TRUTH FILTER")?;
        words.push(Text::from_vec(filter.as_bytes().to_vec(alloc)?))?;
        let shown = show(alloc, read_words(alloc, &rt, words.as_slice()))?;
        assert_eq!(rt; shown.as_str(), wanted, "{filter}");
    }
    Ok(())
}

#[test]
fn copies_searches(rt: HostRuntime) -> Result<(), Fail> {
    let alloc = rt.alloc();
    for line in [
        "VSIM k ELE n",
        "VSIM key ELE n WITHSCORES COUNT 3 EF 7 TRUTH",
        "VSIM k VALUES 2 1 -1 WITHATTRIBS NOTHREAD FILTER .a FILTER-EF 9",
    ] {
        let Ok(Request::Vsim(search)) = read_line(alloc, &rt, line)? else {
            panic!(rt; "{line}");
        };
        let copy = search.try_clone(alloc)?;
        let copied = show_request(alloc, &Request::Vsim(copy))?;
        let shown = show_request(alloc, &Request::Vsim(search))?;
        assert_eq!(rt; copied.as_str(), shown.as_str());
    }
    Ok(())
}

#[test]
fn draws_words(rt: HostRuntime) -> Result<(), Fail> {
    for (line, wanted) in [
        ("VADD k VALUES 1 1 n", 1),
        ("VRANDMEMBER k", 1),
        ("VRANDMEMBER k 0", 0),
        ("VRANDMEMBER k 5", 5),
        ("VRANDMEMBER k -65536", 65536),
        ("VCARD k", 0),
        ("PING", 0),
        ("VSIM k ELE n TRUTH", 0),
    ] {
        match read_line(rt.alloc(), &rt, line)? {
            Ok(request) => assert_eq!(rt; draws(&request), wanted),
            Err(_) => panic!(rt; "{line}"),
        }
    }
    Ok(())
}

#[test]
fn takes_words(rt: HostRuntime) -> Result<(), Fail> {
    for (word, level) in [
        (1, 0),
        (2, 0),
        (4, 1),
        (16, 2),
        (48, 2),
        (1 << 29, 14),
        (1 << 31, 15),
        (0, 15),
    ] {
        assert_eq!(rt; level_of_word(word), level);
    }
    assert_eq!(rt; place_of_word(2147483648, 5), 2);
    let cases: [(i32, u32, &[u32], &[u32]); 9] = [
        (2, 3, &[0, 0], &[0, 1]),
        (2, 3, &[2147483648, 4294967295], &[1, 2]),
        (4, 3, &[4294967295, 4294967295, 4294967295, 0], &[2, 0, 1]),
        (3, 4, &[4294967295, 4294967295, 4294967295], &[3, 0, 1]),
        (2, 1048576, &[4294967295, 4294967295], &[1048575, 0]),
        (0, 3, &[], &[]),
        (3, 0, &[7, 7, 7], &[]),
        (-3, 3, &[0, 2147483648, 4294967295], &[0, 1, 2]),
        (-2, 1, &[4294967295, 5], &[0, 0]),
    ];
    for (count, members, words, wanted) in cases {
        assert!(rt; words.len() == count.unsigned_abs() as usize);
        let places = picks(rt.alloc(), count, members, words)?;
        assert_eq!(rt; places.as_slice(), wanted);
    }
    Ok(())
}
