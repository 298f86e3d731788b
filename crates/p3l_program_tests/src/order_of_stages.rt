// The first stage of a command that refuses decides: each case breaks a stage that comes before the
// one that the next case breaks.

use crate::world::play;
use std::test::Fail;

const CASES: &str = r#"
= A run is refused by the first of its stages.
none new

fails take 1
file m.p3l = double
$ run none.p3l --processors 0 --costs c
< 1
! usage: the words are not a command of p3l
? 2

# An image that ends early, and no program.
# The stages of a program and its costs, before an input that can't be taken.
fails take 1
file i
| P3LI\
$ run m.p3l --processors 3 --costs c --schedule file:p
< 1
! file fault: m.p3l
? 9

fails take 1
file m.p3l = undeclared
$ run m.p3l --processors 3 --costs c --schedule file:p
< 1
! source: 2:8: 40 Undeclared
? 3

fails take 1
file m.p3l = farmed
$ run m.p3l --processors 3 --costs c --schedule file:p
< 1
! file fault: c
? 9

fails take 1
file m.p3l = farmed
file c
| speed = 1
$ run m.p3l --processors 3 --costs c --schedule file:p
< 1
! costs: 51 BadKey speed
? 4

fails take 1
file m.p3l = farmed
$ run m.p3l --processors 3 --schedule file:p
< 1
! too few processors: need 4
? 5

fails take 1
file m.p3l = double
$ run m.p3l --processors 3 --schedule file:p
< 1
! file fault: p
? 9

# Picks of a process that isn't there.
fails take 1
file m.p3l = double
file p
| 3
$ run m.p3l --processors 3 --schedule file:p
< 1
! schedule: line 1: 96 NoSuchProcess 3 of 3
? 12

fails take 1
file m.p3l = double
$ exec i --schedule file:p --processors 4
< 1
! usage: the words are not a command of p3l
? 2

fails take 1
file m.p3l = double
$ exec i --schedule file:p
< 1
! file fault: i
? 9

fails take 1
file i
| P3LI\
$ exec i --schedule file:p
< 1
! evidence: 82 Short 4
? 13

fails take 1
file i = double-image
$ exec i --schedule file:p
< 1
! file fault: p
? 9

fails take 1
file i = double-image
file p
| 3
$ exec i --schedule file:p
< 1
! schedule: line 1: 96 NoSuchProcess 3 of 3
? 12

fails take 1
file i = double-image
$ exec i
< 1
! read fault
? 8

fails put 1 after 0
file i = double-image
$ exec i
< 1
< x
! write fault
? 10

fails take 1
file m.p3l = double
$ save none.p3l --processors 4 --schedule rr --output new
< 1
! usage: the words are not a command of p3l
? 2

fails take 1
file i
| P3LI\
$ save m.p3l --processors 3 --costs c --schedule file:p --output new
< 1
! file fault: m.p3l
? 9

fails take 1
file m.p3l = undeclared
$ save m.p3l --processors 3 --costs c --schedule file:p --output new
< 1
! source: 2:8: 40 Undeclared
? 3

fails take 1
file m.p3l = farmed
$ save m.p3l --processors 3 --costs c --schedule file:p --output new
< 1
! file fault: c
? 9

fails take 1
file m.p3l = farmed
file c
| speed = 1
$ save m.p3l --processors 3 --costs c --schedule file:p --output new
< 1
! costs: 51 BadKey speed
? 4

fails take 1
file m.p3l = farmed
$ save m.p3l --processors 3 --schedule file:p --output new
< 1
! too few processors: need 4
? 5

fails take 1
file m.p3l = double
$ save m.p3l --processors 3 --schedule file:p --output new
< 1
! file fault: p
? 9

fails take 1
file m.p3l = double
file p
| 3
$ save m.p3l --processors 3 --schedule file:p --output new
< 1
! schedule: line 1: 96 NoSuchProcess 3 of 3
? 12

fails take 1
file m.p3l = double
$ resume s --processors 4
< 1
! usage: the words are not a command of p3l
? 2

fails take 1
file m.p3l = double
$ resume s --schedule file:p
< 1
! file fault: s
? 9

fails take 1
file s
| P3LI\
$ resume s --schedule file:p
< 1
! evidence: 130 BadShot 0
? 13

# A snapshot of nothing but the beginning of an image, which is looked at before the state is.
fails take 1
file s
| P3LS\0\0\0\x01\0\0\0\0\0\0\0\x01\0\0\0\0\0\0\0\0\0\0\0\0\0\0\0\0\0\0\0\0\x04P3LI\
$ resume s --schedule file:p
< 1
! evidence: 82 Short 4
? 13

= What writes a file is refused by the first of its stages.
none new

# The second call of the files fails, and the first put of the output.
fails file 2
fails put 1 after 0
file m.p3l = double
$ explain m.p3l --processors 0 --cert e
! usage: the words are not a command of p3l
? 2

# The stages of a program and its costs, before an output that can't be put.
fails put 1 after 0
file i
| P3LI\
$ explain m.p3l --processors 3 --costs c --cert e
! file fault: m.p3l
? 9

fails put 1 after 0
file m.p3l = undeclared
$ explain m.p3l --processors 3 --costs c --cert e
! source: 2:8: 40 Undeclared
? 3

fails put 1 after 0
file m.p3l = farmed
$ explain m.p3l --processors 3 --costs c --cert e
! file fault: c
? 9

fails put 1 after 0
file m.p3l = farmed
file c
| speed = 1
$ explain m.p3l --processors 3 --costs c --cert e
! costs: 51 BadKey speed
? 4

fails file 2
fails put 1 after 0
file m.p3l = farmed
$ explain m.p3l --processors 3 --cert e
! too few processors: need 4
? 5

fails file 2
fails put 1 after 0
file m.p3l = double
$ explain m.p3l --processors 4 --cert e
! write fault
? 10

fails file 2
fails put 1 after 0
file m.p3l = double
$ compile m.p3l --processors 4
! usage: the words are not a command of p3l
? 2

file i
| P3LI\
$ compile m.p3l --processors 3 --costs c --output i
! file fault: m.p3l
? 9

file m.p3l = undeclared
$ compile m.p3l --processors 3 --costs c --output i
! source: 2:8: 40 Undeclared
? 3

file m.p3l = farmed
$ compile m.p3l --processors 3 --costs c --output i
! file fault: c
? 9

file m.p3l = farmed
file c
| speed = 1
$ compile m.p3l --processors 3 --costs c --output i
! costs: 51 BadKey speed
? 4

fails file 2
fails put 1 after 0
file m.p3l = farmed
$ compile m.p3l --processors 3 --output i
! too few processors: need 4
? 5

fails file 2
fails put 1 after 0
file m.p3l = double
$ compile m.p3l --processors 4 --output i
! write fault
? 10

fails file 2
fails put 1 after 0
file m.p3l = double
$ export m.p3l --processors 4
! usage: the words are not a command of p3l
? 2

file i
| P3LI\
$ export m.p3l --processors 3 --costs c --output i
! file fault: m.p3l
? 9

file m.p3l = undeclared
$ export m.p3l --processors 3 --costs c --output i
! source: 2:8: 40 Undeclared
? 3

file m.p3l = farmed
$ export m.p3l --processors 3 --costs c --output i
! file fault: c
? 9

file m.p3l = farmed
file c
| speed = 1
$ export m.p3l --processors 3 --costs c --output i
! costs: 51 BadKey speed
? 4

fails file 2
fails put 1 after 0
file m.p3l = farmed
$ export m.p3l --processors 3 --output i
! too few processors: need 4
? 5

fails file 2
fails put 1 after 0
file m.p3l = double
$ export m.p3l --processors 4 --output i
! write fault
? 10

= What reads evidence is refused by the first of its stages.
none new

fails put 1 after 0
file m.p3l = double
$ verify-cert m.p3l --costs c
! usage: the words are not a command of p3l
? 2

fails put 1 after 0
file i
| P3LI\
$ verify-cert m.p3l --cert e --costs c
! file fault: m.p3l
? 9

fails put 1 after 0
file m.p3l = undeclared
$ verify-cert m.p3l --cert e --costs c
! source: 2:8: 40 Undeclared
? 3

fails put 1 after 0
file m.p3l = farmed
$ verify-cert m.p3l --cert e --costs c
! file fault: c
? 9

fails put 1 after 0
file m.p3l = farmed
file c
| speed = 1
$ verify-cert m.p3l --cert e --costs c
! costs: 51 BadKey speed
? 4

fails put 1 after 0
file m.p3l = double
$ verify-cert m.p3l --cert e
! file fault: e
? 9

fails put 1 after 0
file m.p3l = double
file e
| p3l-cert
$ verify-cert m.p3l --cert e
! evidence: 73 BadText 1
? 13

fails take 1
file m.p3l = double
$ check-trace m.p3l --trace t
< 1
! usage: the words are not a command of p3l
? 2

fails take 1
file i
| P3LI\
$ check-trace m.p3l --processors 3 --costs c --trace t
< 1
! file fault: m.p3l
? 9

fails take 1
file m.p3l = undeclared
$ check-trace m.p3l --processors 3 --costs c --trace t
< 1
! source: 2:8: 40 Undeclared
? 3

fails take 1
file m.p3l = farmed
$ check-trace m.p3l --processors 3 --costs c --trace t
< 1
! file fault: c
? 9

fails take 1
file m.p3l = farmed
file c
| speed = 1
$ check-trace m.p3l --processors 3 --costs c --trace t
< 1
! costs: 51 BadKey speed
? 4

fails take 1
file m.p3l = farmed
$ check-trace m.p3l --processors 3 --trace t
< 1
! too few processors: need 4
? 5

fails take 1
file m.p3l = double
$ check-trace m.p3l --processors 4 --trace t
< 1
! file fault: t
? 9

fails take 1
file m.p3l = double
file t
| p3l-trace
$ check-trace m.p3l --processors 4 --trace t
< 1
! evidence: 110 BadLine 1
? 13

= A scan and what reads a program are refused by the first of their stages.
none new

fails take 1
file m.p3l = double
$ scan none.p3l --segments 0
< 1
! usage: the words are not a command of p3l
? 2

fails take 1
file i
| P3LI\
$ scan m.p3l --segments 2 --schedule file:p
< 1
! file fault: m.p3l
? 9

fails take 1
file m.p3l = undeclared
$ scan m.p3l --segments 2 --schedule file:p
< 1
! source: 2:8: 40 Undeclared
? 3

fails take 1
file m.p3l = double
$ scan m.p3l --segments 2 --schedule file:p
< 1
! scan: 120 NotReduce
? 15

# A list of five elements, and no picks.
fails take 1
file m.p3l = less-of-five
$ scan m.p3l --segments 2 --schedule file:p
< 1
! scan: 121 BadSegments
? 15

# A list of four, and no picks; and picks of a process that isn't there.
fails take 1
file m.p3l = less-of-four
$ scan m.p3l --segments 2 --schedule file:p
< 1
! file fault: p
? 9

fails take 1
file m.p3l = less-of-four
file p
| 99
$ scan m.p3l --segments 2 --schedule file:p
< 1
! schedule: line 1: 96 NoSuchProcess 99 of 9
? 12

fails take 1
file m.p3l = less-of-four
$ scan m.p3l --segments 2
< 1 2 3 4
! read fault
? 8

fails put 1 after 0
file m.p3l = less-of-four
$ scan m.p3l --segments 2
< 1 2 3 4
< x
! write fault
? 10

fails put 1 after 0
file i
| P3LI\
$ check m.p3l --stats
! usage: the words are not a command of p3l
? 2

fails put 1 after 0
file i
| P3LI\
$ check m.p3l
! file fault: m.p3l
? 9

fails put 1 after 0
file m.p3l = undeclared
$ check m.p3l
! source: 2:8: 40 Undeclared
? 3

fails put 1 after 0
file m.p3l = double
$ check m.p3l
! write fault
? 10

fails put 1 after 0
file i
| P3LI\
$ fmt m.p3l
! file fault: m.p3l
? 9

fails put 1 after 0
file m.p3l = undeclared
$ fmt m.p3l
! write fault
? 10

fails take 1
file m.p3l = double
$ profile none.p3l --processors 4
< 1
! usage: the words are not a command of p3l
? 2

fails take 1
file i
| P3LI\
$ profile m.p3l
< 1
! file fault: m.p3l
? 9

fails take 1
file m.p3l = undeclared
$ profile m.p3l
< 1
! source: 2:8: 40 Undeclared
? 3

fails take 1
file m.p3l = double
$ profile m.p3l
< 1
! read fault
? 8
"#;

#[test]
fn each_command_is_refused_by_the_first_of_its_stages(rt: HostRuntime) -> Result<(), Fail> {
    play(&rt, rt.alloc(), CASES)
}
