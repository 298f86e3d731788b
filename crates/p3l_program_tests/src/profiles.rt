// Cost files of programs on inputs, and how `profile` ends. The instructions of each body are counted
// by hand.

use crate::world::play;
use std::test::Fail;

const CASES: &str = r#"
= The cost file of the items is written.

file m.p3l = double
$ profile m.p3l
< 1
< 2
< -3
> setup = 10
> word = 1
> [seq]
> main = 7

file m.p3l = double
$ profile m.p3l
<
<  \x20
< 5\
> setup = 10
> word = 1
> [seq]
> main = 7

file m.p3l = double
$ profile m.p3l
> setup = 10
> word = 1
> [seq]
> main = 0

# It is written by one put: a second one, which would fail, is never made.
fails put 2 after 0
file m.p3l = double
$ profile m.p3l
< 1
< 2
> setup = 10
> word = 1
> [seq]
> main = 7

# A loop that halves a number and counts its turns.
file m.p3l = halved
$ profile m.p3l
< 64 0
< 3 0
> setup = 10
> word = 1
> [seq]
> half = 9
> more = 5
> [turns]
> main = 6

file m.p3l = halved
$ profile m.p3l
> setup = 10
> word = 1
> [seq]
> half = 0
> more = 0
> [turns]
> main = 1

# The elements of an array one after another; a body does 3 instructions up to its trap at 0, 10
# on 1, and 235 on 4.
file m.p3l
| seq up in(int x) out(int y) ${ y = 100 / x; while (y < 50) { y = y + 1; } }$ end seq map each in(int a[3]) out(int b[3]) up in(a[*i]) out(b[*i]) end map comp main in(int a[3]) out(int b[3]) rescue 7 each in(a) out(b) end comp\
$ profile m.p3l
< 1 0 4
> setup = 10
> word = 1
> [seq]
> up = 10

file m.p3l
| seq up in(int x) out(int y) ${ y = 100 / x; while (y < 50) { y = y + 1; } }$ end seq map each in(int a[3]) out(int b[3]) up in(a[*i]) out(b[*i]) end map comp main in(int a[3]) out(int b[3]) rescue 7 each in(a) out(b) end comp\
$ profile m.p3l
< 1 0 4
< 4 1 0
> setup = 10
> word = 1
> [seq]
> up = 235

# A body that no node has, and one that two nodes have.
file m.p3l
| seq idle in(int x) out(int y) ${ y = x; }$ end seq seq one in(int x) out(int y) ${ y = x + 1; }$ end seq pipe main in(int x) out(int z) one in(x) out(int y) one in(y) out(z) end pipe\
$ profile m.p3l
< 3
> setup = 10
> word = 1
> [seq]
> one = 5

= A loop whose turns are spent has a trap.
file m.p3l = halved

# More turns than the loop has.
$ profile m.p3l
< 64 0
< 4096 0
! trap: item 2: turns spent in main
? 7

= A profile ends by the first of its ends.
file m.p3l = hundred
none new

# An item with a trap comes before what ends the input after it, and an input that ends otherwise
# than at its end before an output that can't be put.
fails put 1 after 0
$ profile m.p3l
< 5
< 0
< 2
! trap: item 2: division by zero in main
? 7

$ profile m.p3l
< 5
< 0
< x
! trap: item 2: division by zero in main
? 7

fails put 1 after 0
$ profile m.p3l
< 5
< x
< 0
! stream: line 2: 100 BadWord
? 6

$ profile m.p3l
< 5
< 1 2
! stream: line 2: 101 WrongCount 2
? 6

$ profile m.p3l
< 9223372036854775808
! stream: line 1: 102 OutOfRange
? 6

fails take 3
$ profile m.p3l
< 0
< 2
! trap: item 1: division by zero in main
? 7

fails take 3
$ profile m.p3l
< 1
< x
! read fault
? 8

= A profile of another program ends so, too.
none new

fails take 1
file m.p3l = double
$ profile m.p3l
< 1
! read fault
? 8

fails put 1 after 0
file m.p3l = double
$ profile m.p3l
< 1
! write fault
? 10

fails put 1 after 0
file m.p3l = double
$ profile m.p3l
! write fault
? 10

= A cost file that was written is read.

# A program, and its cost file as `profile` writes it.
# A word is taken in 11 ticks and handed on in 11, and the body takes 7 between.
file m.p3l = double
# Twice an item and one: a load, two numbers, two operators, a store and the end.
file c
| setup = 10
| word = 1
| [seq]
| main = 7
$ explain m.p3l --processors 4 --costs c
> processors 4 used 1 service 29
> 0 seq main procs 1 service 29

file m.p3l = halved
file c
| setup = 10
| word = 1
| [seq]
| half = 9
| more = 5
| [turns]
| main = 6
$ run m.p3l --processors 16 --costs c
< 64 0
< 3 0
> 1 6
> 1 1
"#;

#[test]
fn cost_files_are_written_and_read(rt: HostRuntime) -> Result<(), Fail> {
    play(&rt, rt.alloc(), CASES)
}
