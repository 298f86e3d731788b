// The program over objects in memory: what it writes, says and answers.

use crate::world::{compare, files_of, give, play, take_with_file};
use p3l_base::List;
use p3l_io::MemSource;
use std::alloc::Global;
use std::process::Abort;
use std::test::Fail;

const CASES: &str = r#"
= Inputs are run to their endings and counted before their line.
file m.p3l = double

$ run m.p3l --processors 16
< 1
< 2
< -3
> 3
> 5
> -5

$ run m.p3l --processors 16

$ run m.p3l --processors 16
< 9223372036854775807
> -1

$ run m.p3l --processors 16
< 9223372036854775808
! stream: line 1: 102 OutOfRange
? 6

$ run m.p3l --processors 16
< 1
< 2
< 1 x
< 4
> 3
> 5
! stream: line 3: 100 BadWord
? 6

$ run m.p3l --processors 16
< +1
! stream: line 1: 100 BadWord
? 6

$ run m.p3l --processors 16
<
< 7\x0d
< 8\
> 15
> 17

$ run m.p3l --processors 16
< 1 2
! stream: line 1: 101 WrongCount 2
? 6

$ run m.p3l --processors 16
< 1
< 1
< 1
< 1
< 1
< 1
< 1
< 1
< 1
> 3
> 3
> 3
> 3
> 3
> 3
> 3
> 3
> 3

$ run m.p3l --processors 16 --stats
< 1
< 2
< -3
> 3
> 5
> -5
! stats: items 3, fired 9, idle 0, bound 9

$ run m.p3l --processors 16 --stats
! stats: items 0, fired 0, idle 0, bound 0

$ run m.p3l --processors 16 --stats
< 9223372036854775808
! stats: items 0, fired 0, idle 0, bound 0
! stream: line 1: 102 OutOfRange
? 6

= Texts are counted, printed or refused.

file m.p3l
$ run m.p3l --processors 16
! source: 1:1: 21 NoMain
? 3

file m.p3l
| seq main in(int 1x)\
$ run m.p3l --processors 16
! source: 1:17: 2 BadToken
? 3

file m.p3l = undeclared
$ run m.p3l --processors 16 --stats
< 1
! source: 2:8: 40 Undeclared
? 3

file m.p3l = undeclared
$ check m.p3l
< 1
! source: 2:8: 40 Undeclared
? 3

file m.p3l = double
$ check m.p3l
> ok: 1 modules, 1 instances

file m.p3l = more-then-twice
$ check m.p3l
> ok: 3 modules, 3 instances

file m.p3l = parts-farmed
$ check m.p3l
> ok: 2 modules, 2 instances

file m.p3l = more-then-twice
$ run m.p3l --processors 1
< 1
! too few processors: need 2
? 5

file m.p3l = double
$ exec m.p3l
< 1
! evidence: 80 BadMagic
? 13

# `double` in one line, with parentheses that aren't needed.
file m.p3l
| seq main in(int x)out(int y)${y=(x*2)+1;}$end seq\
$ fmt m.p3l
< 1
> seq main in(int x) out(int y)
> ${
>   y = x * 2 + 1;
> }$
> end seq

file m.p3l = double
$ fmt m.p3l
< 1
> seq main in(int x) out(int y)
> ${
>   y = x * 2 + 1;
> }$
> end seq

# The canonical text of `double`.
file m.p3l
| seq main in(int x) out(int y)
| ${
|   y = x * 2 + 1;
| }$
| end seq
$ fmt m.p3l
< 1
> seq main in(int x) out(int y)
> ${
>   y = x * 2 + 1;
> }$
> end seq

# A text with a comment, odd spaces and more parentheses than are needed.
file m.p3l
| seq  main in(int a,int f) // all
|  out(int b,int g)${b=(a-(a-1))+((a*2)+1);
| \x09b=-(a+b) ;g = !(f);}$ end   seq\
$ fmt m.p3l
< 1
> seq main in(int a, int f) out(int b, int g)
> ${
>   b = a - (a - 1) + (a * 2 + 1);
>   b = -(a + b);
>   g = !f;
> }$
> end seq

# Its canonical text.
file m.p3l
| seq main in(int a, int f) out(int b, int g)
| ${
|   b = a - (a - 1) + (a * 2 + 1);
|   b = -(a + b);
|   g = !f;
| }$
| end seq
$ fmt m.p3l
< 1
> seq main in(int a, int f) out(int b, int g)
> ${
>   b = a - (a - 1) + (a * 2 + 1);
>   b = -(a + b);
>   g = !f;
> }$
> end seq

file m.p3l
$ fmt m.p3l
< 1

file m.p3l
| seq main in(int 1x)\
$ fmt m.p3l
< 1
! source: 1:17: 2 BadToken
? 3

= Options stand in any order, and other words are no command.
file m.p3l = double

$ walk
< 1
! usage: the words are not a command of p3l
? 2

$ run m.p3l --processors 0
< 1
! usage: the words are not a command of p3l
? 2

$ run m.p3l --processors 513
< 1
! usage: the words are not a command of p3l
? 2

$ run m.p3l --processors 04
< 1
! usage: the words are not a command of p3l
? 2

$ run m.p3l --processors +4
< 1
! usage: the words are not a command of p3l
? 2

$ fmt m.p3l --stats
! usage: the words are not a command of p3l
? 2

$ run none.p3l --processors 4
< 1
! file fault: none.p3l
? 9

# One item, and the line of its numbers.
$ run m.p3l --stats --processors 4
< 1
> 3
! stats: items 1, fired 3, idle 0, bound 3

$ run --stats --processors=4 m.p3l
< 1
> 3
! stats: items 1, fired 3, idle 0, bound 3

$ run --processors 4 m.p3l --stats
< 1
> 3
! stats: items 1, fired 3, idle 0, bound 3

= Each take, each put and each reading fails in turn.
file m.p3l = double
none new

# The first takings of the input until one fails: after none, one, two and three items.
fails take 1
$ run m.p3l --processors 16 --stats
< 1
< 2
< -3
! stats: items 0, fired 0, idle 0, bound 0
! read fault
? 8

fails take 2
$ run m.p3l --processors 16 --stats
< 1
< 2
< -3
! stats: items 0, fired 0, idle 0, bound 0
! read fault
? 8

fails take 3
$ run m.p3l --processors 16 --stats
< 1
< 2
< -3
> 3
! stats: items 1, fired 3, idle 0, bound 3
! read fault
? 8

fails take 4
$ run m.p3l --processors 16 --stats
< 1
< 2
< -3
> 3
! stats: items 1, fired 3, idle 0, bound 3
! read fault
? 8

fails take 5
$ run m.p3l --processors 16 --stats
< 1
< 2
< -3
> 3
> 5
! stats: items 2, fired 6, idle 0, bound 6
! read fault
? 8

fails take 6
$ run m.p3l --processors 16 --stats
< 1
< 2
< -3
> 3
> 5
! stats: items 2, fired 6, idle 0, bound 6
! read fault
? 8

fails take 7
$ run m.p3l --processors 16 --stats
< 1
< 2
< -3
> 3
> 5
! stats: items 2, fired 6, idle 0, bound 6
! read fault
? 8

fails take 8
$ run m.p3l --processors 16 --stats
< 1
< 2
< -3
> 3
> 5
> -5
! stats: items 3, fired 9, idle 0, bound 9
! read fault
? 8

# Puts that fail after some of their bytes, and readings that fail.
fails put 1 after 0
$ run m.p3l --processors 16 --stats
< 1
< 2
< -3
! write fault
? 10

fails put 1 after 1
$ run m.p3l --processors 16 --stats
< 1
< 2
< -3
> 3\
! write fault
? 10

fails put 2 after 0
$ run m.p3l --processors 16 --stats
< 1
< 2
< -3
> 3
! write fault
? 10

fails put 2 after 1
$ run m.p3l --processors 16 --stats
< 1
< 2
< -3
> 3
> 5\
! write fault
? 10

fails put 3 after 3
$ run m.p3l --processors 16 --stats
< 1
< 2
< -3
> 3
> 5
> -5
! write fault
? 10

fails say 1 after 0
$ run m.p3l --processors 16 --stats
< x
! stream: line 1: 100 BadWord
? 6

fails file 1
$ run m.p3l --processors 16
< 1
< 2
< -3
! file fault: m.p3l
? 9

fails put 1 after 8
$ fmt m.p3l
> seq main\
! write fault
? 10

= Nothing is called that is not needed.
file m.p3l = double
none new

# No put is made where there is no text, and nothing is called again after its end.
fails put 1 after 0
$ run m.p3l --processors 16

fails take 9
fails file 2
$ run m.p3l --processors 16
< 1
< 2
< -3
> 3
> 5
> -5

= No put is made of an empty text.
none new

fails put 1 after 0
file m.p3l
$ fmt m.p3l

= Every skeleton runs under every schedule.

file m.p3l = more-then-twice
$ run m.p3l --processors 8 --schedule rr
< 1
< 5
> 4
> 12

file m.p3l = more-then-twice
$ run m.p3l --processors 8 --schedule seed:0
< 1
< 5
> 4
> 12

file m.p3l = more-then-twice
$ run m.p3l --processors 8 --schedule seed:7
< 1
< 5
> 4
> 12

file m.p3l
| seq more in(int x) out(int y) ${ y = x + 1; }$ end seq seq twice in(int x) out(int y) ${ y = x * 2; }$ end seq comp main in(int x) out(int z) more in(x) out(int y) twice in(y) out(z) end comp\
$ run m.p3l --processors 8 --schedule rr
< 1
< 5
> 4
> 12

file m.p3l
| seq more in(int x) out(int y) ${ y = x + 1; }$ end seq seq twice in(int x) out(int y) ${ y = x * 2; }$ end seq comp main in(int x) out(int z) more in(x) out(int y) twice in(y) out(z) end comp\
$ run m.p3l --processors 8 --schedule seed:0
< 1
< 5
> 4
> 12

file m.p3l
| seq more in(int x) out(int y) ${ y = x + 1; }$ end seq seq twice in(int x) out(int y) ${ y = x * 2; }$ end seq comp main in(int x) out(int z) more in(x) out(int y) twice in(y) out(z) end comp\
$ run m.p3l --processors 8 --schedule seed:7
< 1
< 5
> 4
> 12

file m.p3l = parts-farmed
$ run m.p3l --processors 8 --schedule rr
< 5
< 0
< 2
> 20
! trap: item 2: division by zero in part
? 7

file m.p3l = parts-farmed
$ run m.p3l --processors 8 --schedule seed:0
< 5
< 0
< 2
> 20
! trap: item 2: division by zero in part
? 7

file m.p3l = parts-farmed
$ run m.p3l --processors 8 --schedule seed:7
< 5
< 0
< 2
> 20
! trap: item 2: division by zero in part
? 7

file m.p3l
| seq more in(int x) out(int y) ${ y = x + 1; }$ end seq map main in(int a[3]) out(int b[3]) more in(a[*i]) out(b[*i]) end map\
$ run m.p3l --processors 8 --schedule rr
< 1 2 3
< -1 0 7
> 2 3 4
> 0 1 8

file m.p3l
| seq more in(int x) out(int y) ${ y = x + 1; }$ end seq map main in(int a[3]) out(int b[3]) more in(a[*i]) out(b[*i]) end map\
$ run m.p3l --processors 8 --schedule seed:0
< 1 2 3
< -1 0 7
> 2 3 4
> 0 1 8

file m.p3l
| seq more in(int x) out(int y) ${ y = x + 1; }$ end seq map main in(int a[3]) out(int b[3]) more in(a[*i]) out(b[*i]) end map\
$ run m.p3l --processors 8 --schedule seed:7
< 1 2 3
< -1 0 7
> 2 3 4
> 0 1 8

file m.p3l
| seq less in(int x, int y) out(int z) ${ z = x - y; }$ end seq reduce main in(int a[5]) out(int s) less in(a[*i]) out(s) end reduce\
$ run m.p3l --processors 8 --schedule rr
< 9 1 2 3 4
> 5

file m.p3l
| seq less in(int x, int y) out(int z) ${ z = x - y; }$ end seq reduce main in(int a[5]) out(int s) less in(a[*i]) out(s) end reduce\
$ run m.p3l --processors 8 --schedule seed:0
< 9 1 2 3 4
> 5

file m.p3l
| seq less in(int x, int y) out(int z) ${ z = x - y; }$ end seq reduce main in(int a[5]) out(int s) less in(a[*i]) out(s) end reduce\
$ run m.p3l --processors 8 --schedule seed:7
< 9 1 2 3 4
> 5

file m.p3l
| seq half in(int x, int c) out(int y, int d) ${ y = x / 2; d = c + 1; }$ end seq seq more in(int x, int c) out(int again) ${ again = x > 1; }$ end seq loop main in(int x, int c) out(int y, int d) turns 64 half in(x, c) out(y, d) while more in(y, d) out(int again) end loop\
$ run m.p3l --processors 8 --schedule rr
< 64 0
< 3 0
< 1000000 0
> 1 6
> 1 1
> 1 19

file m.p3l
| seq half in(int x, int c) out(int y, int d) ${ y = x / 2; d = c + 1; }$ end seq seq more in(int x, int c) out(int again) ${ again = x > 1; }$ end seq loop main in(int x, int c) out(int y, int d) turns 64 half in(x, c) out(y, d) while more in(y, d) out(int again) end loop\
$ run m.p3l --processors 8 --schedule seed:0
< 64 0
< 3 0
< 1000000 0
> 1 6
> 1 1
> 1 19

file m.p3l
| seq half in(int x, int c) out(int y, int d) ${ y = x / 2; d = c + 1; }$ end seq seq more in(int x, int c) out(int again) ${ again = x > 1; }$ end seq loop main in(int x, int c) out(int y, int d) turns 64 half in(x, c) out(y, d) while more in(y, d) out(int again) end loop\
$ run m.p3l --processors 8 --schedule seed:7
< 64 0
< 3 0
< 1000000 0
> 1 6
> 1 1
> 1 19

= Recorded picks are followed.
none new

file m.p3l = double
file p
| 0 2 0 1
$ run m.p3l --processors 4 --stats --schedule file:p
< 1
< 2
< -3
> 3
! stats: items 2, fired 4, idle 0, bound 6
! stopped: 4 fired, 0 idle
? 1

file m.p3l = double
file p
| 1\x091\x0d
| 0\
$ run m.p3l --processors 4 --stats --schedule file:p
< 1
< 2
< -3
! stats: items 1, fired 1, idle 2, bound 3
! stopped: 1 fired, 2 idle
? 1

file m.p3l = double
file p
| 0 2 9
$ run m.p3l --processors 4 --stats --schedule file:p
< 1
< 2
< -3
! schedule: line 1: 96 NoSuchProcess 9 of 3
? 12

file m.p3l = double
file p
| 0
| x
$ run m.p3l --processors 4 --stats --schedule file:p
< 1
< 2
< -3
! schedule: line 2: 95 BadPick
? 12

file m.p3l = double
file p
| 0 2 1 0 2 1 0 2 1
$ run m.p3l --processors 4 --stats --schedule file:p
< 1
< 2
< -3
> 3
> 5
> -5
! stats: items 3, fired 9, idle 0, bound 9

fails file 2
file m.p3l = double
file p
| 0
$ run m.p3l --processors 4 --stats --schedule file:p
< 1
! file fault: p
? 9

= Counts are explained by the costs.
none new

file m.p3l = double
$ explain m.p3l --processors 4
> processors 4 used 1 service 122
> 0 seq main procs 1 service 122

file m.p3l = double
file c
| setup = 0
| word = 0
| [seq]
| main = 10
$ explain m.p3l --processors 4 --costs c
> processors 4 used 1 service 10
> 0 seq main procs 1 service 10

file m.p3l = double
file c
| setup = 0
| word = 0
| [seq]
$ explain m.p3l --processors 4 --costs c
! costs: 53 Missing main
? 4

file m.p3l = double
file c
| speed = 1
| [seq]
| main = 10
$ explain m.p3l --processors 4 --costs c
! costs: 51 BadKey speed
? 4

file m.p3l = double
file c
| speed\
$ explain m.p3l --processors 4 --costs c
! costs: 50 NotToml
? 4
"#;

#[test]
fn what_a_command_writes_says_and_answers(rt: HostRuntime) -> Result<(), Fail> {
    play(&rt, rt.alloc(), CASES)
}

/// No words at all are no command.
#[test]
fn no_words_are_no_command(rt: HostRuntime) -> Result<(), Fail> {
    let alloc = rt.alloc();
    let mut files = files_of(alloc, "\nfile m.p3l = double")?;
    let mut input = MemSource::new(List::new(alloc), 1, List::new(alloc));
    let ended = give(alloc, &[], &mut input, "", &mut files)?;
    let end = "no words\n! usage: the words are not a command of p3l\n? 2";
    compare(&rt, alloc, end, &ended)
}

/// Takes steps on a program of so many blanks.
fn take_blanks(rt: &impl Abort, alloc: Global, blanks: usize, steps: &str) -> Result<(), Fail> {
    let program = " ".repeat(alloc, blanks)?;
    let bytes = program.as_str().as_bytes();
    take_with_file(rt, alloc, "", "m.p3l", bytes, steps)
}

const AS_LONG: &str = r#"fmt m.p3l
< 1
$ run m.p3l --processors 16
< 1
! source: 1:1048577: 21 NoMain
? 3"#;

const TOO_LONG: &str = r#"fmt m.p3l
< 1
! file too long: m.p3l
? 9
$ run m.p3l --processors 16
< 1
! file too long: m.p3l
? 9"#;

#[test]
fn a_file_is_as_long_as_its_limit_at_most(rt: HostRuntime) -> Result<(), Fail> {
    take_blanks(&rt, rt.alloc(), 1_048_576, AS_LONG)?;
    take_blanks(&rt, rt.alloc(), 1_048_577, TOO_LONG)
}
