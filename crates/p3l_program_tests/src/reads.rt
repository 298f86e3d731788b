// Files are read once: the calls of the files after those that a command needs would fail, and change
// nothing.

use crate::world::play;
use std::test::Fail;

const CASES: &str = r#"
= No file is read twice.
file m.p3l = double
file c
| setup = 0
| word = 0
| [seq]
| main = 10
none new

# The program, and then costs and picks; `time` writes its picks by a third call.
# The canonical text of the program.
fails file 2
$ fmt m.p3l
> seq main in(int x) out(int y)
> ${
>   y = x * 2 + 1;
> }$
> end seq

fails file 3
$ graph m.p3l --processors 4 --costs c
> digraph network {
>   rankdir=LR;
>   node [shape=box];
>   p0 [label="0 source"];
>   p1 [label="1 sink"];
>   p2 [label="2 run main"];
>   p0 -> p2 [label="4"];
>   p2 -> p1 [label="4"];
>     p2;
> }

fails file 4
$ graph m.p3l --processors 4 --costs c
> digraph network {
>   rankdir=LR;
>   node [shape=box];
>   p0 [label="0 source"];
>   p1 [label="1 sink"];
>   p2 [label="2 run main"];
>   p0 -> p2 [label="4"];
>   p2 -> p1 [label="4"];
>     p2;
> }

fails file 3
$ rewrite m.p3l --processors 4 --costs c
> seq main in(int x) out(int y)
> ${
>   y = x * 2 + 1;
> }$
> end seq

fails file 4
$ rewrite m.p3l --processors 4 --costs c
> seq main in(int x) out(int y)
> ${
>   y = x * 2 + 1;
> }$
> end seq

fails file 4
$ compile m.p3l --processors 4 --costs c --output i

fails file 4
$ time m.p3l --processors 4 --costs c --picks p
< 1
< 2
< -3
> 3
> 5
> -5
! time: items 3, fired 9, finish 30, busiest 2 30

= A scan reads no file twice.
none new

fails file 3
file m.p3l = less-of-four
file p
| 0
$ scan m.p3l --segments 4 --schedule file:p
< 1 2 3 4
! stopped: 1 fired, 0 idle
? 1

fails file 4
file m.p3l = less-of-four
file p
| 0
$ scan m.p3l --segments 4 --schedule file:p
< 1 2 3 4
! stopped: 1 fired, 0 idle
? 1
"#;

#[test]
fn no_file_is_read_twice(rt: HostRuntime) -> Result<(), Fail> {
    play(&rt, rt.alloc(), CASES)
}
