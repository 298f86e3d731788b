// Pictures of networks, as they were written by hand.

use crate::world::play;
use std::test::Fail;

const CASES: &str = r#"
= Networks are drawn.

# A pipe of a body and of a farm of another one.
file m.p3l
| seq more in(int x) out(int y) ${ y = x + 1; }$ end seq seq twice in(int x) out(int y) ${ y = x * 2; }$ end seq farm all in(int x) out(int y) workers 2 twice in(x) out(y) end farm pipe main in(int x) out(int z) more in(x) out(int y) all in(y) out(z) end pipe\
$ graph m.p3l --processors 8 --capacity 3
> digraph network {
>   rankdir=LR;
>   node [shape=box];
>   p0 [label="0 source"];
>   p1 [label="1 sink"];
>   p2 [label="2 run more"];
>   p3 [label="3 emit all"];
>   p4 [label="4 collect all"];
>   p5 [label="5 run twice"];
>   p6 [label="6 run twice"];
>   p0 -> p2 [label="3"];
>   p4 -> p1 [label="3"];
>   p2 -> p3 [label="3"];
>   p3 -> p5 [label="3"];
>   p3 -> p6 [label="3"];
>   p5 -> p4 [label="3"];
>   p6 -> p4 [label="3"];
>   subgraph cluster_0 {
>     label="0 pipe main";
>     p2;
>   subgraph cluster_2 {
>     label="2 farm all";
>     p3;
>     p4;
>     p5;
>     p6;
>   }
>   }
> }

file m.p3l
| seq main\
$ graph m.p3l --processors 8 --capacity 3
! source: 1:9: 3 Expected
? 3

file m.p3l
| seq main in(int x) out(int y) ${ y = x; }$ end seq\
$ graph m.p3l --processors 1
> digraph network {
>   rankdir=LR;
>   node [shape=box];
>   p0 [label="0 source"];
>   p1 [label="1 sink"];
>   p2 [label="2 run main"];
>   p0 -> p2 [label="4"];
>   p2 -> p1 [label="4"];
>     p2;
> }

file m.p3l
| seq more in(int x) out(int y) ${ y = x + 1; }$ end seq seq twice in(int x) out(int y) ${ y = x * 2; }$ end seq farm all in(int x) out(int y) workers 2 twice in(x) out(y) end farm pipe main in(int x) out(int z) more in(x) out(int y) all in(y) out(z) end pipe\
$ graph m.p3l --processors 1
! too few processors: need 5
? 5

file m.p3l
| seq main in(int x) out(int y) ${ y = x; }$ end seq\
$ graph m.p3l
! usage: the words are not a command of p3l
? 2
"#;

#[test]
fn networks_are_drawn(rt: HostRuntime) -> Result<(), Fail> {
    play(&rt, rt.alloc(), CASES)
}
