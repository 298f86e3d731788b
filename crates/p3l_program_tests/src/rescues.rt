// Modules with a rescue number: what traps within them gives this number, and the stream goes on.

use crate::world::play;
use std::test::Fail;

const CASES: &str = r#"
= What traps in a rescued module gives its number.

# Of these the second divides by zero.
# Each item passes all three processes.
# A hundred by an item, and a number that no item gives in the place of a trap.
file m.p3l
| seq main in(int x) out(int y) rescue -7 ${ y = 100 / x; }$ end seq\
$ run m.p3l --processors 16 --stats
< 5
< 0
< 2
> 20
> -7
> 50
! stats: items 3, fired 9, idle 0, bound 9

# Adds one as often as the item says, at most three times.
file m.p3l
| seq main in(int x) out(int y) budget 3 rescue 0
| ${ int i; for (i = 0; i < x; i = i + 1) { y = y + 1; } }$
| end seq
$ run m.p3l --processors 16
< 3
< 4
> 3
> 0

# A hundred by an item and then one more, rescued as a whole.
file m.p3l
| seq dv in(int x) out(int y) ${ y = 100 / x; }$ end seq seq inc in(int x) out(int y) ${ y = x + 1; }$ end seq comp main in(int x) out(int y) rescue 9 dv in(x) out(int t) inc in(t) out(y) end comp\
$ run m.p3l --processors 16
< 0
< 50
> 9
> 3

# The same, of which the first part is rescued alone.
file m.p3l
| seq dv in(int x) out(int y) rescue 1 ${ y = 100 / x; }$ end seq seq inc in(int x) out(int y) ${ y = x + 1; }$ end seq comp main in(int x) out(int y) dv in(x) out(int t) inc in(t) out(y) end comp\
$ run m.p3l --processors 16
< 0
> 2

# A rescue of the stage after the one that traps.
file m.p3l
| seq dv in(int x) out(int y) ${ y = 100 / x; }$ end seq seq inc in(int x) out(int y) rescue 5 ${ y = x + 1; }$ end seq pipe main in(int x) out(int y) dv in(x) out(int t) inc in(t) out(y) end pipe\
$ run m.p3l --processors 16
< 0
! trap: item 1: division by zero in dv
? 7

# A call of a module of a name that is a keyword.
file m.p3l
| comp main in(int x) out(int y)
|   rescue in(x) out(y)
| end comp
$ run m.p3l --processors 16
! source: 2:10: 3 Expected
? 3

= Images keep the numbers of rescues.
file m.p3l
| seq main in(int x) out(int y) rescue -7 ${ y = 100 / x; }$ end seq\

# The number is in the image.
$ compile m.p3l --processors 4 --output i
$ exec i --stats
< 5
< 0
< 2
> 20
> -7
> 50
! stats: items 3, fired 9, idle 0, bound 9
leaves m.p3l
| seq main in(int x) out(int y) rescue -7 ${ y = 100 / x; }$ end seq\
"#;

#[test]
fn what_traps_in_a_rescued_module_gives_its_number(rt: HostRuntime) -> Result<(), Fail> {
    play(&rt, rt.alloc(), CASES)
}
