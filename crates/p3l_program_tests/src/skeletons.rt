// Runs of the skeletons, with numbers of workers that are given or chosen.

use crate::world::play;
use std::test::Fail;

const CASES: &str = r#"
= Skeletons by any number of workers.

# A map by any number of workers.
file m.p3l
| seq dot in(int x[2], int y[2]) out(int z)
| ${ z = x[0] * y[0] + x[1] * y[1]; }$
| end seq
| map main in(int a[2][2], int b[2][2]) out(int c[2][2]) workers 3
|   dot in(a[*i][], b[][*j]) out(c[*i][*j])
| end map
$ run m.p3l --processors 16 --stats
< 1 2 3 4 5 6 7 8
> 19 22 43 50
! stats: items 1, fired 16, idle 0, bound 16

file m.p3l
| seq dot in(int x[2], int y[2]) out(int z)
| ${ z = x[0] * y[0] + x[1] * y[1]; }$
| end seq
| map main in(int a[2][2], int b[2][2]) out(int c[2][2]) workers 1
|   dot in(a[*i][], b[][*j]) out(c[*i][*j])
| end map
$ run m.p3l --processors 16 --stats
< 1 2 3 4 5 6 7 8
> 19 22 43 50
! stats: items 1, fired 16, idle 0, bound 16

file m.p3l
| seq dot in(int x[2], int y[2]) out(int z)
| ${ z = x[0] * y[0] + x[1] * y[1]; }$
| end seq
| map main in(int a[2][2], int b[2][2]) out(int c[2][2]) workers 2
|   dot in(a[*i][], b[][*j]) out(c[*i][*j])
| end map
$ run m.p3l --processors 16 --stats
< 1 2 3 4 5 6 7 8
> 19 22 43 50
! stats: items 1, fired 16, idle 0, bound 16

# A reduce by any number of segments.
# A fold of five, with the line of the numbers.
file m.p3l
| seq sub in(int x, int y) out(int z)
| ${ z = x - y; }$
| end seq
| reduce main in(int a[5]) out(int s) workers 4
|   sub in(a[*i]) out(s)
| end reduce
$ run m.p3l --processors 16 --stats
< 1 2 3 4 5
> -5
! stats: items 1, fired 14, idle 0, bound 14

file m.p3l
| seq sub in(int x, int y) out(int z)
| ${ z = x - y; }$
| end seq
| reduce main in(int a[5]) out(int s) workers 1
|   sub in(a[*i]) out(s)
| end reduce
$ run m.p3l --processors 16 --stats
< 1 2 3 4 5
> -5
! stats: items 1, fired 3, idle 0, bound 3

file m.p3l
| seq sub in(int x, int y) out(int z)
| ${ z = x - y; }$
| end seq
| reduce main in(int a[5]) out(int s) workers 2
|   sub in(a[*i]) out(s)
| end reduce
$ run m.p3l --processors 16 --stats
< 1 2 3 4 5
> -5
! stats: items 1, fired 8, idle 0, bound 8

# A loop, whose second item finishes its turns first, and a pipe.
# Halves until one is left, ten times at most.
file m.p3l
| seq half in(int x, int c) out(int y, int d)
| ${ y = x / 2; d = c + 1; }$
| end seq
| seq more in(int x, int c) out(int b)
| ${ b = x > 1; }$
| end seq
| loop main in(int x, int c) out(int y, int d) turns 10
|   half in(x, c) out(y, d)
|   while more in(y, d) out(int again)
| end loop
$ run m.p3l --processors 16 --stats
< 64 0
< 3 0
> 1 6
> 1 1
! stats: items 2, fired 27, idle 0, bound 66

file m.p3l = farmed
$ run m.p3l --processors 16 --stats
< 1
< 2
< -3
> 6
> 9
> -6
! stats: items 3, fired 18, idle 0, bound 18

# Traps and units.
# The same five times at most.
file m.p3l
| seq half in(int x, int c) out(int y, int d)
| ${ y = x / 2; d = c + 1; }$
| end seq
| seq more in(int x, int c) out(int b)
| ${ b = x > 1; }$
| end seq
| loop main in(int x, int c) out(int y, int d) turns 5
|   half in(x, c) out(y, d)
|   while more in(y, d) out(int again)
| end loop
$ run m.p3l --processors 16
< 64 0
< 3 0
! trap: item 1: turns spent in main
? 7

# The first trap in the order of the elements is reported, whichever worker comes to one first.
file m.p3l
| seq dv in(int x) out(int y)
| ${ if (x < 0) { y = 1 << 64; } else { y = 100 / x; } }$
| end seq
| map main in(int a[4]) out(int b[4]) workers 2
|   dv in(a[*i]) out(b[*i])
| end map
$ run m.p3l --processors 16
< 5 -1 0 2
! trap: item 1: shift out of range in dv
? 7

file m.p3l
| seq dv in(int x) out(int y)
| ${ if (x < 0) { y = 1 << 64; } else { y = 100 / x; } }$
| end seq
| map mm in(int a[4]) out(int b[4])
|   dv in(a[*i]) out(b[*i])
| end map
| comp main in(int a[4]) out(int b[4])
|   mm in(a) out(b)
| end comp
$ run m.p3l --processors 16
< 5 -1 0 2
! trap: item 1: shift out of range in dv
? 7

file m.p3l
| seq sub in(int x, int y) out(int z)
| ${ z = x - y; }$
| end seq
| reduce rr in(int a[4]) out(int s)
|   sub in(a[*i]) out(s)
| end reduce
| seq f in(int x) out(int y)
| ${ y = x + 1; }$
| end seq
| pipe main in(int a[4]) out(int s)
|   rr in(a) out(int t)
|   f in(t) out(s)
| end pipe
$ run m.p3l --processors 16
< 1 2 3 4
> 1

file m.p3l
| seq sub in(int x, int y) out(int z)
| ${ z = x - y; }$
| end seq
| reduce rr in(int a[4]) out(int s)
|   sub in(a[*i]) out(s)
| end reduce
| seq f in(int x) out(int y)
| ${ y = x + 1; }$
| end seq
| comp main in(int a[4]) out(int s)
|   rr in(a) out(int t)
|   f in(t) out(s)
| end comp
$ run m.p3l --processors 16
< 1 2 3 4
> 1

= Farms and loops under each schedule.
file m.p3l
| seq dv in(int x) out(int y)
| ${ y = 100 / x; }$
| end seq
| farm main in(int x) out(int y) workers 3
|   dv in(x) out(y)
| end farm
none new

# A farm under three schedules, and with too few processors.
$ run m.p3l --processors 16 --schedule seed:1
< 5
< 0
< 2
> 20
! trap: item 2: division by zero in dv
? 7

$ run m.p3l --processors 16 --schedule seed:2
< 5
< 0
< 2
> 20
! trap: item 2: division by zero in dv
? 7

$ run m.p3l --processors 16 --schedule rr
< 5
< 0
< 2
> 20
! trap: item 2: division by zero in dv
? 7

$ run m.p3l --processors 4 --stats
< 5
! too few processors: need 5
? 5

= A loop round a farm under each schedule.
none new

file m.p3l = halves
$ run m.p3l --processors 16 --schedule rr --capacity 1 --stats
< 64 0
< 3 0
> 1 6
> 1 1
! stats: items 2, fired 41, idle 0, bound 106

file m.p3l = halves
$ run m.p3l --processors 16 --schedule seed:1 --capacity 1 --stats
< 64 0
< 3 0
> 1 6
> 1 1
! stats: items 2, fired 41, idle 0, bound 106

file m.p3l = halves
$ run m.p3l --processors 16 --schedule seed:2 --capacity 1 --stats
< 64 0
< 3 0
> 1 6
> 1 1
! stats: items 2, fired 41, idle 0, bound 106
"#;

#[test]
fn skeletons_run_by_any_number_of_workers_under_each_schedule(rt: HostRuntime) -> Result<(), Fail> {
    play(&rt, rt.alloc(), CASES)
}
