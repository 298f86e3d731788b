// Files of costs that are accepted, with the costs that they give.

use crate::files::{answer, check_files};
use std::test::Fail;

/// Each number and each table, and the value of those that are not given. The ticks are those
/// of `twice`, `add`, `idle` and the other modules, and the fourth number of turns is that of `spin`.
const GIVEN: &str = "0 0 / 100 100 100 0 0 0 0 / 1 1 1 10 1 1 1 | default = 100
10 1 / 100 100 100 0 0 0 0 / 1 1 1 10 1 1 1 | setup = 10; word = 1; default = 100
0 0 / 0 0 0 0 0 0 0 / 1 1 1 10 1 1 1 | default = 0
7 0 / 20 400 0 0 0 0 0 / 1 1 1 10 1 1 1 | setup = 7; [seq]; twice = 20; add = 400
0 7 / 20 400 5 0 0 0 0 / 1 1 1 10 1 1 1 | word = 7; [seq]; twice = 20; add = 400; idle = 5
0 0 / 9 400 9 0 0 0 0 / 1 1 1 10 1 1 1 | default = 9; [seq]; add = 400
0 0 / 20 0 9 0 0 0 0 / 1 1 1 10 1 1 1 | default = 9; [seq]; add = 0; twice = 20
0 0 / 9 9 9 0 0 0 0 / 1 1 1 3 1 1 1 | default = 9; [turns]; spin = 3
0 0 / 9 9 9 0 0 0 0 / 1 1 1 1 1 1 1 | default = 9; [turns]; spin = 1
0 0 / 9 9 9 0 0 0 0 / 1 1 1 10 1 1 1 | default = 9; [turns]; spin = 10
0 0 / 9 9 9 0 0 0 0 / 1 1 1 10 25 1 1 | default = 9; [turns]; rest = 25
0 0 / 9 9 9 0 0 0 0 / 1 1 1 10 1000000 1 1 | default = 9; [turns]; rest = 1000000
0 0 / 9 9 9 0 0 0 0 / 1 1 1 2 3 1 1 | default = 9; [seq]; [turns]; spin = 2; rest = 3
1000000 1000000 / 1000000 1000000 1000000 0 0 0 0 / 1 1 1 10 1 1 1 | default = 1000000; setup = 1000000; word = 1000000
0 0 / 1 1000000 0 0 0 0 0 / 1 1 1 10 1 1 1 | [seq]; twice = 1; add = 1000000";

/// Other ways to write the same.
const WRITTEN: &str = "0 0 / 9 9 9 0 0 0 0 / 1 1 1 10 1 1 1 | default = 9;
0 0 / 9 9 9 0 0 0 0 / 1 1 1 10 1 1 1 | ;; # costs;default=9 # ticks;;
0 0 / 9 9 9 0 0 0 0 / 1 1 1 10 1 1 1 | \"default\" = 9
0 0 / 9 9 9 0 0 0 0 / 1 1 1 10 1 1 1 | 'default' = 9
0 0 / 9 9 9 0 0 0 0 / 1 1 1 10 1 1 1 | \"d\\u0065fault\" = 9
0 0 / 16 17 15 0 0 0 0 / 1 1 1 10 1 1 1 | [seq]; twice = 0x10; add = 0o21; idle = 0b1111
0 3 / 1000 5 0 0 0 0 0 / 1 1 1 10 1 1 1 | setup = -0; word = +3; seq.twice = 1_000; seq.add = 5
0 0 / 1 2 3 0 0 0 0 / 1 1 1 10 1 1 1 | seq = { twice = 1, add = 2, idle = 3 }
0 0 / 1 2 0 0 0 0 0 / 1 1 1 4 1 1 1 | seq.twice = 1; turns.spin = 4; seq.add = 2
0 0 / 1 2 0 0 0 0 0 / 1 1 1 4 1 1 1 | seq.\"twice\" = 1; 'seq' . add = 2; \"turns\".'spin' = 4
0 0 / 1 2 0 0 0 0 0 / 1 1 1 4 1 1 1 | [turns]; spin = 4; [ seq ]; twice = 1; add = 2
0 0 / 1 2 0 0 0 0 0 / 1 1 1 4 1 1 1 | [\"turns\"]; \"spin\" = 4; ['seq']; 'twice' = 1; add = 2
5 0 / 9 9 9 0 0 0 0 / 1 1 1 10 1 1 1 | setup = 5; seq = {}; default = 9; turns = {}";

#[test]
fn costs_that_are_given(rt: HostRuntime) -> Result<(), Fail> {
    check_files(&rt, rt.alloc(), GIVEN)
}

#[test]
fn costs_in_other_forms(rt: HostRuntime) -> Result<(), Fail> {
    check_files(&rt, rt.alloc(), WRITTEN)
}

#[test]
fn lines_may_end_with_a_carriage_return(rt: HostRuntime) -> Result<(), Fail> {
    let answer = answer(
        &rt,
        rt.alloc(),
        b"setup = 1\r\n[seq]\r\n\ttwice\t=\t2\r\nadd = 3\r\n",
    )?;
    assert_eq!(rt; answer.as_str(), "1 0 / 2 3 0 0 0 0 0 / 1 1 1 10 1 1 1");
    Ok(())
}
