// The operations of bodies, as they are dispatched.

use crate::bodies::compiled;
use p3l_registers::fused::{Fused, fuse};
use p3l_registers::translator::draft_of;
use std::test::*;

/// A body with a loop over an index, as most loops are.
const LOOP: &str = "seq main in(int n) out(int y) ${
    int i;
    for (i = 0; i < n; i = i + 1) { y = y + i; }
}$ end seq";

/// Returns true exactly if one of these operations adds, compares and goes back at once.
fn has_count(fused_list: &[Fused]) -> bool {
    for fused in fused_list {
        if matches!(fused, Fused::CountTo(..)) {
            return true;
        }
    }
    false
}

#[test]
fn the_end_of_a_loop_is_one_operation(rt: HostRuntime) -> Result<(), Fail> {
    let alloc = rt.alloc();
    let safe = compiled(alloc, LOOP)?.ok_or("no code")?;
    let draft = draft_of(alloc, safe.code())?.ok_or("no draft")?;
    let fused_list = fuse(alloc, draft.operations.as_slice())?;
    assert!(rt; has_count(fused_list.as_slice()));
    Ok(())
}
