// Certificates that are made of chosen counts.

use crate::pipe::{made, refusal, text};
use std::test::Fail;

#[test]
fn the_certificate_of_a_pipe(rt: HostRuntime) -> Result<(), Fail> {
    let alloc = rt.alloc();
    let lines = text(alloc)?;
    assert_eq!(rt; made(&rt, alloc, 8)?.as_slice(), lines.as_slice());
    Ok(())
}

#[test]
fn certificates_are_accepted(rt: HostRuntime) -> Result<(), Fail> {
    let alloc = rt.alloc();
    for processors in 4..24 {
        let text = made(&rt, alloc, processors)?;
        assert_eq!(rt; refusal(&rt, alloc, text.as_slice())?, None, "{processors}");
    }
    Ok(())
}
