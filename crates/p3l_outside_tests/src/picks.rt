// Picks that stand in texts.

use p3l_sched::{PickRefusal, read_picks};
use std::test::Fail;

#[test]
fn picks_are_read_from_texts(rt: HostRuntime) -> Result<(), Fail> {
    let table: [(&[u8], &[u32]); 7] = [
        (b"0 2 0 1", &[0, 2, 0, 1]),
        (b"1 1 0\n", &[1, 1, 0]),
        (b"", &[]),
        (b" \t\r\n", &[]),
        (b"\r\n2\t\t1\r0\n\n1", &[2, 1, 0, 1]),
        (b"000 0002", &[0, 2]),
        (b"2\r\n", &[2]),
    ];
    for (text, expected) in table {
        let picks = read_picks(rt.alloc(), text, 3)?;
        assert_eq!(rt; picks.as_slice(), expected);
    }
    Ok(())
}

#[test]
fn the_first_word_that_is_no_pick_is_refused(rt: HostRuntime) -> Result<(), Fail> {
    let table: [(&[u8], PickRefusal); 10] = [
        (
            b"0 2 9",
            PickRefusal::NoSuchProcess {
                line: 1,
                pick: 9,
                count: 3,
            },
        ),
        (b"0 x", PickRefusal::BadPick { line: 1 }),
        (b"0\n\n1 -1 9", PickRefusal::BadPick { line: 3 }),
        (
            b"0\r\n 3\nx",
            PickRefusal::NoSuchProcess {
                line: 2,
                pick: 3,
                count: 3,
            },
        ),
        (b"+1", PickRefusal::BadPick { line: 1 }),
        (
            b"18446744073709551615",
            PickRefusal::NoSuchProcess {
                line: 1,
                pick: 18446744073709551615,
                count: 3,
            },
        ),
        (b"18446744073709551616", PickRefusal::BadPick { line: 1 }),
        (b"1\n2\xff", PickRefusal::BadPick { line: 2 }),
        (b"1,2", PickRefusal::BadPick { line: 1 }),
        (b"\n\n0x1", PickRefusal::BadPick { line: 3 }),
    ];
    for (text, refusal) in table {
        assert_eq!(rt; read_picks(rt.alloc(), text, 3).err(), Some(refusal));
    }
    Ok(())
}
