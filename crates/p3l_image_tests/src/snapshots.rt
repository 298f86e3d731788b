// Snapshots that were worked out by hand, and what is reported of their damages.

use crate::small::FIELDS;
use p3l_base::{Outcome, Trap, TrapKind};
use p3l_resume::{Saved, ShotRefusal, read_shot, shot_text};
use std::alloc::Global;
use std::test::Fail;

// The fields before the image's bytes, of a run on `1`, `2`, `-3` that was saved after the picks 0, 2,
// 0 and 1.
const SHOT: [&[u8]; 22] = [
    // The magic number, the version.
    b"P3LS",
    b"\x00\x00\x00\x01",
    // Two items were sent, and one outcome was emitted.
    b"\x00\x00\x00\x00\x00\x00\x00\x02",
    b"\x00\x00\x00\x00\x00\x00\x00\x01",
    // The inbox holds -3.
    b"\x01",
    b"\x00\x00\x00\x01",
    b"\xff\xff\xff\xff\xff\xff\xff\xfd",
    // Three processes, which keep nothing.
    b"\x00\x00\x00\x03",
    b"\x00\x00\x00\x00\x00\x00\x00\x00",
    b"\x00\x00\x00\x00",
    b"\x00\x00\x00\x00\x00\x00\x00\x00",
    b"\x00\x00\x00\x00",
    b"\x00\x00\x00\x00\x00\x00\x00\x00",
    b"\x00\x00\x00\x00",
    // Two channels: the first holds 2 without tags, the second nothing.
    b"\x00\x00\x00\x02",
    b"\x00\x00\x00\x01",
    b"\x00\x00\x00\x00",
    b"\x00",
    b"\x00\x00\x00\x01",
    b"\x00\x00\x00\x00\x00\x00\x00\x02",
    b"\x00\x00\x00\x00",
    // An image of 195 bytes.
    b"\x00\x00\x00\xc3",
];

// A snapshot of one process, which has the number 7 and holds a trap with the tags 5 and 1; of no
// channel, and of an image of no byte.
const HELD: [&[u8]; 15] = [
    b"P3LS",
    b"\x00\x00\x00\x01",
    b"\x00\x00\x00\x00\x00\x00\x00\x00",
    b"\x00\x00\x00\x00\x00\x00\x00\x00",
    b"\x00",
    b"\x00\x00\x00\x01",
    b"\x00\x00\x00\x00\x00\x00\x00\x07",
    b"\x00\x00\x00\x01",
    b"\x00\x00\x00\x02",
    b"\x00\x00\x00\x00\x00\x00\x00\x05",
    b"\x00\x00\x00\x00\x00\x00\x00\x01",
    // The fourth kind, in the third module.
    b"\x01\x03",
    b"\x00\x00\x00\x02",
    b"\x00\x00\x00\x00",
    b"\x00\x00\x00\x00",
];

// Another byte at a place of the first snapshot, and the place that is reported then.
const DAMAGES: [(usize, u8, u64); 8] = [
    (3, b'I', 0),
    (7, 2, 4),
    (24, 2, 24),
    // More channels than there are, where the image's bytes are taken for tokens.
    (77, 0xff, 298),
    // A value that is no outcome, and one that is taken for a trap.
    (89, 2, 89),
    (89, 1, 305),
    // An image of a byte more, and of a byte less.
    (109, 0xc4, 305),
    (109, 0xc2, 304),
];

// The bytes of the first snapshot.
fn saved_bytes(alloc: Global) -> Result<Vec<u8>, Fail> {
    let mut bytes = SHOT.concat(alloc)?;
    let image = FIELDS.concat(alloc)?;
    bytes.extend_from_slice(&image)?;
    Ok(bytes)
}

// The same with another byte at a place.
fn damaged(alloc: Global, at: usize, byte: u8) -> Result<Vec<u8>, Fail> {
    let whole = saved_bytes(alloc)?;
    let mut bytes = Vec::new(alloc);
    for place in 0..whole.len() {
        bytes.push(if place == at { byte } else { whole[place] })?;
    }
    Ok(bytes)
}

// The place that is reported of bytes that are no snapshot.
fn place(alloc: Global, bytes: &[u8]) -> Option<u64> {
    match read_shot(alloc, bytes) {
        Err(ShotRefusal::BadShot(place)) => Some(place),
        _ => None,
    }
}

// Returns true exactly if a token holds these words, without tags.
fn has_words(saved: &Saved, words: &[i64]) -> bool {
    match saved.shot.chans.as_slice() {
        [full, empty] => match full.as_slice() {
            [token] => match &token.body {
                Outcome::Value(value) => value.as_slice() == words
                    && token.tags.is_empty()
                    && empty.is_empty(),
                Outcome::Trapped(_) => false,
            },
            _ => false,
        },
        _ => false,
    }
}

// Returns true exactly if the one process holds this trap, with these tags.
fn holds(saved: &Saved, tags: &[u64], expected: Trap) -> bool {
    match saved.shot.owns.as_slice() {
        [own] => match own.held.as_slice() {
            [token] => match &token.body {
                Outcome::Trapped(trap) => *trap == expected
                    && token.tags.as_slice() == tags
                    && own.number == 7,
                Outcome::Value(_) => false,
            },
            _ => false,
        },
        _ => false,
    }
}

#[test]
fn snapshots_are_read_and_written(rt: HostRuntime) -> Result<(), Fail> {
    let alloc = rt.alloc();
    let bytes = saved_bytes(alloc)?;
    let saved = read_shot(alloc, &bytes)
        .ok()
        .ok_or("the bytes are a snapshot")?;
    let text = shot_text(alloc, &saved)?;
    assert_eq!(rt; text.as_slice(), bytes.as_slice());
    assert_eq!(rt; (saved.shot.sent, saved.shot.emitted), (2, 1));
    let inbox = saved.shot.inbox.as_ref().ok_or("an item is in the inbox")?;
    assert_eq!(rt; inbox.as_slice(), [-3].as_slice());
    assert!(rt; has_words(&saved, &[2]));
    assert_eq!(rt; (saved.shot.owns.len(), saved.image.len()), (3, 195));
    Ok(())
}

#[test]
fn held_traps_are_read_and_written(rt: HostRuntime) -> Result<(), Fail> {
    let alloc = rt.alloc();
    let bytes = HELD.concat(alloc)?;
    let saved = read_shot(alloc, &bytes)
        .ok()
        .ok_or("the bytes are a snapshot")?;
    let text = shot_text(alloc, &saved)?;
    assert_eq!(rt; text.as_slice(), bytes.as_slice());
    let trap = Trap {
        kind: TrapKind::Shift,
        module: 2,
    };
    assert!(rt; holds(&saved, &[5, 1], trap));
    Ok(())
}

#[test]
fn damages_are_reported_at_their_places(rt: HostRuntime) -> Result<(), Fail> {
    let alloc = rt.alloc();
    for (at, byte, expected) in DAMAGES {
        let bytes = damaged(alloc, at, byte)?;
        assert_eq!(rt; place(alloc, &bytes), Some(expected));
    }
    let mut bytes = Vec::new(alloc);
    for field in SHOT {
        let start = bytes.len() as u64;
        for byte in field {
            assert_eq!(rt; place(alloc, &bytes), Some(start));
            bytes.push(*byte)?;
        }
    }
    for field in FIELDS {
        for byte in field {
            assert_eq!(rt; place(alloc, &bytes), Some(bytes.len() as u64));
            bytes.push(*byte)?;
        }
    }
    assert_eq!(rt; place(alloc, &bytes), None);
    bytes.push(0)?;
    assert_eq!(rt; place(alloc, &bytes), Some(305));
    Ok(())
}
