// Images that are loaded, and why others are refused.

use crate::small::{FIELDS, has_net};
use p3l_image::{Image, decode};
use p3l_load::{LoadRefusal, load, migrate};
use std::alloc::Global;
use std::test::Fail;

// A field of the image of one `seq` module by its place in the table, and other bytes for it.
type Change = (usize, &'static [u8]);

// There are two codes, the first without instructions.
const CODES: Change = (14, b"\x00\x00\x00\x02");

const FIRST: Change = (
    15,
    b"\x00\x0f\x42\x40\x00\x00\x00\x01\x00\x00\x00\x01\x00\x00\x00\x02\x00\x00\x00\x00\x00\x0f\x42\x40",
);
// The node takes two words, and its code takes one.
const INS: Change = (10, b"\x00\x00\x00\x02");
// The node is its own part.
const PART: Change = (12, b"\x00\x00\x00\x01\x00\x00\x00\x00");
// There is a count, and no node that has one.
const COUNT: Change = (13, b"\x00\x00\x00\x01\x00\x00\x00\x01");
// The budget of the code is 0.
const BUDGET: Change = (15, b"\x00\x00\x00\x00");
// It loads a word after its memory.
const SLOT: Change = (21, b"\x00\x00\x00\x02");
// The unit writes channel 0.
const CHANNEL: Change = (57, b"\x00\x00\x00\x00");
// The unit is a source.
const KIND: Change = (51, b"\x00");
// The channels are to hold 3 tokens.
const CAPACITY: Change = (2, b"\x00\x00\x00\x03");
// The module has the rescue number -7.
const RESCUE: Change = (7, b"\x01\xff\xff\xff\xff\xff\xff\xff\xf9");

// The bytes of the image with these changes.
fn changed(alloc: Global, changes: &[Change]) -> Result<Vec<u8>, Fail> {
    let mut bytes = Vec::new(alloc);
    for place in 0..FIELDS.len() {
        let field = match changes.iter().find(|change| change.0 == place) {
            Some(change) => change.1,
            None => FIELDS[place],
        };
        bytes.extend_from_slice(field)?;
    }
    Ok(bytes)
}

// Returns what loading gives of the image with these changes: nothing where it loads.
fn refusal(alloc: Global, changes: &[Change]) -> Result<Option<LoadRefusal>, Fail> {
    let bytes = changed(alloc, changes)?;
    let image = decode(alloc, &bytes).ok().ok_or("the bytes are an image")?;
    Ok(load(alloc, image).err())
}

// Returns what migration gives of the image with these changes.
fn migrated(alloc: Global, changes: &[Change]) -> Result<Result<Image, LoadRefusal>, Fail> {
    let bytes = changed(alloc, changes)?;
    let image = decode(alloc, &bytes).ok().ok_or("the bytes are an image")?;
    Ok(migrate(alloc, image))
}

#[test]
fn what_is_lawful_safe_and_linked_is_loaded(rt: HostRuntime) -> Result<(), Fail> {
    let alloc = rt.alloc();
    assert_eq!(rt; refusal(alloc, &[])?, None);
    assert_eq!(rt; refusal(alloc, &[RESCUE])?, None);
    assert_eq!(rt;
        refusal(alloc, &[CODES, FIRST])?,
        Some(LoadRefusal::TreeWrong)
    );
    for change in [INS, PART, COUNT] {
        assert_eq!(rt; refusal(alloc, &[change])?, Some(LoadRefusal::TreeWrong));
    }
    for change in [BUDGET, SLOT] {
        assert_eq!(rt;
            refusal(alloc, &[change])?,
            Some(LoadRefusal::CodeUnsafe(0))
        );
    }
    for change in [CHANNEL, KIND, CAPACITY] {
        assert_eq!(rt; refusal(alloc, &[change])?, Some(LoadRefusal::NotLinked));
    }
    Ok(())
}

#[test]
fn the_tree_is_looked_at_first_and_the_net_last(rt: HostRuntime) -> Result<(), Fail> {
    let alloc = rt.alloc();
    assert_eq!(rt;
        refusal(alloc, &[COUNT, SLOT, CHANNEL])?,
        Some(LoadRefusal::TreeWrong)
    );
    assert_eq!(rt;
        refusal(alloc, &[SLOT, CHANNEL])?,
        Some(LoadRefusal::CodeUnsafe(0))
    );
    Ok(())
}

#[test]
fn a_net_is_linked_anew(rt: HostRuntime) -> Result<(), Fail> {
    let alloc = rt.alloc();
    for change in [RESCUE, CHANNEL, KIND] {
        let image = migrated(alloc, &[change])?.ok().ok_or("it is migrated")?;
        assert!(rt; has_net(&image));
        assert!(rt; image.cap == 4);
        assert_eq!(rt; load(alloc, image).err(), None);
    }
    for changes in [[COUNT, SLOT, CHANNEL], [INS, BUDGET, KIND]] {
        let found = migrated(alloc, &changes)?.err();
        assert_eq!(rt; found, Some(LoadRefusal::TreeWrong));
    }
    let found = migrated(alloc, &[SLOT, CHANNEL])?.err();
    assert_eq!(rt; found, Some(LoadRefusal::CodeUnsafe(0)));
    Ok(())
}
