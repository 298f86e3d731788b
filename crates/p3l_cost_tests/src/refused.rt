// Files of costs that are refused, by their first fault.

use crate::files::{answer, check_files};
use std::alloc::Global;
use std::process::Abort;
use std::test::Fail;

/// Texts that are no document of TOML.
const NO_DOCUMENTS: &str = "50 | speed
50 | setup =
50 | = 1
50 | setup = 1 word = 2
50 | setup = 01
50 | setup = 1_
50 | setup = 1__0
50 | setup = 0x
50 | setup = yes
50 | setup = \"1
50 | setup = '1;'
50 | setup = [1
50 | seq = { twice = 1
50 | two words = 1
50 | default = 9223372036854775808
50 | default = -9223372036854775809
50 | default = 2026-13-01
50 | default = 1.
50 | default = .5
50 | [seq
50 | [seq] twice = 1
50 | default = 1;]";

/// Keys and tables that are given twice.
const TWICE: &str = "50 | setup = 1; setup = 1
50 | setup = 1; \"setup\" = 2
50 | setup = 1; 'setup' = 2
50 | \"s\\u0065tup\" = 1; setup = 2
50 | speed = 1; speed = 2
50 | seq.twice = 1; seq.twice = 2
50 | seq.twice = 1; seq.\"twice\" = 2
50 | seq = { twice = 1, twice = 2 }
50 | seq = { twice = 1 }; seq.add = 2
50 | seq = { twice = 1 }; [seq]; add = 2
50 | seq.twice = 1; [seq]; add = 2
50 | [seq]; twice = 1; [seq]; add = 2
50 | [seq]; twice = 1; [turns]; spin = 1; [seq]; add = 2
50 | [seq]; twice = 1; [[seq]]; add = 2
50 | seq = 1; [seq]; twice = 1
50 | seq = 1; seq.twice = 1";

/// Keys that costs don't have, and entries that name no module of their table's skeleton.
const KEYS: &str = "51 speed | speed = 1
51 speed | \"speed\" = 1
51 speed | speed.limit = 1
51 speed | [speed]
51 speed | [[speed]]
51 Setup | Setup = 1
51 setups | setups = 1
51 set | set = 1
51  | \"\" = 1
51 two words | \"two words\" = 1
51 seq.twice | \"seq.twice\" = 1
51 größe | 'größe' = 1
51 seq.none | [seq]; none = 1
51 seq.main | [seq]; main = 1
51 seq.many | seq.many = 1
51 seq.spin | seq = { spin = 1 }
51 seq.rest | seq.\"rest\" = 1
51 seq. | seq.'' = 1
51 seq.Twice | [seq]; Twice = 1
51 seq.twice.add | [seq]; \"twice.add\" = 1
51 seq.setup | [seq]; twice = 1; add = 1; setup = 1
51 turns.none | [turns]; none = 1
51 turns.twice | [turns]; twice = 1
51 turns.idle | turns.idle = 1
51 turns.main | \"turns\".main = 1";

/// Values of numbers that are no whole number from 0 to 1,000,000.
const NUMBERS: &str = "52 setup | setup = 1000001
52 setup | setup = -1
52 setup | setup = 9223372036854775807
52 setup | setup = -9223372036854775808
52 setup | setup = 4294967296
52 setup | setup.word = 1
52 word | word = 1.0
52 word | word = 1e3
52 word | word = -0.0
52 word | word = inf
52 word | word = nan
52 word | word = \"1\"
52 word | word = ''
52 default | default = true
52 default | default = []
52 default | default = [1]
52 default | default = {}
52 default | default = 1979-05-27
52 default | default = 07:32:00
52 default | [default]
52 default | [[default]]";

/// Tables that are none, and values of entries out of their range.
const ENTRIES: &str = "52 seq | seq = 1
52 seq | seq = []
52 seq | seq = \"twice\"
52 seq | [[seq]]; twice = 1
52 turns | turns = false
52 turns | turns = [{ spin = 1 }]
52 seq.twice | seq.twice = 1000001
52 seq.twice | [seq]; twice = -1
52 seq.twice | [seq.twice]
52 seq.twice | [seq]; twice.add = 1
52 seq.add | seq = { add = 0.5 }
52 seq.idle | [seq]; idle = 1000001
52 seq.idle | [seq]; idle = \"1\"
52 turns.spin | [turns]; spin = 0
52 turns.spin | [turns]; spin = 11
52 turns.spin | [turns]; spin = -1
52 turns.spin | turns.spin = 2.0
52 turns.spin | turns.spin = [2]
52 turns.rest | [turns]; rest = 0
52 turns.rest | [turns]; rest = 1000001";

/// Modules without ticks.
const MISSING: &str = "53 twice | 
53 twice | # nothing
53 twice | setup = 1; word = 2
53 twice | [seq]
53 twice | seq = {}
53 twice | [seq]; add = 1
53 twice | [seq]; add = 1; idle = 1
53 twice | [turns]; spin = 1
53 add | [seq]; twice = 1
53 add | [seq]; twice = 1; idle = 1";

/// Files with two faults, of which the first in the order of the keys is reported.
const FIRST: &str = "50 | speed = 1; setup
50 | setup = -1; word
51 Zeta | alpha = 1; Zeta = 1
51 alpha | zeta = 1; alpha = 1
51 größe | zeta = 1; \"ärmel\" = 1; \"größe\" = 1
51 zeta | \"ärmel\" = 1; zeta = 1
51 zet | zeta = 1; zet = 1
51 speed | word = -1; speed = 1
51 alpha | default = -1; alpha = 1
51 seq10 | word = -1; seq10 = 1
51 se | se = 1; seq = 1
51 seq- | seq- = 1; turns = 1
52 default | speed = 1; default = -1
52 setup | speed = 1; setup = -1
52 default | default = -1; setup = -1; word = -1
52 setup | word = -1; setup = -1
52 seq | turns = 1; seq = 1
52 seq | seq = 1; seq10 = 1
52 turns | word = -1; turns = 1";

/// Faults of entries and others, by the place of the table's key.
const FIRST_ENTRIES: &str = "51 seq.main | [seq]; twice = -1; main = 1
52 seq.add | [seq]; twice = -1; add = -1
52 seq.add | [seq]; main = 1; add = -1
51 seq.main | [seq]; main = -1
51 seq.Twice | [seq]; add = -1; Twice = 1
51 turns.main | [turns]; spin = 0; main = 0
52 turns.rest | [turns]; spin = 0; rest = 0
51 seq.none | speed = 1; [seq]; none = 1
51 sea | sea = 1; [seq]; none = 1
51 seq.none | seq.none = 1; setup = 2.5
52 setup | word = -1; setup = 2.5; [turns]; none = 1
51 sea | seq.none = 1; setup = 2; sea = 1
52 seq.twice | [turns]; spin = 0; [seq]; twice = -1
51 seq.none | [turns]; spin = 0; [seq]; none = 1
52 turns.spin | word = -1; [turns]; spin = 0
52 turns.spin | zeta = 1; [turns]; spin = 0
51 speed | [turns]; none = 1; [speed]; none = 1
52 turns.spin | [turns]; spin = 0
52 word | word = -1; seq.twice = 1
51 zeta | zeta = 1; seq.add = 1";

#[test]
fn texts_that_are_no_documents(rt: HostRuntime) -> Result<(), Fail> {
    check_files(&rt, rt.alloc(), NO_DOCUMENTS)
}

#[test]
fn keys_that_stand_twice(rt: HostRuntime) -> Result<(), Fail> {
    check_files(&rt, rt.alloc(), TWICE)
}

#[test]
fn keys_that_costs_do_not_have(rt: HostRuntime) -> Result<(), Fail> {
    check_files(&rt, rt.alloc(), KEYS)
}

#[test]
fn numbers_out_of_range(rt: HostRuntime) -> Result<(), Fail> {
    check_files(&rt, rt.alloc(), NUMBERS)
}

#[test]
fn tables_and_entries_out_of_range(rt: HostRuntime) -> Result<(), Fail> {
    check_files(&rt, rt.alloc(), ENTRIES)
}

#[test]
fn modules_without_ticks(rt: HostRuntime) -> Result<(), Fail> {
    check_files(&rt, rt.alloc(), MISSING)
}

#[test]
fn the_first_key_decides(rt: HostRuntime) -> Result<(), Fail> {
    check_files(&rt, rt.alloc(), FIRST)
}

#[test]
fn the_first_entry_decides(rt: HostRuntime) -> Result<(), Fail> {
    check_files(&rt, rt.alloc(), FIRST_ENTRIES)
}

/// A text in bytes must be no document.
fn check_bytes(rt: &impl Abort, alloc: Global, text: &[u8]) -> Result<(), Fail> {
    let answer = answer(rt, alloc, text)?;
    assert!(rt; answer.as_str() == "50", "{answer}");
    Ok(())
}

#[test]
fn bytes_that_are_no_text(rt: HostRuntime) -> Result<(), Fail> {
    let alloc = rt.alloc();
    check_bytes(&rt, alloc, b"default = 1\xff")?;
    check_bytes(&rt, alloc, b"# \xc3\x28\ndefault = 1\n")?;
    check_bytes(&rt, alloc, b"# \xc0\xaf\ndefault = 1\n")?;
    check_bytes(&rt, alloc, b"# \xed\xa0\x80\ndefault = 1\n")?;
    check_bytes(&rt, alloc, b"speed = 1\n# \xe2\x82")?;
    check_bytes(&rt, alloc, b"default = 1 # \x00\n")?;
    check_bytes(&rt, alloc, b"default = 1\rsetup = 1\n")
}
