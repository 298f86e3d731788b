// The table of the channels.

ghost use Rattle.std.specs.Prelude.{◌≡◌, ◌++◌};
ghost use Rattle.std.specs.List.{flat_map};
ghost use Rattle.p3l_base.specs.Memory.{OnGiven};
ghost use Rattle.p3l_export.specs.Channels.{channel_line, channels_text};

use crate::lines::{put, put_table};
use p3l_base::NoMemory;
use std::alloc::Global;

/// A channel of an exported program: the most tokens that it holds, the credits that it begins with,
/// and the words and tags of its tokens.
#[derive(Clone, Copy, Debug, Drop, PartialEq, Eq)]
pub struct ChannelRow {
    pub capacity: u32,
    pub credits: u32,
    pub words: u64,
    pub tags: u32,
}

/// Puts the row of a channel after a text.
fn put_channel(alloc: Global, text: &mut Vec<u8>, row: ChannelRow) -> Result<(), NoMemory>
    ensures { OnGiven result (text.new.items ≡ text.old.items ++ channel_line row) }
{
    let capacity = row.capacity;
    let credits = row.credits;
    let count = row.words;
    let tags = row.tags;
    let words = format!(in alloc; "    {{ {capacity}, {credits}, {count}, {tags} }},\n")?;
    put(text, words.as_str())
}

/// Puts the rows of the channels after a text.
fn put_rows(alloc: Global, text: &mut Vec<u8>, rows: &[ChannelRow]) -> Result<(), NoMemory>
    ensures { OnGiven result (text.new.items ≡ text.old.items ++ flat_map channel_line rows.now) }
{
    for row in rows {
        put_channel(alloc, text, *row)?;
    }
    Ok(())
}

/// Puts the table of the channels after a text.
#[tactic(auto, unfolding(crate::specs::Channels::channels_text))]
pub(crate) fn put_channels(
    alloc: Global,
    text: &mut Vec<u8>,
    rows: &[ChannelRow],
) -> Result<(), NoMemory>
    ensures { OnGiven result (text.new.items ≡ text.old.items ++ channels_text rows.now) }
{
    let mut lines = Vec::new(alloc);
    put_rows(alloc, &mut lines, rows)?;
    put_table(
        alloc,
        text,
        "capacity, credits, words, tags",
        "struct channel_row CHANNEL",
        lines.as_slice(),
    )
}
