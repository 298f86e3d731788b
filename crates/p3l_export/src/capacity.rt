// The capacity of each channel, in tokens.

ghost use Rattle.std.specs.Prelude.{◌≡◌, ◌≤◌, ◌<◌, ◌^◌, length, max};
ghost use Rattle.p3l_base.specs.Memory.{IfGiven};
ghost use Rattle.p3l_firing.specs.Typed.{IsTyped};
ghost use Rattle.p3l_export.specs.Capacity.{capacity_of, end_price, placed, price_at, row_of, rows_of, tokens_for};

use crate::channels::ChannelRow;
use crate::loads::firing_price;
use p3l_base::{List, NoMemory};
use p3l_cost::Costs;
use p3l_firing::{Chan, Net};
use p3l_net::ends::Sides;
use p3l_skel::Tree;
use p3l_template::Width;
use p3l_template::width::width_at;
use std::alloc::Global;

/// The count of tokens of these words that a channel between processes of this price holds well:
/// some 10,000,000 ticks of work, so that fine tokens are sent together and coarse ones don't wait
/// in line, but a mebibyte of words at most.
fn tokens_for(words: u64, price: u64) -> u32
    ensures value { result ≡ tokens_for words price }
    ensures some { 2 ≤ result }
    ensures few { result ≤ 64 }
{
    let by_work = 10_000_000 / price.max(1);
    let by_size = 131_072 / words.max(1);
    by_work.min(by_size).min(64).max(2) as u32
}

/// The tokens that a channel holds: as many as in the net, or, where they are chosen, the greater of
/// these and of those that suit its work.
///
/// A net keeps its laws with any capacity of at least one token, but for a loop's own channels,
/// which need room for all its tokens. None is less than in the net.
fn capacity_of(chosen: bool, cap: u32, words: u64, price: u64) -> u32
    ensures value { result ≡ capacity_of chosen cap words price }
    ensures enough { cap ≤ result }
    ensures few { result ≤ max cap 64 }
{
    if chosen {
        cap.max(tokens_for(words, price))
    } else {
        cap
    }
}

/// The price of a process of a net, and 0 where it is not there.
fn price_at(tree: &Tree, costs: &Costs, net: &Net, number: u32) -> u64
    ensures { result ≡ price_at tree.now costs.now net.now number }
{
    match net.procs.as_slice().get(number as usize) {
        Some(process) => firing_price(tree, costs, process),
        None => 0,
    }
}

/// The greater price of the two processes at the ends of a channel.
fn end_price(tree: &Tree, costs: &Costs, net: &Net, ends: &Sides, c: u32) -> u64
    requires written { c < length ends.now.writers }
    requires read { c < length ends.now.readers }
    ensures { result ≡ end_price tree.now costs.now net.now ends.now c }
{
    let writer = price_at(tree, costs, net, ends.writer(c));
    writer.max(price_at(tree, costs, net, ends.reader(c)))
}

/// The row of a channel.
fn row(
    tree: &Tree,
    costs: &Costs,
    net: &Net,
    ends: &Sides,
    widths: &[Width],
    chosen: bool,
    c: usize,
    channel: Chan,
) -> ChannelRow
    requires small { c < 2 ^ 32 }
    requires written { c < length ends.now.writers }
    requires read { c < length ends.now.readers }
    ensures { result ≡ row_of tree.now costs.now net.now ends.now widths.now chosen c channel }
{
    let width = width_at(widths, c);
    let price = end_price(tree, costs, net, ends, c as u32);
    ChannelRow {
        capacity: capacity_of(chosen, channel.cap, width.words, price),
        credits: channel.credits,
        words: width.words,
        tags: width.tags,
    }
}

/// The rows of the channels of a net.
pub(crate) fn rows(
    alloc: Global,
    tree: &Tree,
    costs: &Costs,
    net: &Net,
    ends: &Sides,
    widths: &[Width],
    chosen: bool,
) -> Result<List<ChannelRow>, NoMemory>
    requires few { length net.now.chans ≤ 1048576 }
    requires written { length ends.now.writers ≡ length net.now.chans }
    requires read { length ends.now.readers ≡ length net.now.chans }
    ensures { IfGiven result (λ rows. rows
        ≡ rows_of tree.now costs.now net.now ends.now widths.now chosen) }
{
    let channels = net.chans.as_slice();
    let mut rows = Vec::new(alloc);
    for c in 0..channels.len() {
        rows.push(row(tree, costs, net, ends, widths, chosen, c, channels[c]))?;
    }
    Ok(List::from_vec(rows))
}
