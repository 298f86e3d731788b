// The tokens found in a farm: those of all workers' lines in the order of their numbers.

ghost use Rattle.std.specs.Prelude.{◌≡◌, []};
ghost use Rattle.p3l_base.specs.Memory.{IfGiven};
ghost use Rattle.p3l_farm.specs.Farm.{all_rising, joined, rising};
ghost use Rattle.p3l_farm.specs.FarmKind.{found_by};
ghost use Rattle.p3l_template.specs.Finding.{bares, if_orderly};

use p3l_base::{List, NoMemory};
use p3l_firing::Token;
use p3l_template::bare::add_bare;
use p3l_template::numbered::{in_order, lead_to};
use std::alloc::Global;

// Returns true exactly if the numbers of the tokens from `from` on rise from each to the next.
fn are_rising(tokens: &[Token]) -> bool
    ensures { result ≡ rising tokens.now }
{
    for k in 1..tokens.len() {
        if tokens[k - 1].newest_tag() >= tokens[k].newest_tag() {
            return false;
        }
    }
    true
}

// Returns true exactly if the numbers rise in each line.
fn all_are_rising(lines: &[List<Token>]) -> bool
    ensures { result ≡ all_rising lines.now }
{
    for line in lines {
        if !are_rising(line.as_slice()) {
            return false;
        }
    }
    true
}

// The tokens of all lines, without their outcomes.
fn join_lines(alloc: Global, lines: &[List<Token>]) -> Result<List<Token>, NoMemory>
    ensures { IfGiven result (λ list. list ≡ bares (joined lines.now)) }
{
    let mut list = List::new(alloc);
    for line in lines {
        add_bare(alloc, &mut list, line.as_slice())?;
    }
    Ok(list)
}

/// The tokens of the lines in the order of their numbers, if the farm is orderly: `next` is the
/// number that the next one gets, and `least` the lowest one that can be pending.
pub(crate) fn by_lines(
    alloc: Global,
    next: u64,
    least: u64,
    lines: &[List<Token>],
) -> Result<Option<List<Token>>, NoMemory>
    ensures { IfGiven result (λ pending. pending
        ≡ if_orderly (found_by (record {
          next = next;
          least = least;
          lines = lines.now;
          input = [];
          output = [];
        }))) }
{
    let bag = join_lines(alloc, lines)?;
    if !lead_to(least, bag.len(), next) || !all_are_rising(lines) {
        return Ok(None);
    }
    in_order(alloc, bag.as_slice(), least)
}
