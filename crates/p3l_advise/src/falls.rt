// The lines of the numbers of processors at which the best service time falls.

ghost use Rattle.std.specs.Prelude.{◌≡◌, ◌<◌, ◌≤◌, ◌++◌, string_bytes};
ghost use Rattle.p3l_base.specs.Limits.{most_processors};
ghost use Rattle.p3l_base.specs.Memory.{OnGiven};
ghost use Rattle.p3l_skel.specs.Lawful.{IsLawfulTree};
ghost use Rattle.p3l_cost.specs.Costs.{AreCostsOf};
ghost use Rattle.p3l_model.specs.NodeCost.{never};
ghost use Rattle.p3l_alloc.specs.Best.{best_at};
ghost use Rattle.p3l_alloc.specs.Need.{IsLeastProcs};
ghost use Rattle.p3l_alloc.specs.Table.{IsTableFrom};
ghost use Rattle.p3l_advise.specs.Falls.{change_line, fall_line, fall_lines, hundredths};

use p3l_alloc::{Best, best_within};
use p3l_base::{List, NoMemory};
use p3l_cost::Costs;
use p3l_skel::Tree;
use std::alloc::Global;

/// Hundredths of the speed-up from a first service time to another, rounded down.
fn hundredths(first: u128, time: u128) -> u128
    requires { first < never }
    ensures { result ≡ hundredths first time }
{
    if time == 0 {
        return 100;
    }
    100 * first / time
}

/// Appends the line of a number of processors to a text.
fn put_fall(
    alloc: Global,
    text: &mut String,
    first: u128,
    processors: u32,
    best: Best,
) -> Result<(), NoMemory>
    requires { first < never }
    ensures { OnGiven result (string_bytes text.new
        ≡ string_bytes text.old ++ fall_line first processors best) }
{
    let used = best.used;
    let time = best.service;
    let faster = hundredths(first, time);
    let whole = faster / 100;
    let tenths = faster / 10 % 10;
    let last = faster % 10;
    let words = format!(in alloc;
        "processors {processors} used {used} service {time} speed-up {whole}.{tenths}{last}\n"
    )?;
    text.push_str(words.as_str())?;
    Ok(())
}

/// Appends the line of a number of processors to a text, if the service time is less than before.
fn put_change(
    alloc: Global,
    text: &mut String,
    first: u128,
    before: u128,
    processors: u32,
    best: Best,
) -> Result<(), NoMemory>
    requires { first < never }
    ensures { OnGiven result (string_bytes text.new
        ≡ string_bytes text.old ++ change_line first before processors best) }
{
    if best.service < before {
        put_fall(alloc, text, first, processors, best)
    } else {
        Ok(())
    }
}

/// The best service time and its processes for a number of processors that fits.
pub fn best_for(
    tree: &Tree,
    costs: &Costs,
    rows: &[List<u128>],
    most: u32,
    least: u32,
    processors: u32,
) -> Best
    requires tree { IsLawfulTree tree.now }
    requires costs { AreCostsOf tree.now costs.now }
    requires rows { IsTableFrom tree.now costs.now most rows.now 0 }
    requires few { most ≤ most_processors }
    requires least { IsLeastProcs tree.now least }
    requires enough { least ≤ processors }
    requires within { processors ≤ most }
    ensures given { result ≡ best_at tree.now rows.now processors }
    ensures small { result.service < never }
{
    match best_within(tree, costs, rows, most, processors) {
        Some(best) => best,
        None => Best {
            service: 0,
            used: 0,
        },
    }
}

/// Appends the lines of the numbers of processors from the least to the most at which the best
/// service time falls.
pub fn put_falls(
    alloc: Global,
    text: &mut String,
    tree: &Tree,
    costs: &Costs,
    rows: &[List<u128>],
    most: u32,
    least: u32,
) -> Result<(), NoMemory>
    requires tree { IsLawfulTree tree.now }
    requires costs { AreCostsOf tree.now costs.now }
    requires rows { IsTableFrom tree.now costs.now most rows.now 0 }
    requires few { most ≤ most_processors }
    requires least { IsLeastProcs tree.now least }
    requires enough { least ≤ most }
    ensures { OnGiven result (string_bytes text.new
        ≡ string_bytes text.old ++ fall_lines (best_at tree.now rows.now) least most) }
{
    let first = best_for(tree, costs, rows, most, least, least);
    put_fall(alloc, text, first.service, least, first)?;
    let mut before = first.service;
    for processors in least + 1..most + 1 {
        let best = best_for(tree, costs, rows, most, least, processors);
        put_change(alloc, text, first.service, before, processors, best)?;
        before = best.service;
    }
    Ok(())
}
