// The changes that would help.

ghost use Rattle.std.specs.Prelude.{◌≡◌, ◌<◌, ◌≤◌, ◌++◌, ◌*◌, ◌+◌, ◌/◌, ℕ, length, max, min, slice_index, string_bytes};
ghost use Rattle.std.specs.Int.{div_ceil};
ghost use Rattle.std.specs.List.{Contains, flat_map};
ghost use Rattle.p3l_base.specs.Limits.{most_workers};
ghost use Rattle.p3l_base.specs.Memory.{OnGiven};
ghost use Rattle.p3l_skel.specs.Counts.{HasLawfulCounts, outside, outside_from, outside_parts};
ghost use Rattle.p3l_skel.specs.Lawful.{IsLawfulTree};
ghost use Rattle.p3l_skel.specs.Tree.{node_at};
ghost use Rattle.p3l_cost.specs.Costs.{AreCostsOf};
ghost use Rattle.p3l_model.specs.Service.{transfer};
ghost use Rattle.p3l_alloc.specs.Walk.{IsWithin};
ghost use Rattle.p3l_advise.specs.Bottleneck.{stages_from};
ghost use Rattle.p3l_advise.specs.Help.{farm_help, fixed_help, help_lines, help_row, idle_words, sooner_words, stage_help, wider_help};

use crate::bottleneck::{is_stage, token_time};
use p3l_alloc::explanation::name_of;
use p3l_base::NoMemory;
use p3l_base::limits::MOST_WORKERS;
use p3l_cost::Costs;
use p3l_model::{procs, service};
use p3l_skel::counts::outside_parts;
use p3l_skel::tree::NESTING;
use p3l_skel::{Counts, Form, Node, Tree};
use std::alloc::Global;

/// Appends a line on the processors past those that are used, if there are any.
fn put_idle(alloc: Global, text: &mut String, processors: u32, used: u32) -> Result<(), NoMemory>
    ensures { OnGiven result (string_bytes text.new
        ≡ string_bytes text.old ++ idle_words processors used) }
{
    if processors <= used {
        return Ok(());
    }
    let idle = processors - used;
    let words = format!(in alloc; "more than {used} processors do not help: {idle} are idle\n")?;
    text.push_str(words.as_str())?;
    Ok(())
}

/// The service time of a farm of `workers` workers in the place of a node, where each takes this
/// time for an item.
fn farmed(costs: &Costs, node: &Node, workers: u32, each: u128) -> u128
    requires { 1 ≤ workers }
    ensures { result ≡ max (max (2 * transfer costs.now node.now.ins)
        (2 * transfer costs.now node.now.outs)) (div_ceil each workers) }
{
    let reads = 2 * token_time(costs, node.ins as u64);
    let writes = 2 * token_time(costs, node.outs as u64);
    reads.max(writes).max(each.div_ceil(workers as u128))
}

/// Appends the help of a farm round a stage that one process runs.
fn put_farm(
    alloc: Global,
    text: &mut String,
    tree: &Tree,
    costs: &Costs,
    counts: &Counts,
    idle: u32,
    number: u32,
    node: &Node,
) -> Result<(), NoMemory>
    requires tree { IsLawfulTree tree.now }
    requires costs { AreCostsOf tree.now costs.now }
    requires counts { HasLawfulCounts tree.now counts.now.list }
    requires outside { Contains (outside tree.now) number }
    requires node { node.now ≡ node_at tree.now number }
    ensures { OnGiven result (string_bytes text.new
        ≡ string_bytes text.old ++ farm_help tree.now costs.now counts.now.list idle number) }
{
    let workers = idle.saturating_sub(1);
    if workers < 2 {
        return Ok(());
    }
    let time = service(tree, costs, counts, number);
    let less = farmed(costs, node, workers, time);
    if time <= less {
        return Ok(());
    }
    let name = name_of(tree, node.module);
    let words = format!(in alloc; "{name} in a farm of {workers} workers: service {less}\n")?;
    text.push_str(words.as_str())?;
    Ok(())
}

/// The workers of a farm, with as many more as the idle processors make.
fn wider(each: u64, idle: u32, workers: u32) -> u32
    ensures { result ≡ min (workers + idle / max each 1) most_workers }
{
    let more = idle as u64 / each.max(1);
    (workers as u64)
        .saturating_add(more)
        .min(MOST_WORKERS as u64) as u32
}

/// Appends the help of more workers of a farm, if they are more and make it sooner.
fn put_sooner(
    alloc: Global,
    text: &mut String,
    name: &str,
    fixed: u32,
    workers: u32,
    less: u128,
    time: u128,
) -> Result<(), NoMemory>
    ensures { OnGiven result (string_bytes text.new
        ≡ string_bytes text.old ++ sooner_words name.now fixed workers less time) }
{
    if workers <= fixed {
        return Ok(());
    }
    if time <= less {
        return Ok(());
    }
    let words = format!(in alloc; "{name} with workers {workers}: service {less}\n")?;
    text.push_str(words.as_str())?;
    Ok(())
}

/// Appends the help of more workers of a farm whose number the program fixes.
fn put_wider(
    alloc: Global,
    text: &mut String,
    tree: &Tree,
    costs: &Costs,
    counts: &Counts,
    idle: u32,
    number: u32,
    node: &Node,
    fixed: u32,
    part: u32,
) -> Result<(), NoMemory>
    requires tree { IsLawfulTree tree.now }
    requires costs { AreCostsOf tree.now costs.now }
    requires counts { HasLawfulCounts tree.now counts.now.list }
    requires outside { Contains (outside tree.now) number }
    requires part { Contains (outside tree.now) part }
    requires node { node.now ≡ node_at tree.now number }
    ensures { OnGiven result (string_bytes text.new ≡ string_bytes text.old
        ++ wider_help tree.now costs.now counts.now.list idle number fixed part) }
{
    let workers = wider(procs(tree, counts, part), idle, fixed);
    if workers <= fixed {
        return Ok(());
    }
    let less = farmed(costs, node, workers, service(tree, costs, counts, part));
    let time = service(tree, costs, counts, number);
    let name = name_of(tree, node.module);
    put_sooner(alloc, text, name, fixed, workers, less, time)?;
    Ok(())
}

/// Appends the help of more workers of a farm, if the program fixes their number.
fn put_fixed(
    alloc: Global,
    text: &mut String,
    tree: &Tree,
    costs: &Costs,
    counts: &Counts,
    idle: u32,
    number: u32,
    node: &Node,
    workers: Option<u32>,
) -> Result<(), NoMemory>
    requires tree { IsLawfulTree tree.now }
    requires costs { AreCostsOf tree.now costs.now }
    requires counts { HasLawfulCounts tree.now counts.now.list }
    requires outside { Contains (outside tree.now) number }
    requires parts { (i : ℕ) → i < length (outside_parts node.now.form node.now.parts)
        → Contains (outside tree.now) (slice_index (outside_parts node.now.form node.now.parts) i) }
    requires node { node.now ≡ node_at tree.now number }
    ensures { OnGiven result (string_bytes text.new ≡ string_bytes text.old
        ++ fixed_help tree.now costs.now counts.now.list idle number workers) }
{
    let Some(fixed) = workers else {
        return Ok(());
    };
    for part in outside_parts(node) {
        put_wider(
            alloc, text, tree, costs, counts, idle, number, node, fixed, *part,
        )?;
    }
    Ok(())
}

/// Appends the help for a stage.
fn put_stage(
    alloc: Global,
    text: &mut String,
    tree: &Tree,
    costs: &Costs,
    counts: &Counts,
    idle: u32,
    number: u32,
    node: &Node,
) -> Result<(), NoMemory>
    requires tree { IsLawfulTree tree.now }
    requires costs { AreCostsOf tree.now costs.now }
    requires counts { HasLawfulCounts tree.now counts.now.list }
    requires outside { Contains (outside tree.now) number }
    requires parts { (i : ℕ) → i < length (outside_parts node.now.form node.now.parts)
        → Contains (outside tree.now) (slice_index (outside_parts node.now.form node.now.parts) i) }
    requires node { node.now ≡ node_at tree.now number }
    ensures { OnGiven result (string_bytes text.new ≡ string_bytes text.old
        ++ help_row tree.now costs.now counts.now.list idle number node.now.form) }
{
    match &node.form {
        Form::Seq | Form::Comp => put_farm(alloc, text, tree, costs, counts, idle, number, node),
        Form::Farm { workers } => {
            put_fixed(
                alloc, text, tree, costs, counts, idle, number, node, *workers,
            )
        }
        Form::Pipe | Form::Map { .. } | Form::Reduce { .. } | Form::Loop { .. } => Ok(()),
    }
}

/// Appends the help for a stage, if it has this service time.
fn put_slow(
    alloc: Global,
    text: &mut String,
    tree: &Tree,
    costs: &Costs,
    counts: &Counts,
    idle: u32,
    time: u128,
    number: u32,
    node: &Node,
) -> Result<(), NoMemory>
    requires tree { IsLawfulTree tree.now }
    requires costs { AreCostsOf tree.now costs.now }
    requires counts { HasLawfulCounts tree.now counts.now.list }
    requires outside { Contains (outside tree.now) number }
    requires parts { (i : ℕ) → i < length (outside_parts node.now.form node.now.parts)
        → Contains (outside tree.now) (slice_index (outside_parts node.now.form node.now.parts) i) }
    requires node { node.now ≡ node_at tree.now number }
    ensures { OnGiven result (string_bytes text.new ≡ string_bytes text.old
        ++ stage_help tree.now costs.now counts.now.list idle time number) }
{
    if service(tree, costs, counts, number) == time {
        put_stage(alloc, text, tree, costs, counts, idle, number, node)
    } else {
        Ok(())
    }
}

/// Appends the help for the stages of a node, down to `levels` levels.
fn put_stages(
    alloc: Global,
    text: &mut String,
    tree: &Tree,
    costs: &Costs,
    counts: &Counts,
    idle: u32,
    time: u128,
    levels: u32,
    number: u32,
) -> Result<(), NoMemory>
    requires tree { IsLawfulTree tree.now }
    requires costs { AreCostsOf tree.now costs.now }
    requires counts { HasLawfulCounts tree.now counts.now.list }
    requires levels { IsWithin tree.now levels number }
    requires outside { (node : ℕ) → Contains (outside_from tree.now levels number) node
        → Contains (outside tree.now) node }
    ensures { OnGiven result (string_bytes text.new ≡ string_bytes text.old
        ++ flat_map (stage_help tree.now costs.now counts.now.list idle time)
        (stages_from tree.now levels number)) }
{
    if levels == 0 {
        return Ok(());
    }
    let Some(node) = tree.node(number) else {
        return Ok(());
    };
    if is_stage(&node.form) {
        return put_slow(alloc, text, tree, costs, counts, idle, time, number, node);
    }
    for part in outside_parts(node) {
        put_stages(
            alloc,
            text,
            tree,
            costs,
            counts,
            idle,
            time,
            levels - 1,
            *part,
        )?;
    }
    Ok(())
}

/// Appends the changes that would help to a text.
pub fn put_help(
    alloc: Global,
    text: &mut String,
    tree: &Tree,
    costs: &Costs,
    counts: &Counts,
    processors: u32,
    used: u32,
) -> Result<(), NoMemory>
    requires tree { IsLawfulTree tree.now }
    requires costs { AreCostsOf tree.now costs.now }
    requires counts { HasLawfulCounts tree.now counts.now.list }
    ensures { OnGiven result (string_bytes text.new ≡ string_bytes text.old
        ++ help_lines tree.now costs.now counts.now.list processors used) }
{
    put_idle(alloc, text, processors, used)?;
    let idle = processors.saturating_sub(used);
    let time = service(tree, costs, counts, 0);
    put_stages(alloc, text, tree, costs, counts, idle, time, NESTING, 0)
}
