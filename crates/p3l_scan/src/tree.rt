// The tree of a plan, and its numbers of blocks.

ghost use Rattle.std.specs.Prelude.{◌≡◌, ◌≤◌, ◌+◌, ◌*◌, ◌^◌, [], ◌∷◌, ◌++◌, None};
ghost use Rattle.p3l_base.specs.Limits.{most_words};
ghost use Rattle.p3l_base.specs.Memory.{IfGiven, OnGiven};
ghost use Rattle.p3l_scan.specs.Plan.{blocks_cut, blocks_slice, counts_of, infos_of, main_info, numbers_of, plan_tree, root_of, stage_of, stages_from, step_of};

use p3l_base::{Cut, Dim, List, Name, NoMemory, Place, Slice};
use p3l_skel::{Form, ModuleInfo, ModuleKind, Node, Tree};
use std::alloc::Global;

/// The tree of a plan in which `levels` stages follow the first, whose blocks have `words` words.
pub(crate) fn plan_tree(alloc: Global, levels: u32, words: u32) -> Result<Tree, NoMemory>
    requires few { levels ≤ 9 }
    requires small { 2 ^ levels * words ≤ most_words }
    ensures { IfGiven result (λ tree. tree ≡ plan_tree levels words) }
{
    let mut nodes = List::new(alloc);
    nodes.push(root(alloc, levels, words)?)?;
    add_stages(alloc, &mut nodes, 0, levels, words)?;
    let modules = plan_modules(alloc, levels)?;
    Ok(Tree { nodes, modules })
}

/// The numbers of blocks of a plan in which `levels` stages follow the first.
pub(crate) fn plan_counts(alloc: Global, levels: u32) -> Result<List<u32>, NoMemory>
    requires few { levels ≤ 9 }
    ensures { IfGiven result (λ counts. counts ≡ counts_of levels) }
{
    let mut counts = List::new(alloc);
    add_counts(&mut counts, levels)?;
    Ok(counts)
}

/// 2 to this power.
pub(crate) fn power_of_two(exponent: u32) -> u32
    requires { exponent ≤ 9 }
    ensures { result ≡ 2 ^ exponent }
{
    1 << exponent
}

/// The root: all stages in order.
fn root(alloc: Global, levels: u32, words: u32) -> Result<Node, NoMemory>
    requires few { levels ≤ 9 }
    requires small { 2 ^ levels * words ≤ most_words }
    ensures { IfGiven result (λ node. node ≡ root_of levels words) }
{
    let mut parts = List::new(alloc);
    add_numbers(&mut parts, 0, levels)?;
    let total = power_of_two(levels) * words;
    Ok(Node {
        form: Form::Pipe,
        module: 0,
        ins: total,
        outs: total,
        parts,
    })
}

/// Adds the numbers of stage `stage` and of the `more` stages after it.
fn add_numbers(numbers: &mut List<u32>, stage: u32, more: u32) -> Result<(), NoMemory>
    requires few { more ≤ 9 }
    requires low { stage ≤ 9 }
    requires there { stage + more ≤ 9 }
    ensures { OnGiven result (numbers.new ≡ numbers.old ++ numbers_of stage more) }
{
    numbers.push(2 * stage + 1)?;
    if more > 0 {
        add_numbers(numbers, stage + 1, more - 1)?;
    }
    Ok(())
}

/// Adds how many blocks a stage has that `more` stages follow, and each of these.
fn add_counts(counts: &mut List<u32>, more: u32) -> Result<(), NoMemory>
    requires few { more ≤ 9 }
    ensures { OnGiven result (counts.new ≡ counts.old ++ counts_of more) }
{
    counts.push(power_of_two(more))?;
    if more > 0 {
        add_counts(counts, more - 1)?;
    }
    Ok(())
}

/// Adds stage `stage`, whose blocks have `words` words, and the `more` stages after it, with their
/// parts.
fn add_stages(
    alloc: Global,
    nodes: &mut List<Node>,
    stage: u32,
    more: u32,
    words: u32,
) -> Result<(), NoMemory>
    requires there { stage + more ≤ 9 }
    requires small { 2 ^ more * words ≤ most_words }
    ensures { OnGiven result (nodes.new ≡ nodes.old ++ stages_from stage more words) }
{
    nodes.push(map_node(alloc, stage, power_of_two(more), words)?)?;
    nodes.push(step_node(alloc, stage, words))?;
    if more > 0 {
        add_stages(alloc, nodes, stage + 1, more - 1, 2 * words)?;
    }
    Ok(())
}

/// A stage: a map over `blocks` blocks of `words` words.
fn map_node(alloc: Global, stage: u32, blocks: u32, words: u32) -> Result<Node, NoMemory>
    requires low { stage ≤ 9 }
    requires small { blocks * words ≤ most_words }
    ensures { IfGiven result (λ node. node ≡ stage_of stage blocks words) }
{
    let cut = blocks_cut(alloc, blocks, words)?;
    let mut parts = List::new(alloc);
    parts.push(2 * stage + 2)?;
    Ok(Node {
        form: Form::Map { workers: None, cut },
        module: 2 * stage + 1,
        ins: blocks * words,
        outs: blocks * words,
        parts,
    })
}

/// The part of a stage: from block to block.
fn step_node(alloc: Global, stage: u32, words: u32) -> Node
    requires low { stage ≤ 9 }
    ensures { result ≡ step_of stage words }
{
    Node {
        form: Form::Seq,
        module: 2 * stage + 2,
        ins: words,
        outs: words,
        parts: List::new(alloc),
    }
}

/// The cut of `blocks` blocks of `words` words, an element each.
fn blocks_cut(alloc: Global, blocks: u32, words: u32) -> Result<Cut, NoMemory>
    ensures { IfGiven result (λ cut. cut ≡ blocks_cut blocks words) }
{
    let mut ins = List::new(alloc);
    ins.push(blocks_slice(alloc, blocks, words)?)?;
    let mut outs = List::new(alloc);
    outs.push(blocks_slice(alloc, blocks, words)?)?;
    Ok(Cut {
        first: blocks,
        second: 1,
        ins,
        outs,
    })
}

/// `blocks` blocks of `words` words, one after the other.
fn blocks_slice(alloc: Global, blocks: u32, words: u32) -> Result<Slice, NoMemory>
    ensures { IfGiven result (λ slice. slice ≡ blocks_slice blocks words) }
{
    let mut dims = List::new(alloc);
    dims.push(Dim {
        size: blocks,
        place: Place::First,
    })?;
    dims.push(Dim {
        size: words,
        place: Place::Rest,
    })?;
    Ok(Slice { start: 0, dims })
}

/// A module of each node, in preorder.
fn plan_modules(alloc: Global, levels: u32) -> Result<List<ModuleInfo>, NoMemory>
    ensures { IfGiven result (λ modules. modules ≡ main_info ∷ infos_of levels) }
{
    let mut modules = List::new(alloc);
    add_module(alloc, &mut modules, "main", ModuleKind::Pipe)?;
    add_modules(alloc, &mut modules, levels)?;
    Ok(modules)
}

/// Adds the modules of a stage that `more` stages follow, and of these.
fn add_modules(alloc: Global, modules: &mut List<ModuleInfo>, more: u32) -> Result<(), NoMemory>
    ensures { OnGiven result (modules.new ≡ modules.old ++ infos_of more) }
{
    add_module(alloc, modules, "stage", ModuleKind::Map)?;
    add_module(alloc, modules, "step", ModuleKind::Seq)?;
    if more > 0 {
        add_modules(alloc, modules, more - 1)?;
    }
    Ok(())
}

/// Adds a module without a rescue number.
fn add_module(
    alloc: Global,
    modules: &mut List<ModuleInfo>,
    name: &str,
    kind: ModuleKind,
) -> Result<(), NoMemory>
    ensures { OnGiven result (modules.new
        ≡ modules.old ++ record { name = name.now; kind = kind; rescue = None } ∷ []) }
{
    let name = Name::from_text(alloc, name)?;
    modules.push(ModuleInfo {
        name,
        kind,
        rescue: None,
    })
}
