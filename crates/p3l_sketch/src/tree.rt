// The trees of tables.

ghost use Rattle.std.specs.Prelude.{OnErr};
ghost use Rattle.p3l_base.specs.Memory.{Refused};

use crate::shape::{NodeForm, form_of, list_of};
use p3l_base::{List, Name, NoMemory};
use p3l_skel::{Counts, Form, ModuleInfo, ModuleKind, Node, Tree};
use std::alloc::Global;

/// A node of a module of its own: its shape, the words that it takes and gives, and its parts.
pub type Row = (NodeForm, u32, u32, &'static [u32]);

/// A node: its shape, its module, the words that it takes and gives, and its parts.
pub type ModuleRow = (NodeForm, u32, u32, u32, &'static [u32]);

/// A tree: its nodes, and the kinds of its modules.
pub type Sketch = (&'static [ModuleRow], &'static [ModuleKind]);

// The name of a module where no name is given.
const NAME: &str = "m";

fn module_of(
    alloc: Global,
    name: &str,
    kind: ModuleKind,
    rescue: Option<i64>,
) -> Result<ModuleInfo, NoMemory>
    ensures { OnErr result Refused }
{
    Ok(ModuleInfo {
        name: Name::from_text(alloc, name)?,
        kind,
        rescue,
    })
}

/// A tree that has no node yet.
pub fn no_nodes(alloc: Global) -> Tree {
    Tree {
        nodes: List::new(alloc),
        modules: List::new(alloc),
    }
}

/// Puts a node after the others, with a module of its own that has this rescue number.
pub fn add_node(
    alloc: Global,
    tree: &mut Tree,
    form: Form,
    words: (u32, u32),
    parts: List<u32>,
    rescue: Option<i64>,
) -> Result<(), NoMemory>
    ensures { OnErr result Refused }
{
    let module = u32::try_from(tree.modules.len()).unwrap_or(0);
    tree.modules
        .push(module_of(alloc, NAME, form.kind(), rescue)?)?;
    tree.nodes.push(Node {
        form,
        module,
        ins: words.0,
        outs: words.1,
        parts,
    })
}

/// Puts the node of a row after the others, with a module of its own that has this rescue number.
pub fn add_row(
    alloc: Global,
    tree: &mut Tree,
    row: Row,
    rescue: Option<i64>,
) -> Result<(), NoMemory>
    ensures { OnErr result Refused }
{
    let (shape, ins, outs, parts) = row;
    let form = form_of(alloc, shape)?;
    let parts = list_of(alloc, parts)?;
    add_node(alloc, tree, form, (ins, outs), parts, rescue)
}

/// The tree of these rows, each of which is a node of a module of its own.
pub fn tree_of(alloc: Global, rows: &[Row]) -> Result<Tree, NoMemory>
    ensures { OnErr result Refused }
{
    let mut tree = no_nodes(alloc);
    for row in rows {
        add_row(alloc, &mut tree, *row, None)?;
    }
    Ok(tree)
}

fn node_of(alloc: Global, row: ModuleRow) -> Result<Node, NoMemory>
    ensures { OnErr result Refused }
{
    let (shape, module, ins, outs, parts) = row;
    let form = form_of(alloc, shape)?;
    let parts = list_of(alloc, parts)?;
    Ok(Node {
        form,
        module,
        ins,
        outs,
        parts,
    })
}

fn nodes_of(alloc: Global, rows: &[ModuleRow]) -> Result<List<Node>, NoMemory>
    ensures { OnErr result Refused }
{
    let mut nodes = List::new(alloc);
    for row in rows {
        nodes.push(node_of(alloc, *row)?)?;
    }
    Ok(nodes)
}

/// The tree of these rows, with modules of these kinds.
pub fn tree_with(alloc: Global, rows: &[ModuleRow], kinds: &[ModuleKind]) -> Result<Tree, NoMemory>
    ensures { OnErr result Refused }
{
    let nodes = nodes_of(alloc, rows)?;
    let mut modules = List::new(alloc);
    for kind in kinds {
        modules.push(module_of(alloc, NAME, *kind, None)?)?;
    }
    Ok(Tree { nodes, modules })
}

/// The tree of these rows, with modules of these names and kinds.
pub fn tree_named(
    alloc: Global,
    rows: &[ModuleRow],
    named: &[(&str, ModuleKind)],
) -> Result<Tree, NoMemory>
    ensures { OnErr result Refused }
{
    let nodes = nodes_of(alloc, rows)?;
    let mut modules = List::new(alloc);
    for (name, kind) in named {
        modules.push(module_of(alloc, name, *kind, None)?)?;
    }
    Ok(Tree { nodes, modules })
}

/// The tree of a sketch where the module of this number has a rescue number.
pub fn tree_with_rescue(
    alloc: Global,
    sketch: Sketch,
    number: usize,
    rescue: i64,
) -> Result<Tree, NoMemory>
    ensures { OnErr result Refused }
{
    let nodes = nodes_of(alloc, sketch.0)?;
    let mut modules = List::new(alloc);
    for (place, kind) in sketch.1.iter().enumerate() {
        let given = if place == number { Some(rescue) } else { None };
        modules.push(module_of(alloc, NAME, *kind, given)?)?;
    }
    Ok(Tree { nodes, modules })
}

/// These numbers of workers.
pub fn counts_of(alloc: Global, counts: &[u32]) -> Result<Counts, NoMemory>
    ensures { OnErr result Refused }
{
    Ok(Counts {
        list: list_of(alloc, counts)?,
    })
}
