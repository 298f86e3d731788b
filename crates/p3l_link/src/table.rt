// The one table from the forms of nodes to their templates.

ghost use Rattle.std.specs.Prelude.{◌≡◌, ◌<◌, length};
ghost use Rattle.p3l_skel.specs.Counts.{count_of};
ghost use Rattle.p3l_skel.specs.Lawful.{IsLawfulTree};
ghost use Rattle.p3l_skel.specs.Tree.{node_at, part_at};
ghost use Rattle.p3l_link.specs.Counts.{HasOwnCount};
ghost use Rattle.p3l_link.specs.Node.{IsFit, Serves, kind_of};
ghost use Rattle.p3l_link.specs.Shape.{kind_at, template_row};

use crate::node::NodeTemplate;
use p3l_farm::FarmTemplate;
use p3l_loop::LoopTemplate;
use p3l_map::MapTemplate;
use p3l_model::workers::workers;
use p3l_reduce::ReduceTemplate;
use p3l_skel::{Counts, Form, Tree};
use p3l_template::{PipeTemplate, RunTemplate};

/// The template of a node of this form, with this number of parts, and `n` workers or segments.
fn row(form: &Form, node: u32, parts: u32, n: u32) -> NodeTemplate
    ensures { result ≡ template_row form.now node parts n }
{
    match form {
        Form::Seq | Form::Comp => NodeTemplate::Run(RunTemplate { node }),
        Form::Pipe => NodeTemplate::Pipe(PipeTemplate { stages: parts }),
        Form::Farm { .. } => NodeTemplate::Farm(FarmTemplate { node, workers: n }),
        Form::Map { .. } => NodeTemplate::Map(MapTemplate { node, workers: n }),
        Form::Reduce { len, .. } => NodeTemplate::Reduce(ReduceTemplate {
            node,
            segments: n,
            len: *len,
        }),
        Form::Loop { tokens, .. } => NodeTemplate::Loop(LoopTemplate {
            node,
            tokens: *tokens,
        }),
    }
}

/// The template of a node of a tree under these counts.
pub fn template_of(tree: &Tree, counts: &Counts, number: u32) -> NodeTemplate
    requires lawful { IsLawfulTree tree.now }
    requires there { number < length tree.now.nodes }
    requires count { HasOwnCount (node_at tree.now number).form (count_of tree.now counts.now.list
        number) }
    ensures kind { kind_of result ≡ kind_at tree.now (count_of tree.now counts.now.list) number }
    ensures fit { IsFit result }
    ensures serves { Serves result tree.now number }
{
    let Some(node) = tree.node(number) else {
        unreachable!();
    };
    let parts = node.parts.len() as u32;
    let n = workers(tree, counts, number);
    row(&node.form, number, parts, n)
}

/// The number of part `part` of a node, and 0 where there is none.
pub fn part_of(tree: &Tree, number: u32, part: u32) -> u32
    ensures { result ≡ part_at tree.now number part }
{
    match tree.node(number) {
        Some(node) => node.part(part as usize),
        None => 0,
    }
}
