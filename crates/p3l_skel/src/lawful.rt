// Lawful trees.

ghost use Rattle.std.specs.Prelude.{◌≡◌, ◌≢◌, ◌↔◌, ◌≤◌, ◌<◌, ◌*◌, [], ◌∷◌, IsTrue, IfSome, IfNone, length};
ghost use Rattle.std.specs.List.{All};
ghost use Rattle.p3l_skel.specs.Tree.{is_sequential};
ghost use Rattle.p3l_skel.specs.Counts.{IsCountInRange, workers_of};
ghost use Rattle.p3l_skel.specs.Lawful.{HasWords, IsChain, IsSequential, HasOnePart, HasTwoParts, IsLawfulMap, IsLawfulReduce, HasLoopLimits, AreLoopParts, IsLawfulLoop, IsLawfulForm, kind_of, HasKind, HasLawfulRescue, may_rescue, IsLawfulNode, IsSubtree, IsLawfulTree};

use crate::agree::modules_agree;
use crate::cut::{have_sizes, is_lawful_cut, is_size};
use crate::shape::{is_sequential, subtree_end};
use crate::tree::{Form, ModuleInfo, ModuleKind, NESTING, Node, Tree};
use crate::work::is_light;
use p3l_base::Cut;

/// The most nodes of a tree.
const MOST_NODES: usize = 128;

/// The most turns of a loop.
const MOST_TURNS: u32 = 65_536;

/// The most items that are in a loop at once.
const MOST_TOKENS: u32 = 1024;

impl Form {
    /// The skeleton that a node of this form is an instance of.
    pub fn kind(&self) -> ModuleKind
        ensures { result ≡ kind_of self.now }
    {
        match self {
            Form::Seq => ModuleKind::Seq,
            Form::Comp => ModuleKind::Comp,
            Form::Pipe => ModuleKind::Pipe,
            Form::Farm { .. } => ModuleKind::Farm,
            Form::Map { .. } => ModuleKind::Map,
            Form::Reduce { .. } => ModuleKind::Reduce,
            Form::Loop { .. } => ModuleKind::Loop,
        }
    }
}

impl ModuleKind {
    /// Returns true exactly if a module that is written with this skeleton may have a rescue
    /// number.
    pub fn may_rescue(self) -> bool
        ensures { result ≡ may_rescue self }
    {
        match self {
            ModuleKind::Seq | ModuleKind::Comp => true,
            _ => false,
        }
    }
}

/// Returns true exactly if a module has a rescue number only where its skeleton allows one.
fn has_lawful_rescue(info: &ModuleInfo) -> bool
    ensures { IsTrue result ↔ HasLawfulRescue info.now }
{
    match info.rescue {
        Some(_) => info.kind.may_rescue(),
        None => true,
    }
}

/// Returns true exactly if all modules have rescue numbers only where their skeletons allow them.
fn have_lawful_rescues(modules: &[ModuleInfo]) -> bool
    ensures { IsTrue result ↔ All HasLawfulRescue modules.now }
{
    modules.iter().all(has_lawful_rescue)
}

/// Returns true exactly if a module of this number is there, and is written with this skeleton.
fn has_kind(tree: &Tree, home: u32, kind: ModuleKind) -> bool
    ensures { IsTrue result ↔ HasKind tree.now.modules home kind }
{
    match tree.modules.as_slice().get(home as usize) {
        Some(info) => info.kind == kind,
        None => false,
    }
}

/// Returns true exactly if a node is there, and takes `ins` and gives `outs` words.
fn has_words(tree: &Tree, number: u32, ins: u32, outs: u32) -> bool
    ensures { IsTrue result ↔ HasWords tree.now number ins outs }
{
    match tree.node(number) {
        Some(node) => node.ins == ins && node.outs == outs,
        None => false,
    }
}

/// Returns true exactly if each node is there and gives what the next takes, where the first takes
/// `ins` words and the last gives `outs`.
fn is_chain(tree: &Tree, ins: u32, outs: u32, parts: &[u32]) -> bool
    ensures { IsTrue result ↔ IsChain tree.now ins outs parts.now }
{
    let mut given = ins;
    for part in parts {
        let Some(node) = tree.node(*part) else {
            return false;
        };
        if node.ins != given {
            return false;
        }
        given = node.outs;
    }
    given == outs
}

/// Returns true exactly if all these nodes are sequential.
fn are_sequential(tree: &Tree, parts: &[u32]) -> bool
    ensures { IsTrue result ↔ All (IsSequential tree.now) parts.now }
{
    parts.iter().all(|part| is_sequential(tree, NESTING, *part))
}

/// The part of a node that has one.
fn only_part(node: &Node) -> Option<u32>
    ensures one { IfSome result (λ part. node.now.parts ≡ part ∷ []) }
    ensures none { IfNone result (length node.now.parts ≢ 1) }
{
    let parts = node.parts.as_slice();
    if parts.len() == 1 {
        Some(parts[0])
    } else {
        None
    }
}

/// The two parts of a node that has two.
fn both_parts(node: &Node) -> Option<(u32, u32)>
    ensures two { IfSome result (λ parts. node.now.parts ≡ parts.0 ∷ (parts.1 ∷ [])) }
    ensures none { IfNone result (length node.now.parts ≢ 2) }
{
    let parts = node.parts.as_slice();
    if parts.len() == 2 {
        Some((parts[0], parts[1]))
    } else {
        None
    }
}

/// Returns true exactly if the part of a farm fits it.
fn is_lawful_farm(tree: &Tree, node: &Node) -> bool
    ensures { IsTrue result
        ↔ HasOnePart (λ part. HasWords tree.now part node.now.ins node.now.outs) node.now.parts }
{
    match only_part(node) {
        Some(part) => has_words(tree, part, node.ins, node.outs),
        None => false,
    }
}

/// Returns true exactly if the cut and the part of a map fit it.
fn is_lawful_map(tree: &Tree, cut: &Cut, node: &Node) -> bool
    ensures { IsTrue result
        ↔ HasOnePart (IsLawfulMap tree.now cut.now node.now.ins node.now.outs) node.now.parts }
{
    match only_part(node) {
        Some(part) => is_map_part(tree, cut, node, part),
        None => false,
    }
}

/// Returns true exactly if a cut is lawful for a map and this part of it.
fn is_map_part(tree: &Tree, cut: &Cut, node: &Node, part: u32) -> bool
    ensures { IsTrue result ↔ IsLawfulMap tree.now cut.now node.now.ins node.now.outs part }
{
    let Some(part) = tree.node(part) else {
        return false;
    };
    have_sizes(cut.ins.as_slice())
        && have_sizes(cut.outs.as_slice())
        && is_lawful_cut(cut, node.ins, node.outs, part.ins, part.outs)
}

/// Returns true exactly if the numbers and the part of a reduce fit it.
fn is_lawful_reduce(tree: &Tree, len: u32, elem: u32, node: &Node) -> bool
    ensures { IsTrue result
        ↔ HasOnePart (IsLawfulReduce tree.now len elem node.now.ins node.now.outs) node.now.parts }
{
    match only_part(node) {
        Some(part) => is_reduce_part(tree, len, elem, node, part),
        None => false,
    }
}

/// Returns true exactly if an operator is one of a reduce with `len` elements of `elem` words.
fn is_reduce_part(tree: &Tree, len: u32, elem: u32, node: &Node, part: u32) -> bool
    ensures { IsTrue result ↔ IsLawfulReduce tree.now len elem node.now.ins node.now.outs part }
{
    node.ins as u64 == len as u64 * elem as u64
        && node.outs == elem
        && is_operator(tree, elem, part)
        && is_sequential(tree, NESTING, part)
}

/// Returns true exactly if a node makes one element of two.
fn is_operator(tree: &Tree, elem: u32, part: u32) -> bool
    ensures { IsTrue result ↔ HasWords tree.now part (2 * elem) elem }
{
    match tree.node(part) {
        Some(node) => node.ins as u64 == 2 * elem as u64 && node.outs == elem,
        None => false,
    }
}

/// Returns true exactly if the numbers and the parts of a loop fit it.
fn is_lawful_loop(tree: &Tree, turns: u32, tokens: u32, node: &Node) -> bool
    ensures { IsTrue result
        ↔ HasTwoParts (IsLawfulLoop tree.now turns tokens node.now.ins node.now.outs)
        node.now.parts }
{
    match both_parts(node) {
        Some((body, condition)) => has_loop_limits(turns, tokens)
            && are_loop_parts(tree, node, body, condition),
        None => false,
    }
}

/// Returns true exactly if the turns and tokens of a loop are in their limits.
fn has_loop_limits(turns: u32, tokens: u32) -> bool
    ensures { IsTrue result ↔ HasLoopLimits turns tokens }
{
    1 <= turns && turns <= MOST_TURNS && 1 <= tokens && tokens <= MOST_TOKENS
}

/// Returns true exactly if a body and a condition fit a loop.
fn are_loop_parts(tree: &Tree, node: &Node, body: u32, condition: u32) -> bool
    ensures { IsTrue result ↔ AreLoopParts tree.now node.now.ins node.now.outs body condition }
{
    node.ins == node.outs
        && has_words(tree, body, node.ins, node.outs)
        && has_words(tree, condition, node.ins, 1)
        && is_sequential(tree, NESTING, condition)
}

/// Returns true exactly if the parts of a node fit it.
fn is_lawful_form(tree: &Tree, node: &Node) -> bool
    ensures { IsTrue result
        ↔ IsLawfulForm tree.now node.now.form node.now.ins node.now.outs node.now.parts }
{
    let parts = node.parts.as_slice();
    match &node.form {
        Form::Seq => parts.is_empty(),
        Form::Comp => is_filled_chain(tree, node) && are_sequential(tree, parts),
        Form::Pipe => is_filled_chain(tree, node),
        Form::Farm { .. } => is_lawful_farm(tree, node),
        Form::Map { cut, .. } => is_lawful_map(tree, cut, node),
        Form::Reduce { len, elem, .. } => is_lawful_reduce(tree, *len, *elem, node),
        Form::Loop { turns, tokens } => is_lawful_loop(tree, *turns, *tokens, node),
    }
}

/// Returns true exactly if a node has parts that lead from its ins to its outs.
fn is_filled_chain(tree: &Tree, node: &Node) -> bool
    ensures { IsTrue result
        ↔ ((1 ≤ length node.now.parts)
        × IsChain tree.now node.now.ins node.now.outs node.now.parts) }
{
    !node.parts.is_empty() && is_chain(tree, node.ins, node.outs, node.parts.as_slice())
}

/// Returns true exactly if the `workers` clause of a form is in its limits.
fn has_lawful_workers(form: &Form) -> bool
    ensures { IsTrue result ↔ IfSome (workers_of form.now) (IsCountInRange form.now) }
{
    match form.workers() {
        Some(workers) => form.is_count_in_range(workers),
        None => true,
    }
}

/// Returns true exactly if a node keeps the rules of its form.
fn is_lawful_node(tree: &Tree, node: &Node) -> bool
    ensures { IsTrue result ↔ IsLawfulNode tree.now node.now }
{
    has_kind(tree, node.module, node.form.kind())
        && is_size(node.ins)
        && is_size(node.outs)
        && has_lawful_workers(&node.form)
        && is_lawful_form(tree, node)
}

/// Returns true exactly if all nodes keep the rules of their forms.
fn has_lawful_nodes(tree: &Tree) -> bool
    ensures { IsTrue result ↔ All (IsLawfulNode tree.now) tree.now.nodes }
{
    tree.nodes
        .as_slice()
        .iter()
        .all(|node| is_lawful_node(tree, node))
}

/// Returns true exactly if the nodes are numbered in preorder and nested no deeper than they may
/// be.
fn is_in_preorder(tree: &Tree) -> bool
    requires { length tree.now.nodes ≤ 128 }
    ensures { IsTrue result ↔ IsSubtree 6 tree.now 0 (length tree.now.nodes) }
{
    match subtree_end(tree, NESTING, 0) {
        Some(end) => end as usize == tree.nodes.len(),
        None => false,
    }
}

/// Returns true exactly if a tree keeps all rules: its order, its numbers, its wiring, its rescue
/// numbers, the agreement of each module's nodes and the limit on the work of one item.
pub fn lawful_tree(tree: &Tree) -> bool
    ensures { IsTrue result ↔ IsLawfulTree tree.now }
{
    (tree.modules.len() as u64) < 1 << 32
        && have_lawful_rescues(tree.modules.as_slice())
        && tree.nodes.len() <= MOST_NODES
        && is_in_preorder(tree)
        && has_lawful_nodes(tree)
        && modules_agree(tree.nodes.as_slice())
        && is_light(tree)
}
