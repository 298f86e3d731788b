// The order of a tree's nodes, and which of them are sequential.

ghost use Rattle.std.specs.Prelude.{◌≡◌, ◌≤◌, ℕ, IfSome, IfNone, length};
ghost use Rattle.p3l_skel.specs.Tree.{sequential_to, sequential_row};
ghost use Rattle.p3l_skel.specs.Lawful.{IsSubtree};

use crate::tree::{Form, Tree};

/// The number after the last node of the subtree at a node, where its nodes are numbered in
/// preorder and nested at most so deep.
pub fn subtree_end(tree: &Tree, levels: u32, number: u32) -> Option<u32>
    requires { length tree.now.nodes ≤ 128 }
    ensures ok { IfSome result (IsSubtree levels tree.now number) }
    ensures none { IfNone result ((next : ℕ) → ¬ IsSubtree levels tree.now number next) }
{
    if levels == 0 {
        return None;
    }
    let node = tree.node(number)?;
    let mut next = number + 1;
    for part in node.parts.as_slice() {
        if *part != next {
            return None;
        }
        next = subtree_end(tree, levels - 1, next)?;
    }
    Some(next)
}

/// Returns true exactly if a node is sequential, as far as `levels` levels show: if one process can
/// run it.
pub fn is_sequential(tree: &Tree, levels: u32, number: u32) -> bool
    ensures { result ≡ sequential_to tree.now levels number }
{
    if levels == 0 {
        return false;
    }
    let Some(node) = tree.node(number) else {
        return false;
    };
    is_sequential_over(&node.form, is_sequential(tree, levels - 1, node.part(0)))
}

// Returns true exactly if a node of this form is sequential, where it is known whether its first part
// is.
fn is_sequential_over(form: &Form, part: bool) -> bool
    ensures { result ≡ sequential_row form.now part }
{
    match form {
        Form::Seq | Form::Comp => true,
        Form::Map { .. } | Form::Reduce { .. } => part,
        Form::Pipe | Form::Farm { .. } | Form::Loop { .. } => false,
    }
}
