// The least number of processes of any lawful counts.

ghost use Rattle.std.specs.Prelude.{◌≡◌};
ghost use Rattle.p3l_skel.specs.Lawful.{IsLawfulTree};
ghost use Rattle.p3l_skel.specs.Numbers.{procs_by};
ghost use Rattle.p3l_model.specs.Fitted.{fitted};
ghost use Rattle.p3l_alloc.specs.Need.{least_count, least_at, IsLeastProcs};

use p3l_model::process::procs_over;
use p3l_skel::counts::outside_parts;
use p3l_skel::tree::NESTING;
use p3l_skel::{Form, Tree};

/// The least number of processes of any lawful counts.
pub fn least_procs(tree: &Tree) -> u64
    requires { IsLawfulTree tree.now }
    ensures { IsLeastProcs tree.now result }
{
    least_from(tree, NESTING, 0)
}

// The processes of a node and of `levels` levels below it, each with as few workers as it may have.
fn least_from(tree: &Tree, levels: u32, number: u32) -> u64
    ensures { result ≡ fitted (procs_by tree.now (least_at tree.now) levels number) }
{
    if levels == 0 {
        return 1;
    }
    let Some(node) = tree.node(number) else {
        return 0;
    };
    let mut inner: u64 = 0;
    for part in outside_parts(node) {
        inner = inner.saturating_add(least_from(tree, levels - 1, *part));
    }
    procs_over(&node.form, least_count(&node.form), inner)
}

// The least lawful number of workers of a node of this form.
fn least_count(form: &Form) -> u32
    ensures { result ≡ least_count form.now }
{
    form.workers().unwrap_or(1)
}
