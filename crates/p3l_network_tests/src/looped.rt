// A loop that counts down.

ghost use Rattle.std.specs.Prelude.{◌≡◌, ◌<◌, pos, suc, zero, ◌+ℤ◌, ◌-ℤ◌, [], ◌∷◌, length, IfOk, true};
ghost use Rattle.p3l_base.specs.Memory.{IfGiven};
ghost use Rattle.std.specs.Prelude.{IfOk, IfSome};
ghost use Rattle.p3l_base.specs.declared.outcome.Outcome.TheVariants.{Value};
ghost use Rattle.p3l_skel.specs.declared.tree.Form.TheVariants.{Seq};
ghost use Rattle.p3l_network_tests.specs.Looped.{counting_loop, counts_down, loop_modules};

use crate::with_part::{add, first_value, minus, word};
use p3l_base::{List, NoMemory, Outcome, Words};
use p3l_skel::{Form, ModuleInfo, ModuleKind, Node, Tree, Units};
use std::alloc::Global;

/// The node of a `seq` module, which takes two words.
fn seq_node(alloc: Global, home: u32, outs: u32) -> Node
    ensures { result ≡ record { form = Seq; «module» = home; ins = 2; outs = outs; parts = [] } }
{
    Node {
        form: Form::Seq,
        module: home,
        ins: 2,
        outs,
        parts: List::new(alloc),
    }
}

/// The modules of the loop, of its body and of its condition.
fn modules(alloc: Global) -> Result<List<ModuleInfo>, NoMemory>
    ensures { IfGiven result (λ modules. modules ≡ loop_modules) }
{
    let mut modules = List::new(alloc);
    add(alloc, &mut modules, "main", ModuleKind::Loop)?;
    add(alloc, &mut modules, "body", ModuleKind::Seq)?;
    add(alloc, &mut modules, "test", ModuleKind::Seq)?;
    Ok(modules)
}

/// The tree of a loop of three turns and two tokens at most, whose items have two words.
pub fn tree_of_loop(alloc: Global) -> Result<Tree, NoMemory>
    ensures { IfGiven result (λ tree. tree ≡ counting_loop) }
{
    let mut nodes = List::new(alloc);
    nodes.push(Node {
        form: Form::Loop {
            turns: 3,
            tokens: 2,
        },
        module: 0,
        ins: 2,
        outs: 2,
        parts: List::from_vec(Vec::from_slice(alloc, &[1, 2])?),
    })?;
    nodes.push(seq_node(alloc, 1, 2))?;
    nodes.push(seq_node(alloc, 2, 1))?;
    let modules = modules(alloc)?;
    Ok(Tree { nodes, modules })
}

/// The sum of two words, where it fits.
fn plus(left: i64, right: i64) -> Option<i64>
    ensures { IfSome result (λ word. word ≡ left +ℤ right) }
{
    left.checked_add(right)
}

/// One turn of the body on two words; refused where a number doesn't fit.
fn counted(alloc: Global, words: &Words) -> Result<Outcome, NoMemory>
    requires { 1 < length words.now }
    ensures { IfOk result (λ outcome. outcome ≡ counts_down (suc zero) words.now) }
{
    let Some(down) = minus(word(words, 0), 1) else {
        return Err(NoMemory);
    };
    let Some(up) = plus(word(words, 1), 1) else {
        return Err(NoMemory);
    };
    let mut both = Words::new(alloc);
    both.push(down)?;
    both.push(up)?;
    Ok(Outcome::Value(both))
}

/// Units that count down, and test the first word. Other nodes, which the tests don't run, are
/// refused.
pub struct CountsDown;

impl Units for CountsDown {
    ghost use Rattle.p3l_network_tests.specs.Looped.{counting_loop, counts_down};
    ghost use Rattle.p3l_network_tests.specs.LoopedLaws.{counts_give};

    ghost tree = { λ _. counting_loop };

    ghost leaf = { λ _. counts_down };

    ghost may_want = { true };

    ghost gives_outs = { λ _. counts_give };

    fn run(&self, alloc: Global, node: u32, words: &Words) -> Result<Outcome, NoMemory> {
        if words.len() != 2 {
            return Err(NoMemory);
        }
        match node {
            1 => counted(alloc, words),
            2 => first_value(alloc, words),
            _ => Err(NoMemory),
        }
    }
}
