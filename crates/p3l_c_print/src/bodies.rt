// The functions of all bodies of a program.

ghost use Rattle.std.specs.Prelude.{◌≡◌, ◌++◌, map};
ghost use Rattle.p3l_ast.specs.Tree.{statements};
ghost use Rattle.p3l_base.specs.Memory.{IfGiven, OnGiven};
ghost use Rattle.p3l_body.specs.Seq.{seq_tree};
ghost use Rattle.p3l_c_print.specs.Bodies.{label_of, label_text, comment_text, one_text, functions_text, bodies_text};

use crate::function::body_text;
use crate::text::Text;
use p3l_ast::Stmt;
use p3l_base::{List, NoMemory};
use p3l_body::CheckedSeq;
use p3l_print::print_statements;
use p3l_skel::Tree;
use std::alloc::Global;

/// The name of a module, empty where the tree has no module of this number.
fn label_of(tree: &Tree, home: u32) -> &str
    ensures { result.now ≡ label_of tree.now home }
{
    match tree.modules.as_slice().get(home as usize) {
        Some(info) => info.name.as_str(),
        None => "",
    }
}

/// The first line of the comment before a function.
fn label_text(alloc: Global, label: &str, home: u32) -> Result<Text, NoMemory>
    ensures { IfGiven result (λ text. text ≡ label_text label.now home) }
{
    Ok(Text::of(format!(in alloc; "/* {label}, module {home}:\n\n")?))
}

/// Puts the statements of a module in a comment after a text.
#[tactic(auto, using(crate::proofs::Joined::then), unfolding(crate::specs::Bodies::comment_text))]
fn put_comment(
    alloc: Global,
    out: &mut Vec<u8>,
    label: &str,
    home: u32,
    stmts: &[Stmt],
) -> Result<(), NoMemory>
    ensures { OnGiven result (out.new.items
        ≡ out.old.items ++ comment_text label.now home (statements stmts.now)) }
{
    let head = label_text(alloc, label, home)?;
    let lines = print_statements(alloc, b"     ", stmts)?;
    out.extend_from_slice(head.as_str().as_bytes())?;
    out.extend_from_slice(lines.as_slice())?;
    out.extend_from_slice(b" */\n")?;
    Ok(())
}

/// Puts the function of a body after its P3L, and an empty line, after a text.
#[tactic(auto, using(crate::proofs::Joined::then), unfolding(crate::specs::Bodies::one_text))]
fn put_one(
    alloc: Global,
    out: &mut Vec<u8>,
    tree: &Tree,
    seq: &CheckedSeq<'_>,
) -> Result<(), NoMemory>
    ensures { OnGiven result (out.new.items
        ≡ out.old.items ++ one_text tree.now (seq_tree seq.now)) }
{
    let text = body_text(alloc, seq)?;
    put_comment(alloc, out, label_of(tree, seq.module), seq.module, seq.body)?;
    out.extend_from_slice(text.as_str().as_bytes())?;
    out.extend_from_slice(b"\n")?;
    Ok(())
}

/// Puts the functions of bodies, each after its P3L, after a text.
fn put_functions(
    alloc: Global,
    out: &mut Vec<u8>,
    tree: &Tree,
    seqs: &[CheckedSeq<'_>],
) -> Result<(), NoMemory>
    ensures { OnGiven result (out.new.items
        ≡ out.old.items ++ functions_text tree.now (map seq_tree seqs.now)) }
{
    for seq in seqs {
        put_one(alloc, out, tree, seq)?;
    }
    Ok(())
}

/// The functions of the bodies of a program's modules, each after its P3L.
pub fn bodies_text(
    alloc: Global,
    tree: &Tree,
    seqs: &[CheckedSeq<'_>],
) -> Result<List<u8>, NoMemory>
    ensures { IfGiven result (λ text. text ≡ bodies_text tree.now (map seq_tree seqs.now)) }
{
    let mut text = Vec::from_slice(alloc, b"\n")?;
    put_functions(alloc, &mut text, tree, seqs)?;
    Ok(List::from_vec(text))
}
