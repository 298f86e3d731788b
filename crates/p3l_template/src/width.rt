// Widths of channels: the words of their values, and the tags of their tokens.

ghost use Rattle.std.specs.Prelude.{◌≡◌, ◌++◌, replicate};
ghost use Rattle.p3l_base.specs.Memory.{OnGiven};
ghost use Rattle.p3l_template.specs.Width.{ins_width, outs_width, stage_widths, width_at, worker_widths};

use p3l_base::{List, NoMemory};
use p3l_skel::Tree;

/// The width of a channel: the count of words of its values, and of tags of its tokens.
#[derive(Clone, Copy, Debug, Drop, PartialEq, Eq)]
pub struct Width {
    pub words: u64,
    pub tags: u32,
}

/// The width of a channel of credits; a number without a channel is read as this too.
pub const NO_WIDTH: Width = Width { words: 0, tags: 0 };

/// The width of channel `c`.
pub fn width_at(row: &[Width], c: usize) -> Width
    ensures { result ≡ width_at row.now c }
{
    row.get(c).copied().unwrap_or(NO_WIDTH)
}

/// The in words of a node, with `tags` tags.
pub fn ins_width(tree: &Tree, number: u32, tags: u32) -> Width
    ensures { result ≡ ins_width tree.now number tags }
{
    let words = match tree.node(number) {
        Some(node) => node.ins as u64,
        None => 0,
    };
    Width { words, tags }
}

/// The out words of a node, with `tags` tags.
pub fn outs_width(tree: &Tree, number: u32, tags: u32) -> Width
    ensures { result ≡ outs_width tree.now number tags }
{
    let words = match tree.node(number) {
        Some(node) => node.outs as u64,
        None => 0,
    };
    Width { words, tags }
}

/// Puts the same width behind others, `n` times.
pub fn push_same(row: &mut List<Width>, n: u32, width: Width) -> Result<(), NoMemory>
    ensures { OnGiven result (row.new ≡ row.old ++ replicate n width) }
{
    for _ in 0..n {
        row.push(width)?;
    }
    Ok(())
}

/// Puts the channels between the stages of a pipe, which are these nodes, behind others.
pub(crate) fn push_stages(
    row: &mut List<Width>,
    tree: &Tree,
    tags: u32,
    parts: &[u32],
) -> Result<(), NoMemory>
    ensures { OnGiven result (row.new ≡ row.old ++ stage_widths tree.now tags parts.now) }
{
    let stages = &parts[..parts.len().saturating_sub(1)];
    for part in stages {
        row.push(outs_width(tree, *part, tags))?;
    }
    Ok(())
}

/// Puts the channels to `n` workers, and then those from them, behind others.
pub fn push_workers(
    row: &mut List<Width>,
    n: u32,
    before: Width,
    after: Width,
) -> Result<(), NoMemory>
    ensures { OnGiven result (row.new ≡ row.old ++ worker_widths n before after) }
{
    push_same(row, n, before)?;
    push_same(row, n, after)
}
