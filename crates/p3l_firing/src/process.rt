// Processes.

ghost use Rattle.std.specs.Prelude.{◌≡◌, ◌<◌, length};

use p3l_base::List;

/// The kinds of processes, by their work.
#[derive(Clone, Copy, Debug, Drop, PartialEq, Eq)]
pub enum ProcKind {
    /// Sends the items, one by one.
    Source,
    /// Takes the outcomes out of the net.
    Sink,
    /// Applies a node that is one process.
    Run,
    /// Deals tokens to the workers of a farm.
    Emit,
    /// Takes the workers' tokens in the order of dealing.
    Collect,
    /// Cuts a token into the elements of a map.
    Scatter,
    /// Joins the results of a map's elements.
    Gather,
    /// Cuts a token into the segments of a reduce.
    Split,
    /// Folds the outcomes of a reduce's segments.
    FoldGather,
    /// Combines two outcomes of a reduce.
    Join,
    /// Lets tokens into a loop.
    Head,
    /// Lets tokens out of a loop, or sends them round once more.
    Tail,
}

/// A process of a net.
///
/// `node` is the node of the tree that places it, 0 for the source and the sink. `arg` is the
/// length of the segment for a `Run` of a reduce that is cut into segments, else 0. `ins` and
/// `outs` are the channels that it reads and writes, in the order of its kind.
#[derive(Debug, Drop)]
pub struct Proc {
    pub kind: ProcKind,
    pub node: u32,
    pub arg: u32,
    pub ins: List<u32>,
    pub outs: List<u32>,
}

impl Proc {
    ghost use Rattle.p3l_firing.specs.Process.{in_of, out_of};

    /// The first channel that it reads.
    pub fn input(&self) -> u32
        requires { 0 < length self.now.ins }
        ensures { result ≡ in_of self.now 0 }
    {
        self.ins.as_slice()[0]
    }

    /// Channel `k` of those that it reads.
    pub fn nth_input(&self, k: usize) -> u32
        requires { k < length self.now.ins }
        ensures { result ≡ in_of self.now k }
    {
        self.ins.as_slice()[k]
    }

    /// The first channel that it writes.
    pub fn output(&self) -> u32
        requires { 0 < length self.now.outs }
        ensures { result ≡ out_of self.now 0 }
    {
        self.outs.as_slice()[0]
    }

    /// Channel `k` of those that it writes.
    pub fn nth_output(&self, k: usize) -> u32
        requires { k < length self.now.outs }
        ensures { result ≡ out_of self.now k }
    {
        self.outs.as_slice()[k]
    }
}
