// Surveys of linked nets.

ghost use Rattle.std.specs.Prelude.{◌≡◌};
ghost use Rattle.p3l_base.specs.Memory.{IfGiven};
ghost use Rattle.p3l_fitting.specs.Survey.{end_survey};

use p3l_base::{List, NoMemory};
use p3l_skel::Tree;
use p3l_template::Width;
use p3l_template::width::{ins_width, outs_width};
use std::alloc::Global;
use std::marker::Model;

/// The place of a loop in a net: its head and its tail, and from which number on and before which
/// the processes and the channels are its own or its body's.
#[derive(Debug, Drop)]
pub struct LoopPlace {
    pub head: usize,
    pub tail: usize,
    pub proc_from: usize,
    pub proc_to: usize,
    pub chan_from: usize,
    pub chan_to: usize,
}

impl Model for LoopPlace {
    ghost use Rattle.p3l_net.specs.Fitting.{LoopPlace};

    ghost Value = { LoopPlace };

    ghost view = { λ it. record {
      head = it.head;
      tail = it.tail;
      proc_from = it.proc_from;
      proc_to = it.proc_to;
      chan_from = it.chan_from;
      chan_to = it.chan_to;
    } };
}

/// A survey of a linked net: the count of its processes, the width of each channel, and the places
/// of its loops, each after those inside it.
#[derive(Debug, Drop)]
pub struct Survey {
    pub procs: usize,
    pub widths: List<Width>,
    pub loops: List<LoopPlace>,
}

impl Survey {
    /// The source and the sink, whose channels carry the root's in words and its out words.
    pub(crate) fn of_ends(alloc: Global, tree: &Tree) -> Result<Survey, NoMemory>
        ensures { IfGiven result (λ survey. survey ≡ end_survey tree.now) }
    {
        let mut widths = List::new(alloc);
        widths.push(ins_width(tree, 0, 0))?;
        widths.push(outs_width(tree, 0, 0))?;
        Ok(Survey {
            procs: 2,
            widths,
            loops: List::new(alloc),
        })
    }
}
