// Sinks.

ghost use Rattle.std.specs.Prelude.{◌≡◌, Some, false};
ghost use Rattle.p3l_firing.specs.Nodes.{Leaf};
ghost use Rattle.p3l_net.specs.Machine.{Stands};
ghost use Rattle.p3l_net.specs.Steps.{Done, MayFire, ready_at};

use crate::store::Store;
use crate::touched::Touched;
use p3l_base::Outcome;
use p3l_firing::{Proc, ProcKind};

impl<'t> Store<'t> {
    // Returns true exactly if a sink can fire.
    pub(super) fn can_sink(&self, p: u32, process: &Proc) -> bool
        requires stands { Stands self.now p process.now }
        requires kind { process.now.kind ≡ ProcKind.Sink }
        ensures { result ≡ ready_at self.now p }
    {
        let input = process.input();
        self.has_token(input)
    }

    /// The sink `p` takes a token, and hands out its outcome, with the channel touched.
    pub(crate) fn fire_sink(&mut self, p: u32) -> (Outcome, Touched)
        requires may { MayFire self.old p ProcKind.Sink }
        requires untrapped { self.old.trapped ≡ false }
        ensures { (leaf : Leaf) → Done leaf self.old self.new p result.1 (Some result.0) }
    {
        let process = self.process(p);
        let input = process.input();
        let body = self.take_body(input);
        self.emit(&body);
        self.tick();
        (body, Touched::one(input))
    }
}
