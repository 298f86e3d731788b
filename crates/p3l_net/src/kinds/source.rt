// Sources.

ghost use Rattle.std.specs.Prelude.{◌≡◌, None};
ghost use Rattle.p3l_firing.specs.Nodes.{Leaf};
ghost use Rattle.p3l_net.specs.Machine.{Stands};
ghost use Rattle.p3l_net.specs.Steps.{Done, MayFire, ready_at};

use crate::store::Store;
use crate::touched::Touched;
use p3l_base::Outcome;
use p3l_firing::{Proc, ProcKind};

impl<'t> Store<'t> {
    // Returns true exactly if a source can fire.
    pub(super) fn can_source(&self, p: u32, process: &Proc) -> bool
        requires stands { Stands self.now p process.now }
        requires kind { process.now.kind ≡ ProcKind.Source }
        ensures { result ≡ ready_at self.now p }
    {
        let output = process.output();
        let item = self.inbox.is_some();
        let room = self.has_room(output);
        item & room
    }

    // The source `p` sends the item in the inbox. Returns the channel touched.
    pub(super) fn fire_source(&mut self, p: u32) -> Touched
        requires { MayFire self.old p ProcKind.Source }
        ensures { (leaf : Leaf) → Done leaf self.old self.new p result None }
    {
        let process = self.process(p);
        let output = process.output();
        let item = self.next_item();
        self.put_plain(output, Outcome::Value(item));
        self.tick();
        Touched::one(output)
    }
}
