// Collects.

ghost use Rattle.std.specs.Prelude.{◌≡◌, ◌<◌, [], length, None};
ghost use Rattle.std.specs.List.{AllByRecursion};
ghost use Rattle.p3l_firing.specs.Nodes.{Leaf};
ghost use Rattle.p3l_firing.specs.kinds.Collect.{due_in, front_is};
ghost use Rattle.p3l_net.specs.Channel.{tokens_at};
ghost use Rattle.p3l_net.specs.Machine.{Stands, state_of};
ghost use Rattle.p3l_net.specs.Steps.{Done, MayFire, ready_at};

use crate::store::Store;
use crate::touched::Touched;
use p3l_firing::{Proc, ProcKind};

impl<'t> Store<'t> {
    // Returns true exactly if the first token of a channel has this number.
    fn is_due(&self, channel: u32, number: u64) -> bool
        requires { channel < length self.now.queues }
        ensures { result ≡ front_is number (tokens_at self.now.queues channel) }
    {
        if self.has_token(channel) {
            self.front_newest_tag(channel) == number
        } else {
            false
        }
    }

    // The first of these channels whose first token has this number.
    fn due_in(&self, number: u64, channels: &[u32]) -> Option<u32>
        requires { AllByRecursion (λ c. c < length self.now.queues) channels.now }
        ensures { result ≡ due_in (state_of self.now []) number channels.now }
    {
        for channel in channels {
            if self.is_due(*channel, number) {
                return Some(*channel);
            }
        }
        None
    }

    // Returns true exactly if a collect can fire.
    pub(super) fn can_collect(&self, p: u32, process: &Proc) -> bool
        requires stands { Stands self.now p process.now }
        requires kind { process.now.kind ≡ ProcKind.Collect }
        ensures { result ≡ ready_at self.now p }
    {
        let number = self.number(p);
        let due = self.due_in(number, process.ins.as_slice());
        let output = process.output();
        let room = self.has_room(output);
        due.is_some() & room
    }

    // The collect `p` takes the token that is expected, and hands it on without its number. Returns
    // the channels touched.
    pub(super) fn fire_collect(&mut self, p: u32) -> Touched
        requires { MayFire self.old p ProcKind.Collect }
        ensures { (leaf : Leaf) → Done leaf self.old self.new p result None }
    {
        let number = self.number(p);
        let process = self.process(p);
        let due = self.due_in(number, process.ins.as_slice());
        let output = process.output();
        let input = due.unwrap();
        let token = self.take(input);
        self.put(output, token.untagged());
        self.count(p);
        self.tick();
        Touched::two(input, output)
    }
}
