// Emits.

ghost use Rattle.std.specs.Prelude.{◌≡◌, ◌<◌, [], length, None, IfSome};
ghost use Rattle.std.specs.List.{AllByRecursion};
ghost use Rattle.p3l_firing.specs.Nodes.{Leaf};
ghost use Rattle.p3l_firing.specs.kinds.Emit.{emptiest, better};
ghost use Rattle.p3l_net.specs.Machine.{IsSound, Stands, state_of};
ghost use Rattle.p3l_net.specs.Steps.{Done, MayFire, ready_at};

use crate::store::Store;
use crate::touched::Touched;
use p3l_firing::{Proc, ProcKind};

impl<'t> Store<'t> {
    // Of these channels the one with room that has the fewest tokens, the first of several.
    fn emptiest(&self, channels: &[u32]) -> Option<u32>
        requires sound { IsSound self.now }
        requires channels { AllByRecursion (λ c. c < length self.now.queues) channels.now }
        ensures { result ≡ emptiest self.now.net (state_of self.now []) channels.now }
    {
        let mut best = None;
        for channel in channels {
            best = self.better(best, *channel);
        }
        best
    }

    // Of one chosen before it and a channel: the channel, if it has room and fewer tokens.
    fn better(&self, best: Option<u32>, channel: u32) -> Option<u32>
        requires sound { IsSound self.now }
        requires channel { channel < length self.now.queues }
        requires best { IfSome best (λ b. b < length self.now.queues) }
        ensures better { result ≡ better self.now.net (state_of self.now []) best channel }
        ensures inside { IfSome result (λ b. b < length self.now.queues) }
    {
        if self.has_room(channel) {
            match best {
                None => Some(channel),
                Some(other) => {
                    if self.load(channel) < self.load(other) {
                        Some(channel)
                    } else {
                        Some(other)
                    }
                }
            }
        } else {
            best
        }
    }

    // Returns true exactly if an emit can fire.
    pub(super) fn can_emit(&self, p: u32, process: &Proc) -> bool
        requires stands { Stands self.now p process.now }
        requires kind { process.now.kind ≡ ProcKind.Emit }
        ensures { result ≡ ready_at self.now p }
    {
        let input = process.input();
        let comes = self.has_token(input);
        let chosen = self.emptiest(process.outs.as_slice());
        comes & chosen.is_some()
    }

    // The emit `p` tags a token with its number, and sends it to the worker with the fewest tokens.
    // Returns the channels touched.
    pub(super) fn fire_emit(&mut self, p: u32) -> Touched
        requires { MayFire self.old p ProcKind.Emit }
        ensures { (leaf : Leaf) → Done leaf self.old self.new p result None }
    {
        let process = self.process(p);
        let input = process.input();
        let chosen = self.emptiest(process.outs.as_slice());
        let output = chosen.unwrap();
        let number = self.number(p);
        let token = self.take(input);
        let tagged = token.tagged(number);
        self.put(output, tagged);
        self.count(p);
        self.tick();
        Touched::two(input, output)
    }
}
