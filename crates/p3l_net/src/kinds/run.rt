// Runs.

ghost use Rattle.std.specs.Prelude.{◌≡◌, [], ◌∷◌, None, true, OnErr};
ghost use Rattle.p3l_base.specs.Memory.{OnGivenOr};
ghost use Rattle.p3l_net.specs.Descriptor.{IsRun};
ghost use Rattle.p3l_net.specs.Machine.{IsSound, may_want_memory};
ghost use Rattle.p3l_net.specs.Steps.{Done, MayFire, ready_at};

use crate::descriptor::Descriptor;
use crate::store::Store;
use p3l_base::{NoMemory, Outcome};
use p3l_firing::ProcKind;
use p3l_skel::Units;
use std::alloc::Global;

impl<'t> Store<'t> {
    /// Returns true exactly if the run `p` can fire.
    #[inline(always)]
    pub(crate) fn can_run(&self, p: u32, descriptor: &Descriptor) -> bool
        requires sound { IsSound self.now }
        requires run { IsRun self.now.net p descriptor.now }
        ensures { result ≡ ready_at self.now p }
    {
        let comes = self.has_token(descriptor.input);
        let room = self.has_room(descriptor.output);
        comes & room
    }

    /// The run `p` takes a token, and appends what its node makes of it; a trap stays as it is.
    #[inline(always)]
    pub(crate) fn fire_run<U: Units>(
        &mut self,
        alloc: Global,
        units: &U,
        p: u32,
        descriptor: &Descriptor,
    ) -> Result<(), NoMemory>
        requires may { MayFire self.old p ProcKind.Run }
        requires run { IsRun self.old.net p descriptor.now }
        requires units { U.tree units.now ≡ self.old.tree }
        ensures done { OnGivenOr result (Done (U.leaf units.now) self.old self.new p
            (descriptor.now.input ∷ (descriptor.now.output ∷ [])) None) (U.may_want ≡ true) }
        ensures err { OnErr result (self.new ≡ self.old) }
        ensures memory { OnErr result (may_want_memory self.old p ≡ true) }
    {
        let input = descriptor.input;
        let output = descriptor.output;
        let plain = self.is_plain(input);
        let Outcome::Value(words) = self.front_body(input) else {
            self.pass(input, output);
            self.tick();
            return Ok(());
        };
        match units.run(alloc, descriptor.node, words) {
            Ok(outcome) => {
                self.forward(input, output, plain, outcome);
                self.tick();
                Ok(())
            }
            Err(error) => Err(error),
        }
    }
}
