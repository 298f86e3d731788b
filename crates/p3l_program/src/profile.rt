// The command `profile`: the cost file of what a program does on the items of the input.

ghost use Rattle.std.specs.Prelude.{◌≡◌, Bool};
ghost use Rattle.std.specs.List.{All};
ghost use Rattle.p3l_io.specs.Change.{HasSameContent, change};
ghost use Rattle.p3l_skel.specs.Lawful.{IsLawfulTree};
ghost use Rattle.p3l_units.specs.Table.{HasCode};
ghost use Rattle.p3l_run.specs.declared.sampling.Sampled.TheVariants as sampled;
ghost use Rattle.p3l_program.specs.Profile.{IsClosedProfile, IsProfileExpected, IsProfileOf, coded};
ghost use Rattle.p3l_program.specs.World.{world};
ghost use Rattle.p3l_program.specs.Wants.{Wants};

use crate::plan::{Accepted, load_program};
use crate::text::write_text;
use p3l_base::{List, Name};
use p3l_code::SafeCode;
use p3l_io::{Files, Sink, Source};
use p3l_profile::Profile;
use p3l_profile::laws::a_profile_has_the_greatest;
use p3l_report::{Finish, Verdict};
use p3l_run::finish::name_of;
use p3l_run::{RunEnd, Sampled, sample};
use p3l_skel::Tree;
use p3l_stream::Ending;
use std::alloc::Global;

/// Writes the cost file of a profile whose input ended so, if this is its end.
fn close<K: Sink>(
    alloc: Global,
    tree: &Tree,
    profile: &Profile,
    ending: Ending,
    out: &mut K,
) -> Verdict
    ensures closed { IsClosedProfile tree.now profile.now.greatest (sampled.Stream ending)
        (change (K.observed out.old) (K.observed out.new)) result }
    ensures wants { (files : Bool) → Wants files result }
{
    if ending != Ending::End {
        return Verdict::Ended(Finish::Run(RunEnd::Stream(ending)), None);
    }
    match profile.text(alloc, tree) {
        Ok(text) => write_text(text.as_slice(), out),
        Err(_) => Verdict::NoMemory,
    }
}

/// The verdict of a profile that ended so; its cost file is written where the input came to its end.
fn finish<K: Sink>(
    alloc: Global,
    tree: &Tree,
    profile: &Profile,
    sampled: Sampled,
    out: &mut K,
) -> Verdict
    ensures closed { IsClosedProfile tree.now profile.now.greatest sampled
        (change (K.observed out.old) (K.observed out.new)) result }
    ensures wants { (files : Bool) → Wants files result }
{
    match sampled {
        Sampled::Stream(ending) => close(alloc, tree, profile, ending, out),
        Sampled::Trapped { item, kind, module } => match name_of(alloc, tree, module) {
            Ok(module) => Verdict::Ended(Finish::Run(RunEnd::Trapped { item, kind, module }), None),
            Err(_) => Verdict::NoMemory,
        },
    }
}

/// Profiles a tree on its codes on the items of the input.
fn profile_tree<S: Source, K: Sink>(
    alloc: Global,
    tree: &Tree,
    codes: &List<SafeCode>,
    input: &mut S,
    out: &mut K,
) -> Verdict
    requires lawful { IsLawfulTree tree.now }
    requires codes { All (HasCode (record { tree = tree.now; codes = codes.now })) tree.now.nodes }
    ensures profiled { IsProfileOf (coded tree.now codes.now)
        (change (S.observed input.old) (S.observed input.new))
        (change (K.observed out.old) (K.observed out.new)) result }
    ensures wants { (files : Bool) → Wants files result }
{
    a_profile_has_the_greatest();
    let Ok(mut profile) = Profile::new(alloc, tree) else {
        return Verdict::NoMemory;
    };
    match sample(alloc, tree, codes, &mut profile, input) {
        Ok(sampled) => finish(alloc, tree, &profile, sampled, out),
        Err(_) => Verdict::NoMemory,
    }
}

/// Writes the cost file of what the program of a file does on the items of the input.
pub fn profile<F: Files, S: Source, K: Sink>(
    alloc: Global,
    name: Name,
    files: &mut F,
    input: &mut S,
    out: &mut K,
) -> Verdict
    ensures expected { IsProfileExpected
        (world (change (F.observed files.old) (F.observed files.new))
        (change (S.observed input.old) (S.observed input.new))
        (change (K.observed out.old) (K.observed out.new))) name result }
    ensures same_files { HasSameContent (change (F.observed files.old) (F.observed files.new)) }
    ensures wants { Wants F.may_want result }
{
    match load_program(alloc, name, files) {
        Err(verdict) => verdict,
        Ok(Accepted { tree, codes }) => profile_tree(alloc, &tree, &codes, input, out),
    }
}
