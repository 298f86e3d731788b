// The schedule that words and files request.

ghost use Rattle.std.specs.Prelude.{◌≡◌, ◌<◌, ◌^◌, length, IfOk, IfErr, OnOk};
ghost use Rattle.p3l_io.specs.Change.{HasSameContent, change};
ghost use Rattle.p3l_opts.specs.declared.command.Sched.TheVariants as sched;
ghost use Rattle.p3l_program.specs.Run.{HasNoSchedule};
ghost use Rattle.p3l_program.specs.Scheduled.{HasPicks, HasSchedule};
ghost use Rattle.p3l_sched.specs.Picker.{NamesProcesses, recorded};
ghost use Rattle.p3l_sched.specs.declared.schedule.Schedule.TheVariants as schedule;
ghost use Rattle.p3l_program.specs.Wants.{Wants};

use crate::file::find_text;
use p3l_base::{List, Name};
use p3l_io::Files;
use p3l_opts::Sched;
use p3l_report::{Refusal, Verdict};
use p3l_sched::{Schedule, read_picks};
use std::alloc::Global;

/// The most bytes of a file of picks.
pub const PICKS_LIMIT: u64 = 67_108_864;

/// The picks of this number of processes in the file of this name.
pub fn picks_in<F: Files>(
    alloc: Global,
    name: Name,
    count: u32,
    files: &mut F,
) -> Result<List<u32>, Verdict>
    ensures found { IfOk result (λ picks. HasPicks (F.observed files.old).content count name
        (schedule.Recorded picks)) }
    ensures named { IfOk result (λ picks. NamesProcesses count (schedule.Recorded picks)) }
    ensures few { IfOk result (λ picks. length picks < 2 ^ 63) }
    ensures unchanged { OnOk result (F.observed files.new ≡ F.observed files.old) }
    ensures refused { IfErr result
        (HasNoSchedule (change (F.observed files.old) (F.observed files.new)) count
        (sched.File name)) }
    ensures same_files { HasSameContent (change (F.observed files.old) (F.observed files.new)) }
    ensures wants { IfErr result (Wants F.may_want) }
{
    match find_text(alloc, name, PICKS_LIMIT, files) {
        Err(refusal) => Err(Verdict::from(refusal)),
        Ok(text) => match read_picks(alloc, text.as_slice(), count) {
            Ok(picks) => Ok(picks),
            Err(refusal) => Err(Verdict::from(Refusal::Schedule(refusal))),
        },
    }
}

/// The schedule of a network of this number of processes.
pub fn load_schedule<F: Files>(
    alloc: Global,
    request: Sched,
    count: u32,
    files: &mut F,
) -> Result<Schedule, Verdict>
    ensures request { IfOk result (HasSchedule (F.observed files.old).content count request) }
    ensures named { IfOk result (NamesProcesses count) }
    ensures few { IfOk result (λ schedule. recorded schedule < 2 ^ 63) }
    ensures unchanged { OnOk result (F.observed files.new ≡ F.observed files.old) }
    ensures refused { IfErr result
        (HasNoSchedule (change (F.observed files.old) (F.observed files.new)) count request) }
    ensures same_files { HasSameContent (change (F.observed files.old) (F.observed files.new)) }
    ensures wants { IfErr result (Wants F.may_want) }
{
    match request {
        Sched::RoundRobin => Ok(Schedule::RoundRobin),
        Sched::Seeded(seed) => Ok(Schedule::Seeded(seed)),
        Sched::File(name) => match picks_in(alloc, name, count, files) {
            Ok(picks) => Ok(Schedule::Recorded(picks)),
            Err(verdict) => Err(verdict),
        },
    }
}
