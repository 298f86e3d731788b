// Verdicts on commands, and the status of each.

ghost use Rattle.std.specs.Prelude.{◌≡◌};
ghost use Rattle.p3l_report.specs.Verdict.{end_status, ending_status, finish_status, is_no_memory, refusal_status, status_of, verdict_of};

use crate::evidence::Evidence;
use crate::stats::Stats;
use p3l_ast::{Fault, Pos};
use p3l_base::Name;
use p3l_cert::CertRefusal;
use p3l_cost::CostRefusal;
use p3l_image::ImageRefusal;
use p3l_load::LoadRefusal;
use p3l_resume::ShotRefusal;
use p3l_run::RunEnd;
use p3l_scan::ScanRefusal;
use p3l_sched::PickRefusal;
use p3l_stream::Ending;
use p3l_trace::TraceRefusal;

/// The status of the program, as `main` ends with it.
#[derive(Clone, Copy, Debug, Drop, PartialEq, Eq)]
pub struct Status(pub u8);

/// Why a command was refused before anything was touched.
#[derive(Drop)]
pub enum Refusal {
    /// The words are no command.
    Usage,
    /// The file of this name could not be read.
    FileFault(Name),
    /// The file of this name is longer than its limit.
    FileTooLong(Name),
    /// The text of the program is refused.
    Source { fault: Fault, pos: Pos },
    /// The file of costs is refused.
    Costs(CostRefusal),
    /// No counts of workers fit the processors, of which at least `need` are needed.
    TooFew { need: u64 },
    /// The file of picks is refused.
    Schedule(PickRefusal),
    /// An image, a certificate, a trace or a snapshot is refused.
    Evidence(Evidence),
    /// The program can't be scanned in the number of segments requested.
    Scan(ScanRefusal),
}

/// Ends of commands that were not refused, after all their writing has succeeded.
#[derive(Drop)]
pub enum Finish {
    /// All that the command makes was written.
    Done,
    /// The run of the command came to its end so.
    Run(RunEnd),
    /// The line of this number of a trace is the first that differs from the run.
    Differs { line: u64 },
}

/// Verdicts on commands, with all values that their lines report.
#[derive(Drop)]
pub enum Verdict {
    /// Refused, with nothing touched; by a refusal that says other than that memory ran out.
    Refused(Refusal),
    /// Came to its end, with the numbers of its run where they are to be reported.
    Ended(Finish, Option<Stats>),
    /// Writing failed.
    WriteFault,
    /// Out of memory.
    NoMemory,
}

impl Refusal {
    /// The status that the refusal stands for.
    pub fn status(&self) -> Status
        ensures { result.0 ≡ refusal_status self.now }
    {
        match self {
            Refusal::Usage => Status(2),
            Refusal::FileFault(_) | Refusal::FileTooLong(_) => Status(9),
            Refusal::Source { .. } => Status(3),
            Refusal::Costs(_) => Status(4),
            Refusal::TooFew { .. } => Status(5),
            Refusal::Schedule(_) => Status(12),
            Refusal::Evidence(_) => Status(13),
            Refusal::Scan(_) => Status(15),
        }
    }

    /// Returns true exactly if the refusal of a library says that memory ran out.
    fn is_no_memory(&self) -> bool
        ensures { result ≡ is_no_memory self.now }
    {
        matches!(
            self,
            Refusal::Costs(CostRefusal::NoMemory)
                | Refusal::Schedule(PickRefusal::NoMemory)
                | Refusal::Evidence(Evidence::Cert(CertRefusal::NoMemory))
                | Refusal::Evidence(Evidence::Image(ImageRefusal::NoMemory))
                | Refusal::Evidence(Evidence::Load(LoadRefusal::NoMemory))
                | Refusal::Evidence(Evidence::Trace(TraceRefusal::NoMemory))
                | Refusal::Evidence(Evidence::Shot(ShotRefusal::NoMemory))
        )
    }
}

impl From<Refusal> for Verdict {
    ghost from_gives = { λ refusal v. v ≡ verdict_of refusal };

    fn from(refusal: Refusal) -> Verdict {
        if refusal.is_no_memory() {
            Verdict::NoMemory
        } else {
            Verdict::Refused(refusal)
        }
    }
}

impl Finish {
    /// The status that the end stands for.
    pub fn status(&self) -> Status
        ensures { result.0 ≡ finish_status self.now }
    {
        match self {
            Finish::Done => Status(0),
            Finish::Run(end) => end_status(end),
            Finish::Differs { .. } => Status(13),
        }
    }
}

/// The status of a run that ended so.
fn end_status(end: &RunEnd) -> Status
    ensures { result.0 ≡ end_status end.now }
{
    match end {
        RunEnd::Stopped { .. } => Status(1),
        RunEnd::Trapped { .. } => Status(7),
        RunEnd::Stream(ending) => stream_status(*ending),
    }
}

/// The status of a run whose stream ended so.
fn stream_status(ending: Ending) -> Status
    ensures { result.0 ≡ ending_status ending }
{
    match ending {
        Ending::End => Status(0),
        Ending::BadWord(_) | Ending::WrongCount { .. } | Ending::OutOfRange(_) => Status(6),
        Ending::ReadFault => Status(8),
        Ending::TooLong => Status(14),
    }
}

impl Verdict {
    /// The status that the verdict stands for.
    pub fn status(&self) -> Status
        ensures { result.0 ≡ status_of self.now }
    {
        match self {
            Verdict::Refused(refusal) => refusal.status(),
            Verdict::Ended(finish, _) => finish.status(),
            Verdict::WriteFault => Status(10),
            Verdict::NoMemory => Status(11),
        }
    }
}
