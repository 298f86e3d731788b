// Verdicts of runs that failed.

ghost use Rattle.std.specs.Prelude.{◌≡◌};
ghost use Rattle.p3l_program.specs.Verdict.{fault_verdict};

use p3l_report::Verdict;
use p3l_run::RunFault;

/// The verdict of a run that failed.
pub fn fault_verdict(fault: RunFault) -> Verdict
    ensures { result ≡ fault_verdict fault }
{
    match fault {
        RunFault::Write => Verdict::WriteFault,
        RunFault::NoMemory => Verdict::NoMemory,
    }
}
