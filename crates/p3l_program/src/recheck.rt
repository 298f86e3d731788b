// Verdicts of `check-trace` on the traces that runs leave.

ghost use Rattle.p3l_program.specs.Recheck.{EveryRecordIsAccepted, EveryTraceOfAProgramIsAccepted};

use p3l_trace::text::text_begins_no_other;

/// A trace that a run left, checked against the same network on the same input, has no line that
/// differs.
pub fn every_record_is_accepted()
    ensures { EveryRecordIsAccepted }
{
    text_begins_no_other();
}

/// A trace that a run of a program left has no line that differs, if it is checked on the same input
/// against what files make of the same words that hold the same program and costs.
pub fn every_trace_of_a_program_is_accepted()
    ensures { EveryTraceOfAProgramIsAccepted }
{
    text_begins_no_other();
}
