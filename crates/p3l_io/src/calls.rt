// Counts of calls on objects in memory, and the calls that fail.

ghost use Rattle.std.specs.Prelude.{◌≡◌};
ghost use Rattle.p3l_io.specs.Calls.{names_call, next_count};

/// One more than a count, which stays at its last value.
pub(crate) fn after_one_more(count: u64) -> u64
    ensures { result ≡ next_count count }
{
    count.saturating_add(1)
}

/// Decides whether the numbers name this call. None is named by the number at which the count stays.
pub(crate) fn is_named(fails: &[u64], call: u64) -> bool
    ensures { result ≡ names_call fails.now call }
{
    call < u64::MAX && fails.contains(&call)
}
