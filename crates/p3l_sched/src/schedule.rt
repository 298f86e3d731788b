// Schedules: the ways to make picks.

use p3l_base::List;

/// Schedules: the ways to make picks.
#[derive(Debug, Drop)]
pub enum Schedule {
    /// The processes take turns, from process 0 on.
    RoundRobin,
    /// The generator `Lcg64Xsh32` of this seed draws among those that can fire.
    Seeded(u64),
    /// These picks, in turn.
    Recorded(List<u32>),
}
