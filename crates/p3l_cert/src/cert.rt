// Certificates, and why one is refused.

ghost use Rattle.std.specs.Prelude.{◌≡◌};
ghost use Rattle.p3l_cert.specs.declared.cert.CertRefusal.TheVariants as refusals;

use p3l_base::List;
use p3l_skel::Counts;

/// The least processes of a node outside units: no lawful numbers of workers of it and of the nodes
/// below it with a service time of at most `bound` ticks have fewer than `least`, or more than `cap`
/// all of them where it is `cap + 1`.
#[derive(Clone, Copy, Debug, Drop, PartialEq, Eq)]
pub struct Row {
    pub node: u32,
    pub bound: u128,
    pub cap: u32,
    pub least: u32,
}

/// Of which row a rule speaks: that of a node, a bound and a cap. Keys are ordered so.
#[derive(Clone, Copy, Debug, Drop, PartialEq, Eq, PartialOrd, Ord)]
pub struct Key {
    pub node: u32,
    pub bound: u128,
    pub cap: u32,
}

/// Numbers of workers, what they come to, and rows from which it follows that no others are better.
#[derive(Debug, Drop)]
pub struct Cert {
    pub processors: u32,
    pub counts: Counts,
    pub service: u128,
    pub used: u32,
    pub rows: List<Row>,
}

/// A claim of a certificate on its numbers of workers.
#[derive(Clone, Copy, Debug, Drop, PartialEq, Eq)]
pub enum Claim {
    /// They are lawful.
    Counts,
    /// Their service time is `service`.
    Service,
    /// They make `used` processes.
    Used,
    /// The number of processes fits the processors.
    Fits,
    /// The rows of the root prove that no counts use fewer processes or less service time.
    Least,
}

/// Why a certificate is refused.
#[derive(Clone, Copy, Debug, Drop, PartialEq, Eq)]
pub enum CertRefusal {
    /// The row of this number, from 0, keeps `kept`, and its rule finds `found`.
    RowWrong {
        row: u64,
        kept: u32,
        found: u32,
    },
    /// The row of this number depends on a row that isn't there; the number of rows stands for the
    /// claim of the root.
    RowMissing {
        row: u64,
        node: u32,
        bound: u128,
        cap: u32,
    },
    ClaimWrong(Claim),
    /// The first line that isn't of its form, from 1, or one more than there are lines.
    BadText {
        line: u64,
    },
    NoMemory,
}

impl From<p3l_base::NoMemory> for CertRefusal {
    ghost from_gives = { λ _ refusal. refusal ≡ refusals.NoMemory };

    fn from(_want: p3l_base::NoMemory) -> CertRefusal {
        CertRefusal::NoMemory
    }
}
