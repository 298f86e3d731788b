// Nets field by field.

ghost use Rattle.std.specs.Prelude.{◌≡◌, ◌↔◌, IsTrue};

use p3l_firing::{Chan, Net, Proc};

/// Compares two processes.
fn same_proc(one: &Proc, other: &Proc) -> bool
    ensures { IsTrue result ↔ (one.now ≡ other.now) }
{
    one.kind == other.kind
        && one.node == other.node
        && one.arg == other.arg
        && one.ins.as_slice() == other.ins.as_slice()
        && one.outs.as_slice() == other.outs.as_slice()
}

/// Compares two lists of processes.
fn same_procs(one: &[Proc], other: &[Proc]) -> bool
    ensures { IsTrue result ↔ (one.now ≡ other.now) }
{
    if one.len() != other.len() {
        return false;
    }
    for i in 0..one.len() {
        if !same_proc(&one[i], &other[i]) {
            return false;
        }
    }
    true
}

/// Compares two lists of channels.
fn same_chans(one: &[Chan], other: &[Chan]) -> bool
    ensures { IsTrue result ↔ (one.now ≡ other.now) }
{
    if one.len() != other.len() {
        return false;
    }
    for i in 0..one.len() {
        if one[i] != other[i] {
            return false;
        }
    }
    true
}

/// Compares two nets.
pub(crate) fn same_net(one: &Net, other: &Net) -> bool
    ensures { IsTrue result ↔ (one.now ≡ other.now) }
{
    same_procs(one.procs.as_slice(), other.procs.as_slice())
        && same_chans(one.chans.as_slice(), other.chans.as_slice())
}
