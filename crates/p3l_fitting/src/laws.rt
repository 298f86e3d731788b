// Laws of shots that fit: each is the contract of a function that does nothing.

ghost use Rattle.p3l_fitting.specs.Restoring.{WhatFitsCanBeRestored};

/// A machine can be restored from a shot that fits its net, where the net is typed by the widths
/// under which the shot fits.
pub fn what_fits_can_be_restored()
    ensures { WhatFitsCanBeRestored }
{}
