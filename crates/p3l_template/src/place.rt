// Places of templates and of their inner parts in a net.

ghost use Rattle.std.specs.Prelude.{◌≡◌};
ghost use Rattle.p3l_template.specs.Shape.{ports_of};

use crate::template::Ports;
use std::marker::Model;

/// The place of a template: the two channels that it stands between, and its first process and
/// channel.
#[derive(Debug, Drop)]
pub struct Site {
    pub input: u32,
    pub output: u32,
    pub proc: u32,
    pub chan: u32,
}

impl Model for Site {
    ghost use Rattle.p3l_template.specs.Shape.{Base};

    ghost Value = { Base };

    ghost view = { λ it. record { input = it.input; output = it.output; proc = it.proc; chan = it.chan } };
}

/// The place of an inner part: the two channels that it stands between, and the number of the
/// node's part that it is.
#[derive(Debug, Drop)]
pub struct Slot {
    pub input: u32,
    pub output: u32,
    pub part: u32,
}

impl Model for Slot {
    ghost use Rattle.p3l_template.specs.Shape.{Slot};

    ghost Value = { Slot };

    ghost view = { λ it. record { input = it.input; output = it.output; part = it.part } };
}

impl Slot {
    /// Gives the channels that the part stands between.
    pub fn ports(&self) -> Ports
        ensures { result ≡ ports_of self.now }
    {
        Ports {
            input: self.input,
            output: self.output,
        }
    }
}
