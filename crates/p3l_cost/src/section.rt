// The tables of a cost file.

ghost use Rattle.std.specs.Prelude.{◌≡◌};
ghost use Rattle.p3l_cost.specs.File.{section_key, least_of, speaks_of};

use p3l_skel::ModuleKind;

/// The tables of a cost file, each of which speaks of the modules of one skeleton.
#[derive(Clone, Copy, Debug, Drop, PartialEq, Eq)]
pub enum Section {
    /// `seq`: the ticks of `seq` modules.
    Ticks,
    /// `turns`: the expected turns of `loop` modules.
    Turns,
}

impl Section {
    /// Its key.
    pub(crate) fn key(self) -> &'static str
        ensures { result.now ≡ section_key self }
    {
        match self {
            Section::Ticks => "seq",
            Section::Turns => "turns",
        }
    }

    /// The least number of an entry.
    pub(crate) fn least(self) -> u32
        ensures { result ≡ least_of self }
    {
        match self {
            Section::Ticks => 0,
            Section::Turns => 1,
        }
    }

    /// Returns true exactly if it speaks of the modules of this skeleton.
    pub(crate) fn speaks_of(self, kind: ModuleKind) -> bool
        ensures { result ≡ speaks_of self kind }
    {
        match (self, kind) {
            (Section::Ticks, ModuleKind::Seq) => true,
            (Section::Turns, ModuleKind::Loop) => true,
            _ => false,
        }
    }
}
