// Loaded programs, and why an image isn't loaded.

ghost use Rattle.std.specs.Prelude.{◌≡◌};
ghost use Rattle.p3l_load.specs.declared.loaded.LoadRefusal.TheVariants.{NoMemory as Wanting};

use p3l_base::List;
use p3l_code::SafeCode;
use p3l_firing::Net;
use p3l_skel::{Counts, Tree};
use thiserror::Error;

/// A compiled program that can be run: the capacity of its channels, its tree, the numbers of
/// workers, the codes of its `seq` modules in their order, and its net.
#[derive(Debug, Drop)]
pub struct Loaded {
    pub cap: u32,
    pub tree: Tree,
    pub counts: Counts,
    pub codes: List<SafeCode>,
    pub net: Net,
}

/// Why an image isn't loaded.
#[derive(Clone, Copy, Debug, Drop, PartialEq, Eq, Error)]
pub enum LoadRefusal {
    /// The code of this number, from 0, is the first that breaks a rule of safe code.
    #[error("code {0} is not safe")]
    CodeUnsafe(u32),
    /// The net isn't that of the tree.
    #[error("the net is not that of the tree")]
    NotLinked,
    /// The tree or its counts break a rule, it has too many processes, or the codes aren't those of
    /// its `seq` modules.
    #[error("the tree, its counts or its codes are wrong")]
    TreeWrong,
    /// Out of memory.
    #[error("no memory")]
    NoMemory,
}

impl From<p3l_base::NoMemory> for LoadRefusal {
    ghost from_gives = { λ _ refusal. refusal ≡ Wanting };

    fn from(_want: p3l_base::NoMemory) -> LoadRefusal {
        LoadRefusal::NoMemory
    }
}
