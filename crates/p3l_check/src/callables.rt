// Modules with their calls.

use p3l_base::List;
use p3l_skel::Form;

/// A module as its callers and its instances see it.
#[derive(Debug, Drop)]
pub struct Callable {
    /// The form of each of its instances.
    pub form: Form,
    /// The words that it takes.
    pub ins: u32,
    /// The words that it gives.
    pub outs: u32,
    /// The numbers of the modules that it calls, in the order of the text; a loop calls its body
    /// and then its condition.
    pub calls: List<u32>,
    /// True if one process can run it: a seq, a comp, or a map or reduce of such a module.
    pub sequential: bool,
}
