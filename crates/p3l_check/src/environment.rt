// The names that a module may use.

use crate::modules::Modules;
use crate::places::Places;
use p3l_types::Consts;

/// The constants and modules before a module, the places of all names, and the module's own place
/// among the entries.
#[derive(Clone, Copy)]
pub struct Environment<'a> {
    pub consts: &'a Consts,
    pub modules: &'a Modules,
    pub places: &'a Places,
    pub from: usize,
}
