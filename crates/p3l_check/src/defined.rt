// Modules as the entries after them see them.

use crate::Callable;
use p3l_body::Ports;
use p3l_skel::ModuleInfo;

/// A module: its name and kind, its ports, and its calls with what its instances are.
#[derive(Debug, Drop)]
pub struct Defined {
    pub info: ModuleInfo,
    pub ports: Ports,
    pub callables: Callable,
}
