// Variables of modules.

use p3l_base::Name;
use p3l_types::Shape;

/// A port or a local variable with its shape.
#[derive(Debug, Drop)]
pub struct Var {
    pub name: Name,
    pub shape: Shape,
}
