// Signs of the operators between operands, and how tight they bind: one table for all that read or
// print them.

ghost use Rattle.std.specs.Prelude.{◌≡◌};
ghost use Rattle.p3l_ast.specs.Notation.{sign_of, level, operator_among, operator_of};

use crate::expression::BinOp;

/// All of them, the loosest first.
const OPERATORS: [BinOp; 18] = [
    BinOp::Or,
    BinOp::And,
    BinOp::BitOr,
    BinOp::BitXor,
    BinOp::BitAnd,
    BinOp::Eq,
    BinOp::Ne,
    BinOp::Lt,
    BinOp::Le,
    BinOp::Gt,
    BinOp::Ge,
    BinOp::Shl,
    BinOp::Shr,
    BinOp::Add,
    BinOp::Sub,
    BinOp::Mul,
    BinOp::Div,
    BinOp::Rem,
];

impl BinOp {
    /// The operator's row: its sign, and its level.
    fn row(self) -> (&'static str, u8)
        ensures sign { result.0.now ≡ sign_of self }
        ensures level { result.1 ≡ level self }
    {
        match self {
            BinOp::Or => ("||", 0),
            BinOp::And => ("&&", 1),
            BinOp::BitOr => ("|", 2),
            BinOp::BitXor => ("^", 3),
            BinOp::BitAnd => ("&", 4),
            BinOp::Eq => ("==", 5),
            BinOp::Ne => ("!=", 5),
            BinOp::Lt => ("<", 6),
            BinOp::Le => ("<=", 6),
            BinOp::Gt => (">", 6),
            BinOp::Ge => (">=", 6),
            BinOp::Shl => ("<<", 7),
            BinOp::Shr => (">>", 7),
            BinOp::Add => ("+", 8),
            BinOp::Sub => ("-", 8),
            BinOp::Mul => ("*", 9),
            BinOp::Div => ("/", 9),
            BinOp::Rem => ("%", 9),
        }
    }

    /// The spelling of the operator.
    pub fn sign(self) -> &'static str
        ensures { result.now ≡ sign_of self }
    {
        let (sign, _) = self.row();
        sign
    }

    /// Returns how tight the operator binds, from 0 for the loosest to 9. Operators before an
    /// operand bind tighter than all of these.
    pub fn level(self) -> u8
        ensures { result ≡ level self }
    {
        let (_, level) = self.row();
        level
    }

    /// The operator that a text is.
    #[tactic(auto, unfolding(crate::specs::Notation::operator_of))]
    pub fn from_sign(text: &[u8]) -> Option<BinOp>
        ensures { result ≡ operator_of text.now }
    {
        find_operator(&OPERATORS, text)
    }
}

/// The operator among these that a text is.
fn find_operator(operators: &[BinOp], text: &[u8]) -> Option<BinOp>
    ensures { result ≡ operator_among operators.now text.now }
{
    operators
        .iter()
        .copied()
        .find(|op| op.sign().as_bytes() == text)
}
