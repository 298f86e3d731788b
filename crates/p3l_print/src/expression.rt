// Expressions, with parentheses exactly where the grouping needs them.

ghost use Rattle.std.specs.Prelude.{◌≡◌, ◌++◌};
ghost use Rattle.p3l_base.specs.Memory.{OnGiven};
ghost use Rattle.p3l_ast.specs.Tree.{phrase, phrases};
ghost use Rattle.p3l_print.specs.Expression.{tightness, infix_text, operand_text, expression_text, index_text, target_text};

use crate::printer::Printer;
use p3l_ast::{BinOp, Expr, Target};
use p3l_base::NoMemory;
use p3l_grammar::mark::mark_of_unary;

/// The level of an operand without an operator between operands.
const TIGHTEST: u8 = 10;

#[tactic(auto, using(crate::proofs::Lines::expressions))]
fn tightness_of(expr: &Expr) -> u8
    ensures { result ≡ tightness (phrase expr.now) }
{
    match expr {
        Expr::Number(_) | Expr::Read(_) | Expr::Unary(_, _) => TIGHTEST,
        Expr::Binary(operator, _, _) => operator.level(),
    }
}

impl Printer {
    #[cycle(expression)]
    #[tactic(auto, using(crate::proofs::Lines::expressions))]
    pub fn expression(&mut self, expr: &Expr) -> Result<(), NoMemory>
        ensures { OnGiven result (self.new ≡ self.old ++ expression_text (phrase expr.now)) }
    {
        match expr {
            Expr::Number(value) => self.decimal(*value),
            Expr::Read(place) => self.target(place),
            Expr::Unary(operator, operand) => {
                self.put(mark_of_unary(*operator).text().as_bytes())?;
                self.operand(TIGHTEST, operand)
            }
            Expr::Binary(operator, left, right) => {
                let level = operator.level();
                self.operand(level, left)?;
                self.infix(*operator)?;
                self.operand(level + 1, right)
            }
        }
    }

    /// An operator between its operands, with a space on each side.
    #[tactic(auto, unfolding(crate::specs::Expression::infix_text))]
    fn infix(&mut self, operator: BinOp) -> Result<(), NoMemory>
        ensures { OnGiven result (self.new ≡ self.old ++ infix_text operator) }
    {
        self.put(b" ")?;
        self.put(operator.sign().as_bytes())?;
        self.put(b" ")
    }

    /// An operand, in parentheses where it binds less tight than is required.
    #[cycle(expression)]
    #[tactic(auto, unfolding(crate::specs::Expression::operand_text))]
    fn operand(&mut self, least: u8, operand: &Expr) -> Result<(), NoMemory>
        ensures { OnGiven result (self.new ≡ self.old
            ++ operand_text least (tightness (phrase operand.now))
            (expression_text (phrase operand.now))) }
    {
        if least <= tightness_of(operand) {
            return self.expression(operand);
        }
        self.put(b"(")?;
        self.expression(operand)?;
        self.put(b")")
    }

    #[cycle(expression)]
    pub fn target(&mut self, place: &Target) -> Result<(), NoMemory>
        ensures { OnGiven result (self.new
            ≡ self.old ++ target_text place.now.at (phrases place.now.index.items)) }
    {
        self.name(&place.at.name)?;
        self.index(&place.index)
    }

    #[cycle(expression)]
    fn index(&mut self, index: &Vec<Expr>) -> Result<(), NoMemory>
        ensures { OnGiven result (self.new ≡ self.old ++ index_text (phrases index.now.items)) }
    {
        for expr in index {
            self.put(b"[")?;
            self.expression(expr)?;
            self.put(b"]")?;
        }
        Ok(())
    }
}
