// The rules of the names that statements speak of.

ghost use Rattle.std.specs.Prelude.{◌≡◌, ◌++◌};
ghost use Rattle.p3l_ast.specs.Tree.{phrase, phrases, one, statements};
ghost use Rattle.p3l_body.specs.Scope.{known_of};
ghost use Rattle.p3l_body.specs.Mention.{mentions, index_mentions, place_mentions, assignment_mentions, code_mentions, mention_rule, mentions_rule, Mention};

use crate::scope::{Known, Variables};
use p3l_ast::{Expr, Fault, SourceRefusal, Spot, Stmt, Target};
use p3l_types::Consts;

/// The names that statements may speak of.
#[derive(Clone, Copy)]
pub struct Names<'a> {
    pub consts: &'a Consts,
    pub scope: &'a Variables,
}

/// The rules of a name that stands for this, with this many brackets.
fn check_known(
    known: Option<Known>,
    spot: &Spot,
    brackets: usize,
    is_assigned: bool,
) -> Result<(), SourceRefusal>
    ensures { result
        ≡ mention_rule known (record {
          at = spot.now;
          brackets = brackets;
          is_assigned = is_assigned;
        }) }
{
    let fault = match known {
        None => Fault::Undeclared,
        Some(known) if is_assigned && known.is_fixed => Fault::WriteToIn,
        Some(known) if known.sizes == 0 && brackets > 0 => Fault::NotArray,
        Some(known) if known.sizes > 0 && known.sizes != brackets => Fault::IsArray,
        Some(_) => return Ok(()),
    };
    Err(SourceRefusal::At {
        fault,
        pos: spot.pos,
    })
}

impl Names<'_> {
    /// The rules of the names of an expression, from left to right.
    #[cycle(expression)]
    #[tactic(auto, using(crate::proofs::Mentioned::expressions))]
    fn check_expr(self, expr: &Expr) -> Result<(), SourceRefusal>
        ensures { result
            ≡ mentions_rule self.entry.consts.now self.entry.scope.now (mentions (phrase expr.now)) }
    {
        match expr {
            Expr::Number(_) => Ok(()),
            Expr::Read(place) => self.check_place(false, place),
            Expr::Unary(_, operand) => self.check_expr(operand),
            Expr::Binary(_, left, right) => {
                self.check_expr(left)?;
                self.check_expr(right)
            }
        }
    }

    /// The rules of a variable or an element and of its indices.
    #[cycle(expression)]
    #[tactic(auto, using(crate::proofs::Mentioned::expressions))]
    fn check_place(self, is_assigned: bool, place: &Target) -> Result<(), SourceRefusal>
        ensures { result
            ≡ mentions_rule self.entry.consts.now self.entry.scope.now (place_mentions is_assigned
            place.now.at (phrases place.now.index.items)) }
    {
        let known = self.scope.known(self.consts, &place.at.name);
        check_known(known, &place.at, place.index.len(), is_assigned)?;
        for index in &place.index {
            self.check_expr(index)?;
        }
        Ok(())
    }

    /// The rules of an assignment: first its target, then the right side.
    #[tactic(auto, using(crate::proofs::Mentioned::expressions))]
    fn check_assignment(self, target: &Target, expr: &Expr) -> Result<(), SourceRefusal>
        ensures { result
            ≡ mentions_rule self.entry.consts.now self.entry.scope.now (assignment_mentions
            target.now.at (phrases target.now.index.items) (phrase expr.now)) }
    {
        self.check_place(true, target)?;
        self.check_expr(expr)
    }

    /// The rules of the names of statements, in the order of the text.
    #[cycle(statement)]
    #[tactic(auto, using(crate::proofs::Mentioned::statement_rules))]
    pub fn check_statements(self, stmts: &[Stmt]) -> Result<(), SourceRefusal>
        ensures { result
            ≡ mentions_rule self.entry.consts.now self.entry.scope.now (code_mentions (statements
            stmts.now)) }
    {
        for stmt in stmts {
            self.check_statement(stmt)?;
        }
        Ok(())
    }

    /// The rules of the names of a statement, in the order of the text.
    #[cycle(statement)]
    #[tactic(auto, using(crate::proofs::Mentioned::statement_rules))]
    fn check_statement(self, stmt: &Stmt) -> Result<(), SourceRefusal>
        ensures { result
            ≡ mentions_rule self.entry.consts.now self.entry.scope.now (code_mentions (one
            stmt.now)) }
    {
        match stmt {
            Stmt::Assign(target, expr) => self.check_assignment(target, expr),
            Stmt::If(condition, then, otherwise) => {
                self.check_expr(condition)?;
                self.check_statements(then)?;
                match otherwise {
                    Some(otherwise) => self.check_statements(otherwise),
                    None => Ok(()),
                }
            }
            Stmt::While(condition, body) => {
                self.check_expr(condition)?;
                self.check_statements(body)
            }
            Stmt::For(first, start, condition, next, step, body) => {
                self.check_assignment(first, start)?;
                self.check_expr(condition)?;
                self.check_assignment(next, step)?;
                self.check_statements(body)
            }
        }
    }
}
