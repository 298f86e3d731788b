// Statements, each on lines of its own after a margin.

ghost use Rattle.std.specs.Prelude.{◌≡◌, ◌++◌, codes};
ghost use Rattle.p3l_base.specs.Memory.{IfGiven, OnGiven};
ghost use Rattle.p3l_ast.specs.Tree.{phrase, phrases, one, statements};
ghost use Rattle.p3l_print.specs.Statement.{assignment_text, deeper, block_text, opening_text, for_opening_text, statements_text};

use crate::printer::Printer;
use p3l_ast::{Expr, Stmt, Target};
use p3l_base::{List, NoMemory};
use std::alloc::Global;

impl Printer {
    /// The lines of statements.
    #[cycle(statement)]
    #[tactic(auto, using(crate::proofs::Lines::lines))]
    pub fn statements(&mut self, margin: &[u8], stmts: &[Stmt]) -> Result<(), NoMemory>
        ensures { OnGiven result (self.new
            ≡ self.old ++ statements_text margin.now (statements stmts.now)) }
    {
        for stmt in stmts {
            self.statement(margin, stmt)?;
        }
        Ok(())
    }

    #[cycle(statement)]
    #[tactic(auto, using(crate::proofs::Lines::statement_lines))]
    fn statement(&mut self, margin: &[u8], stmt: &Stmt) -> Result<(), NoMemory>
        ensures { OnGiven result (self.new ≡ self.old ++ statements_text margin.now (one stmt.now)) }
    {
        match stmt {
            Stmt::Assign(place, value) => self.assignment_line(margin, place, value),
            Stmt::If(condition, then, otherwise) => {
                self.opening(margin, b"if", condition)?;
                self.block(margin, then)?;
                match otherwise {
                    None => self.put(b"\n"),
                    Some(otherwise) => {
                        self.put(b" else ")?;
                        self.last_block(margin, otherwise)
                    }
                }
            }
            Stmt::While(condition, body) => {
                self.opening(margin, b"while", condition)?;
                self.last_block(margin, body)
            }
            Stmt::For(first, start, condition, next, step, body) => {
                self.for_opening(margin, first, start, condition, next, step)?;
                self.last_block(margin, body)
            }
        }
    }

    fn assignment_line(
        &mut self,
        margin: &[u8],
        place: &Target,
        value: &Expr,
    ) -> Result<(), NoMemory>
        ensures { OnGiven result (self.new ≡ self.old ++ (margin.now
            ++ assignment_text place.now.at (phrases place.now.index.items) (phrase value.now)
            ++ codes ";\n")) }
    {
        self.put(margin)?;
        self.assignment(place, value)?;
        self.put(b";\n")
    }

    #[tactic(auto, unfolding(crate::specs::Statement::assignment_text))]
    fn assignment(&mut self, place: &Target, value: &Expr) -> Result<(), NoMemory>
        ensures { OnGiven result (self.new
            ≡ self.old
            ++ assignment_text place.now.at (phrases place.now.index.items) (phrase value.now)) }
    {
        self.target(place)?;
        self.put(b" = ")?;
        self.expression(value)
    }

    /// Writes the head of an `if` or a `while`.
    #[tactic(auto, unfolding(crate::specs::Statement::opening_text))]
    fn opening(&mut self, margin: &[u8], word: &[u8], condition: &Expr) -> Result<(), NoMemory>
        ensures { OnGiven result (self.new
            ≡ self.old ++ opening_text margin.now word.now (phrase condition.now)) }
    {
        self.put(margin)?;
        self.put(word)?;
        self.put(b" (")?;
        self.expression(condition)?;
        self.put(b") ")
    }

    /// Writes the head of a `for`.
    #[tactic(auto, unfolding(crate::specs::Statement::for_opening_text))]
    fn for_opening(
        &mut self,
        margin: &[u8],
        first: &Target,
        start: &Expr,
        condition: &Expr,
        next: &Target,
        step: &Expr,
    ) -> Result<(), NoMemory>
        ensures { OnGiven result (self.new ≡ self.old ++ for_opening_text margin.now
            (assignment_text first.now.at (phrases first.now.index.items) (phrase start.now))
            (phrase condition.now)
            (assignment_text next.now.at (phrases next.now.index.items) (phrase step.now))) }
    {
        self.put(margin)?;
        self.put(b"for (")?;
        self.assignment(first, start)?;
        self.put(b"; ")?;
        self.expression(condition)?;
        self.put(b"; ")?;
        self.assignment(next, step)?;
        self.put(b") ")
    }

    /// A block in braces, whose lines stand two spaces further in.
    #[cycle(statement)]
    #[tactic(auto, unfolding(crate::specs::Statement::block_text))]
    fn block(&mut self, margin: &[u8], stmts: &[Stmt]) -> Result<(), NoMemory>
        ensures { OnGiven result (self.new
            ≡ self.old
            ++ block_text margin.now (statements_text (deeper margin.now) (statements stmts.now))) }
    {
        self.put(b"{\n")?;
        let inner = self.deeper(margin)?;
        self.statements(&inner, stmts)?;
        self.put(margin)?;
        self.put(b"}")
    }

    /// The last block of a statement, which ends its line.
    #[cycle(statement)]
    fn last_block(&mut self, margin: &[u8], stmts: &[Stmt]) -> Result<(), NoMemory>
        ensures { OnGiven result (self.new ≡ self.old
            ++ (block_text margin.now (statements_text (deeper margin.now) (statements stmts.now))
            ++ codes "\n")) }
    {
        self.block(margin, stmts)?;
        self.put(b"\n")
    }

    /// The margin of the lines in a block.
    fn deeper(&self, margin: &[u8]) -> Result<Vec<u8>, NoMemory>
        ensures { IfGiven result (λ inner. inner.items ≡ deeper margin.now) }
    {
        let mut inner = Vec::from_slice(self.alloc, b"  ")?;
        inner.extend_from_slice(margin)?;
        Ok(inner)
    }
}

/// Returns the lines of statements, each after a margin.
pub fn print_statements(alloc: Global, margin: &[u8], stmts: &[Stmt]) -> Result<List<u8>, NoMemory>
    ensures { IfGiven result (λ text. text ≡ statements_text margin.now (statements stmts.now)) }
{
    let mut printer = Printer::new(alloc);
    printer.statements(margin, stmts)?;
    Ok(printer.finish())
}
