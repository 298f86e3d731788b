// Statements of C, each on lines of its own after a margin.

ghost use Rattle.std.specs.Prelude.{◌≡◌, ◌++◌, string_bytes};
ghost use Rattle.p3l_base.specs.Memory.{IfGiven, OnGiven};
ghost use Rattle.p3l_ast.specs.Tree.{phrase, phrases, one, statements, done, if_, if_else, while_, for_};
ghost use Rattle.p3l_c.specs.Translate.{next};
ghost use Rattle.p3l_c.specs.Temps.{assign_temps, temps_of};
ghost use Rattle.p3l_c_print.specs.Line.{deeper, loop_lines};
ghost use Rattle.p3l_c_print.specs.Value.{PutsCode, value_of, front_text, assign_text, round_text, block_of, test_of};

use crate::line::{deeper, put_choice, put_loop, put_turn};
use crate::names::Names;
use crate::text::Text;
use crate::value::{Block, put_set, signed_of, test_of};
use p3l_ast::{Expr, Stmt, Target};
use p3l_base::NoMemory;

impl Names<'_> {
    /// The lines of statements after a margin, and the number of their temps.
    #[cycle(statement)]
    pub fn block(&self, margin: &str, budget: u32, stmts: &[Stmt]) -> Result<Block, NoMemory>
        ensures { IfGiven result (λ it.
            it ≡ block_of self.now margin.now budget (statements stmts.now)) }
    {
        let mut lines = String::new(self.alloc);
        let temps = self.put_statements(&mut lines, margin, budget, stmts)?;
        Ok(Block {
            text: Text::of(lines),
            temps,
        })
    }

    /// The lines of a block in a statement after a margin, and the number of their temps.
    #[cycle(statement)]
    fn inner_block(&self, margin: &str, budget: u32, stmts: &[Stmt]) -> Result<Block, NoMemory>
        ensures { IfGiven result (λ it.
            it ≡ block_of self.now (deeper margin.now) budget (statements stmts.now)) }
    {
        let inner = deeper(self.alloc, margin)?;
        let block = self.block(inner.as_str(), budget, stmts)?;
        Ok(block)
    }

    /// Puts the lines of statements after a text. Returns the number of their temps.
    #[cycle(statement)]
    fn put_statements(
        &self,
        out: &mut String,
        margin: &str,
        budget: u32,
        stmts: &[Stmt],
    ) -> Result<u64, NoMemory>
        ensures { IfGiven result (PutsCode self.now margin.now budget (statements stmts.now)
            (string_bytes out.old) (string_bytes out.new)) }
    {
        let mut temps = 0;
        for stmt in stmts {
            let more = self.put_statement(out, margin, budget, stmt)?;
            temps = u64::max(temps, more);
        }
        Ok(temps)
    }

    /// Puts the lines of a statement after a text. Returns the number of its temps.
    #[cycle(statement)]
    fn put_statement(
        &self,
        out: &mut String,
        margin: &str,
        budget: u32,
        stmt: &Stmt,
    ) -> Result<u64, NoMemory>
        ensures { IfGiven result (PutsCode self.now margin.now budget (one stmt.now)
            (string_bytes out.old) (string_bytes out.new)) }
    {
        match stmt {
            Stmt::Assign(target, expr) => self.put_assign(out, margin, target, expr),
            Stmt::If(condition, then, other) => match other {
                Some(other) => self.put_if_else(out, margin, budget, condition, then, other),
                None => self.put_if(out, margin, budget, condition, then),
            },
            Stmt::While(condition, body) => self.put_while(out, margin, budget, condition, body),
            Stmt::For(first, start, condition, next, step, body) => self.put_for(
                out, margin, budget, first, start, condition, next, step, body,
            ),
        }
    }

    /// Puts the lines of an `if` with no `else` after a text. Returns the number of its temps.
    #[cycle(statement)]
    fn put_if(
        &self,
        out: &mut String,
        margin: &str,
        budget: u32,
        condition: &Expr,
        then: &[Stmt],
    ) -> Result<u64, NoMemory>
        ensures { IfGiven result (PutsCode self.now margin.now budget
            (if_ (phrase condition.now) (statements then.now) done)
            (string_bytes out.old) (string_bytes out.new)) }
    {
        let value = self.put_value(out, margin, 0, condition)?;
        let test = test_of(self.alloc, &value)?;
        let block = self.inner_block(margin, budget, then)?;
        put_choice(
            self.alloc,
            out,
            margin,
            test.as_str(),
            block.text.as_str(),
            "",
        )?;
        Ok(u64::max(value.after, block.temps))
    }

    /// Puts the lines of an `if` with an `else` after a text. Returns the number of its temps.
    #[cycle(statement)]
    fn put_if_else(
        &self,
        out: &mut String,
        margin: &str,
        budget: u32,
        condition: &Expr,
        then: &[Stmt],
        other: &[Stmt],
    ) -> Result<u64, NoMemory>
        ensures { IfGiven result (PutsCode self.now margin.now budget
            (if_else (phrase condition.now) (statements then.now) (statements other.now) done)
            (string_bytes out.old) (string_bytes out.new)) }
    {
        let value = self.put_value(out, margin, 0, condition)?;
        let test = test_of(self.alloc, &value)?;
        let first = self.inner_block(margin, budget, then)?;
        let second = self.inner_block(margin, budget, other)?;
        put_choice(
            self.alloc,
            out,
            margin,
            test.as_str(),
            first.text.as_str(),
            second.text.as_str(),
        )?;
        Ok(u64::max(value.after, u64::max(first.temps, second.temps)))
    }

    /// Puts the lines of a `while` after a text. Returns the number of its temps.
    #[cycle(statement)]
    fn put_while(
        &self,
        out: &mut String,
        margin: &str,
        budget: u32,
        condition: &Expr,
        body: &[Stmt],
    ) -> Result<u64, NoMemory>
        ensures { IfGiven result (PutsCode self.now margin.now budget
            (while_ (phrase condition.now) (statements body.now) done)
            (string_bytes out.old) (string_bytes out.new)) }
    {
        let inner = deeper(self.alloc, margin)?;
        let mut round = String::new(self.alloc);
        let temps = self.put_round(&mut round, inner.as_str(), budget, body)?;
        let tested = self.put_loop(out, margin, condition, round.as_str())?;
        Ok(u64::max(tested, temps))
    }

    /// Puts the lines of a `for` after a text. Returns the number of its temps.
    #[cycle(statement)]
    fn put_for(
        &self,
        out: &mut String,
        margin: &str,
        budget: u32,
        first: &Target,
        start: &Expr,
        condition: &Expr,
        target: &Target,
        step: &Expr,
        body: &[Stmt],
    ) -> Result<u64, NoMemory>
        ensures { IfGiven result (PutsCode self.now margin.now budget
            (for_ first.now.at (phrases first.now.index.items) (phrase start.now)
            (phrase condition.now)
            target.now.at (phrases target.now.index.items) (phrase step.now)
            (statements body.now) done)
            (string_bytes out.old) (string_bytes out.new)) }
    {
        let started = self.put_assign(out, margin, first, start)?;
        let inner = deeper(self.alloc, margin)?;
        let mut round = String::new(self.alloc);
        let turned = self.put_round(&mut round, inner.as_str(), budget, body)?;
        let stepped = self.put_assign(&mut round, inner.as_str(), target, step)?;
        let tested = self.put_loop(out, margin, condition, round.as_str())?;
        let turns = u64::max(u64::max(tested, turned), stepped);
        Ok(u64::max(started, turns))
    }

    /// Puts a turn and the lines of a loop's body after a text. Returns the number of their temps.
    #[cycle(statement)]
    fn put_round(
        &self,
        out: &mut String,
        margin: &str,
        budget: u32,
        body: &[Stmt],
    ) -> Result<u64, NoMemory>
        ensures lines { OnGiven result (string_bytes out.new ≡ string_bytes out.old
            ++ round_text self.now margin.now budget (statements body.now)) }
        ensures temps { IfGiven result (λ temps. temps ≡ temps_of (statements body.now)) }
    {
        put_turn(self.alloc, out, margin, budget, self.home)?;
        let temps = self.put_statements(out, margin, budget, body)?;
        Ok(temps)
    }

    /// Puts a loop of a condition around the lines of a round after a text. Returns the number of
    /// the condition's temps.
    fn put_loop(
        &self,
        out: &mut String,
        margin: &str,
        condition: &Expr,
        round: &str,
    ) -> Result<u64, NoMemory>
        ensures lines { OnGiven result (string_bytes out.new ≡ string_bytes out.old
            ++ loop_lines margin.now
            (front_text self.now (deeper margin.now) 0 (phrase condition.now))
            (test_of (value_of self.now 0 (phrase condition.now))) round.now) }
        ensures temps { IfGiven result (λ temps. temps ≡ next 0 (phrase condition.now)) }
    {
        let inner = deeper(self.alloc, margin)?;
        let mut before = String::new(self.alloc);
        let value = self.put_value(&mut before, inner.as_str(), 0, condition)?;
        let test = test_of(self.alloc, &value)?;
        put_loop(
            self.alloc,
            out,
            margin,
            before.as_str(),
            test.as_str(),
            round,
        )?;
        Ok(value.after)
    }

    /// Puts the lines of an assignment after a text: first the indices of the target, then the
    /// right side. Returns the number of its temps.
    fn put_assign(
        &self,
        out: &mut String,
        margin: &str,
        target: &Target,
        expr: &Expr,
    ) -> Result<u64, NoMemory>
        ensures lines { OnGiven result (string_bytes out.new ≡ string_bytes out.old
            ++ assign_text self.now margin.now target.now.at.name
            (phrases target.now.index.items) (phrase expr.now)) }
        ensures temps { IfGiven result (λ temps.
            temps ≡ assign_temps (phrases target.now.index.items) (phrase expr.now)) }
    {
        let name = &target.at.name;
        let spots = self.put_indices(out, margin, 0, self.sizes(name), &target.index)?;
        let value = self.put_value(out, margin, spots.after, expr)?;
        let place = self.element(name, &spots)?;
        let signed = signed_of(self.alloc, &value)?;
        put_set(self.alloc, out, margin, place.as_str(), signed.as_str())?;
        Ok(value.after)
    }
}
