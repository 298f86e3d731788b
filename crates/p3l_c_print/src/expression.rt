// Expressions, and the lines before their use.

ghost use Rattle.std.specs.Prelude.{◌≡◌, ◌++◌, ◌<◌, IfOk, true, false, string_bytes};
ghost use Rattle.p3l_base.specs.Memory.{IfGiven, OnGiven};
ghost use Rattle.p3l_ast.specs.Tree.{phrase, phrases, read, binary};
ghost use Rattle.p3l_c.specs.Translate.{is_steady};
ghost use Rattle.p3l_c_print.specs.Name.{name_text};
ghost use Rattle.p3l_c_print.specs.Value.{PutsValue, index_text, spots_of, operand_of, operand_text, own_temp, truth_text};

use crate::count::sum;
use crate::guard::{first_size, other_sizes, put_spot};
use crate::line::deeper;
use crate::names::{Names, literal};
use crate::plain::has_own_temp;
use crate::text::Text;
use crate::value::{Spots, Value, applied, decided, kept, number_value, put_truth};
use p3l_ast::{BinOp, Expr, Target};
use p3l_base::{Name, NoMemory};

impl Names<'_> {
    /// The value of an expression whose first temp is `first`; the lines before its use are put
    /// after a text.
    #[cycle(expression)]
    pub fn put_value(
        &self,
        out: &mut String,
        margin: &str,
        first: u64,
        expr: &Expr,
    ) -> Result<Value, NoMemory>
        ensures { IfGiven result (PutsValue self.now margin.now first (phrase expr.now)
            (string_bytes out.old) (string_bytes out.new)) }
    {
        match expr {
            Expr::Number(number) => Ok(number_value(literal(self.alloc, *number)?, first, 0)),
            Expr::Read(target) => self.put_read(out, margin, first, target),
            Expr::Unary(op, operand) => {
                let value = self.put_operand(out, margin, first, operand)?;
                applied(self.alloc, *op, &value)
            }
            Expr::Binary(op, left, right) => {
                self.put_binary(out, margin, first, *op, left, right)
            }
        }
    }

    /// The value of a variable, an element or a constant; the lines before its use are put after a
    /// text.
    #[cycle(expression)]
    fn put_read(
        &self,
        out: &mut String,
        margin: &str,
        first: u64,
        target: &Target,
    ) -> Result<Value, NoMemory>
        ensures { IfGiven result (PutsValue self.now margin.now first
            (read target.now.at (phrases target.now.index.items))
            (string_bytes out.old) (string_bytes out.new)) }
    {
        let sizes = self.sizes(&target.at.name);
        let spots = self.put_indices(out, margin, first, sizes, target.index.as_slice())?;
        let text = self.element(&target.at.name, &spots)?;
        Ok(number_value(text, spots.after, 0))
    }

    /// An object before the temps of its indices.
    pub fn element(&self, name: &Name, spots: &Spots) -> Result<Text, NoMemory>
        ensures { IfGiven result (λ text. text ≡ name_text self.now name.now ++ spots.now.text) }
    {
        let object = self.object(name)?;
        let (object, index) = (object.as_str(), spots.text.as_str());
        Ok(Text::of(format!(in self.alloc; "{object}{index}")?))
    }

    /// The temps of the indices of an element; the lines before its use are put after a text.
    #[cycle(expression)]
    pub fn put_indices(
        &self,
        out: &mut String,
        margin: &str,
        first: u64,
        sizes: &[u32],
        index: &[Expr],
    ) -> Result<Spots, NoMemory>
        ensures lines { OnGiven result (string_bytes out.new ≡ string_bytes out.old
            ++ index_text self.now margin.now first sizes.now (phrases index.now)) }
        ensures spots { IfGiven result (λ it. it ≡ spots_of first (phrases index.now)) }
    {
        let mut text = String::new(self.alloc);
        let mut after = first;
        let mut rest = sizes;
        for expr in index {
            let value = self.put_value(out, margin, after, expr)?;
            self.put_index(out, margin, &value, first_size(rest))?;
            put_spot(self.alloc, &mut text, value.after)?;
            after = sum(self.alloc, value.after, 1)?;
            rest = other_sizes(rest);
        }
        Ok(Spots {
            text: Text::of(text),
            after,
        })
    }

    /// The value of an operand, which is kept in a temp if it nests deep; the lines before its use
    /// are put after a text.
    #[cycle(expression)]
    fn put_operand(
        &self,
        out: &mut String,
        margin: &str,
        first: u64,
        expr: &Expr,
    ) -> Result<Value, NoMemory>
        ensures lines { OnGiven result (string_bytes out.new
            ≡ string_bytes out.old ++ operand_text self.now margin.now first (phrase expr.now)) }
        ensures value { IfGiven result (λ it. it ≡ operand_of self.now first (phrase expr.now)) }
        ensures small { IfOk result (λ it. it.height < 16) }
    {
        let value = self.put_value(out, margin, first, expr)?;
        kept(self.alloc, out, margin, value)
    }

    /// The value of an operand; the lines that give a temp its truth are put after a text.
    #[cycle(expression)]
    fn put_truth_of(
        &self,
        out: &mut String,
        margin: &str,
        temp: u64,
        first: u64,
        expr: &Expr,
    ) -> Result<Value, NoMemory>
        ensures lines { OnGiven result (string_bytes out.new
            ≡ string_bytes out.old ++ truth_text self.now margin.now temp first (phrase expr.now)) }
        ensures value { IfGiven result (λ it. it ≡ operand_of self.now first (phrase expr.now)) }
        ensures small { IfOk result (λ it. it.height < 16) }
    {
        let value = self.put_operand(out, margin, first, expr)?;
        put_truth(self.alloc, out, margin, temp, &value)?;
        Ok(value)
    }

    /// The value of an operator between its operands; the lines before its use are put after a
    /// text.
    #[cycle(expression)]
    fn put_binary(
        &self,
        out: &mut String,
        margin: &str,
        first: u64,
        op: BinOp,
        left: &Expr,
        right: &Expr,
    ) -> Result<Value, NoMemory>
        ensures { IfGiven result (PutsValue self.now margin.now first
            (binary op (phrase left.now) (phrase right.now))
            (string_bytes out.old) (string_bytes out.new)) }
    {
        if has_own_temp(op, right) {
            return self.put_decided(out, margin, first, op, left, right);
        }
        self.put_combined(out, margin, first, op, left, right)
    }

    /// The value of an operator whose operands are both evaluated before it; the lines before its
    /// use are put after a text.
    #[cycle(expression)]
    fn put_combined(
        &self,
        out: &mut String,
        margin: &str,
        first: u64,
        op: BinOp,
        left: &Expr,
        right: &Expr,
    ) -> Result<Value, NoMemory>
        requires { own_temp op (is_steady (phrase right.now)) ≡ false }
        ensures { IfGiven result (PutsValue self.now margin.now first
            (binary op (phrase left.now) (phrase right.now))
            (string_bytes out.old) (string_bytes out.new)) }
    {
        let one = self.put_operand(out, margin, first, left)?;
        let two = self.put_operand(out, margin, one.after, right)?;
        self.combined(out, margin, op, &one, &two)
    }

    /// The value of `||` or `&&` before whose right operand lines stand: these are put in a choice,
    /// so they only run where the left operand does not decide.
    #[cycle(expression)]
    fn put_decided(
        &self,
        out: &mut String,
        margin: &str,
        first: u64,
        op: BinOp,
        left: &Expr,
        right: &Expr,
    ) -> Result<Value, NoMemory>
        requires { own_temp op (is_steady (phrase right.now)) ≡ true }
        ensures { IfGiven result (PutsValue self.now margin.now first
            (binary op (phrase left.now) (phrase right.now))
            (string_bytes out.old) (string_bytes out.new)) }
    {
        let start = sum(self.alloc, first, 1)?;
        let one = self.put_truth_of(out, margin, first, start, left)?;
        let mut inner = String::new(self.alloc);
        let inside = deeper(self.alloc, margin)?;
        let two = self.put_truth_of(&mut inner, inside.as_str(), first, one.after, right)?;
        self.put_undecided(out, margin, op, first, inner.as_str())?;
        decided(self.alloc, first, &one, &two)
    }
}
