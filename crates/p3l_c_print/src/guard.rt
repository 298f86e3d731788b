// Operators over their operands, and the lines before their use.

ghost use Rattle.std.specs.Prelude.{◌≡◌, ◌++◌, ◌+◌, ◌<◌, string_bytes};
ghost use Rattle.p3l_base.specs.Memory.{IfGiven, OnGiven};
ghost use Rattle.p3l_c.specs.Translate.{first_size, other_sizes};
ghost use Rattle.p3l_c_print.specs.Line.{set_line};
ghost use Rattle.p3l_c_print.specs.Text.{temp_text, spot_text};
ghost use Rattle.p3l_c_print.specs.Value.{signed_of, bound_line, divisor_tests, places_test, tests_text, guards_text, guarded_text, guarded, combined, combined_lines, undecided_lines};

use crate::count::sum;
use crate::line::{between, put_choice, put_stop};
use crate::names::{Names, literal};
use crate::operator::{Class, class_of, sign_of};
use crate::text::Text;
use crate::value::{Value, compared, computed, joined, number_value, put_temp, temp_text};
use p3l_ast::BinOp;
use p3l_base::{NoMemory, TrapKind};
use std::alloc::Global;

/// The first of sizes, and 0 if there is none.
pub fn first_size(sizes: &[u32]) -> u32
    ensures { result ≡ first_size sizes.now }
{
    match sizes {
        [] => 0,
        [size, ..] => *size,
    }
}

/// The sizes after the first.
pub fn other_sizes(sizes: &[u32]) -> &[u32]
    ensures { result.now ≡ other_sizes sizes.now }
{
    match sizes {
        [] => sizes,
        [_, rest @ ..] => rest,
    }
}

/// Puts a temp in brackets after a text.
pub fn put_spot(alloc: Global, text: &mut String, temp: u64) -> Result<(), NoMemory>
    ensures { OnGiven result (string_bytes text.new ≡ string_bytes text.old ++ spot_text temp) }
{
    let spot = format!(in alloc; "[t{temp}]")?;
    text.push_str(spot.as_str())?;
    Ok(())
}

impl Names<'_> {
    /// Puts the test of an index in a temp against its size after a text.
    fn put_bound(
        &self,
        out: &mut String,
        margin: &str,
        temp: u64,
        size: u32,
    ) -> Result<(), NoMemory>
        ensures { OnGiven result (string_bytes out.new
            ≡ string_bytes out.old ++ bound_line self.now margin.now temp size) }
    {
        let index = temp_text(self.alloc, temp)?;
        let zero = literal(self.alloc, 0)?;
        let size = literal(self.alloc, i64::from(size))?;
        let low = between(self.alloc, index.as_str(), " < ", zero.as_str())?;
        let high = between(self.alloc, size.as_str(), " <= ", index.as_str())?;
        let test = between(self.alloc, low.as_str(), " || ", high.as_str())?;
        put_stop(
            self.alloc,
            out,
            margin,
            test.as_str(),
            TrapKind::Index,
            self.home,
        )
    }

    /// Puts an index in a temp, and its test, after a text.
    #[tactic(auto, using(crate::proofs::Joined::then))]
    pub fn put_index(
        &self,
        out: &mut String,
        margin: &str,
        value: &Value,
        size: u32,
    ) -> Result<(), NoMemory>
        ensures { OnGiven result (string_bytes out.new ≡ string_bytes out.old
            ++ (set_line margin.now (temp_text value.now.after) (signed_of value.now)
            ++ bound_line self.now margin.now value.now.after size)) }
    {
        put_temp(self.alloc, out, margin, value.after, value)?;
        self.put_bound(out, margin, value.after, size)?;
        Ok(())
    }

    /// Puts the tests of a divisor in the second of two temps after a text.
    #[tactic(auto, using(crate::proofs::Joined::then))]
    fn put_divisor(
        &self,
        out: &mut String,
        margin: &str,
        first: &str,
        second: &str,
    ) -> Result<(), NoMemory>
        ensures { OnGiven result (string_bytes out.new ≡ string_bytes out.old
            ++ divisor_tests self.now margin.now first.now second.now) }
    {
        let zero = literal(self.alloc, 0)?;
        let test = between(self.alloc, second, " == ", zero.as_str())?;
        put_stop(
            self.alloc,
            out,
            margin,
            test.as_str(),
            TrapKind::DivZero,
            self.home,
        )?;
        let least = literal(self.alloc, i64::MIN)?;
        let minus = literal(self.alloc, -1)?;
        let left = between(self.alloc, first, " == ", least.as_str())?;
        let right = between(self.alloc, second, " == ", minus.as_str())?;
        let test = between(self.alloc, left.as_str(), " && ", right.as_str())?;
        put_stop(
            self.alloc,
            out,
            margin,
            test.as_str(),
            TrapKind::DivOver,
            self.home,
        )?;
        Ok(())
    }

    /// Puts the test of a number of places in a temp after a text.
    fn put_places(&self, out: &mut String, margin: &str, places: &str) -> Result<(), NoMemory>
        ensures { OnGiven result (string_bytes out.new ≡ string_bytes out.old
            ++ places_test self.now margin.now places.now) }
    {
        let zero = literal(self.alloc, 0)?;
        let most = literal(self.alloc, 63)?;
        let low = between(self.alloc, places, " < ", zero.as_str())?;
        let high = between(self.alloc, most.as_str(), " < ", places)?;
        let test = between(self.alloc, low.as_str(), " || ", high.as_str())?;
        put_stop(
            self.alloc,
            out,
            margin,
            test.as_str(),
            TrapKind::Shift,
            self.home,
        )
    }

    /// Puts the tests of an operator of two temps after a text.
    fn put_tests(
        &self,
        out: &mut String,
        margin: &str,
        op: BinOp,
        first: u64,
        second: u64,
    ) -> Result<(), NoMemory>
        requires { second ≡ first + 1 }
        ensures { OnGiven result (string_bytes out.new
            ≡ string_bytes out.old ++ tests_text op self.now margin.now first) }
    {
        let left = temp_text(self.alloc, first)?;
        let right = temp_text(self.alloc, second)?;
        match op {
            BinOp::Shl | BinOp::Shr => self.put_places(out, margin, right.as_str()),
            _ => self.put_divisor(out, margin, left.as_str(), right.as_str()),
        }
    }

    /// Puts both operands of a guarded operator in temps, and its tests, after a text.
    #[tactic(auto, using(crate::proofs::Joined::then))]
    fn put_guards(
        &self,
        out: &mut String,
        margin: &str,
        op: BinOp,
        left: &Value,
        right: &Value,
    ) -> Result<(), NoMemory>
        ensures { OnGiven result (string_bytes out.new ≡ string_bytes out.old
            ++ guards_text op self.now margin.now left.now right.now) }
    {
        let first = right.after;
        let second = sum(self.alloc, first, 1)?;
        put_temp(self.alloc, out, margin, first, left)?;
        put_temp(self.alloc, out, margin, second, right)?;
        self.put_tests(out, margin, op, first, second)?;
        Ok(())
    }

    /// A guarded operator of two temps.
    fn guarded_text(&self, op: BinOp, first: u64, second: u64) -> Result<Text, NoMemory>
        requires { second ≡ first + 1 }
        ensures { IfGiven result (λ text. text ≡ guarded_text op first) }
    {
        let alloc = self.alloc;
        match op {
            BinOp::Shl => Ok(Text::of(format!(in alloc;
                "p3l_signed(((uint64_t)t{first}) << t{second})"
            )?)),
            BinOp::Shr => Ok(Text::of(format!(in alloc; "p3l_shr(t{first}, t{second})")?)),
            _ => {
                let sign = sign_of(op);
                Ok(Text::of(format!(in alloc; "(t{first}{sign}t{second})")?))
            }
        }
    }

    /// A guarded operator.
    fn guarded(&self, op: BinOp, right: &Value) -> Result<Value, NoMemory>
        ensures { IfGiven result (λ it. it ≡ guarded op right.now) }
    {
        let second = sum(self.alloc, right.after, 1)?;
        let after = sum(self.alloc, right.after, 2)?;
        let text = self.guarded_text(op, right.after, second)?;
        Ok(number_value(text, after, 1))
    }

    /// An operator over its operands: the lines before its use are put after a text.
    pub fn combined(
        &self,
        out: &mut String,
        margin: &str,
        op: BinOp,
        left: &Value,
        right: &Value,
    ) -> Result<Value, NoMemory>
        requires left { left.now.height < 16 }
        requires right { right.now.height < 16 }
        ensures lines { OnGiven result (string_bytes out.new ≡ string_bytes out.old
            ++ combined_lines op self.now margin.now left.now right.now) }
        ensures value { IfGiven result (λ it. it ≡ combined op left.now right.now) }
    {
        match class_of(op) {
            Class::Short => joined(self.alloc, op, left, right),
            Class::Compared => compared(self.alloc, op, left, right),
            Class::Computed => computed(self.alloc, op, left, right),
            Class::Guarded => {
                self.put_guards(out, margin, op, left, right)?;
                self.guarded(op, right)
            }
        }
    }

    /// Puts the lines of a right operand of `||` or `&&` that is needed after a text.
    pub fn put_undecided(
        &self,
        out: &mut String,
        margin: &str,
        op: BinOp,
        temp: u64,
        inner: &str,
    ) -> Result<(), NoMemory>
        ensures { OnGiven result (string_bytes out.new ≡ string_bytes out.old
            ++ undecided_lines op margin.now temp inner.now) }
    {
        let place = temp_text(self.alloc, temp)?;
        let zero = literal(self.alloc, 0)?;
        let test = between(self.alloc, place.as_str(), " != ", zero.as_str())?;
        match op {
            BinOp::Or => put_choice(self.alloc, out, margin, test.as_str(), "", inner),
            _ => put_choice(self.alloc, out, margin, test.as_str(), inner, ""),
        }
    }
}
