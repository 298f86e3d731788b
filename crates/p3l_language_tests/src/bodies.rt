// Small bodies whose ends are known by hand.

use p3l_ast::meaning::{Binding, Stop, Valuation, has_sizes, run_statements};
use p3l_ast::{BinOp, Expr, Pos, Spot, Stmt, Target};
use p3l_base::{List, Name, NoMemory, TrapKind, Words};
use std::alloc::Global;
use std::test::*;

/// The end of a body: its `s` and the number of turns that its loops began, or the trap.
type End = Result<(i64, u32), TrapKind>;

/// Makes statements and the valuations that they start in.
#[derive(Clone, Copy)]
struct Maker {
    alloc: Global,
}

impl Maker {
    fn spot(&self, name: &str) -> Result<Spot, NoMemory> {
        Ok(Spot {
            name: Name::from_text(self.alloc, name)?,
            pos: Pos { line: 1, col: 1 },
        })
    }

    fn scalar(&self, name: &str) -> Result<Target, NoMemory> {
        Ok(Target {
            at: self.spot(name)?,
            index: Vec::new(self.alloc),
        })
    }

    fn element(&self, name: &str, index: Expr) -> Result<Target, NoMemory> {
        Ok(Target {
            at: self.spot(name)?,
            index: vec![in self.alloc; index]?,
        })
    }

    fn read(&self, name: &str) -> Result<Expr, NoMemory> {
        Ok(Expr::Read(self.scalar(name)?))
    }

    fn op(&self, left: Expr, op: BinOp, right: Expr) -> Result<Expr, NoMemory> {
        Ok(Expr::Binary(
            op,
            Box::new(self.alloc, left)?,
            Box::new(self.alloc, right)?,
        ))
    }

    /// An operator between a scalar and a number.
    fn with(&self, name: &str, op: BinOp, number: i64) -> Result<Expr, NoMemory> {
        self.op(self.read(name)?, op, Expr::Number(number))
    }

    /// name = name + number;
    fn add(&self, name: &str, number: i64) -> Result<Stmt, NoMemory> {
        Ok(Stmt::Assign(self.scalar(name)?, self.with(name, BinOp::Add, number)?))
    }

    /// for (name = 0; name < end; name = name + 1) { body }
    fn count(&self, name: &str, end: i64, body: Vec<Stmt>) -> Result<Stmt, NoMemory> {
        Ok(Stmt::For(
            self.scalar(name)?,
            Expr::Number(0),
            self.with(name, BinOp::Lt, end)?,
            self.scalar(name)?,
            self.with(name, BinOp::Add, 1)?,
            body,
        ))
    }

    fn binding(&self, name: &str, sizes: &[u32], words: &[i64]) -> Result<Binding, NoMemory> {
        Ok(Binding {
            name: Name::from_text(self.alloc, name)?,
            sizes: List::from_vec(sizes.to_vec(self.alloc)?),
            words: Words::from_vec(words.to_vec(self.alloc)?),
        })
    }

    /// The scalars i, j and s, which are 0, and a[4], which is 1, 2, 3, 4.
    fn start(&self) -> Result<Valuation, NoMemory> {
        let mut bindings = List::new(self.alloc);
        for name in ["i", "j", "s"] {
            bindings.push(self.binding(name, &[], &[0])?)?;
        }
        bindings.push(self.binding("a", &[4], &[1, 2, 3, 4])?)?;
        Ok(Valuation { bindings, turns: 0 })
    }

    /// The list of one statement.
    fn alone(&self, stmt: Stmt) -> Result<Vec<Stmt>, NoMemory> {
        Ok(vec![in self.alloc; stmt]?)
    }

    /// The list of two statements.
    fn pair(&self, first: Stmt, second: Stmt) -> Result<Vec<Stmt>, NoMemory> {
        Ok(vec![in self.alloc; first, second]?)
    }

    /// s = s + i;
    fn add_i(&self) -> Result<Stmt, NoMemory> {
        let sum = self.op(self.read("s")?, BinOp::Add, self.read("i")?)?;
        Ok(Stmt::Assign(self.scalar("s")?, sum))
    }

    /// while (i < 10) { i = i + 1; s = s + i; }
    fn sum(&self) -> Result<Vec<Stmt>, NoMemory> {
        let body = self.pair(self.add("i", 1)?, self.add_i()?)?;
        self.alone(Stmt::While(self.with("i", BinOp::Lt, 10)?, body))
    }

    /// for (i = 0; i < 3; i = i + 1) { for (j = 0; j < 4; j = j + 1) { s = s + 1; } }
    fn nested(&self) -> Result<Vec<Stmt>, NoMemory> {
        let inner = self.count("j", 4, self.alone(self.add("s", 1)?)?)?;
        self.alone(self.count("i", 3, self.alone(inner)?)?)
    }

    /// 1 / 0
    fn broken(&self) -> Result<Expr, NoMemory> {
        self.op(Expr::Number(1), BinOp::Div, Expr::Number(0))
    }

    /// s = 1 / 0;
    fn breaks(&self) -> Result<Stmt, NoMemory> {
        Ok(Stmt::Assign(self.scalar("s")?, self.broken()?))
    }

    /// if (s == number) { s = 1 / 0; } else { s = s + 7; }
    fn branches(&self, number: i64) -> Result<Vec<Stmt>, NoMemory> {
        let then = self.alone(self.breaks()?)?;
        let otherwise = self.alone(self.add("s", 7)?)?;
        let condition = self.with("s", BinOp::Eq, number)?;
        self.alone(Stmt::If(condition, then, Some(otherwise)))
    }

    /// if (s == number) { s = s + 1; } s = s + 2;
    fn no_else(&self, number: i64) -> Result<Vec<Stmt>, NoMemory> {
        let then = self.alone(self.add("s", 1)?)?;
        let branch = Stmt::If(self.with("s", BinOp::Eq, number)?, then, None);
        self.pair(branch, self.add("s", 2)?)
    }

    /// a[s] = 0;
    fn clear(&self) -> Result<Stmt, NoMemory> {
        let target = self.element("a", self.read("s")?)?;
        Ok(Stmt::Assign(target, Expr::Number(0)))
    }

    /// while (1) { s = s + 1; a[s] = 0; }
    fn runs_off(&self) -> Result<Vec<Stmt>, NoMemory> {
        let body = self.pair(self.add("s", 1)?, self.clear()?)?;
        self.alone(Stmt::While(Expr::Number(1), body))
    }

    /// while (1 / 0) { }
    fn broken_condition(&self) -> Result<Vec<Stmt>, NoMemory> {
        self.alone(Stmt::While(self.broken()?, Vec::new(self.alloc)))
    }

    /// a[i]
    fn front(&self) -> Result<Target, NoMemory> {
        self.element("a", self.read("i")?)
    }

    /// a[3 - i]
    fn mirror(&self) -> Result<Target, NoMemory> {
        let index = self.op(Expr::Number(3), BinOp::Sub, self.read("i")?)?;
        self.element("a", index)
    }

    /// s = a[i];
    fn keep(&self) -> Result<Stmt, NoMemory> {
        Ok(Stmt::Assign(self.scalar("s")?, Expr::Read(self.front()?)))
    }

    /// a[i] = a[3 - i];
    fn copy(&self) -> Result<Stmt, NoMemory> {
        Ok(Stmt::Assign(self.front()?, Expr::Read(self.mirror()?)))
    }

    /// a[3 - i] = s;
    fn put_back(&self) -> Result<Stmt, NoMemory> {
        Ok(Stmt::Assign(self.mirror()?, self.read("s")?))
    }

    /// s = a[i]; a[i] = a[3 - i]; a[3 - i] = s;
    fn swap(&self) -> Result<Vec<Stmt>, NoMemory> {
        let mut stmts = self.pair(self.keep()?, self.copy()?)?;
        stmts.push(self.put_back()?)?;
        Ok(stmts)
    }

    fn body(&self, body: Body) -> Result<Vec<Stmt>, NoMemory> {
        match body {
            Body::Sum => self.sum(),
            Body::Nested => self.nested(),
            Body::Branches(number) => self.branches(number),
            Body::NoElse(number) => self.no_else(number),
            Body::RunsOff => self.runs_off(),
            Body::BrokenCondition => self.broken_condition(),
        }
    }

    /// Tells whether statements come to this end within a budget of turns.
    fn ends(&self, stmts: &[Stmt], budget: u32, end: End) -> Result<bool, NoMemory> {
        let valuation = self.start()?;
        if !has_sizes(&valuation) {
            return Ok(false);
        }
        let name = Name::from_text(self.alloc, "s")?;
        match run_statements(self.alloc, budget, stmts, valuation) {
            Ok(valuation) => Ok(end == Ok((valuation.word(&name, 0), valuation.turns))),
            Err(Stop::Trapped(trap)) => Ok(end == Err(trap)),
            Err(Stop::NoMemory) => Err(NoMemory),
        }
    }
}

/// The bodies that a maker makes under these names.
#[derive(Clone, Copy, Drop)]
enum Body {
    Sum,
    Nested,
    Branches(i64),
    NoElse(i64),
    RunsOff,
    BrokenCondition,
}

/// Bodies, with their budgets of turns and their ends.
const CASES: [(&str, Body, u32, End); 11] = [
    ("all turns", Body::Sum, 10, Ok((55, 10))),
    ("a turn too few", Body::Sum, 9, Err(TrapKind::Budget)),
    ("loops share turns", Body::Nested, 15, Ok((12, 15))),
    ("inner turns count", Body::Nested, 14, Err(TrapKind::Budget)),
    (
        "the first way",
        Body::Branches(0),
        0,
        Err(TrapKind::DivZero),
    ),
    ("the other way", Body::Branches(1), 0, Ok((7, 0))),
    ("no other way", Body::NoElse(1), 0, Ok((2, 0))),
    ("one way", Body::NoElse(0), 0, Ok((3, 0))),
    ("past the array", Body::RunsOff, 9, Err(TrapKind::Index)),
    ("the budget first", Body::RunsOff, 3, Err(TrapKind::Budget)),
    (
        "the condition first",
        Body::BrokenCondition,
        0,
        Err(TrapKind::DivZero),
    ),
];

#[test]
fn bodies_end_as_known(rt: HostRuntime) -> Result<(), Fail> {
    let maker = Maker { alloc: rt.alloc() };
    for (name, body, budget, end) in CASES {
        let stmts = maker.body(body)?;
        assert!(rt; maker.ends(&stmts, budget, end)?, "{name}");
    }
    Ok(())
}

#[test]
fn an_array_is_reversed(rt: HostRuntime) -> Result<(), Fail> {
    let maker = Maker { alloc: rt.alloc() };
    let reverse = vec![in rt.alloc(); maker.count("i", 2, maker.swap()?)?]?;
    let valuation = maker.start()?;
    assert!(rt; has_sizes(&valuation));
    let name = Name::from_text(rt.alloc(), "a")?;
    match run_statements(rt.alloc(), 2, &reverse, valuation) {
        Ok(valuation) => {
            let words = [0, 1, 2, 3].map(|place| valuation.word(&name, place));
            assert!(rt; words == [4, 3, 2, 1]);
        }
        Err(stop) => panic!(rt; "{stop:?}"),
    }
    Ok(())
}
