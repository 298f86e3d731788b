// The first faults of the arguments of calls, with their places.

ghost use Rattle.std.specs.Prelude.{◌≡◌, [], IfOk};
ghost use Rattle.p3l_calls.specs.Port.{AreSized};

use p3l_ast::{Call, Entry, Fault, Inside, Kind, Module, Program, SourceRefusal};
use p3l_base::{List, Name};
use p3l_body::{Ports, Var, Variables, ports_of};
use p3l_calls::{check_condition, check_plain_call, check_stage, cut_of, elements_of};
use p3l_reader::read;
use p3l_types::Consts;
use std::alloc::{AllocError, Global};
use std::process::Abort;
use std::test::Fail;

/// The text before the callers.
const HEAD: &str = "const N = 3; \
seq one in(int x) out(int y) ${ y = x; }$ end seq \
seq two in(int x, int y) out(int z) ${ z = x + y; }$ end seq \
seq pair in(int x) out(int y, int z) ${ y = x; }$ end seq \
seq swap in(int x, int y) out(int z, int w) ${ z = y; }$ end seq \
seq row in(int a[N]) out(int b[N]) ${ b[0] = a[0]; }$ end seq \
seq rows in(int a[N], int b[N]) out(int c[N]) ${ c[0] = a[0]; }$ end seq \
seq sum in(int a[N]) out(int s) ${ s = a[0]; }$ end seq \
seq dot in(int a[2], int b[2]) out(int c) ${ c = a[0] * b[0]; }$ end seq";

/// A number with a caller in line 2: its first fault, which stands where `^` is, and 0 where there is none.
const FARMS: &str = "0 | farm m in(int x) out(int y) one in(x) out(y) end farm
0 | farm m in(int x[N]) out(int y[3]) row in(x) out(y) end farm
25 | farm m in(int x) out(int y) one in(^y) out(y) end farm
25 | farm m in(int x) out(int y) one in(x) out(^x) end farm
25 | farm m in(int x) out(int y) one in(x) out(int ^y) end farm
25 | farm m in(int x[3]) out(int y[3]) row in(^x[]) out(y) end farm
25 | farm m in(int x[3]) out(int y[3]) row in(x) out(^y[*i]) end farm
25 | farm m in(int x, int z) out(int y) ^one in(x) out(y) end farm
25 | farm m in(int x) out(int y) two in(x, ^x) out(y) end farm
25 | farm m in(int x) out(int y, int z) ^one in(x) out(y) end farm
25 | farm m in(int x) out(int y) pair in(x) out(y, ^y) end farm
24 | farm m in(int x[3]) out(int y) one in(^x) out(y) end farm
24 | farm m in(int x[2]) out(int y[3]) row in(^x) out(y) end farm
24 | farm m in(int x) out(int y[3]) one in(x) out(^y) end farm
25 | farm m in(int x[3]) out(int y) one in(^y) out(y) end farm
24 | farm m in(int x[3], int z) out(int y) two in(^x, w) out(y) end farm
24 | farm m in(int x[3]) out(int y) one in(^x) out(z) end farm
25 | farm m in(int x, int z) out(int y) ^one in(x) out(z) end farm";

const CHAINS: &str = "0 | pipe m in(int x) out(int y) one in(x) out(y) end pipe
0 | pipe m in(int x) out(int y) one in(x) out(int z) one in(z) out(y) end pipe
0 | pipe m in(int x) out(int y) pair in(x) out(int a, int b) two in(a, b) out(y) end pipe
0 | comp m in(int x) out(int y) one in(x) out(int z) one in(z) out(y) end comp
25 | comp m in(int x) out(int y) one in(^y) out(y) end comp
25 | pipe m in(int x) out(int y) pair in(x) out(int a, int b) two in(^b, a) out(y) end pipe
25 | pipe m in(int x) out(int y) one in(x) out(int z) one in(^x) out(y) end pipe
25 | pipe m in(int x) out(int y) one in(x) out(^y) one in(y) out(y) end pipe
25 | pipe m in(int x) out(int y) one in(x) out(int z) one in(z) out(int ^w) end pipe
25 | pipe m in(int x) out(int y) pair in(x) out(int a, int b) ^one in(a) out(y) end pipe
25 | pipe m in(int x) out(int y) one in(x) out(int a) two in(a, ^a) out(y) end pipe
10 | pipe m in(int x) out(int y[3]) one in(x) out(int z[^K]) row in(z) out(y) end pipe
11 | pipe m in(int x) out(int y[3]) one in(x) out(int z[^0]) row in(z) out(y) end pipe
12 | pipe m in(int x) out(int y[3]) one in(x) out(int ^z[256][257]) row in(z) out(y) end pipe
12 | pipe m in(int x) out(int y) pair in(x) out(int a, int ^b[65536]) two in(a, b) out(y) end pipe
20 | pipe m in(int x) out(int y) one in(x) out(int ^x) one in(x) out(y) end pipe
20 | pipe m in(int x) out(int y) one in(x) out(int ^y) one in(y) out(y) end pipe
20 | pipe m in(int x) out(int y) one in(x) out(int ^N) one in(N) out(y) end pipe
20 | pipe m in(int x) out(int y) pair in(x) out(int a, int ^a) two in(a, a) out(y) end pipe
20 | pipe m in(int x) out(int y) one in(x) out(int z) one in(z) out(int ^z) one in(z) out(y) end pipe
20 | pipe m in(int x) out(int y) one in(x) out(int ^x[3]) one in(x) out(y) end pipe
24 | pipe m in(int x) out(int y) one in(x) out(int ^z[3]) one in(z) out(y) end pipe
24 | pipe m in(int x) out(int y) pair in(x) out(int ^a[3], y) two in(a, b) out(y) end pipe
24 | pipe m in(int x[3]) out(int y) one in(^x) out(int x) one in(x) out(y) end pipe";

const LOOPS: &str =
    "0 | loop m in(int x) out(int y) turns 3 one in(x) out(y) while one in(y) out(int c) end loop
0 | loop m in(int x[3]) out(int y[3]) turns 3 row in(x) out(y) while sum in(y) out(int x1) end loop
25 | loop m in(int x) out(int y) turns 3 one in(^y) out(y) while one in(y) out(int c) end loop
25 | loop m in(int x) out(int y) turns 3 one in(x) out(int ^z) while one in(z) out(int c) end loop
25 | loop m in(int x) out(int y) turns 3 one in(x) out(y) while one in(^x) out(int c) end loop
25 | loop m in(int x, int w) out(int y, int z) turns 3 swap in(x, w) out(y, z) while ^one in(y) out(int c) end loop
24 | loop m in(int x[3]) out(int y[3]) turns 3 row in(x) out(y) while one in(^y) out(c) end loop
29 | loop m in(int x[3]) out(int y[3]) turns 3 row in(x) out(y) while ^row in(y) out(int c) end loop
29 | loop m in(int x) out(int y) turns 3 one in(x) out(y) while ^one in(y) out(int c[3]) end loop
29 | loop m in(int x) out(int y) turns 3 one in(x) out(y) while ^one in(y) out(int y[K]) end loop
29 | loop m in(int x) out(int y) turns 3 one in(x) out(y) while ^one in(y) out(y) end loop
29 | loop m in(int x) out(int y) turns 3 one in(x) out(y) while ^pair in(y) out(int c, int d) end loop
20 | loop m in(int x) out(int y) turns 3 one in(x) out(y) while one in(y) out(int ^y) end loop
20 | loop m in(int x) out(int y) turns 3 one in(x) out(y) while one in(y) out(int ^N) end loop";

const MAPS: &str = "0 | map m in(int a[3]) out(int b[3]) one in(a[*i]) out(b[*i]) end map
0 | map m in(int a[2][2], int b[2][2]) out(int c[2][2]) dot in(a[*i][], b[][*j]) out(c[*i][*j]) end map
0 | map m in(int a[2][3]) out(int b[3][2]) one in(a[*j][*i]) out(b[*i][*j]) end map
0 | map m in(int w[3]) out(int b[2][3]) row in(w) out(b[*i][]) end map
0 | map m in(int a[2]) out(int b[2]) two in(a[*i], a[*i]) out(b[*i]) end map
0 | map m in(int a[2][3]) out(int b[2][3], int c[3][2]) pair in(a[*i][*j]) out(b[*i][*j], c[*j][*i]) end map
25 | map m in(int a[3]) out(int b[3]) one in(a[*i]) out(^a[*i]) end map
25 | map m in(int a[3]) out(int b[3]) one in(a[*i]) out(int ^b) end map
25 | map m in(int a[3]) out(int b[3], int c[3]) ^one in(a[*i]) out(b[*i]) end map
25 | map m in(int a[3]) out(int b[3]) pair in(a[*i]) out(b[*i], ^b[*i]) end map
24 | map m in(int a[3]) out(int b[3]) one in(a[*i]) out(^b) end map
24 | map m in(int a[3]) out(int b[3]) one in(a[*i]) out(^b[*i][]) end map
26 | map m in(int a[3]) out(int b[3]) row in(a) out(^b[]) end map
26 | map m in(int a) out(int b) one in(a) out(^b) end map
26 | map m in(int a[2]) out(int b[2][2][2]) one in(a[*i]) out(^b[*i][*j][*k]) end map
26 | map m in(int a[2]) out(int b[2][2]) one in(a[*i]) out(^b[*i][*i]) end map
26 | map m in(int a[3]) out(int b[3], int c[3]) pair in(a[*i]) out(b[*i], ^c[*j]) end map
26 | map m in(int a[3]) out(int b[3], int c[3][3]) pair in(a[*i]) out(b[*i], ^c[*i][*j]) end map
26 | map m in(int a[3]) out(int b[3], int c[2]) pair in(a[*i]) out(b[*i], c[*^i]) end map
24 | map m in(int a[3]) out(int b[3][3]) one in(a[*i]) out(^b[*i][]) end map
24 | map m in(int a[3]) out(int b[3]) one in(z[*k]) out(^b) end map
25 | map m in(int a[3]) out(int b[3], int c[3]) ^one in(z[*i]) out(b[*i]) end map
25 | map m in(int a[3]) out(int b[3]) one in(^z[*i]) out(b[*i]) end map
25 | map m in(int a[3]) out(int b[3]) one in(^b[*i]) out(b[*i]) end map
24 | map m in(int a[3]) out(int b[3]) one in(^a[*i][*k]) out(b[*i]) end map
24 | map m in(int s) out(int b[3]) one in(^s[*i]) out(b[*i]) end map
26 | map m in(int a[3]) out(int b[3]) one in(a[*^k]) out(b[*i]) end map
26 | map m in(int a[2][2]) out(int b[2]) one in(a[*i][*^i]) out(b[*i]) end map
26 | map m in(int a[2]) out(int b[3]) one in(a[*^i]) out(b[*i]) end map
26 | map m in(int a[2][2]) out(int b[3]) one in(a[*i][*^k]) out(b[*i]) end map
26 | map m in(int a[2][3]) out(int b[3][2]) one in(a[*^i][*j]) out(b[*i][*j]) end map
24 | map m in(int a[3]) out(int b[3]) sum in(^a[*i]) out(b[*i]) end map
24 | map m in(int w[2]) out(int b[3]) sum in(^w) out(b[*i]) end map
24 | map m in(int a[3]) out(int b[3]) two in(^a, z) out(b[*i]) end map";

const REDUCES: &str = "0 | reduce m in(int a[5]) out(int s) two in(a[*i]) out(s) end reduce
0 | reduce m in(int a[5][3]) out(int s[3]) rows in(a[*i][]) out(s) end reduce
27 | reduce ^m in(int x) out(int s) two in(x) out(s) end reduce
27 | reduce ^m in(int a[5], int b) out(int s) two in(z) out(s) end reduce
27 | reduce ^m in(int a[5]) out(int s, int t) two in(z) out(s) end reduce
26 | reduce m in(int a[5]) out(int s) two in(^s[*i]) out(z) end reduce
26 | reduce m in(int a[5]) out(int s) two in(^a) out(s) end reduce
26 | reduce m in(int a[5]) out(int s) two in(^a[]) out(s) end reduce
26 | reduce m in(int a[5]) out(int s) two in(^a[*i][]) out(s) end reduce
26 | reduce m in(int a[5][3]) out(int s[3]) rows in(^a[][*i]) out(s) end reduce
26 | reduce m in(int a[5][3]) out(int s[3]) rows in(^a[*i][*j]) out(s) end reduce
25 | reduce m in(int a[5]) out(int s) two in(a[*i]) out(^a) end reduce
25 | reduce m in(int a[5]) out(int s) two in(a[*i]) out(int ^s) end reduce
25 | reduce m in(int a[5]) out(int s) two in(a[*i]) out(^s[]) end reduce
27 | reduce m in(int a[5][3]) out(int s) ^two in(a[*i][]) out(s) end reduce
27 | reduce m in(int a[5]) out(int s[3]) ^two in(a[*i]) out(s) end reduce
27 | reduce m in(int a[5][2]) out(int s[2]) ^dot in(a[*i][]) out(s) end reduce";

/// The context in which calls are checked: a program, and the constants that stand before.
#[derive(Clone, Copy)]
struct Context<'p> {
    alloc: Global,
    program: &'p Program,
    consts: &'p Consts,
}

impl<'p> Context<'p> {
    /// The ports of a module, whose names then stand in the empty scope.
    fn ports(&self, scope: &mut Variables, module: &Module) -> Result<Ports, SourceRefusal>
        requires { scope.old ≡ [] }
        ensures ins { IfOk result (λ ports. AreSized ports.ins) }
        ensures outs { IfOk result (λ ports. AreSized ports.outs) }
    {
        let (ins, outs) = (module.ins.as_slice(), module.outs.as_slice());
        ports_of(self.alloc, self.consts, scope, ins, outs)
    }

    /// The ports of the module of this name.
    fn callee(&self, name: &Name) -> Result<Ports, SourceRefusal> {
        for entry in self.program.entries.as_slice() {
            if let Entry::Module(module) = entry {
                if module.at.name == *name {
                    return self.ports(&mut Variables::new(self.alloc), module);
                }
            }
        }
        Err(SourceRefusal::At {
            fault: Fault::UnknownName,
            pos: self.program.end,
        })
    }

    /// A call that is handed variables and fills others.
    fn check_plain(&self, taken: &[Var], filled: &[Var], call: &Call) -> Result<(), SourceRefusal> {
        let callee = self.callee(&call.at.name)?;
        check_plain_call(taken, filled, &callee, call)
    }

    /// A call of a chain that another follows; gives what that one takes.
    fn check_next(
        &self,
        scope: &mut Variables,
        taken: &[Var],
        call: &Call,
    ) -> Result<List<Var>, SourceRefusal> {
        let callee = self.callee(&call.at.name)?;
        check_stage(self.alloc, self.consts, scope, taken, &callee, call)
    }

    /// The calls of a chain before the last one; gives what that one takes.
    fn check_stages(
        &self,
        scope: &mut Variables,
        ins: List<Var>,
        calls: &[Call],
    ) -> Result<List<Var>, SourceRefusal> {
        let mut taken = ins;
        for call in calls {
            taken = self.check_next(scope, taken.as_slice(), call)?;
        }
        Ok(taken)
    }

    /// The calls of a pipe or a comp.
    fn check_chain(
        &self,
        module: &Module,
        stages: &[Call],
        last: &Call,
    ) -> Result<(), SourceRefusal> {
        let mut scope = Variables::new(self.alloc);
        let Ports { ins, outs } = self.ports(&mut scope, module)?;
        let taken = self.check_stages(&mut scope, ins, stages)?;
        self.check_plain(taken.as_slice(), outs.as_slice(), last)
    }

    /// The condition of a loop that gives these variables.
    fn check_test(
        &self,
        scope: &Variables,
        loop_outs: &[Var],
        call: &Call,
    ) -> Result<(), SourceRefusal> {
        let callee = self.callee(&call.at.name)?;
        check_condition(self.alloc, self.consts, scope, loop_outs, &callee, call)
    }

    /// The body and the condition of a loop.
    fn check_loop(
        &self,
        module: &Module,
        body: &Call,
        condition: &Call,
    ) -> Result<(), SourceRefusal> {
        let mut scope = Variables::new(self.alloc);
        let Ports { ins, outs } = self.ports(&mut scope, module)?;
        self.check_plain(ins.as_slice(), outs.as_slice(), body)?;
        self.check_test(&scope, outs.as_slice(), condition)
    }

    /// The one call of a farm, a map or a reduce with these ports.
    fn check_only(
        &self,
        module: &Module,
        ports: &Ports,
        callee: &Ports,
        call: &Call,
    ) -> Result<(), SourceRefusal>
        requires ins { AreSized ports.now.ins }
        requires outs { AreSized ports.now.outs }
    {
        match module.kind {
            Kind::Map => {
                cut_of(self.alloc, ports, callee, call)?;
                Ok(())
            }
            Kind::Reduce => {
                elements_of(module.at.pos, ports, callee, call)?;
                Ok(())
            }
            _ => check_plain_call(ports.ins.as_slice(), ports.outs.as_slice(), callee, call),
        }
    }

    /// The one call of a farm, a map or a reduce.
    fn check_one(&self, module: &Module, call: &Call) -> Result<(), SourceRefusal> {
        let ports = self.ports(&mut Variables::new(self.alloc), module)?;
        let callee = self.callee(&call.at.name)?;
        self.check_only(module, &ports, &callee, call)
    }

    /// The calls of a module.
    fn check(&self, module: &Module) -> Result<(), SourceRefusal> {
        match &module.inside {
            Inside::Body(_) => Ok(()),
            Inside::Turning(body, condition) => self.check_loop(module, body, condition),
            Inside::Calls(calls) => match (module.kind, calls.as_slice()) {
                (Kind::Pipe | Kind::Comp, [stages @ .., last]) => {
                    self.check_chain(module, stages, last)
                }
                (_, [call]) => self.check_one(module, call),
                _ => Ok(()),
            },
        }
    }
}

/// Adds a constant to those before, or checks the calls of a module.
fn check_entry(
    alloc: Global,
    program: &Program,
    consts: &mut Consts,
    entry: &Entry,
) -> Result<(), SourceRefusal> {
    match entry {
        Entry::Constant(spot, value) => {
            if consts.get(&spot.name).is_none() {
                consts.add(alloc, &spot.name, *value)?;
            }
            Ok(())
        }
        Entry::Module(module) => {
            let context = Context {
                alloc,
                program,
                consts,
            };
            context.check(module)
        }
    }
}

/// Checks the calls of all modules.
fn check(alloc: Global, text: &str) -> Result<(), SourceRefusal> {
    let program = read(alloc, text.as_bytes())?;
    let mut consts = Consts::new(alloc)?;
    for entry in program.entries.as_slice() {
        check_entry(alloc, &program, &mut consts, entry)?;
    }
    Ok(())
}

/// The number of the first fault with its line and column, and `0` where there is none.
fn fault(alloc: Global, text: &str) -> Result<String, AllocError> {
    match check(alloc, text) {
        Ok(()) => String::from_str(alloc, "0"),
        Err(SourceRefusal::At { fault, pos }) => {
            let number = fault.number();
            let line = pos.line;
            let col = pos.col;
            format!(in alloc; "{number} {line}:{col}")
        }
        Err(SourceRefusal::NoMemory) => String::from_str(alloc, "no memory"),
    }
}

/// A caller must have this fault.
fn check_caller(rt: &impl Abort, alloc: Global, expected: &str, caller: &str) -> Result<(), Fail> {
    let text = format!(in alloc; "{HEAD}\n{caller}")?;
    let answer = fault(alloc, text.as_str())?;
    assert!(rt;
        answer.as_str() == expected,
        "{answer} and not {expected} for {caller}"
    );
    Ok(())
}

/// A caller must have the fault of this number between two pieces of its text.
fn check_marked(
    rt: &impl Abort,
    alloc: Global,
    number: &str,
    before: &str,
    after: &str,
) -> Result<(), Fail> {
    let col = before.len().wrapping_add(1);
    let expected = format!(in alloc; "{number} 2:{col}")?;
    let caller = format!(in alloc; "{before}{after}")?;
    check_caller(rt, alloc, expected.as_str(), caller.as_str())
}

/// Each caller of a table must have its fault.
fn check_table(rt: &impl Abort, alloc: Global, table: &str) -> Result<(), Fail> {
    for line in table.lines() {
        let (number, marked) = line.split_once(" | ").ok_or("no fault")?;
        match marked.split_once("^") {
            Some((before, after)) => check_marked(rt, alloc, number, before, after)?,
            None => check_caller(rt, alloc, number, marked)?,
        }
    }
    Ok(())
}

#[test]
fn faults_of_farms(rt: HostRuntime) -> Result<(), Fail> {
    check_table(&rt, rt.alloc(), FARMS)
}

#[test]
fn faults_of_pipes_and_comps(rt: HostRuntime) -> Result<(), Fail> {
    check_table(&rt, rt.alloc(), CHAINS)
}

#[test]
fn faults_of_loops(rt: HostRuntime) -> Result<(), Fail> {
    check_table(&rt, rt.alloc(), LOOPS)
}

#[test]
fn faults_of_maps(rt: HostRuntime) -> Result<(), Fail> {
    check_table(&rt, rt.alloc(), MAPS)
}

#[test]
fn faults_of_reduces(rt: HostRuntime) -> Result<(), Fail> {
    check_table(&rt, rt.alloc(), REDUCES)
}
