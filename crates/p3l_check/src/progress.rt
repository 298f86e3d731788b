// The entries of a program, checked one after another.

ghost use Rattle.std.specs.Prelude.{◌≡◌, ◌==◌, ◌||◌, ◌<◌, ◌≤◌, ◌^◌, ◌+◌, [], None, IfOk, map, length};
ghost use Rattle.p3l_base.specs.Memory.{IfGiven};
ghost use Rattle.std.specs.Option.{option_map};
ghost use Rattle.p3l_ast.specs.Tree.{entry_tree, module_tree};
ghost use Rattle.p3l_types.specs.Verdict.{Gives, broken_if};
ghost use Rattle.p3l_types.specs.Constants.{constant_of};
ghost use Rattle.p3l_body.specs.Seq.{port_names, seq_tree};
ghost use Rattle.p3l_calls.specs.Port.{total, AreSized};
ghost use Rattle.p3l_check.specs.Modules.{number_of};
ghost use Rattle.p3l_check.specs.Environment.{before_of};
ghost use Rattle.p3l_check.specs.Places.{defined_from};
ghost use Rattle.p3l_check.specs.Many.{GivesUnlessMany};
ghost use Rattle.p3l_check.specs.Entry.{none_checked, checked_of, checked_result, new_name, ports_in, body_in, body_tree, kind_in, info_of, defined_as, defined_in, added_result, with_body, with_passed, passed_result, checked_module, checked_entry, checked_entries};

use crate::Callable;
use crate::clauses::rescue_in;
use crate::defined::Defined;
use crate::environment::Environment;
use crate::modules::Modules;
use crate::places::{Places, spot_of};
use crate::skeleton::{Skeleton, skeleton_of};
use p3l_ast::{Entry, Fault, Kind, Module, SourceRefusal, Spot};
use p3l_base::{List, Name, NoMemory};
use p3l_body::{CheckedSeq, Ports, Var, Variables, check_body, ports_of};
use p3l_skel::{ModuleInfo, ModuleKind};
use p3l_types::{Consts, words_of};
use std::alloc::Global;
use std::mem;

/// The most entries, so that 32 bits number the modules among them. No text has as many.
const MOST_ENTRIES: usize = u32::MAX as usize;

/// The result of the entries so far: constants, modules, and the bodies of `seq` modules.
#[derive(Drop)]
pub struct Progress<'a> {
    pub consts: Consts,
    pub modules: Modules,
    pub seqs: List<CheckedSeq<'a>>,
}

/// A module that keeps the rules, with its body if it is a `seq` module.
#[derive(Drop)]
pub struct Passed<'a> {
    pub defined: Defined,
    pub seq: Option<CheckedSeq<'a>>,
}

/// The skeleton that a kind of module is an instance of.
fn kind_in(kind: Kind) -> ModuleKind
    ensures { result ≡ kind_in kind }
{
    match kind {
        Kind::Seq => ModuleKind::Seq,
        Kind::Comp => ModuleKind::Comp,
        Kind::Pipe => ModuleKind::Pipe,
        Kind::Farm => ModuleKind::Farm,
        Kind::Map => ModuleKind::Map,
        Kind::Reduce => ModuleKind::Reduce,
        Kind::Loop => ModuleKind::Loop,
    }
}

/// A module with its name and its rescue number.
fn info_of(alloc: Global, module: &Module, rescue: Option<i64>) -> Result<ModuleInfo, NoMemory>
    ensures { IfGiven result (λ info. info ≡ info_of (module_tree «module».now) rescue) }
{
    Ok(ModuleInfo {
        name: Name::from_text(alloc, module.at.name.as_str())?,
        kind: kind_in(module.kind),
        rescue,
    })
}

/// Every text spells at least one in and one out of a module.
fn check_some_ports(module: &Module) -> Result<(), SourceRefusal>
    ensures { result
        ≡ broken_if (length «module».now.ins == 0 || length «module».now.outs == 0)
        Fault.Expected «module».now.at.pos }
{
    if module.ins.len() == 0 || module.outs.len() == 0 {
        return Err(SourceRefusal::At {
            fault: Fault::Expected,
            pos: module.at.pos,
        });
    }
    Ok(())
}

/// The ports of a module, of which every text spells at least one in and one out.
fn ports_in(
    alloc: Global,
    consts: &Consts,
    scope: &mut Variables,
    module: &Module,
) -> Result<Ports, SourceRefusal>
    requires { scope.old ≡ [] }
    ensures ports { Gives result (ports_in consts.now (module_tree «module».now)) }
    ensures ins { IfOk result (λ ports. AreSized ports.ins) }
    ensures outs { IfOk result (λ ports. AreSized ports.outs) }
    ensures names { IfOk result (λ ports. scope.new ≡ port_names ports) }
{
    check_some_ports(module)?;
    ports_of(
        alloc,
        consts,
        scope,
        module.ins.as_slice(),
        module.outs.as_slice(),
    )
}

/// The checked body of a `seq` module; other modules have none.
fn body_in<'a>(
    alloc: Global,
    consts: &Consts,
    home: u32,
    module: &'a Module,
) -> Result<Option<CheckedSeq<'a>>, SourceRefusal>
    ensures { Gives (body_tree result)
        (body_in «module».now.kind consts.now home (module_tree «module».now)) }
{
    match module.kind {
        Kind::Seq => match check_body(alloc, module, home, consts) {
            Ok(seq) => Ok(Some(seq)),
            Err(refusal) => Err(refusal),
        },
        Kind::Comp | Kind::Pipe | Kind::Farm | Kind::Map | Kind::Reduce | Kind::Loop => Ok(None),
    }
}

/// The number of words of variables.
#[tactic(auto, using(crate::proofs::Totals::totals))]
fn total(vars: &[Var]) -> u32
    requires { total vars.now ≤ 65536 }
    ensures { result ≡ total vars.now }
{
    let mut words = 0;
    for var in vars {
        words += words_of(&var.shape);
    }
    words
}

/// A module of these ports and this skeleton.
fn defined_as(info: ModuleInfo, ports: Ports, skeleton: Skeleton) -> Defined
    requires ins { total ports.ins ≤ 65536 }
    requires outs { total ports.outs ≤ 65536 }
    ensures { result ≡ defined_as info ports skeleton }
{
    let callables = Callable {
        form: skeleton.form,
        ins: total(ports.ins.as_slice()),
        outs: total(ports.outs.as_slice()),
        calls: skeleton.calls,
        sequential: skeleton.sequential,
    };
    Defined {
        info,
        ports,
        callables,
    }
}

/// A module as the entries after it see it: its ports, its rescue number, and then its other clauses
/// and calls.
fn defined_in(
    alloc: Global,
    env: Environment<'_>,
    module: &Module,
) -> Result<Defined, SourceRefusal>
    ensures defined { Gives result (defined_in (before_of env.entry) (module_tree «module».now)) }
    ensures name { IfOk result (λ defined. defined.info.name ≡ «module».now.at.name) }
{
    let mut scope = Variables::new(alloc);
    let ports = ports_in(alloc, env.consts, &mut scope, module)?;
    let rescue = rescue_in(module.kind, module.at.pos, env.consts, &module.clauses)?;
    let skeleton = skeleton_of(alloc, env, module, &mut scope, &ports)?;
    let info = info_of(alloc, module, rescue)?;
    Ok(defined_as(info, ports, skeleton))
}

/// Bodies, and one more if there is one.
fn add_body<'a>(
    seqs: &mut List<CheckedSeq<'a>>,
    seq: Option<CheckedSeq<'a>>,
) -> Result<(), NoMemory>
    ensures { IfGiven result (λ x. map seq_tree seqs.new
        ≡ with_body (map seq_tree seqs.old) (option_map seq_tree seq.entry)) }
{
    match seq {
        Some(seq) => seqs.push(seq),
        None => Ok(()),
    }
}

impl<'a> Progress<'a> {
    /// No entries, with the constants of a program held ready.
    fn new(alloc: Global, entries: &[Entry]) -> Result<Progress<'a>, NoMemory>
        ensures { IfGiven result (λ progress. checked_of progress ≡ none_checked) }
    {
        Ok(Progress {
            consts: Consts::ahead(alloc, entries)?,
            modules: Modules::new(alloc),
            seqs: List::new(alloc),
        })
    }

    /// An entry's name is no earlier entry's.
    fn check_name(&self, spot: &Spot) -> Result<(), SourceRefusal>
        ensures rule { result ≡ new_name (checked_of self.now) spot.now }
        ensures no_constant { IfOk result (λ x. constant_of self.now.consts spot.now.name ≡ None) }
        ensures no_module { IfOk result (λ x. number_of self.now.modules spot.now.name ≡ None) }
    {
        if self.consts.get(&spot.name).is_none() && self.modules.number(&spot.name).is_none() {
            return Ok(());
        }
        Err(SourceRefusal::At {
            fault: Fault::Twice,
            pos: spot.pos,
        })
    }

    /// Adds a module whose name is new.
    fn add_module(&mut self, alloc: Global, passed: Passed<'a>) -> Result<(), NoMemory>
        requires fresh { number_of self.old.modules passed.defined.info.name ≡ None }
        requires room { length self.old.modules.infos + 1 < 2 ^ 32 }
        ensures { IfGiven result (λ x. checked_of self.new
            ≡ with_passed (checked_of self.old) passed.entry) }
    {
        let modules = mem::replace(&mut self.modules, Modules::new(alloc));
        self.modules = modules.with(alloc, passed.defined)?;
        add_body(&mut self.seqs, passed.seq)
    }

    /// The module at this place, and its body if it is a `seq` module.
    fn check_module(
        &self,
        alloc: Global,
        places: &Places,
        from: usize,
        module: &'a Module,
    ) -> Result<Passed<'a>, SourceRefusal>
        requires { length self.now.modules.infos + 1 < 2 ^ 32 }
        ensures passed { Gives (passed_result (checked_of self.now) result)
            (checked_module (checked_of self.now) (defined_from places.now from)
            (module_tree «module».now)) }
        ensures name { IfOk result (λ passed. passed.defined.info.name ≡ «module».now.at.name) }
    {
        let home = self.modules.len();
        let env = Environment {
            consts: &self.consts,
            modules: &self.modules,
            places,
            from,
        };
        let defined = defined_in(alloc, env, module)?;
        match body_in(alloc, &self.consts, home, module) {
            Ok(seq) => Ok(Passed { defined, seq }),
            Err(refusal) => Err(refusal),
        }
    }

    /// Adds the entry at this place.
    fn add_entry(
        &mut self,
        alloc: Global,
        places: &Places,
        from: usize,
        entry: &'a Entry,
    ) -> Result<(), SourceRefusal>
        requires { length self.old.modules.infos + 1 < 2 ^ 32 }
        ensures { Gives (added_result self.new result)
            (checked_entry (checked_of self.old) (defined_from places.now from)
            (entry_tree entry.now)) }
    {
        self.check_name(spot_of(entry))?;
        match entry {
            Entry::Constant(spot, value) => Ok(self.consts.add(alloc, &spot.name, *value)?),
            Entry::Module(module) => match self.check_module(alloc, places, from, module) {
                Ok(passed) => Ok(self.add_module(alloc, passed)?),
                Err(refusal) => Err(refusal),
            },
        }
    }

    /// These entries and the one at this place.
    fn check_entry(
        mut self,
        alloc: Global,
        places: &Places,
        from: usize,
        entry: &'a Entry,
    ) -> Result<Progress<'a>, SourceRefusal>
        requires { length self.modules.infos + 1 < 2 ^ 32 }
        ensures { Gives (checked_result result)
            (checked_entry (checked_of self.entry) (defined_from places.now from)
            (entry_tree entry.now)) }
    {
        self.add_entry(alloc, places, from, entry)?;
        Ok(self)
    }

    /// The entries of a program that are not too many, one after another.
    fn in_order(alloc: Global, entries: &'a [Entry]) -> Result<Progress<'a>, SourceRefusal>
        requires { length entries.now < 2 ^ 32 }
        ensures { Gives (checked_result result)
            (checked_entries none_checked (map entry_tree entries.now)) }
    {
        let places = Places::of(alloc, entries)?;
        let mut progress = Progress::new(alloc, entries)?;
        for (place, entry) in entries.iter().enumerate() {
            progress = progress.check_entry(alloc, &places, place, entry)?;
        }
        Ok(progress)
    }

    /// The entries of a program, one after another. Too many entries are out of memory too.
    pub fn of(alloc: Global, entries: &'a [Entry]) -> Result<Progress<'a>, SourceRefusal>
        ensures { GivesUnlessMany (map entry_tree entries.now) (checked_result result)
            (checked_entries none_checked (map entry_tree entries.now)) }
    {
        if entries.len() > MOST_ENTRIES {
            return Err(SourceRefusal::NoMemory);
        }
        Progress::in_order(alloc, entries)
    }
}
