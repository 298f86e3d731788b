// The modules before an entry.

ghost use Rattle.std.specs.Prelude.{◌≡◌, ◌+◌, ◌<◌, ◌^◌, [], ◌∷◌, ◌++◌, None, IfOk, IfSome, IfErr, bytes_eq, length};
ghost use Rattle.p3l_base.specs.Memory.{IfGiven};
ghost use Rattle.std.specs.Map.{lookup};
ghost use Rattle.p3l_check.specs.Modules.{no_modules, number_of, ports_at, with_module};
ghost use Rattle.p3l_check.specs.Callables.{AreCallables};
ghost use Rattle.p3l_check.specs.Wiring.{module_at};
ghost use Rattle.p3l_check.specs.Refusing.{IsUnfolded, IsRefused};

use crate::defined::Defined;
use crate::{Callable, UnfoldRefusal, unfold};
use indexmap::IndexMap;
use p3l_base::{List, Name, NoMemory};
use p3l_body::Ports;
use p3l_skel::{ModuleInfo, Tree};
use std::alloc::Global;
use std::marker::Model;

/// The modules before an entry, in the order of the source, which contracts see as what is known of
/// each. No two have one name.
#[derive(Drop)]
pub struct Modules {
    numbers: IndexMap<Name, u32>,
    infos: List<ModuleInfo>,
    ports: List<Ports>,
    callables: List<Callable>,
}

impl Model for Modules {
    ghost use Rattle.p3l_check.specs.Modules as modules;
    ghost use Rattle.p3l_check.specs.Numbered.{AreNumbered};

    ghost Value = { modules.Modules };

    ghost view = { λ it. record { infos = it.infos; ports = it.ports; callables = it.callables } };

    ghost invariant = { λ it. AreNumbered it.numbers.entries it.infos it.ports it.callables };
}

/// Numbers of names, and that of a name that has none yet.
fn add_number(
    alloc: Global,
    numbers: &mut IndexMap<Name, u32>,
    name: &Name,
    number: u32,
) -> Result<(), NoMemory>
    requires { lookup (bytes_eq name.now) numbers.old.entries ≡ None }
    ensures { IfGiven result (λ x. numbers.new.entries
        ≡ numbers.old.entries ++ (name.now, number) ∷ []) }
{
    let name = Name::from_text(alloc, name.as_str())?;
    numbers.insert(name, number)?;
    Ok(())
}

/// The infos, the ports and the wirings of modules, and those of one more.
fn add_module(
    infos: &mut List<ModuleInfo>,
    ports: &mut List<Ports>,
    callables: &mut List<Callable>,
    defined: Defined,
) -> Result<(), NoMemory>
    ensures infos { IfGiven result (λ x. infos.new ≡ infos.old ++ defined.info ∷ []) }
    ensures ports { IfOk result (λ x. ports.new ≡ ports.old ++ defined.ports ∷ []) }
    ensures callables { IfOk result (λ x. callables.new ≡ callables.old ++ defined.callables ∷ []) }
{
    infos.push(defined.info)?;
    ports.push(defined.ports)?;
    callables.push(defined.callables)?;
    Ok(())
}

impl Modules {
    /// No modules.
    pub fn new(alloc: Global) -> Modules
        ensures { result ≡ no_modules }
    {
        Modules {
            numbers: IndexMap::new(alloc),
            infos: List::new(alloc),
            ports: List::new(alloc),
            callables: List::new(alloc),
        }
    }

    /// The number of modules.
    pub fn len(&self) -> u32
        ensures { result ≡ length self.now.infos }
    {
        self.infos.len() as u32
    }

    /// The number of the module of a name.
    pub fn number(&self, name: &Name) -> Option<u32>
        ensures number { result ≡ number_of self.now name.now }
        ensures within { IfSome result (λ k. k < length self.now.callables) }
    {
        self.numbers.get(name).copied()
    }

    /// The ports of a module.
    pub fn ports(&self, k: u32) -> &Ports
        requires { k < length self.now.callables }
        ensures { result.now ≡ ports_at self.now k }
    {
        &self.ports.as_slice()[k as usize]
    }

    /// True if a module is sequential.
    pub fn is_sequential(&self, k: u32) -> bool
        requires { k < length self.now.callables }
        ensures { result ≡ (module_at self.now.callables k).sequential }
    {
        self.callables.as_slice()[k as usize].sequential
    }

    /// These modules and one more, whose name is not there yet.
    pub fn with(self, alloc: Global, defined: Defined) -> Result<Modules, NoMemory>
        requires fresh { number_of self defined.info.name ≡ None }
        requires room { length self.infos + 1 < 2 ^ 32 }
        ensures { IfGiven result (λ modules. modules ≡ with_module self defined) }
    {
        let number = self.len();
        let Modules {
            mut numbers,
            mut infos,
            mut ports,
            mut callables,
        } = self;
        add_number(alloc, &mut numbers, &defined.info.name, number)?;
        add_module(&mut infos, &mut ports, &mut callables, defined)?;
        Ok(Modules {
            numbers,
            infos,
            ports,
            callables,
        })
    }

    /// The tree of the module `root`.
    pub fn unfold(self, alloc: Global, root: u32) -> Result<Tree, UnfoldRefusal>
        requires wiring { AreCallables self.infos self.callables }
        requires root { root < length self.callables }
        ensures tree { IfOk result (IsUnfolded self.infos self.callables root) }
        ensures refused { IfErr result (IsRefused self.infos self.callables root) }
    {
        unfold(alloc, self.infos, self.callables.as_slice(), root)
    }
}
