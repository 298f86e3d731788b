// The variables that are declared, and the meanings of names.

ghost use Rattle.std.specs.Prelude.{◌≡◌, ◌+◌, ◌≤◌, ◌++◌, [], ◌∷◌, None, OnErr, IfOk, map, bytes_eq, length};
ghost use Rattle.p3l_base.specs.Limits.{most_words};
ghost use Rattle.p3l_base.specs.Memory.{OnGiven};
ghost use Rattle.std.specs.Map.{lookup};
ghost use Rattle.p3l_types.specs.Verdict.{Gives};
ghost use Rattle.p3l_types.specs.Shape.{product};
ghost use Rattle.p3l_body.specs.Scope.{named, known_of, fresh, measured, declared_one, declared};

use crate::var::Var;
use indexmap::IndexMap;
use p3l_ast::{Fault, Port, SourceRefusal, Spot};
use p3l_base::limits::MOST_WORDS;
use p3l_base::{List, Name, NoMemory};
use p3l_types::{Consts, product, shape_of, words_of};
use std::alloc::Global;
use std::marker::Model;

/// A name's number of sizes, and true if it may not be assigned to.
#[derive(Clone, Copy, Debug, Drop, PartialEq, Eq)]
pub struct Known {
    pub sizes: usize,
    pub is_fixed: bool,
}

/// The variables of a module in the order in which they were declared, which contracts see as a list
/// of their names with what is known of them.
#[derive(Drop)]
pub struct Variables {
    known: IndexMap<Name, Known>,
}

impl Model for Variables {
    ghost use Rattle.p3l_body.specs.Scope.{Names};

    ghost Value = { Names };

    ghost view = { λ it. it.known.entries };
}

impl Variables {
    /// No variables.
    pub fn new(alloc: Global) -> Variables
        ensures { result ≡ [] }
    {
        Variables {
            known: IndexMap::new(alloc),
        }
    }

    /// Adds a variable whose name is not there yet.
    pub fn add(&mut self, name: Name, known: Known) -> Result<(), NoMemory>
        requires { lookup (bytes_eq name) self.old ≡ None }
        ensures ok { OnGiven result (self.new ≡ self.old ++ (name, known) ∷ []) }
        ensures err { OnErr result (self.new ≡ self.old) }
    {
        self.known.insert(name, known)?;
        Ok(())
    }

    /// The variable of a name, or else its constant.
    pub fn known(&self, consts: &Consts, name: &Name) -> Option<Known>
        ensures { result ≡ known_of consts.now self.now name.now }
    {
        match self.known.get(name) {
            Some(known) => Some(*known),
            None => match consts.get(name) {
                Some(_) => Some(Known {
                    sizes: 0,
                    is_fixed: true,
                }),
                None => None,
            },
        }
    }
}

/// A variable after others of `words` words.
fn measured(alloc: Global, consts: &Consts, words: u64, port: &Port) -> Result<Var, SourceRefusal>
    requires { words ≤ most_words }
    ensures var { Gives result (measured consts.now words port.now) }
    ensures few { IfOk result (λ var. words + product var.shape.sizes ≤ most_words) }
{
    let shape = shape_of(alloc, port, consts)?;
    if words + product(shape.sizes.as_slice()) > MOST_WORDS {
        return Err(SourceRefusal::At {
            fault: Fault::TooWide,
            pos: port.at.pos,
        });
    }
    let name = Name::from_text(alloc, port.at.name.as_str())?;
    Ok(Var { name, shape })
}

/// A name that is declared must be no variable's yet, and no constant's.
fn check_fresh(
    fault: Fault,
    consts: &Consts,
    scope: &Variables,
    spot: &Spot,
) -> Result<(), SourceRefusal>
    ensures { result ≡ fresh fault consts.now scope.now spot.now }
{
    match scope.known(consts, &spot.name) {
        Some(_) => Err(SourceRefusal::At {
            fault,
            pos: spot.pos,
        }),
        None => Ok(()),
    }
}

/// A declaration of a variable after others of `words` words.
pub fn declare_one(
    alloc: Global,
    fault: Fault,
    consts: &Consts,
    scope: &Variables,
    words: u64,
    port: &Port,
) -> Result<Var, SourceRefusal>
    requires { words ≤ most_words }
    ensures var { Gives result (declared_one fault consts.now scope.now words port.now) }
    ensures few { IfOk result (λ var. words + product var.shape.sizes ≤ most_words) }
    ensures fresh { IfOk result (λ var. lookup (bytes_eq var.name) scope.now ≡ None) }
{
    let var = measured(alloc, consts, words, port)?;
    check_fresh(fault, consts, scope, &port.at)?;
    Ok(var)
}

/// Adds a variable to a scope.
pub fn enter(
    alloc: Global,
    is_fixed: bool,
    scope: &mut Variables,
    var: &Var,
) -> Result<(), NoMemory>
    requires { lookup (bytes_eq var.now.name) scope.old ≡ None }
    ensures { OnGiven result (scope.new ≡ scope.old ++ named is_fixed var.now ∷ []) }
{
    let name = Name::from_text(alloc, var.name.as_str())?;
    let known = Known {
        sizes: var.shape.sizes.len(),
        is_fixed,
    };
    scope.add(name, known)
}

/// Declares variables after those of a scope; a name that is taken is refused with this fault, and
/// fixed ones may not be assigned to.
pub fn declare(
    alloc: Global,
    fault: Fault,
    is_fixed: bool,
    consts: &Consts,
    scope: &mut Variables,
    ports: &[Port],
) -> Result<List<Var>, SourceRefusal>
    ensures vars { Gives result (declared fault is_fixed consts.now scope.old 0 ports.now) }
    ensures names { IfOk result (λ vars. scope.new ≡ scope.old ++ map (named is_fixed) vars) }
{
    let mut vars = List::new(alloc);
    let mut words = 0;
    for port in ports {
        let var = declare_one(alloc, fault, consts, scope, words, port)?;
        enter(alloc, is_fixed, scope, &var)?;
        words += words_of(&var.shape) as u64;
        vars.push(var)?;
    }
    Ok(vars)
}
