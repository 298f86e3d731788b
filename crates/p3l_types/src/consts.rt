// Constants, and the values of numbers.

ghost use Rattle.std.specs.Prelude.{◌≡◌, ◌++◌, [], ◌∷◌, None, Some, OnErr, IsTrue, ◌<◌, ◌^◌, take, slice_get};
ghost use Rattle.p3l_base.specs.Memory.{IfGiven, OnGiven};
ghost use Rattle.p3l_types.specs.Constants.{constant_of, number_of, natural, place_of};

use indexmap::IndexMap;
use p3l_ast::{Entry, Fault, Num, Pos, SourceRefusal};
use p3l_base::{Name, NoMemory};
use std::alloc::Global;
use std::marker::Model;
use std::rc::Rc;

/// Constants with their numbers, which contracts see as a list of pairs in the order in which they
/// were added. No two have one name.
///
/// They are the first `len` entries of a map that their copies share, so that a copy takes no walk,
/// and constants that are in the map beforehand are added without one.
#[derive(Drop)]
pub struct Consts {
    values: Rc<IndexMap<Name, i64>>,
    len: usize,
}

impl Model for Consts {
    ghost use Rattle.std.specs.Prelude.{take};
    ghost use Rattle.p3l_types.specs.Constants.{Constants};

    ghost Value = { Constants };

    ghost view = { λ it. take it.len it.values.value.entries };
}

/// True if a map holds this constant at this place.
fn is_at(values: &IndexMap<Name, i64>, place: usize, name: &Name, value: i64) -> bool
    ensures entry { IsTrue result → slice_get values.now.entries place ≡ Some (name.now, value) }
    ensures small { IsTrue result → place < 2 ^ 63 }
{
    if place >= values.len() {
        return false;
    }
    match values.get_index(place) {
        Some((held, number)) => held == name && *number == value,
        None => false,
    }
}

/// The first entries of a map, in a map of their own.
fn front(
    alloc: Global,
    values: &IndexMap<Name, i64>,
    len: usize,
) -> Result<IndexMap<Name, i64>, NoMemory>
    ensures { IfGiven result (λ front. front.entries ≡ take len values.now.entries) }
{
    let mut front = IndexMap::new(alloc);
    for k in 0..usize::min(len, values.len()) {
        let Some((name, value)) = values.get_index(k) else {
            return Ok(front);
        };
        let name = Name::from_text(alloc, name.as_str())?;
        front.insert(name, *value)?;
    }
    Ok(front)
}

impl Consts {
    /// No constants.
    pub fn new(alloc: Global) -> Result<Consts, NoMemory>
        ensures { IfGiven result (λ consts. consts ≡ []) }
    {
        Consts::ahead(alloc, &[])
    }

    /// No constants. Those of these entries are held ready, each at its first entry: they are added
    /// in their order without a walk.
    pub fn ahead(alloc: Global, entries: &[Entry]) -> Result<Consts, NoMemory>
        ensures { IfGiven result (λ consts. consts ≡ []) }
    {
        let mut values = IndexMap::new(alloc);
        for entry in entries {
            let Entry::Constant(spot, value) = entry else {
                continue;
            };
            if values.get(&spot.name).is_none() {
                let name = Name::from_text(alloc, spot.name.as_str())?;
                values.insert(name, *value)?;
            }
        }
        let values = Rc::new(alloc, values)?;
        Ok(Consts { values, len: 0 })
    }

    /// Adds a constant whose name is not there yet.
    pub fn add(&mut self, alloc: Global, name: &Name, value: i64) -> Result<(), NoMemory>
        requires { constant_of self.old name.now ≡ None }
        ensures ok { OnGiven result (self.new ≡ self.old ++ (name.now, value) ∷ []) }
        ensures err { OnErr result (self.new ≡ self.old) }
    {
        if is_at(&self.values, self.len, name, value) {
            self.len += 1;
            return Ok(());
        }
        let name = Name::from_text(alloc, name.as_str())?;
        let mut values = front(alloc, &self.values, self.len)?;
        values.insert(name, value)?;
        let len = values.len();
        let values = Rc::new(alloc, values)?;
        *self = Consts { values, len };
        Ok(())
    }

    /// The same constants.
    pub fn copy(&self) -> Result<Consts, NoMemory>
        ensures { IfGiven result (λ copy. copy ≡ self.now) }
    {
        Ok(Consts {
            values: self.values.clone()?,
            len: self.len,
        })
    }

    /// The number of a constant.
    pub fn get(&self, name: &Name) -> Option<i64>
        ensures { result ≡ constant_of self.now name.now }
    {
        let (place, _, value) = self.values.get_full(name)?;
        if place < self.len { Some(*value) } else { None }
    }
}

/// The value of a number; a name must be that of a constant.
pub fn value_of(num: &Num, consts: &Consts) -> Result<i64, SourceRefusal>
    ensures { result ≡ number_of consts.now num.now }
{
    match num {
        Num::Digits(value, _) => Ok(*value),
        Num::Named(spot) => match consts.get(&spot.name) {
            Some(value) => Ok(value),
            None => Err(SourceRefusal::At {
                fault: Fault::UnknownName,
                pos: spot.pos,
            }),
        },
    }
}

/// The position of a number.
pub fn place_of(num: &Num) -> Pos
    ensures { result ≡ place_of num.now }
{
    match num {
        Num::Digits(_, pos) => *pos,
        Num::Named(spot) => spot.pos,
    }
}

/// A number that is not negative, and 0 for any other.
pub fn natural(value: i64) -> u64
    ensures { result ≡ natural value }
{
    if value < 0 { 0 } else { value as u64 }
}
