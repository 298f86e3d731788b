// The variables of a body by their names.

ghost use Rattle.std.specs.Prelude.{◌≡◌, ◌++◌, [], ◌∷◌, None, bytes_eq};
ghost use Rattle.std.specs.Map.{lookup};
ghost use Rattle.std.specs.Option.{option_copied};
ghost use Rattle.p3l_base.specs.Memory.{IfGiven, OnGiven};
ghost use Rattle.p3l_body.specs.Seq.{seq_tree};
ghost use Rattle.p3l_c.specs.Translate.{sizes_at};
ghost use Rattle.p3l_c_print.specs.Name.{literal_text, kind_text, kept_name, place_text, constant_text, name_text, entered, all_entered, names_of, shapes_of};

use crate::text::Text;
use indexmap::IndexMap;
use p3l_base::{List, Name, NoMemory};
use p3l_body::{CheckedSeq, Var};
use p3l_types::Consts;
use std::alloc::Global;
use std::marker::Model;

/// The bytes of a name that an identifier has at most.
const MOST_KEPT: usize = 39;

/// The kind of a variable: its identifier begins with it.
#[derive(Clone, Copy, Debug, Drop, PartialEq, Eq)]
pub enum Kind {
    In,
    Out,
    Local,
}

/// A variable: its number among those of its kind, and its sizes.
#[derive(Debug, Drop)]
pub struct VariablePlace {
    pub kind: Kind,
    pub number: usize,
    pub sizes: List<u32>,
}

/// The variables of a body by their names, the constants before it, and the number of its module.
#[derive(Drop)]
pub struct Names<'c> {
    pub alloc: Global,
    places: IndexMap<Name, VariablePlace>,
    consts: &'c Consts,
    pub home: u32,
}

impl<'c> Model for Names<'c> {
    ghost use Rattle.p3l_c_print.specs.Name.{Names};

    ghost Value = { Names };

    ghost view = { λ it. record {
      places = it.places.entries;
      constants = it.consts.now;
      home = it.home;
    } };
}

/// A literal of type `int64_t`.
#[tactic(auto, unfolding(crate::specs::Name::literal_text))]
pub fn literal(alloc: Global, number: i64) -> Result<Text, NoMemory>
    ensures { IfGiven result (λ text. text ≡ literal_text number) }
{
    if number == i64::MIN {
        return Ok(Text::of(String::from_str(alloc, "INT64_MIN")?));
    }
    if number < 0 {
        let positive = -number;
        return Ok(Text::of(format!(in alloc; "(-INT64_C({positive}))")?));
    }
    Ok(Text::of(format!(in alloc; "INT64_C({number})")?))
}

/// The first letters of identifiers of a kind.
fn kind_text(kind: Kind) -> &'static str
    ensures { result.now ≡ kind_text kind }
{
    match kind {
        Kind::In => "in",
        Kind::Out => "out",
        Kind::Local => "v",
    }
}

/// The first characters of a name, which an identifier has.
fn kept_name(name: &str) -> &str
    ensures { result.now ≡ kept_name name.now }
{
    &name[..name.floor_char_boundary(MOST_KEPT)]
}

impl<'c> Names<'c> {
    /// The names of a body.
    pub fn of(alloc: Global, seq: &'c CheckedSeq<'_>) -> Result<Names<'c>, NoMemory>
        ensures { IfGiven result (λ names. names ≡ names_of (seq_tree seq.now)) }
    {
        let mut names = Names {
            alloc,
            places: IndexMap::new(alloc),
            consts: &seq.consts,
            home: seq.module,
        };
        names.add_all(Kind::In, seq.ins.as_slice())?;
        names.add_all(Kind::Out, seq.outs.as_slice())?;
        names.add_all(Kind::Local, seq.locals.as_slice())?;
        Ok(names)
    }

    /// Adds the variables of a kind.
    fn add_all(&mut self, kind: Kind, vars: &[Var]) -> Result<(), NoMemory>
        ensures { OnGiven result (self.new
            ≡ record self.old { places = all_entered kind 0 vars.now self.old.places }) }
    {
        for number in 0..vars.len() {
            self.enter(kind, number, &vars[number])?;
        }
        Ok(())
    }

    /// Adds a variable, if its name is not there yet.
    fn enter(&mut self, kind: Kind, number: usize, var: &Var) -> Result<(), NoMemory>
        ensures { OnGiven result (self.new
            ≡ record self.old { places = entered kind number var.now self.old.places }) }
    {
        if self.places.get(&var.name).is_some() {
            return Ok(());
        }
        let alloc = self.alloc;
        let place = VariablePlace {
            kind,
            number,
            sizes: List::from_vec(var.shape.sizes.as_slice().to_vec(alloc)?),
        };
        self.add(Name::from_text(alloc, var.name.as_str())?, place)
    }

    /// Adds a variable whose name is not there yet.
    fn add(&mut self, name: Name, place: VariablePlace) -> Result<(), NoMemory>
        requires { lookup (bytes_eq name) self.old.places ≡ None }
        ensures { OnGiven result (self.new
            ≡ record self.old { places = self.old.places ++ (name, place) ∷ [] }) }
    {
        self.places.insert(name, place)?;
        Ok(())
    }

    /// The variable of a name.
    fn place(&self, name: &Name) -> Option<&VariablePlace>
        ensures { option_copied result ≡ lookup (bytes_eq name.now) self.now.places }
    {
        self.places.get(name)
    }

    /// The sizes of a variable, none for a scalar or a constant.
    pub fn sizes(&self, name: &Name) -> &[u32]
        ensures { result.now ≡ sizes_at (shapes_of self.now) name.now }
    {
        match self.place(name) {
            Some(place) => place.sizes.as_slice(),
            None => &[],
        }
    }

    /// An object as it is written.
    #[tactic(auto, unfolding(crate::specs::Name::name_text))]
    pub fn object(&self, name: &Name) -> Result<Text, NoMemory>
        ensures { IfGiven result (λ text. text ≡ name_text self.now name.now) }
    {
        match self.place(name) {
            Some(place) => self.variable(name, place),
            None => self.constant(name),
        }
    }

    fn variable(&self, name: &Name, place: &VariablePlace) -> Result<Text, NoMemory>
        ensures { IfGiven result (λ text. text ≡ place_text name.now place.now) }
    {
        let kind = kind_text(place.kind);
        let number = place.number;
        let kept = kept_name(name.as_str());
        Ok(Text::of(format!(in self.alloc; "{kind}{number}_{kept}")?))
    }

    fn constant(&self, name: &Name) -> Result<Text, NoMemory>
        ensures { IfGiven result (λ text.
            text ≡ constant_text name.now (lookup (bytes_eq name.now) self.now.constants)) }
    {
        match self.consts.get(name) {
            Some(value) => {
                let text = literal(self.alloc, value)?;
                let number = text.as_str();
                let name = name.as_str();
                Ok(Text::of(format!(in self.alloc; "{number} /* {name} */")?))
            }
            None => Ok(Text::of(String::from_str(self.alloc, kept_name(name.as_str()))?)),
        }
    }
}
