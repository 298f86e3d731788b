// Valuations: the sizes and the words of the names of a body.

ghost use Rattle.std.specs.List.{All};
ghost use Rattle.std.specs.Prelude.{◌≡◌, ◌↔◌, ◌≤◌, length, IsTrue};
ghost use Rattle.p3l_base.specs.Limits.{most_sizes, most_words};
ghost use Rattle.p3l_base.specs.Memory.{IfGiven};
ghost use Rattle.p3l_ast.specs.Meaning.Valuation.{rebound, with_word, turned, HasSizes};

use p3l_base::limits::{MOST_SIZES, MOST_WORDS};
use p3l_base::{List, Name, NoMemory, TrapKind, Words};
use std::alloc::Global;

/// A variable or a constant: its name, its sizes (the outermost first; a scalar has none), and its
/// words in row-major order.
#[derive(Debug, Drop)]
pub struct Binding {
    pub name: Name,
    pub sizes: List<u32>,
    pub words: Words,
}

/// The bindings of a body's names, and the number of turns that its loops have begun.
#[derive(Debug, Drop)]
pub struct Valuation {
    pub bindings: List<Binding>,
    pub turns: u32,
}

impl Valuation {
    ghost use Rattle.std.specs.Prelude.{◌≡◌};
    ghost use Rattle.std.specs.Option.{option_copied};
    ghost use Rattle.p3l_ast.specs.Meaning.Valuation.{binding_of, sizes_of, word_of};

    /// The binding of a name, if it has one.
    fn binding(&self, name: &Name) -> Option<&Binding>
        ensures { option_copied result ≡ binding_of self.now name.now }
    {
        self.bindings
            .as_slice()
            .iter()
            .find(|binding| binding.name == *name)
    }

    /// The sizes of a name, none for a scalar.
    pub fn sizes(&self, name: &Name) -> &[u32]
        ensures { result.now ≡ sizes_of self.now name.now }
    {
        match self.binding(name) {
            Some(binding) => binding.sizes.as_slice(),
            None => &[],
        }
    }

    /// The word of a name at a place, and 0 where there is none.
    pub fn word(&self, name: &Name, place: usize) -> i64
        ensures { result ≡ word_of self.now name.now place }
    {
        match self.binding(name) {
            Some(binding) => binding.words.as_slice().get(place).copied().unwrap_or(0),
            None => 0,
        }
    }
}

/// A binding of which the word at a place is another, if this is its name.
fn rebound(
    alloc: Global,
    name: &Name,
    place: usize,
    word: i64,
    binding: &Binding,
) -> Result<Binding, NoMemory>
    ensures { IfGiven result (λ next. next ≡ rebound name.now place word binding.now) }
{
    let mut words = binding.words.as_slice().to_vec(alloc)?;
    if binding.name == *name && place < words.len() {
        words[place] = word;
    }
    Ok(Binding {
        name: Name::from_text(alloc, binding.name.as_str())?,
        sizes: List::from_vec(binding.sizes.as_slice().to_vec(alloc)?),
        words: Words::from_vec(words),
    })
}

/// The valuation in which a name's word at a place is another.
pub fn with_word(
    alloc: Global,
    valuation: &Valuation,
    name: &Name,
    place: usize,
    word: i64,
) -> Result<Valuation, NoMemory>
    ensures { IfGiven result (λ next. next ≡ with_word valuation.now name.now place word) }
{
    let mut bindings = List::new(alloc);
    for binding in valuation.bindings.as_slice() {
        bindings.push(rebound(alloc, name, place, word, binding)?)?;
    }
    Ok(Valuation {
        bindings,
        turns: valuation.turns,
    })
}

/// The valuation with one turn of a loop more, if the budget has one left.
pub fn turned(budget: u32, valuation: Valuation) -> Result<Valuation, TrapKind>
    ensures { result ≡ turned budget valuation }
{
    if valuation.turns >= budget {
        return Err(TrapKind::Budget);
    }
    Ok(Valuation {
        bindings: valuation.bindings,
        turns: valuation.turns + 1,
    })
}

/// True if each name has at most `MOST_SIZES` sizes, each at most `MOST_WORDS`.
pub fn has_sizes(valuation: &Valuation) -> bool
    ensures { IsTrue result ↔ HasSizes valuation.now }
{
    for binding in valuation.bindings.as_slice() {
        if !are_sizes(valuation.sizes(&binding.name)) {
            return false;
        }
    }
    true
}

/// True if these are the sizes of a scalar or an array.
fn are_sizes(sizes: &[u32]) -> bool
    ensures { IsTrue result ↔ ((length sizes.now ≤ most_sizes)
        × All (λ size. size ≤ most_words) sizes.now) }
{
    sizes.len() <= MOST_SIZES && sizes.iter().all(|size| *size as u64 <= MOST_WORDS)
}
