// Trees of a root with one `seq` part, and what their parts do.

ghost use Rattle.std.specs.Prelude.{◌≡◌, ◌<◌, pos, [], ◌∷◌, ◌++◌, ◌-ℤ◌, length, slice_index_or, IfOk, true};
ghost use Rattle.p3l_base.specs.Memory.{IfGiven, OnGiven};
ghost use Rattle.std.specs.Prelude.{IfOk, IfSome, OnOk};
ghost use Rattle.p3l_base.specs.declared.outcome.Outcome.TheVariants.{Value};
ghost use Rattle.p3l_base.specs.declared.slice.Place.TheVariants as places;
ghost use Rattle.p3l_skel.specs.Examples.{checked, four_cut};
ghost use Rattle.p3l_network_tests.specs.WithPart.{two_modules, with_part, four_map, reduce_of};

use p3l_base::{Cut, Dim, List, Name, NoMemory, Outcome, Place, Slice, Trap, TrapKind, Words};
use p3l_skel::{Form, ModuleInfo, ModuleKind, Node, Tree, Units};
use std::alloc::Global;

/// The list of one slice, over four words of which each is an element.
fn slices_of_four(alloc: Global) -> Result<List<Slice>, NoMemory>
    ensures { IfGiven result (λ slices. slices
        ≡ record { start = 0; dims = record { size = 4; place = places.First } ∷ [] } ∷ []) }
{
    let mut dims = List::new(alloc);
    dims.push(Dim {
        size: 4,
        place: Place::First,
    })?;
    let mut slices = List::new(alloc);
    slices.push(Slice { start: 0, dims })?;
    Ok(slices)
}

/// The cut of four words, one by one.
fn cut_of_four(alloc: Global) -> Result<Cut, NoMemory>
    ensures { IfGiven result (λ cut. cut ≡ four_cut) }
{
    let ins = slices_of_four(alloc)?;
    let outs = slices_of_four(alloc)?;
    Ok(Cut {
        first: 4,
        second: 1,
        ins,
        outs,
    })
}

/// Puts a module after the others.
pub fn add(
    alloc: Global,
    modules: &mut List<ModuleInfo>,
    name: &str,
    kind: ModuleKind,
) -> Result<(), NoMemory>
    ensures ok { OnGiven result (modules.new
        ≡ modules.old ++ record { name = name.now; kind = kind; rescue = None } ∷ []) }
{
    let name = Name::from_text(alloc, name)?;
    modules.push(ModuleInfo {
        name,
        kind,
        rescue: None,
    })
}

/// The modules of a root of this kind and of its part.
fn modules_of(alloc: Global, kind: ModuleKind) -> Result<List<ModuleInfo>, NoMemory>
    ensures { IfGiven result (λ modules. modules ≡ two_modules kind) }
{
    let mut modules = List::new(alloc);
    add(alloc, &mut modules, "main", kind)?;
    add(alloc, &mut modules, "part", ModuleKind::Seq)?;
    Ok(modules)
}

/// The tree of a root of this form and kind with a part, and the words that both take and give.
fn tree_of(
    alloc: Global,
    form: Form,
    kind: ModuleKind,
    root: (u32, u32),
    part: (u32, u32),
) -> Result<Tree, NoMemory>
    ensures { IfGiven result (λ tree. tree ≡ with_part form kind root.0 root.1 part.0 part.1) }
{
    let mut nodes = List::new(alloc);
    nodes.push(Node {
        form,
        module: 0,
        ins: root.0,
        outs: root.1,
        parts: List::from_vec(Vec::from_slice(alloc, &[1])?),
    })?;
    nodes.push(Node {
        form: Form::Seq,
        module: 1,
        ins: part.0,
        outs: part.1,
        parts: List::new(alloc),
    })?;
    let modules = modules_of(alloc, kind)?;
    Ok(Tree { nodes, modules })
}

/// The tree of a map of four words, one by one.
pub fn tree_of_map(alloc: Global) -> Result<Tree, NoMemory>
    ensures { IfGiven result (λ tree. tree ≡ four_map) }
{
    let form = Form::Map {
        workers: None,
        cut: cut_of_four(alloc)?,
    };
    tree_of(alloc, form, ModuleKind::Map, (4, 4), (1, 1))
}

/// The tree of a reduce of this number of words.
pub fn tree_of_reduce(alloc: Global, len: u32) -> Result<Tree, NoMemory>
    ensures { IfGiven result (λ tree. tree ≡ reduce_of len) }
{
    let form = Form::Reduce {
        workers: None,
        len,
        elem: 1,
    };
    tree_of(alloc, form, ModuleKind::Reduce, (len, 1), (2, 1))
}

/// The outcome of one word.
fn value(alloc: Global, word: i64) -> Result<Outcome, NoMemory>
    ensures { IfGiven result (λ outcome. outcome ≡ Value (word ∷ [])) }
{
    let mut words = Words::new(alloc);
    words.push(word)?;
    Ok(Outcome::Value(words))
}

/// The number, or a trap where it is 0 and another one where it is below.
fn checked(alloc: Global, word: i64) -> Result<Outcome, NoMemory>
    ensures { IfGiven result (λ outcome. outcome ≡ checked (word ∷ [])) }
{
    if word == 0 {
        return Ok(Outcome::Trapped(Trap {
            kind: TrapKind::DivZero,
            module: 1,
        }));
    }
    if word < 0 {
        return Ok(Outcome::Trapped(Trap {
            kind: TrapKind::Shift,
            module: 1,
        }));
    }
    value(alloc, word)
}

/// Word `k` of several.
pub fn word(words: &Words, k: usize) -> i64
    requires { k < length words.now }
    ensures { result ≡ slice_index_or words.now k (pos 0) }
{
    words.as_slice()[k]
}

/// The outcome of the first of some words.
pub fn first_value(alloc: Global, words: &Words) -> Result<Outcome, NoMemory>
    requires { 0 < length words.now }
    ensures { IfGiven result (λ outcome. outcome ≡ Value (slice_index_or words.now 0 (pos 0) ∷ [])) }
{
    value(alloc, word(words, 0))
}

/// Returns what the part of the map makes of one word.
fn checked_word(alloc: Global, words: &Words) -> Result<Outcome, NoMemory>
    requires { 0 < length words.now }
    ensures { IfGiven result (λ outcome. outcome ≡ checked (slice_index_or words.now 0 (pos 0) ∷ [])) }
{
    checked(alloc, word(words, 0))
}

/// Units that check the elements of the map. Other nodes are not run by the tests: they are
/// refused.
pub struct Checks;

impl Units for Checks {
    ghost use Rattle.p3l_network_tests.specs.WithPart.{four_map, checks};
    ghost use Rattle.p3l_network_tests.specs.WithPartLaws.{checks_give};

    ghost tree = { λ _. four_map };

    ghost leaf = { λ _. checks };

    ghost may_want = { true };

    ghost gives_outs = { λ _. checks_give };

    fn run(&self, alloc: Global, node: u32, words: &Words) -> Result<Outcome, NoMemory> {
        if node == 1 && words.len() == 1 {
            return checked_word(alloc, words);
        }
        Err(NoMemory)
    }
}

/// The difference of two words, where it fits.
pub fn minus(left: i64, right: i64) -> Option<i64>
    ensures { IfSome result (λ word. word ≡ left -ℤ right) }
{
    left.checked_sub(right)
}

/// The outcome of the difference of two words; refused where it doesn't fit.
fn difference(alloc: Global, words: &Words) -> Result<Outcome, NoMemory>
    requires { 1 < length words.now }
    ensures { IfOk result (λ outcome. outcome ≡ Value ((slice_index_or words.now 0 (pos 0)
        -ℤ slice_index_or words.now 1 (pos 0)) ∷ [])) }
{
    match minus(word(words, 0), word(words, 1)) {
        Some(word) => value(alloc, word),
        None => Err(NoMemory),
    }
}

/// The outcome of the fold of three words: the first less the difference of the others.
fn difference_of_three(alloc: Global, words: &Words) -> Result<Outcome, NoMemory>
    requires { 2 < length words.now }
    ensures { IfOk result (λ outcome. outcome ≡ Value ((slice_index_or words.now 0 (pos 0)
        -ℤ (slice_index_or words.now 1 (pos 0) -ℤ slice_index_or words.now 2 (pos 0))) ∷ [])) }
{
    let Some(rest) = minus(word(words, 1), word(words, 2)) else {
        return Err(NoMemory);
    };
    match minus(word(words, 0), rest) {
        Some(word) => value(alloc, word),
        None => Err(NoMemory),
    }
}

/// Units that fold segments of two or three words by differences, and subtract. Other segments are
/// refused: the tests have none.
pub struct Subtracts;

impl Units for Subtracts {
    ghost use Rattle.p3l_network_tests.specs.WithPart.{five_reduce, subtracts};
    ghost use Rattle.p3l_network_tests.specs.WithPartLaws.{subtracts_give};

    ghost tree = { λ _. five_reduce };

    ghost leaf = { λ _. subtracts };

    ghost may_want = { true };

    ghost gives_outs = { λ _. subtracts_give };

    fn run(&self, alloc: Global, node: u32, words: &Words) -> Result<Outcome, NoMemory> {
        if words.len() == 2 {
            return difference(alloc, words);
        }
        if node == 0 && words.len() == 3 {
            return difference_of_three(alloc, words);
        }
        Err(NoMemory)
    }
}

/// Units that trap on any two words, so that only segments of one word have a value. Other segments
/// are refused: the tests have none.
pub struct Refuses;

impl Units for Refuses {
    ghost use Rattle.p3l_network_tests.specs.WithPart.{three_reduce};
    ghost use Rattle.p3l_network_tests.specs.WithPartLaws.{refusing_gives};
    ghost use Rattle.p3l_sketch.specs.Refusing.{refusing};

    ghost tree = { λ _. three_reduce };

    ghost leaf = { λ _. refusing };

    ghost may_want = { true };

    ghost gives_outs = { λ _. refusing_gives };

    fn run(&self, alloc: Global, node: u32, words: &Words) -> Result<Outcome, NoMemory> {
        if words.len() == 2 {
            return Ok(Outcome::Trapped(Trap {
                kind: TrapKind::DivZero,
                module: 0,
            }));
        }
        if node == 0 && words.len() == 1 {
            return first_value(alloc, words);
        }
        Err(NoMemory)
    }
}
