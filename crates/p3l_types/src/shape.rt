// Shapes of ports, and the sizes that brackets leave.

ghost use Rattle.std.specs.Prelude.{◌≡◌, ◌≤◌, ◌<◌, ◌^◌, length, min};
ghost use Rattle.p3l_base.specs.Limits.{most_words};
ghost use Rattle.p3l_base.specs.Memory.{IfGiven};
ghost use Rattle.std.specs.Option.{option_map};
ghost use Rattle.p3l_types.specs.Verdict.{Gives};
ghost use Rattle.p3l_types.specs.Shape.{product, size_of, sizes_of, shape_of, whole_sizes, sliced};

use crate::consts::{Consts, natural, place_of, value_of};
use p3l_ast::{Arg, Fault, Num, Port, SourceRefusal, Sub};
use p3l_base::limits::{MOST_SIZES, MOST_WORDS};
use p3l_base::{List, NoMemory};
use std::alloc::Global;

/// The sizes of a port or of what is left of one, the outermost first; a scalar has none.
#[derive(Debug, Drop)]
pub struct Shape {
    pub sizes: List<u32>,
}

/// The product of sizes, as far as 64 bits count.
pub fn product(sizes: &[u32]) -> u64
    ensures { result ≡ min (product sizes.now) u64.MAX }
{
    match sizes {
        [] => 1,
        [size, rest @ ..] => (*size as u64).saturating_mul(product(rest)),
    }
}

/// The number of words of a shape.
pub fn words_of(shape: &Shape) -> u32
    requires { product shape.now.sizes ≤ most_words }
    ensures { result ≡ product shape.now.sizes }
{
    product(shape.sizes.as_slice()) as u32
}

/// The size that comes after `k` others.
fn size_of(num: &Num, k: usize, consts: &Consts) -> Result<u32, SourceRefusal>
    ensures { result ≡ size_of consts.now k num.now }
{
    let value = natural(value_of(num, consts)?);
    if 1 <= value && value <= MOST_WORDS && k < MOST_SIZES {
        Ok(value as u32)
    } else {
        Err(SourceRefusal::At {
            fault: Fault::BadSize,
            pos: place_of(num),
        })
    }
}

/// The sizes of a port, one after another.
fn sizes_of(alloc: Global, nums: &[Num], consts: &Consts) -> Result<List<u32>, SourceRefusal>
    ensures { Gives result (sizes_of consts.now 0 nums.now) }
{
    let mut sizes = List::new(alloc);
    for (k, num) in nums.iter().enumerate() {
        sizes.push(size_of(num, k, consts)?)?;
    }
    Ok(sizes)
}

/// The shape of a port, whose sizes are numbers or names of constants.
pub fn shape_of(alloc: Global, port: &Port, consts: &Consts) -> Result<Shape, SourceRefusal>
    ensures { Gives result (shape_of consts.now port.now) }
{
    let sizes = sizes_of(alloc, port.sizes.as_slice(), consts)?;
    if product(sizes.as_slice()) > MOST_WORDS {
        return Err(SourceRefusal::At {
            fault: Fault::TooWide,
            pos: port.at.pos,
        });
    }
    Ok(Shape { sizes })
}

/// The sizes at the empty brackets.
fn whole_sizes(alloc: Global, subs: &[Sub], sizes: &[u32]) -> Result<List<u32>, NoMemory>
    requires { length subs.now ≡ length sizes.now }
    ensures { IfGiven result (λ left. left ≡ whole_sizes subs.now sizes.now) }
{
    let mut left = List::new(alloc);
    for (k, sub) in subs.iter().enumerate() {
        match sub {
            Sub::Whole => left.push(sizes[k])?,
            Sub::Free(_) => {}
        }
    }
    Ok(left)
}

/// The shape that the brackets of an argument leave: the sizes at the empty ones, or the whole shape
/// after a plain name. None if there are brackets, but not one for each size.
pub fn sliced(alloc: Global, arg: &Arg, shape: &Shape) -> Result<Option<Shape>, NoMemory>
    ensures { IfGiven result (λ left. left ≡ sliced arg.now.subs shape.now) }
{
    let subs = arg.subs.as_slice();
    let sizes = shape.sizes.as_slice();
    if subs.is_empty() {
        let sizes = List::from_vec(sizes.to_vec(alloc)?);
        return Ok(Some(Shape { sizes }));
    }
    if subs.len() != sizes.len() {
        return Ok(None);
    }
    let sizes = whole_sizes(alloc, subs, sizes)?;
    Ok(Some(Shape { sizes }))
}
