// Shapes, what brackets leave of them, and constants.

use p3l_ast::{Arg, Num, Port, Pos, Spot, Sub};
use p3l_base::{List, Name, NoMemory};
use p3l_types::{Consts, Shape, product, shape_of, sliced, words_of};
use std::alloc::Global;
use std::test::Fail;

fn spot(alloc: Global, name: &str) -> Result<Spot, NoMemory> {
    Ok(Spot {
        name: Name::from_text(alloc, name)?,
        pos: Pos { line: 1, col: 1 },
    })
}

#[test]
fn constants(rt: HostRuntime) -> Result<(), Fail> {
    let alloc = rt.alloc();
    let mut consts = Consts::new(alloc)?;
    let name = Name::from_text(alloc, "N")?;
    assert!(rt; consts.get(&name).is_none());
    consts.add(alloc, &name, 3)?;
    assert_eq!(rt; consts.get(&name), Some(3));
    let copy = consts.copy()?;
    assert_eq!(rt; copy.get(&name), Some(3));
    Ok(())
}

/// The port `a[2][N]`.
fn port(alloc: Global) -> Result<Port, NoMemory> {
    let mut sizes = List::new(alloc);
    sizes.push(Num::Digits(2, Pos { line: 1, col: 1 }))?;
    sizes.push(Num::Named(spot(alloc, "N")?))?;
    Ok(Port {
        at: spot(alloc, "a")?,
        sizes,
    })
}

/// The constant `N`, which is 3.
fn consts(alloc: Global) -> Result<Consts, NoMemory> {
    let mut consts = Consts::new(alloc)?;
    let name = Name::from_text(alloc, "N")?;
    if consts.get(&name).is_none() {
        consts.add(alloc, &name, 3)?;
    }
    Ok(consts)
}

#[test]
fn shapes(rt: HostRuntime) -> Result<(), Fail> {
    let port = port(rt.alloc())?;
    let consts = consts(rt.alloc())?;
    let shape = shape_of(rt.alloc(), &port, &consts)?;
    assert_eq!(rt; shape.sizes.as_slice(), [2, 3].as_slice());
    Ok(())
}

/// The shape of two sizes.
fn shape(alloc: Global, first: u32, second: u32) -> Result<Shape, NoMemory> {
    let mut sizes = List::new(alloc);
    sizes.push(first)?;
    sizes.push(second)?;
    Ok(Shape { sizes })
}

/// Returns what these brackets leave of an array of 2 by 3.
fn slice(alloc: Global, subs: List<Sub>) -> Result<Shape, Fail> {
    let arg = Arg {
        at: spot(alloc, "a")?,
        subs,
    };
    let shape = shape(alloc, 2, 3)?;
    Ok(sliced(alloc, &arg, &shape)?.ok_or("none")?)
}

/// The brackets `[*i][]`.
fn rows(alloc: Global) -> Result<List<Sub>, NoMemory> {
    let mut subs = List::new(alloc);
    subs.push(Sub::Free(spot(alloc, "i")?))?;
    subs.push(Sub::Whole)?;
    Ok(subs)
}

#[test]
fn slices(rt: HostRuntime) -> Result<(), Fail> {
    let alloc = rt.alloc();
    let whole = slice(alloc, List::new(alloc))?;
    assert_eq!(rt; whole.sizes.as_slice(), [2, 3].as_slice());
    let row = slice(alloc, rows(alloc)?)?;
    assert_eq!(rt; row.sizes.as_slice(), [3].as_slice());
    Ok(())
}

#[test]
fn words(rt: HostRuntime) -> Result<(), Fail> {
    let shape = shape(rt.alloc(), 256, 256)?;
    if product(shape.sizes.as_slice()) == 65536 {
        assert_eq!(rt; words_of(&shape), 65536);
    }
    Ok(())
}
