// Cuts of matrices and cubes, and the tokens that results fill.

ghost use Rattle.std.specs.Prelude.{◌≡◌, ◌+◌, ◌≤◌, List, [], ◌∷◌, ◌++◌, IfOk};
ghost use Rattle.p3l_base.specs.Memory.{IfGiven, OnGiven};
ghost use Rattle.p3l_base.specs.Cut.{HasLawfulOuts, element_count, element_size};
ghost use Rattle.p3l_base.specs.Slice.{array_size, AreFreeIndices};

use p3l_base::{Cut, Dim, List, NoMemory, Place, Slice, Words, cut_at, join};
use std::alloc::Global;
use std::test::Fail;

const REST_2: Dim = Dim {
    size: 2,
    place: Place::Rest,
};

const REST_3: Dim = Dim {
    size: 3,
    place: Place::Rest,
};

const FIRST_2: Dim = Dim {
    size: 2,
    place: Place::First,
};

const FIRST_3: Dim = Dim {
    size: 3,
    place: Place::First,
};

const SECOND_2: Dim = Dim {
    size: 2,
    place: Place::Second,
};

fn slice_of(alloc: Global, start: u32, dims: &[Dim]) -> Result<Slice, NoMemory>
    ensures { IfGiven result (λ slice. slice ≡ record { start = start; dims = dims.now }) }
{
    Ok(Slice {
        start,
        dims: List::from_vec(Vec::from_slice(alloc, dims)?),
    })
}

// The cut of the numbers from 1 on.
fn cut_of_count(alloc: Global, start: u32, dims: &[Dim], i: u32, j: u32) -> Result<Words, NoMemory>
    requires within { start + array_size dims.now ≤ 12 }
    requires free { AreFreeIndices dims.now i j }
{
    let slice = slice_of(alloc, start, dims)?;
    let count = [1, 2, 3, 4, 5, 6, 7, 8, 9, 10, 11, 12];
    let words = Words::from_vec(Vec::from_slice(alloc, &count)?);
    cut_at(alloc, &slice, &words, i, j)
}

#[test]
fn rows_and_columns(rt: HostRuntime) -> Result<(), Fail> {
    let alloc = rt.alloc();
    let row = cut_of_count(alloc, 0, &[FIRST_2, REST_2], 1, 0)?;
    assert_eq!(rt; row.as_slice(), [3, 4].as_slice());
    let column = cut_of_count(alloc, 4, &[REST_2, SECOND_2], 0, 1)?;
    assert_eq!(rt; column.as_slice(), [6, 8].as_slice());
    let low_row = cut_of_count(alloc, 0, &[FIRST_3, REST_2], 2, 0)?;
    assert_eq!(rt; low_row.as_slice(), [5, 6].as_slice());
    let long_column = cut_of_count(alloc, 0, &[REST_3, FIRST_2], 1, 0)?;
    assert_eq!(rt; long_column.as_slice(), [2, 4, 6].as_slice());
    Ok(())
}

#[test]
fn lines_and_planes_of_a_cube(rt: HostRuntime) -> Result<(), Fail> {
    let alloc = rt.alloc();
    let line = cut_of_count(alloc, 0, &[FIRST_2, REST_3, SECOND_2], 1, 0)?;
    assert_eq!(rt; line.as_slice(), [7, 9, 11].as_slice());
    let plane = cut_of_count(alloc, 0, &[REST_2, FIRST_3, REST_2], 2, 0)?;
    assert_eq!(rt; plane.as_slice(), [5, 6, 11, 12].as_slice());
    Ok(())
}

/// Puts these words after the other results.
fn put(alloc: Global, results: &mut List<Words>, words: &[i64]) -> Result<(), NoMemory>
    ensures { OnGiven result (results.new ≡ results.old ++ words.now ∷ []) }
{
    results.push(Words::from_vec(Vec::from_slice(alloc, words)?))
}

/// The cut whose elements are the words of a 2 by 2 matrix.
fn cut_of_a_matrix(alloc: Global) -> Result<Cut, NoMemory>
    ensures lawful { IfGiven result HasLawfulOuts }
    ensures elements { IfOk result (λ cut. element_count cut ≡ 4) }
    ensures words { IfOk result (λ cut. element_size cut.outs ≡ 1) }
{
    let mut outs = List::new(alloc);
    outs.push(slice_of(alloc, 0, &[FIRST_2, SECOND_2])?)?;
    Ok(Cut {
        first: 2,
        second: 2,
        ins: List::new(alloc),
        outs,
    })
}

#[test]
fn elements_fill_a_matrix(rt: HostRuntime) -> Result<(), Fail> {
    let alloc = rt.alloc();
    let cut = cut_of_a_matrix(alloc)?;
    let mut results = List::new(alloc);
    put(alloc, &mut results, &[19])?;
    put(alloc, &mut results, &[22])?;
    put(alloc, &mut results, &[43])?;
    put(alloc, &mut results, &[50])?;
    let token = join(alloc, &cut, &results)?;
    assert_eq!(rt; token.as_slice(), [19, 22, 43, 50].as_slice());
    Ok(())
}

/// The cut whose elements are two columns, each with its sum.
fn cut_of_columns(alloc: Global) -> Result<Cut, NoMemory>
    ensures lawful { IfGiven result HasLawfulOuts }
    ensures elements { IfOk result (λ cut. element_count cut ≡ 2) }
    ensures words { IfOk result (λ cut. element_size cut.outs ≡ 3) }
{
    let mut outs = List::new(alloc);
    outs.push(slice_of(alloc, 0, &[REST_2, FIRST_2])?)?;
    outs.push(slice_of(alloc, 4, &[FIRST_2])?)?;
    Ok(Cut {
        first: 2,
        second: 1,
        ins: List::new(alloc),
        outs,
    })
}

#[test]
fn results_fill_columns_and_sums(rt: HostRuntime) -> Result<(), Fail> {
    let alloc = rt.alloc();
    let cut = cut_of_columns(alloc)?;
    let mut results = List::new(alloc);
    put(alloc, &mut results, &[1, 2, 3])?;
    put(alloc, &mut results, &[4, 5, 6])?;
    let token = join(alloc, &cut, &results)?;
    assert_eq!(rt; token.as_slice(), [1, 4, 2, 5, 3, 6].as_slice());
    Ok(())
}
