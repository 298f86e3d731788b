// The numbers of a module's clauses.

ghost use Rattle.std.specs.Prelude.{◌≡◌};
ghost use Rattle.p3l_check.specs.Clauses.{workers_upto, farm_workers, map_workers, is_power, as_power, reduce_workers, turns_of, tokens_of, no_rescue, rescue_in};

use p3l_ast::{Clauses, Fault, Kind, Num, Pos, Rescue, SourceRefusal};
use p3l_base::limits::{MOST_TOKENS, MOST_TURNS, MOST_WORKERS};
use p3l_body::{budget_of, limited, rescue_of};
use p3l_types::{Consts, place_of};

/// The items that are in a loop at once, where no clause says it.
const USUAL_TOKENS: u32 = 4;

/// The numbers of workers that a reduce may have.
const POWERS: [u32; 10] = [1, 2, 4, 8, 16, 32, 64, 128, 256, 512];

/// The workers of a clause, 1 to `most`.
fn workers_upto(
    most: u32,
    consts: &Consts,
    clause: &Option<Num>,
) -> Result<Option<u32>, SourceRefusal>
    ensures { result ≡ workers_upto most consts.now clause.now }
{
    match clause {
        Some(num) => Ok(Some(limited(1, most, consts, num)?)),
        None => Ok(None),
    }
}

/// The workers of a farm.
pub fn farm_workers(consts: &Consts, clause: &Option<Num>) -> Result<Option<u32>, SourceRefusal>
    ensures { result ≡ farm_workers consts.now clause.now }
{
    workers_upto(MOST_WORKERS, consts, clause)
}

/// The workers of a map with `elements` elements.
pub fn map_workers(
    elements: u64,
    consts: &Consts,
    clause: &Option<Num>,
) -> Result<Option<u32>, SourceRefusal>
    ensures { result ≡ map_workers elements consts.now clause.now }
{
    workers_upto(elements.min(MOST_WORKERS as u64) as u32, consts, clause)
}

/// True if a reduce of any length may have this number of workers.
fn is_power(workers: u32) -> bool
    ensures { result ≡ is_power workers }
{
    POWERS.iter().any(|power| *power == workers)
}

/// A number of workers that must be a power of two.
fn as_power(num: &Num, workers: u32) -> Result<Option<u32>, SourceRefusal>
    ensures { result ≡ as_power num.now workers }
{
    if is_power(workers) {
        Ok(Some(workers))
    } else {
        Err(SourceRefusal::At {
            fault: Fault::BadWorkers,
            pos: place_of(num),
        })
    }
}

/// The workers of a reduce with `len` elements.
pub fn reduce_workers(
    len: u32,
    consts: &Consts,
    clause: &Option<Num>,
) -> Result<Option<u32>, SourceRefusal>
    ensures { result ≡ reduce_workers len consts.now clause.now }
{
    match clause {
        Some(num) => as_power(num, limited(1, len.min(MOST_WORKERS), consts, num)?),
        None => Ok(None),
    }
}

/// The turns of a loop at this place.
pub fn turns_of(pos: Pos, consts: &Consts, clause: &Option<Num>) -> Result<u32, SourceRefusal>
    ensures { result ≡ turns_of pos consts.now clause.now }
{
    match clause {
        Some(num) => limited(1, MOST_TURNS, consts, num),
        None => Err(SourceRefusal::At {
            fault: Fault::Expected,
            pos,
        }),
    }
}

/// The items that are in a loop at once.
pub fn tokens_of(consts: &Consts, clause: &Option<Num>) -> Result<u32, SourceRefusal>
    ensures { result ≡ tokens_of consts.now clause.now }
{
    match clause {
        Some(num) => limited(1, MOST_TOKENS, consts, num),
        None => Ok(USUAL_TOKENS),
    }
}

/// No rescue, as no text spells one of the module at this place.
fn no_rescue(pos: Pos, clause: &Option<Rescue>) -> Result<Option<i64>, SourceRefusal>
    ensures { result ≡ no_rescue pos clause.now }
{
    match clause {
        Some(_) => Err(SourceRefusal::At {
            fault: Fault::Expected,
            pos,
        }),
        None => Ok(None),
    }
}

/// The rescue number of a module at this place, if it has one, after the rule of a
/// `seq` module's budget.
pub fn rescue_in(
    kind: Kind,
    pos: Pos,
    consts: &Consts,
    clauses: &Clauses,
) -> Result<Option<i64>, SourceRefusal>
    ensures { result ≡ rescue_in kind pos consts.now clauses.now }
{
    match kind {
        Kind::Seq => {
            budget_of(consts, &clauses.budget)?;
            rescue_of(consts, &clauses.rescue)
        }
        Kind::Comp => rescue_of(consts, &clauses.rescue),
        Kind::Pipe | Kind::Farm | Kind::Map | Kind::Reduce | Kind::Loop => {
            no_rescue(pos, &clauses.rescue)
        }
    }
}
