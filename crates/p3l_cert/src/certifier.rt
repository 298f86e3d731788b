// Certificates made of optimal numbers of workers.

ghost use Rattle.std.specs.Prelude.{◌≡◌, ◌<◌, ◌≤◌, true, IfOk};
ghost use Rattle.p3l_base.specs.Memory.{IfGiven};
ghost use Rattle.p3l_base.specs.Limits.{most_processors};
ghost use Rattle.p3l_skel.specs.Lawful.{IsLawfulTree};
ghost use Rattle.p3l_skel.specs.Numbers.{procs};
ghost use Rattle.p3l_cost.specs.Costs.{AreCostsOf};
ghost use Rattle.p3l_model.specs.NodeCost.{never};
ghost use Rattle.p3l_model.specs.Optimal.{IsOptimal};
ghost use Rattle.p3l_model.specs.Service.{service as service_of};
ghost use Rattle.p3l_cert.specs.Certified.{AreNeededRows};
ghost use Rattle.p3l_cert.specs.Checker.{CertHolds};
ghost use Rattle.p3l_cert.specs.Keys.{needed_keys};
ghost use Rattle.p3l_cert.specs.Table.{IsTable};
ghost use Rattle.p3l_cert.specs.Text.{cert_format};

use crate::cert::{Cert, Key, Row};
use crate::fill::{fill_all, rows_of};
use crate::keys::{push_keys, sort};
use crate::table::table;
use p3l_base::{List, NoMemory};
use p3l_cost::Costs;
use p3l_model::NodeCost;
use p3l_skel::tree::NESTING;
use p3l_skel::{Counts, Tree};
use std::alloc::Global;

// The keys of the rows that a certificate of this service time needs.
fn needed_keys(
    alloc: Global,
    tree: &Tree,
    costs: &Costs,
    table: &[Option<NodeCost>],
    service: u128,
    processors: u32,
) -> Result<Vec<Key>, NoMemory>
    requires tree { IsLawfulTree tree.now }
    requires costs { AreCostsOf tree.now costs.now }
    requires table { IsTable tree.now costs.now table.now }
    requires service { service < never }
    requires some { 1 ≤ processors }
    requires few { processors ≤ most_processors }
    ensures { IfGiven result (λ keys. keys.items ≡ needed_keys tree.now costs.now service processors) }
{
    let mut keys = Vec::new(alloc);
    let now = Key {
        node: 0,
        bound: service,
        cap: processors,
    };
    push_keys(alloc, tree, costs, table, NESTING, now, &mut keys)?;
    if service == 0 {
        return Ok(keys);
    }
    let sooner = Key {
        node: 0,
        bound: service - 1,
        cap: processors,
    };
    push_keys(alloc, tree, costs, table, NESTING, sooner, &mut keys)?;
    Ok(keys)
}

// The rows that a certificate of this service time needs.
fn needed_rows(
    alloc: Global,
    tree: &Tree,
    costs: &Costs,
    service: u128,
    processors: u32,
) -> Result<Vec<Row>, NoMemory>
    requires tree { IsLawfulTree tree.now }
    requires costs { AreCostsOf tree.now costs.now }
    requires service { service < never }
    requires some { 1 ≤ processors }
    requires few { processors ≤ most_processors }
    ensures { IfGiven result (λ rows. AreNeededRows tree.now costs.now service processors rows.items) }
{
    let table = table(alloc, tree, costs)?;
    let mut keys = needed_keys(alloc, tree, costs, table.as_slice(), service, processors)?;
    sort(&mut keys);
    let mut rows = rows_of(alloc, keys.as_slice())?;
    fill_all(tree, costs, table.as_slice(), &mut rows);
    Ok(rows)
}

// A copy of some numbers.
fn copied(alloc: Global, numbers: &[u32]) -> Result<List<u32>, NoMemory>
    ensures { IfGiven result (λ list. list ≡ numbers.now) }
{
    let mut items = Vec::new(alloc);
    items.extend_from_slice(numbers)?;
    Ok(List::from_vec(items))
}

/// The certificate of optimal numbers of workers for a number of processors, with their service
/// time and the processes that they make: exactly the rows from which it follows.
pub fn certify(
    alloc: Global,
    tree: &Tree,
    costs: &Costs,
    processors: u32,
    counts: &Counts,
    service: u128,
    used: u32,
) -> Result<Cert, NoMemory>
    requires tree { IsLawfulTree tree.now }
    requires costs { AreCostsOf tree.now costs.now }
    requires some { 1 ≤ processors }
    requires few { processors ≤ most_processors }
    requires optimal { IsOptimal tree.now costs.now processors counts.now.list }
    requires service { service ≡ service_of tree.now costs.now counts.now.list 0 }
    requires used { used ≡ procs tree.now counts.now.list 0 }
    ensures claims { IfGiven result (λ cert. (cert.processors ≡ processors)
        × (cert.counts.list ≡ counts.now.list) × (cert.service ≡ service) × (cert.used ≡ used)) }
    ensures rows { IfOk result (λ cert.
        AreNeededRows tree.now costs.now service processors cert.rows) }
    ensures form { IfOk result (λ cert. cert_format.fits cert ≡ true) }
    ensures holds { IfOk result (CertHolds tree.now costs.now) }
{
    let rows = needed_rows(alloc, tree, costs, service, processors)?;
    let list = copied(alloc, counts.list.as_slice())?;
    Ok(Cert {
        processors,
        counts: Counts { list },
        service,
        used,
        rows: List::from_vec(rows),
    })
}
