// The checker of certificates.

ghost use Rattle.std.specs.Prelude.{◌≡◌, ◌≤◌, Some, OnOk, IfOk, IfErr, true};
ghost use Rattle.p3l_base.specs.Limits.{most_processors};
ghost use Rattle.p3l_skel.specs.Counts.{HasLawfulCounts};
ghost use Rattle.p3l_skel.specs.Lawful.{IsLawfulTree};
ghost use Rattle.p3l_cost.specs.Costs.{AreCostsOf};
ghost use Rattle.p3l_model.specs.Optimal.{IsOptimal};
ghost use Rattle.p3l_cert.specs.declared.cert.CertRefusal.TheVariants as refusals;
ghost use Rattle.p3l_cert.specs.Checker.{CertHolds, Answers, IsAnswer, claims_fault, row_fault, rows_fault, there_fault, least_fault, top_fault, cert_fault};
ghost use Rattle.p3l_cert.specs.Rows.{AreRows, IsInRange};
ghost use Rattle.p3l_cert.specs.Rule.{key, kept};
ghost use Rattle.p3l_cert.specs.Table.{IsTable};
ghost use Rattle.p3l_cert.specs.Text.{cert_format};

use crate::cert::{Cert, CertRefusal, Claim, Key, Row};
use crate::find::needed;
use crate::table::{rule, table};
use p3l_cost::Costs;
use p3l_model::{NodeCost, procs, service};
use p3l_skel::Tree;
use p3l_skel::counts::lawful_counts;
use std::alloc::Global;

// Tells whether lawful counts have the service time and the processes that are said of them, and
// fit.
fn check_claims(tree: &Tree, costs: &Costs, cert: &Cert) -> Result<(), CertRefusal>
    requires tree { IsLawfulTree tree.now }
    requires costs { AreCostsOf tree.now costs.now }
    requires counts { HasLawfulCounts tree.now cert.now.counts.list }
    ensures { Answers result (claims_fault tree.now costs.now cert.now) }
{
    if cert.service != service(tree, costs, &cert.counts, 0) {
        return Err(CertRefusal::ClaimWrong(Claim::Service));
    }
    if cert.used as u64 != procs(tree, &cert.counts, 0) {
        return Err(CertRefusal::ClaimWrong(Claim::Used));
    }
    if cert.used > cert.processors {
        return Err(CertRefusal::ClaimWrong(Claim::Fits));
    }
    Ok(())
}

// Tells whether the rule of the row of this number finds its least.
fn check_row(
    tree: &Tree,
    costs: &Costs,
    table: &[Option<NodeCost>],
    rows: &[Row],
    number: u64,
    row: &Row,
) -> Result<(), CertRefusal>
    requires tree { IsLawfulTree tree.now }
    requires costs { AreCostsOf tree.now costs.now }
    requires table { IsTable tree.now costs.now table.now }
    requires rows { AreRows rows.now }
    requires row { IsInRange row.now }
    ensures { Answers result (row_fault tree.now costs.now rows.now number row.now) }
{
    match rule(tree, costs, table, rows, row) {
        Err(missing) => Err(CertRefusal::RowMissing {
            row: number,
            node: missing.node,
            bound: missing.bound,
            cap: missing.cap,
        }),
        Ok(found) => {
            if found == row.least {
                return Ok(());
            }
            Err(CertRefusal::RowWrong {
                row: number,
                kept: row.least,
                found,
            })
        }
    }
}

// Tells whether each row follows by its rule.
fn check_rows(
    tree: &Tree,
    costs: &Costs,
    table: &[Option<NodeCost>],
    rows: &[Row],
) -> Result<(), CertRefusal>
    requires tree { IsLawfulTree tree.now }
    requires costs { AreCostsOf tree.now costs.now }
    requires table { IsTable tree.now costs.now table.now }
    requires rows { AreRows rows.now }
    ensures { Answers result (rows_fault tree.now costs.now rows.now 0 rows.now) }
{
    for number in 0..rows.len() {
        check_row(tree, costs, table, rows, number as u64, &rows[number])?;
    }
    Ok(())
}

// The least of the root within a bound and a cap, which has to be among the rows.
fn root_least(rows: &[Row], bound: u128, cap: u32) -> Result<u32, CertRefusal>
    requires { AreRows rows.now }
    ensures fault { Answers result (there_fault rows.now (key 0 bound cap)
        (kept rows.now (key 0 bound cap))) }
    ensures least { IfOk result (λ least. kept rows.now (key 0 bound cap) ≡ Some least) }
{
    match needed(
        rows,
        Key {
            node: 0,
            bound,
            cap,
        },
    ) {
        Ok(least) => Ok(least),
        Err(missing) => Err(CertRefusal::RowMissing {
            row: rows.len() as u64,
            node: missing.node,
            bound: missing.bound,
            cap: missing.cap,
        }),
    }
}

// Tells whether a row of the root keeps a number.
fn check_least(kept: u32, least: u32) -> Result<(), CertRefusal>
    ensures { Answers result (least_fault (Some kept) least) }
{
    if kept == least {
        return Ok(());
    }
    Err(CertRefusal::ClaimWrong(Claim::Least))
}

// Tells whether the rows of the root are there, and say that no counts are better.
fn check_top(cert: &Cert) -> Result<(), CertRefusal>
    requires rows { AreRows cert.now.rows }
    requires processors { cert.now.processors ≤ most_processors }
    ensures { Answers result (top_fault cert.now) }
{
    let rows = cert.rows.as_slice();
    let now = root_least(rows, cert.service, cert.processors)?;
    if cert.service == 0 {
        return check_least(now, cert.used);
    }
    let before = root_least(rows, cert.service - 1, cert.processors)?;
    check_least(now, cert.used)?;
    check_least(before, cert.processors + 1)
}

// Tells whether a certificate of lawful counts holds.
#[tactic(auto, unfolding(crate::specs::Checker::cert_fault))]
fn check_lawful(alloc: Global, tree: &Tree, costs: &Costs, cert: &Cert) -> Result<(), CertRefusal>
    requires tree { IsLawfulTree tree.now }
    requires costs { AreCostsOf tree.now costs.now }
    requires counts { HasLawfulCounts tree.now cert.now.counts.list }
    requires rows { AreRows cert.now.rows }
    requires processors { cert.now.processors ≤ most_processors }
    ensures { Answers result (cert_fault tree.now costs.now cert.now) }
{
    check_claims(tree, costs, cert)?;
    let table = table(alloc, tree, costs)?;
    check_rows(tree, costs, table.as_slice(), cert.rows.as_slice())?;
    check_top(cert)
}

/// Tells whether a certificate holds, whoever wrote it: its counts are lawful, and come to what it
/// says of them; each of its rows follows by its rule from its rows; and the rows of the root say
/// that its counts are optimal. Else the first of these tests that fails, in this order.
pub fn check(alloc: Global, tree: &Tree, costs: &Costs, cert: &Cert) -> Result<(), CertRefusal>
    requires tree { IsLawfulTree tree.now }
    requires costs { AreCostsOf tree.now costs.now }
    requires form { cert_format.fits cert.now ≡ true }
    ensures answer { IsAnswer tree.now costs.now cert.now result }
    ensures holds { OnOk result (CertHolds tree.now costs.now cert.now) }
    ensures optimal { OnOk result (IsOptimal tree.now costs.now cert.now.processors
        cert.now.counts.list) }
    // It refuses no certificate that holds.
    ensures accepts { CertHolds tree.now costs.now cert.now
        → IfErr result (λ refusal. refusal ≡ refusals.NoMemory) }
{
    if !lawful_counts(tree, &cert.counts) {
        return Err(CertRefusal::ClaimWrong(Claim::Counts));
    }
    check_lawful(alloc, tree, costs, cert)
}
