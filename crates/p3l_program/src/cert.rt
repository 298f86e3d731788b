// The certificate of a program and its costs.

ghost use Rattle.std.specs.Prelude.{◌≡◌, IfOk, IfErr, OnOk};
ghost use Rattle.p3l_io.specs.Change.{HasSameContent, change};
ghost use Rattle.p3l_skel.specs.Lawful.{IsLawfulTree};
ghost use Rattle.p3l_cost.specs.Costs.{AreCostsOf};
ghost use Rattle.p3l_program.specs.Load.{IsNotLoaded};
ghost use Rattle.p3l_program.specs.LoadCert.{AcceptsCert, IsCertRefused, IsCertless, LoadsCert, LoadsVerified};
ghost use Rattle.p3l_program.specs.Stage.{verify_stages};
ghost use Rattle.p3l_program.specs.Wants.{Wants};

use crate::file::find_text;
use crate::plan::{load_costs, load_program};
use p3l_base::Name;
use p3l_cert::{Cert, CertRefusal, check, read_cert};
use p3l_cost::Costs;
use p3l_io::Files;
use p3l_report::{Evidence, Refusal, Verdict};
use p3l_skel::{Tree, lawful_counts};
use std::alloc::Global;

/// The most bytes of a file of a certificate.
pub const CERT_LIMIT: u64 = 268_435_456;

/// The certificate that a text spells, if it holds for a tree and its costs; else its first fault.
fn accept_cert(alloc: Global, tree: &Tree, costs: &Costs, text: &[u8]) -> Result<Cert, CertRefusal>
    requires lawful { IsLawfulTree tree.now }
    requires costs { AreCostsOf tree.now costs.now }
    ensures accepted { IfOk result (AcceptsCert tree.now costs.now text.now) }
    ensures refused { IfErr result (IsCertRefused tree.now costs.now text.now) }
{
    match read_cert(alloc, text) {
        Err(refusal) => Err(refusal),
        Ok(cert) => {
            // The checker says why memory ran out for lawful counts and for others apart.
            let lawful = lawful_counts(tree, &cert.counts);
            match check(alloc, tree, costs, &cert) {
                Err(refusal) => Err(refusal),
                Ok(()) => Ok(cert),
            }
        }
    }
}

/// The certificate of the file of this name, if it holds for a tree and its costs.
fn cert_in<F: Files>(
    alloc: Global,
    name: Name,
    tree: &Tree,
    costs: &Costs,
    files: &mut F,
) -> Result<Cert, Verdict>
    requires lawful { IsLawfulTree tree.now }
    requires costs { AreCostsOf tree.now costs.now }
    ensures loaded { IfOk result (LoadsCert (F.observed files.old).content name tree.now
        costs.now) }
    ensures unchanged { OnOk result (F.observed files.new ≡ F.observed files.old) }
    ensures refused { IfErr result
        (IsCertless (change (F.observed files.old) (F.observed files.new)) name tree.now
        costs.now) }
    ensures same_files { HasSameContent (change (F.observed files.old) (F.observed files.new)) }
    ensures wants { IfErr result (Wants F.may_want) }
{
    match find_text(alloc, name, CERT_LIMIT, files) {
        Err(refusal) => Err(Verdict::from(refusal)),
        Ok(text) => match accept_cert(alloc, tree, costs, text.as_slice()) {
            Ok(cert) => Ok(cert),
            Err(refusal) => Err(Verdict::from(Refusal::Evidence(Evidence::Cert(refusal)))),
        },
    }
}

/// The certificate of the file of the last name, if it holds for the program and the costs of the
/// others; or the verdict that there is none.
pub fn load_cert<F: Files>(
    alloc: Global,
    program: Name,
    costs: Option<Name>,
    name: Name,
    files: &mut F,
) -> Result<Cert, Verdict>
    ensures loaded { IfOk result (LoadsVerified (F.observed files.old).content program costs name) }
    ensures unchanged { OnOk result (F.observed files.new ≡ F.observed files.old) }
    ensures refused { IfErr result
        (IsNotLoaded (change (F.observed files.old) (F.observed files.new))
        (verify_stages program name costs)) }
    ensures same_files { HasSameContent (change (F.observed files.old) (F.observed files.new)) }
    ensures wants { IfErr result (Wants F.may_want) }
{
    let program = match load_program(alloc, program, files) {
        Ok(program) => program,
        Err(verdict) => return Err(verdict),
    };
    let costs = match load_costs(alloc, costs, &program.tree, files) {
        Ok(costs) => costs,
        Err(verdict) => return Err(verdict),
    };
    cert_in(alloc, name, &program.tree, &costs, files)
}
