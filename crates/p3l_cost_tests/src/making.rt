// Certificates of trees: made, and read again.

use p3l_alloc::choose;
use p3l_base::List;
use p3l_cert::{CertRefusal, cert_text, certify, check, read_cert};
use p3l_cost::{Costs, lawful_costs};
use p3l_skel::{Tree, lawful_tree};
use std::alloc::Global;
use std::process::Abort;
use std::test::Fail;

/// The text of the certificate of the counts that are chosen for this number of processors. It holds.
pub fn made(
    rt: &impl Abort,
    alloc: Global,
    tree: &Tree,
    costs: &Costs,
    processors: u32,
) -> Result<List<u8>, Fail> {
    assert!(rt; lawful_tree(tree));
    assert!(rt; lawful_costs(tree, costs));
    assert!(rt; 1 <= processors && processors <= 512);
    let choice = choose(alloc, tree, costs, processors)
        .ok()
        .ok_or("enough processors")?;
    let cert = certify(
        alloc,
        tree,
        costs,
        processors,
        &choice.counts,
        choice.service,
        choice.used,
    )?;
    assert!(rt; check(alloc, tree, costs, &cert).is_ok());
    Ok(cert_text(alloc, &cert)?)
}

/// Why a text is no certificate of a tree that holds at these costs, if it isn't one.
pub fn refusal(
    rt: &impl Abort,
    alloc: Global,
    tree: &Tree,
    costs: &Costs,
    text: &[u8],
) -> Option<CertRefusal> {
    assert!(rt; lawful_tree(tree));
    assert!(rt; lawful_costs(tree, costs));
    match read_cert(alloc, text) {
        Err(refusal) => Some(refusal),
        Ok(cert) => check(alloc, tree, costs, &cert).err(),
    }
}
