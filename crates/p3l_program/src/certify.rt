// The command `explain` with a file for the certificate of the counts.

ghost use Rattle.std.specs.Prelude.{◌≡◌, ◌∷◌, ◌≤◌, []};
ghost use Rattle.p3l_io.specs.Change.{change};
ghost use Rattle.p3l_program.specs.Certificate.{IsCertificate};
ghost use Rattle.p3l_program.specs.Explain.{IsExplained};
ghost use Rattle.p3l_program.specs.Saved.{IsSavingExpected, KeepsFiles};
ghost use Rattle.p3l_program.specs.Stage.{build_stages};
ghost use Rattle.p3l_program.specs.Wants.{Wants};

use crate::plan::{Allotted, allot};
use crate::save::save;
use crate::text::write_text;
use p3l_alloc::allocation_text;
use p3l_base::Name;
use p3l_cert::cert_text;
use p3l_io::{Files, Sink};
use p3l_opts::Build;
use p3l_report::Verdict;
use std::alloc::Global;

/// Writes the counts that are chosen for the program of a file, and before that the certificate that
/// they are the best to the file of another name.
pub fn certify<F: Files, K: Sink>(
    alloc: Global,
    build: Build,
    name: Name,
    files: &mut F,
    out: &mut K,
) -> Verdict
    requires processors { (1 ≤ build.processors) × (build.processors ≤ 512) }
    ensures expected { IsSavingExpected (change (F.observed files.old) (F.observed files.new))
        (change (K.observed out.old) (K.observed out.new)) (build_stages build)
        (IsExplained (F.observed files.old).content build) name
        (IsCertificate (F.observed files.old).content build) result }
    ensures kept { KeepsFiles (change (F.observed files.old) (F.observed files.new)) (name ∷ [])
        result }
    ensures wants { Wants F.may_want result }
{
    let processors = build.processors;
    let Allotted {
        program,
        costs,
        choice,
    } = match allot(alloc, build, files) {
        Ok(loaded) => loaded,
        Err(verdict) => return verdict,
    };
    let tree = program.tree;
    let Ok(text) = allocation_text(alloc, &tree, &costs, processors, &choice) else {
        return Verdict::NoMemory;
    };
    let Ok(cert) = p3l_cert::certify(
        alloc,
        &tree,
        &costs,
        processors,
        &choice.counts,
        choice.service,
        choice.used,
    ) else {
        return Verdict::NoMemory;
    };
    let Ok(certificate) = cert_text(alloc, &cert) else {
        return Verdict::NoMemory;
    };
    match save(alloc, &name, certificate.as_slice(), files) {
        Ok(()) => write_text(text.as_slice(), out),
        Err(verdict) => verdict,
    }
}
