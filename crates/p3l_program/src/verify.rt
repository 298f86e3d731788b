// The command `verify-cert`: whether a certificate holds for a program and its costs.

ghost use Rattle.std.specs.Prelude.{◌≡◌, string_bytes};
ghost use Rattle.p3l_base.specs.Memory.{IfGiven};
ghost use Rattle.p3l_io.specs.Change.{HasSameContent, change};
ghost use Rattle.p3l_program.specs.Text.{IsTextExpected};
ghost use Rattle.p3l_program.specs.Stage.{verify_stages};
ghost use Rattle.p3l_program.specs.Verify.{IsVerified, holds_line};
ghost use Rattle.p3l_program.specs.Wants.{Wants};

use crate::cert::load_cert;
use crate::text::write_text;
use p3l_base::{Name, NoMemory};
use p3l_cert::Cert;
use p3l_io::{Files, Sink};
use p3l_report::Verdict;
use std::alloc::Global;

/// The line of a certificate that holds.
fn holds_line(alloc: Global, cert: &Cert) -> Result<String, NoMemory>
    ensures { IfGiven result (λ line. string_bytes line
        ≡ holds_line cert.now.processors cert.now.used cert.now.service) }
{
    let processors = cert.processors;
    let used = cert.used;
    let service = cert.service;
    Ok(format!(in alloc;
        "certificate holds: processors {processors} used {used} service {service}\n"
    )?)
}

/// Writes what the certificate of a file says, if it holds for the program and the costs of others:
/// then its counts are the best for its processors, whoever wrote it.
pub fn verify_cert<F: Files, K: Sink>(
    alloc: Global,
    program: Name,
    name: Name,
    costs: Option<Name>,
    files: &mut F,
    out: &mut K,
) -> Verdict
    ensures expected { IsTextExpected (change (F.observed files.old) (F.observed files.new))
        (change (K.observed out.old) (K.observed out.new)) (verify_stages program name costs)
        (IsVerified (F.observed files.old).content program costs name) result }
    ensures same_files { HasSameContent (change (F.observed files.old) (F.observed files.new)) }
    ensures wants { Wants F.may_want result }
{
    match load_cert(alloc, program, costs, name, files) {
        Err(verdict) => verdict,
        Ok(cert) => match holds_line(alloc, &cert) {
            Err(_) => Verdict::NoMemory,
            Ok(line) => write_text(line.as_str().as_bytes(), out),
        },
    }
}
