// Certificates as text.

ghost use Rattle.std.specs.Prelude.{◌≡◌, ℕ, ◌++◌, List, [], ◌∷◌, true, Ok, IfOk};
ghost use Rattle.p3l_base.specs.Memory.{IfGiven, OnGiven};
ghost use Rattle.p3l_format.specs.Format.{Gives, read_all};
ghost use Rattle.p3l_format.specs.Text.{text_then};
ghost use Rattle.p3l_format.specs.Series.{until};
ghost use Rattle.p3l_cert.specs.declared.cert.Cert.{Cert as TheCert};
ghost use Rattle.p3l_cert.specs.Text.{counts_word, feed, count_format, next_count, first_count, counts_format, rows_format, body_format, cert_format};
ghost use Rattle.p3l_cert.specs.Answers.{Answers, ReportsFirst};
ghost use Rattle.p3l_cert.specs.laws.Text.{lawful_cert};

use crate::cert::{Cert, CertRefusal, Row};
use crate::item::{BOUND_LIMIT, CountItem, RowItem};
use p3l_base::limits::MOST_PROCESSORS;
use p3l_base::{List, NoMemory};
use p3l_format::{
    Field, NumberLine, ReadError, fault_at, line_at, read_text, read_until, write_series,
};
use p3l_skel::Counts;
use std::alloc::Global;

// The counts in a line, where a fault is reported at its own place.
#[tactic(auto, unfolding(p3l_format::specs::Text::text_then))]
fn read_counts(alloc: Global, bytes: &[u8]) -> Result<(List<u32>, &[u8]), ReadError>
    ensures { Gives (λ x. (x.0, x.1.now))
        result ((text_then counts_word (until count_format next_count first_count feed)).read
        bytes.now) }
{
    let rest = read_text(b"counts", bytes)?;
    read_until(alloc, CountItem, b"\n", rest)
}

// The line of counts in front, and what is after it.
#[tactic(auto, unfolding(crate::specs::Text::counts_format, p3l_format::specs::Line::line))]
fn read_counts_line(alloc: Global, bytes: &[u8]) -> Result<(List<u32>, &[u8]), ReadError>
    ensures { Gives (λ x. (x.0, x.1.now)) result (counts_format.read bytes.now) }
{
    match read_counts(alloc, bytes) {
        Ok(read) => Ok(read),
        Err(error) => Err(fault_at(bytes, error)),
    }
}

// Puts the line of counts after others.
#[tactic(auto, unfolding(crate::specs::Text::counts_format, p3l_format::specs::Line::line, p3l_format::specs::Text::text_then, p3l_format::specs::Series::until))]
fn write_counts_line(alloc: Global, counts: &[u32], out: &mut Vec<u8>) -> Result<(), NoMemory>
    requires { counts_format.fits counts.now ≡ true }
    ensures { OnGiven result (out.new.items ≡ out.old.items ++ counts_format.spell counts.now) }
{
    out.extend_from_slice(b"counts")?;
    write_series(alloc, CountItem, counts, out)?;
    out.extend_from_slice(b"\n")?;
    Ok(())
}

// The rows in front and the last line, and what is after them.
#[tactic(auto, unfolding(crate::specs::Text::rows_format))]
fn read_rows(alloc: Global, bytes: &[u8]) -> Result<(List<Row>, &[u8]), ReadError>
    ensures { Gives (λ x. (x.0, x.1.now)) result (rows_format.read bytes.now) }
{
    read_until(alloc, RowItem { above: None }, b"end\n", bytes)
}

// Puts rows and the last line after others.
#[tactic(auto, unfolding(crate::specs::Text::rows_format, p3l_format::specs::Series::until))]
fn write_rows(alloc: Global, rows: &[Row], out: &mut Vec<u8>) -> Result<(), NoMemory>
    requires { rows_format.fits rows.now ≡ true }
    ensures { OnGiven result (out.new.items ≡ out.old.items ++ rows_format.spell rows.now) }
{
    write_series(alloc, RowItem { above: None }, rows, out)?;
    out.extend_from_slice(b"end\n")?;
    Ok(())
}

// A whole certificate.
#[derive(Clone, Copy, Drop)]
struct CertField {
    alloc: Global,
}

impl Field for CertField {
    type Value = Cert;

    ghost format = { λ _. cert_format };

    ghost lawful = { λ _. lawful_cert };

    #[tactic(auto, unfolding(crate::specs::Text::cert_format, p3l_format::specs::Text::text_then, p3l_format::specs::Line::line))]
    fn read<'a>(&self, alloc: Global, bytes: &'a [u8]) -> Result<(Cert, &'a [u8]), ReadError> {
        let rest = read_text(b"p3l-cert 1\n", bytes)?;
        let (cert, rest) = read_body(alloc, rest)?;
        Ok((cert, rest))
    }

    #[tactic(auto, unfolding(crate::specs::Text::cert_format, p3l_format::specs::Text::text_then))]
    fn write(&self, value: &Cert, out: &mut Vec<u8>) -> Result<(), NoMemory> {
        out.extend_from_slice(b"p3l-cert 1\n")?;
        write_body(self.alloc, value, out)
    }
}

const PROCESSORS: NumberLine = NumberLine {
    word: b"processors ",
    low: 1,
    high: MOST_PROCESSORS as u128,
};

const SERVICE: NumberLine = NumberLine {
    word: b"service ",
    low: 0,
    high: BOUND_LIMIT - 1,
};

const USED: NumberLine = NumberLine {
    word: b"used ",
    low: 0,
    high: u32::MAX as u128,
};

// The lines after the first.
#[tactic(auto, unfolding(crate::specs::Text::body_format, p3l_format::specs::Format::pair, p3l_format::specs::Format::as_form))]
fn read_body(alloc: Global, bytes: &[u8]) -> Result<(Cert, &[u8]), ReadError>
    ensures { Gives (λ x. (x.0, x.1.now)) result (body_format.read bytes.now) }
{
    let (processors, rest) = PROCESSORS.read(bytes)?;
    let (list, rest) = read_counts_line(alloc, rest)?;
    let (service, rest) = SERVICE.read(rest)?;
    let (used, rest) = USED.read(rest)?;
    let (rows, rest) = read_rows(alloc, rest)?;
    Ok((
        Cert {
            processors: processors as u32,
            counts: Counts { list },
            service,
            used: used as u32,
            rows,
        },
        rest,
    ))
}

// Puts the lines after the first after others.
#[tactic(auto, unfolding(crate::specs::Text::body_format, p3l_format::specs::Format::pair, p3l_format::specs::Format::as_form))]
fn write_body(alloc: Global, cert: &Cert, out: &mut Vec<u8>) -> Result<(), NoMemory>
    requires { body_format.fits cert.now ≡ true }
    ensures { OnGiven result (out.new.items ≡ out.old.items ++ body_format.spell cert.now) }
{
    PROCESSORS.write(alloc, cert.processors as u128, out)?;
    write_counts_line(alloc, cert.counts.list.as_slice(), out)?;
    SERVICE.write(alloc, cert.service, out)?;
    USED.write(alloc, cert.used as u128, out)?;
    write_rows(alloc, cert.rows.as_slice(), out)
}

/// The text of a certificate, whose numbers are in the ranges of the text, and whose rows ascend.
pub fn cert_text(alloc: Global, cert: &Cert) -> Result<List<u8>, NoMemory>
    requires { cert_format.fits cert.now ≡ true }
    ensures { IfGiven result (λ text. text ≡ cert_format.spell cert.now) }
{
    p3l_format::encode(&CertField { alloc }, alloc, cert)
}

/// The certificate that a text spells, or the number of the first line that isn't of its form.
#[tactic(auto, using(crate::proofs::FirstLine::cert_first_bad))]
pub fn read_cert(alloc: Global, text: &[u8]) -> Result<Cert, CertRefusal>
    // A text that is read is the spelling of its certificate.
    ensures found { IfOk result (λ cert. (cert_format.fits cert ≡ true)
        × (text.now ≡ cert_format.spell cert)) }
    // The spelling of a certificate is read, unless memory runs out.
    ensures only { (cert : TheCert) → cert_format.fits cert ≡ true
        → text.now ≡ cert_format.spell cert → Answers text.now result (Ok cert) }
    // The line that is reported is the first that isn't of its form, whatever reads it.
    ensures first { ReportsFirst text.now result }
    // The line that the format's own reading reports.
    ensures exact { Answers text.now result (read_all cert_format text.now) }
{
    match p3l_format::decode(&CertField { alloc }, alloc, text) {
        Ok(cert) => Ok(cert),
        Err(ReadError::NoMemory) => Err(CertRefusal::NoMemory),
        Err(ReadError::Wrong(fault)) => Err(CertRefusal::BadText {
            line: line_at(text, fault.left),
        }),
    }
}

/// No certificate's text begins another's.
pub fn text_begins_no_other()
    ensures { (v w : TheCert) (more : List ℕ) → cert_format.fits v ≡ true
        → cert_format.fits w ≡ true → cert_format.spell v ++ more ≡ cert_format.spell w
        → (v ≡ w) × (more ≡ []) }
{}
