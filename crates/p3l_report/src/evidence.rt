// Why evidence is refused, and its lines.

ghost use Rattle.std.specs.Prelude.{◌≡◌};
ghost use Rattle.p3l_base.specs.Memory.{IfGiven};
ghost use Rattle.p3l_report.specs.Evidence.{cert_line, claim_name, differs_line, evidence_line, image_line, load_line, shot_line, trace_line};
ghost use Rattle.p3l_report.specs.LineText.{line_text};

use crate::line::{MessageLine, no_memory_line};
use p3l_base::NoMemory;
use p3l_cert::{CertRefusal, Claim};
use p3l_image::ImageRefusal;
use p3l_load::LoadRefusal;
use p3l_resume::ShotRefusal;
use p3l_trace::TraceRefusal;
use std::alloc::Global;

/// Why evidence is refused, by its kind.
#[derive(Clone, Copy, Drop)]
pub enum Evidence {
    /// A certificate isn't of its form, or doesn't hold.
    Cert(CertRefusal),
    /// Bytes are no image.
    Image(ImageRefusal),
    /// An image can't be run.
    Load(LoadRefusal),
    /// A text is no trace.
    Trace(TraceRefusal),
    /// Bytes are no snapshot.
    Shot(ShotRefusal),
    /// No run of a snapshot's network comes to the state that was saved.
    NotSound,
}

/// The line of evidence that is refused.
pub fn evidence_line(alloc: Global, evidence: &Evidence) -> Result<MessageLine, NoMemory>
    ensures { IfGiven result (λ line. line_text line ≡ evidence_line evidence.now) }
{
    match evidence {
        Evidence::Cert(refusal) => cert_line(alloc, *refusal),
        Evidence::Image(refusal) => image_line(alloc, *refusal),
        Evidence::Load(refusal) => load_line(alloc, *refusal),
        Evidence::Trace(refusal) => trace_line(alloc, *refusal),
        Evidence::Shot(refusal) => shot_line(alloc, *refusal),
        Evidence::NotSound => Ok(MessageLine::Fixed("evidence: 131 NotSound\n")),
    }
}

/// The name of a claim, as the program prints it.
fn claim_name(claim: Claim) -> &'static str
    ensures { result.now ≡ claim_name claim }
{
    match claim {
        Claim::Counts => "Counts",
        Claim::Service => "Service",
        Claim::Used => "Used",
        Claim::Fits => "Fits",
        Claim::Least => "Least",
    }
}

/// The line of a certificate that is refused.
fn cert_line(alloc: Global, refusal: CertRefusal) -> Result<MessageLine, NoMemory>
    ensures { IfGiven result (λ line. line_text line ≡ cert_line refusal) }
{
    let text = match refusal {
        CertRefusal::RowWrong { row, kept, found } => format!(in alloc;
            "evidence: 70 RowWrong {row}: {kept} is not {found}\n"
        )?,
        CertRefusal::RowMissing {
            row,
            node,
            bound,
            cap,
        } => format!(in alloc; "evidence: 71 RowMissing {row}: {node} {bound} {cap}\n")?,
        CertRefusal::ClaimWrong(claim) => {
            let name = claim_name(claim);
            format!(in alloc; "evidence: 72 ClaimWrong {name}\n")?
        }
        CertRefusal::BadText { line } => format!(in alloc; "evidence: 73 BadText {line}\n")?,
        CertRefusal::NoMemory => return Ok(no_memory_line()),
    };
    Ok(MessageLine::Made(text))
}

/// The line of bytes that are no image.
fn image_line(alloc: Global, refusal: ImageRefusal) -> Result<MessageLine, NoMemory>
    ensures { IfGiven result (λ line. line_text line ≡ image_line refusal) }
{
    let text = match refusal {
        ImageRefusal::BadMagic => return Ok(MessageLine::Fixed("evidence: 80 BadMagic\n")),
        ImageRefusal::Version(version) => format!(in alloc; "evidence: 81 Version {version}\n")?,
        ImageRefusal::Short(place) => format!(in alloc; "evidence: 82 Short {place}\n")?,
        ImageRefusal::BadField(place) => format!(in alloc; "evidence: 83 BadField {place}\n")?,
        ImageRefusal::TrailingBytes(place) => format!(in alloc;
            "evidence: 84 TrailingBytes {place}\n"
        )?,
        ImageRefusal::NoMemory => return Ok(no_memory_line()),
    };
    Ok(MessageLine::Made(text))
}

/// The line of an image that can't be run.
fn load_line(alloc: Global, refusal: LoadRefusal) -> Result<MessageLine, NoMemory>
    ensures { IfGiven result (λ line. line_text line ≡ load_line refusal) }
{
    match refusal {
        LoadRefusal::CodeUnsafe(code) => {
            let text = format!(in alloc; "evidence: 90 CodeUnsafe {code}\n")?;
            Ok(MessageLine::Made(text))
        }
        LoadRefusal::NotLinked => Ok(MessageLine::Fixed("evidence: 91 NotLinked\n")),
        LoadRefusal::TreeWrong => Ok(MessageLine::Fixed("evidence: 92 TreeWrong\n")),
        LoadRefusal::NoMemory => Ok(no_memory_line()),
    }
}

/// The line of a text that is no trace.
fn trace_line(alloc: Global, refusal: TraceRefusal) -> Result<MessageLine, NoMemory>
    ensures { IfGiven result (λ line. line_text line ≡ trace_line refusal) }
{
    match refusal {
        TraceRefusal::BadLine { line } => {
            let text = format!(in alloc; "evidence: 110 BadLine {line}\n")?;
            Ok(MessageLine::Made(text))
        }
        TraceRefusal::NoMemory => Ok(no_memory_line()),
    }
}

/// The line of a trace of which this line is the first that differs from the run.
pub fn differs_line(alloc: Global, line: u64) -> Result<MessageLine, NoMemory>
    ensures { IfGiven result (λ it. line_text it ≡ differs_line line) }
{
    let text = format!(in alloc; "evidence: 111 Differs {line}\n")?;
    Ok(MessageLine::Made(text))
}

/// The line of bytes that are no snapshot.
fn shot_line(alloc: Global, refusal: ShotRefusal) -> Result<MessageLine, NoMemory>
    ensures { IfGiven result (λ line. line_text line ≡ shot_line refusal) }
{
    match refusal {
        ShotRefusal::BadShot(place) => {
            let text = format!(in alloc; "evidence: 130 BadShot {place}\n")?;
            Ok(MessageLine::Made(text))
        }
        ShotRefusal::NoMemory => Ok(no_memory_line()),
    }
}
