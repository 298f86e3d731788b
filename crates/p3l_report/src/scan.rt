// The lines of refused scans.

ghost use Rattle.std.specs.Prelude.{◌≡◌};
ghost use Rattle.p3l_report.specs.LineText.{line_text};
ghost use Rattle.p3l_report.specs.Scan.{scan_line};

use crate::line::MessageLine;
use p3l_scan::ScanRefusal;

/// The line of a scan that is refused.
pub fn scan_line(refusal: ScanRefusal) -> MessageLine
    ensures { line_text result ≡ scan_line refusal }
{
    match refusal {
        ScanRefusal::NotReduce => MessageLine::Fixed("scan: 120 NotReduce\n"),
        ScanRefusal::BadSegments => MessageLine::Fixed("scan: 121 BadSegments\n"),
    }
}
