//! The line of the report of a check.
ghost use Rattle.std.specs.Prelude.{◌≡◌, ◌++◌, OnOk, OnErr};
ghost use Rattle.report_lines.specs.ReportLines.{accepted_line};

use crate::line::push_line;
use crate::word::Word;
use std::alloc::AllocError;

/// Appends the line of an accepted certificate: its size and its bound. Without room for it the report stays as it was.
pub fn push_accepted_line(report: &mut Vec<u8>, size: u64, bound: u64) -> Result<(), AllocError>
    ensures line { OnOk result (report.new.items ≡ report.old.items ++ accepted_line size bound) }
    ensures refused { OnErr result (report.new.items ≡ report.old.items) }
{
    push_line(
        report,
        &[
            Word::Text(b"accepted"),
            Word::Text(b"size"),
            Word::Number(size),
            Word::Text(b"bound"),
            Word::Number(bound),
        ],
    )
}
