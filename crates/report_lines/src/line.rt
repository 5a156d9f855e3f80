//! A line of words, with nothing left of one for which there is no room.
ghost use Rattle.std.specs.Prelude.{◌≡◌, ◌++◌, length, map, take, is_ok, OnOk, OnErr};
ghost use Rattle.report_lines.specs.ReportLines.{line};
ghost use Rattle.report_lines.specs.Words.{space_before, word_text};

use crate::word::{Word, push_word};
use std::alloc::AllocError;

/// Appends a line of words. Without room for it the report stays as it was.
pub fn push_line(report: &mut Vec<u8>, words: &[Word<'_>]) -> Result<(), AllocError>
    ensures line { OnOk result (report.new.items ≡ report.old.items ++ line (map word_text words.now)) }
    ensures refused { OnErr result (report.new.items ≡ report.old.items) }
{
    let start = report.len();
    let pushed = push_words(report, words);
    cut_unless_pushed(report, start, pushed)
}

/// Cuts a report to the length that it had, unless all was appended.
pub fn cut_unless_pushed(
    report: &mut Vec<u8>,
    start: usize,
    pushed: Result<(), AllocError>,
) -> Result<(), AllocError>
    ensures result { result ≡ pushed }
    ensures pushed { OnOk result (report.new.items ≡ report.old.items) }
    ensures cut { OnErr result (report.new.items ≡ take start report.old.items) }
{
    if pushed.is_err() {
        report.truncate(start);
    }
    pushed
}

/// Appends a line of words. Without room for all of it a part may be appended.
fn push_words(report: &mut Vec<u8>, words: &[Word<'_>]) -> Result<(), AllocError>
    ensures line { OnOk result (report.new.items ≡ report.old.items ++ line (map word_text words.now)) }
    ensures kept { OnErr result (take (length report.old.items) report.new.items ≡ report.old.items) }
{
    for (place, word) in words.iter().enumerate() {
        push_next_word(report, place, word)?;
    }
    report.push(b'\n')?;
    Ok(())
}

/// Appends the word of this place in a line, with a space before it unless it is the first. Without room for all of it
/// a part may be appended.
fn push_next_word(report: &mut Vec<u8>, place: usize, word: &Word<'_>) -> Result<(), AllocError>
    ensures text { OnOk result (report.new.items ≡ report.old.items ++ (space_before place ++ word_text word.now)) }
    ensures kept { OnErr result (take (length report.old.items) report.new.items ≡ report.old.items) }
{
    if place == 0 {
        return push_word(report, word);
    }
    report.push(b' ')?;
    push_word(report, word)
}
