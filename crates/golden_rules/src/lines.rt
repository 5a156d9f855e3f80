//! The words of a line of a rules file.

ghost use Rattle.std.specs.Prelude.{◌≡◌, IfOk, map};
ghost use Rattle.golden_rules.specs.RuleLines.{is_blank, is_skipped, words_of};

use std::alloc::{AllocError, Global};

/// The words of a line, which spaces and tabs part.
pub(crate) fn words_of(alloc: Global, line: &[u8]) -> Result<Vec<&[u8]>, AllocError>
    ensures { IfOk result (λ words. map (λ word. word.now) words.items ≡ words_of line.now) }
{
    line.split(|byte| is_blank(*byte))
        .filter(|word| !word.is_empty())
        .collect(alloc)
}

/// Whether a byte is a space or a tab.
fn is_blank(byte: u8) -> bool
    ensures { result ≡ is_blank byte }
{
    byte == b' ' || byte == b'\t'
}

/// Whether a line has no words, or is a comment.
pub(crate) fn is_skipped(words: &[&[u8]]) -> bool
    ensures { result ≡ is_skipped (map (λ word. word.now) words.now) }
{
    match words.first() {
        None => true,
        Some(word) => word.first() == Some(&b'#'),
    }
}
