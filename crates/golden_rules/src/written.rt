//! The rule that the words of a line spell.

ghost use Rattle.std.specs.Prelude.{◌≡◌, IfOk, map};
ghost use Rattle.golden_rules.specs.RuleLines.{ratio_between, written_end, written_group, written_ratio};
ghost use Rattle.golden_rules.specs.RuleLines.{written_ratio_end, written_rule, written_senior, written_triple};
ghost use Rattle.golden_rules.specs.RuleLines.{written_triples, written_unsaturation};

use crate::rule::{
    MAX_RATIO, MAX_TRIPLE_NUMBER, MAX_TRIPLES, MAX_UNSATURATION, Rule, Triple, Triples,
};
use element_table::Symbol;
use fixed_decimal::{Fixed, whole_within};
use std::alloc::{AllocError, Global};

/// The rule that words spell, `None` where they spell none.
pub(crate) fn written_rule(alloc: Global, words: &[&[u8]]) -> Result<Option<Rule>, AllocError>
    ensures { IfOk result (λ rule. rule ≡ written_rule (map (λ word. word.now) words.now)) }
{
    let Some((kind, words)) = words.split_first() else {
        return Ok(None);
    };
    if *kind == b"senior".as_slice() {
        Ok(written_senior(words))
    } else if *kind == b"ratio".as_slice() {
        Ok(written_ratio(words))
    } else if *kind == b"group".as_slice() {
        written_group(alloc, words)
    } else if *kind == b"unsaturation".as_slice() {
        Ok(written_unsaturation(words))
    } else {
        Ok(None)
    }
}

/// The rule of the words behind `senior`.
fn written_senior(words: &[&[u8]]) -> Option<Rule>
    ensures { result ≡ written_senior (map (λ word. word.now) words.now) }
{
    words.is_empty().then_some(Rule::Senior)
}

/// The rule of the words behind `ratio`.
fn written_ratio(words: &[&[u8]]) -> Option<Rule>
    ensures { result ≡ written_ratio (map (λ word. word.now) words.now) }
{
    let [first, second, low, high] = words else {
        return None;
    };
    ratio_between(Symbol::of(first)?, Symbol::of(second)?, low, high)
}

/// The ratio of two symbols with these ends of its range.
fn ratio_between(first: Symbol, second: Symbol, low: &[u8], high: &[u8]) -> Option<Rule>
    ensures { result ≡ ratio_between first second low.now high.now }
{
    Some(Rule::Ratio {
        first,
        second,
        low: written_ratio_end(low)?,
        high: written_ratio_end(high)?,
    })
}

/// An end of a ratio's range, in thousandths.
fn written_ratio_end(word: &[u8]) -> Option<u32>
    ensures { result ≡ written_ratio_end word.now }
{
    let thousandths = Fixed::<3>::read_within(word, 0, MAX_RATIO)?;
    Some(thousandths.units() as u32)
}

/// The rule of the words behind `group`.
fn written_group(alloc: Global, words: &[&[u8]]) -> Result<Option<Rule>, AllocError>
    ensures { IfOk result (λ rule. rule ≡ written_group (map (λ word. word.now) words.now)) }
{
    if words.is_empty() || words.len() > 3 * MAX_TRIPLES {
        return Ok(None);
    }
    match written_triples(alloc, words)? {
        None => Ok(None),
        Some(triples) => Ok(Some(Rule::Group(triples))),
    }
}

/// The triples that words spell, three words each.
fn written_triples(alloc: Global, words: &[&[u8]]) -> Result<Option<Triples>, AllocError>
    ensures { IfOk result (λ triples. triples ≡ written_triples (map (λ word. word.now) words.now)) }
{
    let mut triples = Vec::new(alloc);
    let mut left = words;
    while let [symbol, above, below, ..] = left {
        match written_triple(symbol, above, below) {
            None => return Ok(None),
            Some(triple) => triples.push(triple)?,
        }
        left = &left[3..];
    }
    if left.is_empty() {
        Ok(Some(Triples::of(triples)))
    } else {
        Ok(None)
    }
}

/// The triple that three words spell.
fn written_triple(symbol: &[u8], above: &[u8], below: &[u8]) -> Option<Triple>
    ensures { result ≡ written_triple symbol.now above.now below.now }
{
    Some(Triple {
        symbol: Symbol::of(symbol)?,
        above: whole_within(above, 0, MAX_TRIPLE_NUMBER)? as u32,
        below: whole_within(below, 0, MAX_TRIPLE_NUMBER)? as u32,
    })
}

/// The rule of the words behind `unsaturation`.
fn written_unsaturation(words: &[&[u8]]) -> Option<Rule>
    ensures { result ≡ written_unsaturation (map (λ word. word.now) words.now) }
{
    let [low, high] = words else {
        return None;
    };
    Some(Rule::Unsaturation {
        low: written_end(low)?,
        high: written_end(high)?,
    })
}

/// An end of a range of unsaturation.
fn written_end(word: &[u8]) -> Option<i32>
    ensures { result ≡ written_end word.now }
{
    let (byte, digits) = word.split_first()?;
    if *byte == b'-' {
        let number = whole_within(digits, 0, MAX_UNSATURATION)?;
        Some(-(number as i32))
    } else {
        let number = whole_within(word, 0, MAX_UNSATURATION)?;
        Some(number as i32)
    }
}
