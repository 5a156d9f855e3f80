//! The counts that one move of an atom leads to.
//!
//! All counts but the mode have a parent, one move nearer to it: the first isotope above the mode gives an atom to the
//! first below. So the counts whose parent some counts are, their children, are found by the moves the other way, each
//! once, and their enclosure by one step.
ghost use Rattle.std.specs.Prelude.{◌≡◌, ◌+◌, ◌++◌, ◌∷◌, [], ◌&&◌, ◌<◌, ◌≤◌, true, nat_lt, nat_le, slice_index, sum};
ghost use Rattle.std.specs.Prelude.{length, All, IfErr, OnOk};
ghost use Rattle.multinomial_bounds.specs.Weight.{IsWeights};
ghost use Rattle.multinomial_bounds.specs.Bounds.{floor_of, ceiling_of};
ghost use Rattle.multinomial_bounds.specs.Mode.{mode_of_atoms};
ghost use Rattle.multinomial_bounds.specs.Path.{first_above, bound_of};
ghost use Rattle.sub_isotopologues.specs.SubIsotopologues.{SubIsotopologue};
ghost use Rattle.sub_isotopologues.specs.Children.{IsNode, can_gain, can_lose, is_child_move, moved, children};
ghost use Rattle.sub_isotopologues.specs.Children.{children_gaining, wanted_of, IsBoundUpTo};
ghost use Rattle.sub_isotopologues.specs.ListAnswers.{OnlyTooMany};

use crate::fault::SubFault;
use crate::sub_iso::SubIso;
use multinomial_bounds::{Enclosure, MAX_ATOMS, move_down};
use std::alloc::AllocError;

/// Counts of an element beside its mode.
#[derive(Clone, Copy)]
pub(crate) struct Node<'a> {
    pub(crate) weights: &'a [u64],
    pub(crate) mode: &'a [u32],
    pub(crate) counts: &'a [u32],
    pub(crate) enclosure: Enclosure,
    /// The first isotope that has more atoms than in the mode, and the first that has fewer.
    pub(crate) above: usize,
    pub(crate) below: usize,
}

/// The upper bounds that are looked for: above the one and at most the other; and how many items may be found.
#[derive(Clone, Copy)]
pub(crate) struct Wanted {
    pub(crate) above: u64,
    pub(crate) up_to: u64,
    pub(crate) most: usize,
}

/// Counts of an element beside its mode.
pub(crate) fn node_of<'a>(
    weights: &'a [u64],
    mode: &'a [u32],
    counts: &'a [u32],
    enclosure: Enclosure,
) -> Node<'a>
    requires weights_in_range { IsWeights weights.now }
    requires few_atoms { sum counts.now ≤ MAX_ATOMS }
    requires same_places { length counts.now ≡ length weights.now }
    requires mode { mode.now ≡ mode_of_atoms weights.now (sum counts.now) }
    requires lo { enclosure.lo ≡ bound_of floor_of weights.now counts.now }
    requires hi { enclosure.hi ≡ bound_of ceiling_of weights.now counts.now }
    ensures node { IsNode result.weights.now result.mode.now result.counts.now result.above result.below
        result.enclosure.lo result.enclosure.hi }
    ensures weights { result.weights.now ≡ weights.entry.now }
    ensures mode { result.mode.now ≡ mode.entry.now }
    ensures counts { result.counts.now ≡ counts.entry.now }
{
    Node {
        weights,
        mode,
        counts,
        enclosure,
        above: first_above(mode, counts),
        below: first_above(counts, mode),
    }
}

/// The first isotope that has more atoms in the second counts, and the number of isotopes where none has.
fn first_above(fewer: &[u32], more: &[u32]) -> usize
    requires { length fewer.now ≡ length more.now }
    ensures { result ≡ first_above fewer.now more.now }
{
    for place in 0..more.len() {
        if fewer[place] < more[place] {
            return place;
        }
    }
    more.len()
}

/// Appends the children of counts whose upper bound is looked for.
pub(crate) fn append_children(
    node: Node<'_>,
    wanted: Wanted,
    found: &mut Vec<SubIso>,
) -> Result<(), SubFault>
    requires { IsNode node.weights.now node.mode.now node.counts.now node.above node.below
        node.enclosure.lo node.enclosure.hi }
    ensures appended { OnOk result (found.new.items ≡ found.old.items
        ++ wanted_of node.entry.weights.now wanted.above wanted.up_to
        (children node.entry.mode.now node.entry.counts.now)) }
    ensures fits { OnOk result (length found.old.items ≤ wanted.most → length found.new.items ≤ wanted.most) }
    ensures cause { IfErr result (OnlyTooMany (wanted.most < length found.old.items
        + length (wanted_of node.entry.weights.now wanted.above wanted.up_to
        (children node.entry.mode.now node.entry.counts.now)))) }
{
    for gain in 0..node.counts.len() {
        append_gaining(node, gain, wanted, found)?;
    }
    Ok(())
}

/// Appends those where this isotope gains the atom.
fn append_gaining(
    node: Node<'_>,
    gain: usize,
    wanted: Wanted,
    found: &mut Vec<SubIso>,
) -> Result<(), SubFault>
    requires node { IsNode node.weights.now node.mode.now node.counts.now node.above node.below
        node.enclosure.lo node.enclosure.hi }
    requires within { gain < length node.counts.now }
    ensures appended { OnOk result (found.new.items ≡ found.old.items
        ++ wanted_of node.entry.weights.now wanted.above wanted.up_to
        (children_gaining node.entry.mode.now node.entry.counts.now gain (length node.entry.counts.now))) }
    ensures fits { OnOk result (length found.old.items ≤ wanted.most → length found.new.items ≤ wanted.most) }
    ensures cause { IfErr result (OnlyTooMany (wanted.most < length found.old.items
        + length (wanted_of node.entry.weights.now wanted.above wanted.up_to
        (children_gaining node.entry.mode.now node.entry.counts.now gain (length node.entry.counts.now))))) }
{
    for lose in 0..node.counts.len() {
        if is_child_move(node, gain, lose) {
            append_child(node, gain, lose, wanted, found)?;
        }
    }
    Ok(())
}

/// Whether the move of an atom between these isotopes leads to a child.
fn is_child_move(node: Node<'_>, gain: usize, lose: usize) -> bool
    requires node { IsNode node.weights.now node.mode.now node.counts.now node.above node.below
        node.enclosure.lo node.enclosure.hi }
    requires gain_within { gain < length node.counts.now }
    requires lose_within { lose < length node.counts.now }
    ensures { result ≡ is_child_move node.entry.mode.now node.entry.counts.now gain lose }
{
    can_gain(node, gain) && can_lose(node, lose) && gain != lose
}

/// Whether an isotope can gain the atom: no isotope before it is above the mode, and it isn't below.
#[tactic(auto, unfolding(crate::specs::Children::can_gain))]
fn can_gain(node: Node<'_>, gain: usize) -> bool
    requires node { IsNode node.weights.now node.mode.now node.counts.now node.above node.below
        node.enclosure.lo node.enclosure.hi }
    requires within { gain < length node.counts.now }
    ensures { result ≡ can_gain node.entry.mode.now node.entry.counts.now gain }
{
    gain <= node.above && node.mode[gain] <= node.counts[gain]
}

/// Whether an isotope can lose the atom: no isotope before it is below the mode, it isn't above, and it has one.
#[tactic(auto, unfolding(crate::specs::Children::can_lose))]
fn can_lose(node: Node<'_>, lose: usize) -> bool
    requires node { IsNode node.weights.now node.mode.now node.counts.now node.above node.below
        node.enclosure.lo node.enclosure.hi }
    requires within { lose < length node.counts.now }
    ensures { result ≡ can_lose node.entry.mode.now node.entry.counts.now lose }
{
    lose <= node.below && node.counts[lose] <= node.mode[lose] && 0 < node.counts[lose]
}

/// Appends one child, if its upper bound is looked for.
fn append_child(
    node: Node<'_>,
    gain: usize,
    lose: usize,
    wanted: Wanted,
    found: &mut Vec<SubIso>,
) -> Result<(), SubFault>
    requires node { IsNode node.weights.now node.mode.now node.counts.now node.above node.below
        node.enclosure.lo node.enclosure.hi }
    requires gain_within { gain < length node.counts.now }
    requires lose_within { lose < length node.counts.now }
    requires child { is_child_move node.mode.now node.counts.now gain lose ≡ true }
    ensures appended { OnOk result (found.new.items ≡ found.old.items
        ++ wanted_of node.entry.weights.now wanted.above wanted.up_to (moved node.entry.counts.now gain lose ∷ [])) }
    ensures fits { OnOk result (length found.old.items ≤ wanted.most → length found.new.items ≤ wanted.most) }
    ensures cause { IfErr result (OnlyTooMany (wanted.most < length found.old.items
        + length (wanted_of node.entry.weights.now wanted.above wanted.up_to
        (moved node.entry.counts.now gain lose ∷ [])))) }
{
    let enclosure = move_down(node.enclosure, node.weights, node.counts, lose, gain);
    if !wanted.has(enclosure.hi) {
        return Ok(());
    }
    push_within(
        SubIso::moved(node.counts, gain, lose, enclosure),
        wanted.most,
        found,
    )
}

/// A number that no upper bound of a child passes unless it is above `up_to`: the greatest of the others, or 0.
pub(crate) fn greatest_up_to(node: Node<'_>, up_to: u64) -> u64
    requires { IsNode node.weights.now node.mode.now node.counts.now node.above node.below
        node.enclosure.lo node.enclosure.hi }
    ensures { All (λ y. IsBoundUpTo node.entry.weights.now up_to result y)
        (children node.entry.mode.now node.entry.counts.now) }
{
    let mut greatest: u64 = 0;
    for gain in 0..node.counts.len() {
        greatest = greatest.max(greatest_gaining(node, gain, up_to));
    }
    greatest
}

/// The same of the children where this isotope gains the atom.
fn greatest_gaining(node: Node<'_>, gain: usize, up_to: u64) -> u64
    requires node { IsNode node.weights.now node.mode.now node.counts.now node.above node.below
        node.enclosure.lo node.enclosure.hi }
    requires within { gain < length node.counts.now }
    ensures { All (λ y. IsBoundUpTo node.entry.weights.now up_to result y)
        (children_gaining node.entry.mode.now node.entry.counts.now gain (length node.entry.counts.now)) }
{
    let mut greatest: u64 = 0;
    for lose in 0..node.counts.len() {
        if is_child_move(node, gain, lose) {
            greatest = greatest.max(child_up_to(node, gain, lose, up_to));
        }
    }
    greatest
}

/// The upper bound of one child, or 0 where it is above `up_to`.
fn child_up_to(node: Node<'_>, gain: usize, lose: usize, up_to: u64) -> u64
    requires node { IsNode node.weights.now node.mode.now node.counts.now node.above node.below
        node.enclosure.lo node.enclosure.hi }
    requires gain_within { gain < length node.counts.now }
    requires lose_within { lose < length node.counts.now }
    requires child { is_child_move node.mode.now node.counts.now gain lose ≡ true }
    ensures { IsBoundUpTo node.entry.weights.now up_to result (moved node.entry.counts.now gain lose) }
{
    let enclosure = move_down(node.enclosure, node.weights, node.counts, lose, gain);
    if enclosure.hi <= up_to {
        enclosure.hi
    } else {
        0
    }
}

/// Appends an item, unless there are as many as may be.
pub(crate) fn push_within(
    item: SubIso,
    most: usize,
    found: &mut Vec<SubIso>,
) -> Result<(), SubFault>
    ensures pushed { OnOk result (found.new.items ≡ found.old.items ++ item ∷ []) }
    ensures fits { OnOk result (length found.new.items ≤ most) }
    ensures cause { IfErr result (OnlyTooMany (most ≤ length found.old.items)) }
{
    if found.len() >= most {
        return Err(SubFault::TooMany);
    }
    found.push(item).map_err(AllocError::from)?;
    Ok(())
}

impl Wanted {
    /// Whether an upper bound is looked for.
    pub(crate) fn has(self, hi: u64) -> bool
        ensures { result ≡ (nat_lt self.above hi && nat_le hi self.up_to) }
    {
        self.above < hi && hi <= self.up_to
    }
}
