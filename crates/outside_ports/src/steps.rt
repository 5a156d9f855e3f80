//! A counter of steps, for proofs alone.
ghost use Rattle.std.specs.Prelude.{◌≡◌, ◌+◌, ◌<◌};

use std::marker::Model;
use std::sync::ledger::{Blank, Book, Ledger, Share};

/// A counter of steps, seen as the number of steps taken. It only rises, by `tick` alone, and it
/// takes no bytes and does nothing at run time.
///
/// The ledger `L` tells counters apart. A call that counts its steps is generic in it and takes
/// `steps: &mut Steps<L>`. A call without that parameter makes a counter of its own: it calls a
/// function that is generic in the ledger with a `Blank` of one part at std's `Brand`, as
/// `walk::<Brand>(n, Blank::new(1))`. That function opens the counter by `Steps::new(blank)`,
/// under `requires name { blank.name ≡ L.name }`, `requires parts { blank.parts ≡ L.parts }` and
/// `requires some { 0 < blank.parts }`, and hands it down. The caller picks the ledger in its
/// `Invariants.antt`:
///
/// ```text
/// abbrev pub ghosts-walk : goal.ghosts-walk
/// ghosts-walk a = record { name = a.blank.name; parts = a.blank.parts }
/// ```
///
/// A caller that has bounds of its own, `main` or a test, writes `ghosts-walk g a = ..`.
#[derive(Drop)]
pub struct Steps<L: Ledger> {
    book: Book<L>,
    share: Share<L>,
}

impl<L: Ledger> Model for Steps<L> {
    ghost use Rattle.std.specs.Prelude.{ℕ, ◌<◌};

    ghost Value = { ℕ };

    ghost view = { λ s. s.book.total };

    ghost invariant = { λ s. 0 < s.share.parts };
}

impl<L: Ledger> Steps<L> {
    /// A counter at 0, of the ledger that `blank` opens.
    pub fn new(blank: Blank) -> Steps<L>
        requires name { blank.name ≡ L.name }
        requires parts { blank.parts ≡ L.parts }
        requires some { 0 < blank.parts }
        ensures { result ≡ 0 }
    {
        let (book, share) = blank.open::<L>();
        Steps { book, share }
    }

    /// Counts one step.
    pub fn tick(&mut self)
        ensures { self.new ≡ self.old + 1 }
    {
        self.book.add(&mut self.share, 1);
    }
}
