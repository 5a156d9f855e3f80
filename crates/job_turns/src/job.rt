//! What a board asks of a job.
ghost use Rattle.std.specs.Prelude.{◌≡◌, Bool, false, List, Option, Some};
ghost use Rattle.job_turns.specs.Jobs.{TakesNext};

/// A finite list of items, behind which a stop may stand. The list is given item by item.
pub trait Job: Drop {
    /// What the job gives.
    type Item: Drop;

    /// Why it gives no more, or can't give now.
    type Fault: Drop;

    /// The items that are left.
    ghost left: { Self → List Self.Item };

    /// The stop that stands behind them, if there is one.
    ghost stop: { Self → Option Self.Fault };

    /// Which faults are free to come at any time: want of memory alone.
    ghost is_free: { Self.Fault → Bool };

    /// Whether a fault is want of memory.
    fn is_free(fault: &Self::Fault) -> bool
        ensures { result ≡ is_free fault.now };

    /// Takes and gives the first item that is left. Where none is left it answers `None` if there is no stop, and else
    /// the stop. Besides these only a free fault may come, and then nothing is taken.
    fn next(&mut self) -> Result<Option<Self::Item>, Self::Fault>
        ensures next { TakesNext is_free (stop self.old) (left self.old) result (left self.new) }
        ensures stop { stop self.new ≡ stop self.old };

    /// The stop is never a free fault.
    ghost never_free: { (job : Self) (fault : Self.Fault) → stop job ≡ Some fault → is_free fault ≡ false };
}
