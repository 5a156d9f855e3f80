//! A board of jobs, and the turns that it gives them.
ghost use Rattle.std.specs.Prelude.{◌≡◌, ◌≤◌, ◌<◌, ℕ, false, length, map, slice_get, Err, IfOk, IfSome, All};
ghost use Rattle.job_turns.specs.Turns.{TakesTurn, TurnOnBoard, PlaysTurns, KeepsItems, begun};
ghost use Rattle.job_turns.specs.Steps.{TakesItem};
ghost use Rattle.job_turns.specs.Boards.{progress_of, jobs_of};

use crate::job::Job;
use std::alloc::{AllocError, Global};

/// How a turn ended that met no fault.
#[derive(Clone, Copy, Debug, PartialEq, Eq)]
pub enum TurnEnd {
    /// The job gave as many items as the turn allowed.
    Full,
    /// The job has no item left and no stop. So many it gave in this turn.
    Finished { gave: u64 },
}

/// Why a turn ended before the job gave all that the turn allowed.
#[derive(Debug, PartialEq, Eq, Drop)]
pub enum BoardFault<F> {
    /// The job at this place has no item left, and this stop.
    Job { job: usize, fault: F },
    /// Want of memory. The items taken before it stay found.
    Memory,
}

/// A turn: the place of a job, and how many items the job may give at most.
#[derive(Clone, Copy, Debug, PartialEq, Eq)]
pub struct Turn {
    /// The place of the job on its board.
    pub job: usize,
    /// How many items it may give, at least 1.
    pub allow: u64,
}

/// A job with what was found of it.
#[derive(Drop)]
struct Entry<J, I> {
    job: J,
    found: Vec<I>,
    finished: bool,
}

/// A board of jobs with the items of type `I` that it found of them. A [`Board`] has those of its jobs.
#[derive(Drop)]
pub struct JobBoard<J, I> {
    entries: Vec<Entry<J, I>>,
}

/// A board of jobs that take turns.
pub type Board<J> = JobBoard<J, <J as Job>::Item>;

impl<J: Job> Entry<J, J::Item> {
    /// Takes the next item of the job, which stands at this place. `false` where none is left and there is no stop.
    fn take_next(&mut self, place: usize) -> Result<bool, BoardFault<J::Fault>>
        ensures { TakesItem place (progress_of J.left J.stop self.old) result (progress_of J.left J.stop self.new) }
    {
        if self.found.reserve(1).is_err() {
            return Err(BoardFault::Memory);
        }
        match self.job.next() {
            Ok(Some(item)) => match self.found.push(item) {
                Ok(()) => Ok(true),
                Err(_) => unreachable!(),
            },
            Ok(None) => Ok(false),
            Err(fault) => {
                if J::is_free(&fault) {
                    Err(BoardFault::Memory)
                } else {
                    Err(BoardFault::Job { job: place, fault })
                }
            }
        }
    }

    /// Gives the job, which stands at this place, a turn.
    fn turn(&mut self, place: usize, allow: u64) -> Result<TurnEnd, BoardFault<J::Fault>>
        ensures { TakesTurn place allow
            (progress_of J.left J.stop self.old) result (progress_of J.left J.stop self.new) }
    {
        for gave in 0..allow {
            if !self.take_next(place)? {
                self.finished = true;
                return Ok(TurnEnd::Finished { gave });
            }
        }
        Ok(TurnEnd::Full)
    }
}

impl<J: Job> JobBoard<J, J::Item> {
    /// A board of these jobs in their places. Nothing is found yet, and no job is finished.
    pub fn of(alloc: Global, jobs: Vec<J>) -> Result<Self, AllocError>
        ensures jobs { IfOk result (λ board.
            jobs_of J.left J.stop board ≡ map (λ job. begun (J.left job) (J.stop job)) jobs.items) }
        ensures count { IfOk result (λ board. length (jobs_of J.left J.stop board) ≡ length jobs.items) }
    {
        let mut entries = Vec::with_capacity(alloc, jobs.len())?;
        for job in jobs {
            entries.push(Entry {
                job,
                found: Vec::new(alloc),
                finished: false,
            })?;
        }
        Ok(Self { entries })
    }

    /// Gives the job at a place a turn: it gives the next items of its list, at most as many as are allowed. A free
    /// fault of the job is answered as want of memory.
    pub fn turn(&mut self, job: usize, allow: u64) -> Result<TurnEnd, BoardFault<J::Fault>>
        requires in_range { job < length (jobs_of J.left J.stop self.old) }
        requires some { 1 ≤ allow }
        ensures turn { TurnOnBoard job allow (jobs_of J.left J.stop self.old) result (jobs_of J.left J.stop self.new) }
        ensures kept { KeepsItems (jobs_of J.left J.stop self.old) (jobs_of J.left J.stop self.new) }
        ensures count { length (jobs_of J.left J.stop self.new) ≡ length (jobs_of J.left J.stop self.old) }

        // A stop is never want of memory.
        ensures stop { (place : ℕ) (fault : J.Fault) →
            result ≡ Err (BoardFault.Job place fault) → J.is_free fault ≡ false }
    {
        self.entries[job].turn(job, allow)
    }

    /// Gives these turns in order, and stops at the first fault. The turns before it stay given.
    pub fn play(&mut self, turns: &[Turn]) -> Result<(), BoardFault<J::Fault>>
        requires { All (λ turn. (turn.job < length (jobs_of J.left J.stop self.old)) × (1 ≤ turn.allow)) turns.now }
        ensures play { PlaysTurns turns.now (jobs_of J.left J.stop self.old) result (jobs_of J.left J.stop self.new) }
        ensures kept { KeepsItems (jobs_of J.left J.stop self.old) (jobs_of J.left J.stop self.new) }
        ensures count { length (jobs_of J.left J.stop self.new) ≡ length (jobs_of J.left J.stop self.old) }

        // A stop is never want of memory.
        ensures stop { (place : ℕ) (fault : J.Fault) →
            result ≡ Err (BoardFault.Job place fault) → J.is_free fault ≡ false }
    {
        for turn in turns {
            self.turn(turn.job, turn.allow)?;
        }
        Ok(())
    }

    /// How many jobs there are.
    pub fn job_count(&self) -> usize
        ensures { result ≡ length (jobs_of J.left J.stop self.now) }
    {
        self.entries.len()
    }

    /// The items found of the job at a place, in the order in which it gave them.
    pub fn found(&self, job: usize) -> &[J::Item]
        requires { job < length (jobs_of J.left J.stop self.now) }
        ensures { IfSome (slice_get (jobs_of J.left J.stop self.now) job) (λ progress. result.now ≡ progress.found) }
    {
        &self.entries[job].found
    }

    /// Whether a turn of the job at a place ended in finished.
    pub fn finished(&self, job: usize) -> bool
        requires { job < length (jobs_of J.left J.stop self.now) }
        ensures { IfSome (slice_get (jobs_of J.left J.stop self.now) job) (λ progress. result ≡ progress.finished) }
    {
        self.entries[job].finished
    }
}
