//! How far ranked peaks have come.
ghost use Rattle.std.specs.Prelude.{◌≡◌, ◌<◌, ◌≤◌, IfSome, length, slice_get};
ghost use Rattle.job_turns.specs.Boards.{jobs_of};
ghost use Rattle.peak_text.specs.Limits.{max_peaks};
ghost use Rattle.ranking.specs.RankJobs.{list_left, stop_left};
ghost use Rattle.ranking.specs.Rankings.{max_candidates};
ghost use Rattle.peak_ranking.specs.RankedJobs.{AreFewJobs};

use job_turns::Board;
use ranking::{RankJob, Ranked};
use std::marker::Model;

/// The board on which the jobs of peaks took their turns. It is seen as how far each job has come.
#[derive(Drop)]
pub struct RankedPeaks<'t> {
    board: Board<RankJob<'t>>,
}

impl<'t> Model for RankedPeaks<'t> {
    ghost use Rattle.std.specs.Prelude.{List};
    ghost use Rattle.job_turns.specs.Boards.{jobs_of};
    ghost use Rattle.ranking.specs.RankJobs.{list_left, stop_left};
    ghost use Rattle.peak_ranking.specs.RankedJobs.{AreFewJobs, RankedJob};

    ghost Value = { List RankedJob };

    ghost view = { λ r. jobs_of list_left stop_left r.board };

    ghost invariant = { λ r. AreFewJobs (jobs_of list_left stop_left r.board) };
}

impl<'t> RankedPeaks<'t> {
    /// The jobs of a board.
    pub(crate) fn of(board: Board<RankJob<'t>>) -> RankedPeaks<'t>
        requires { AreFewJobs (jobs_of list_left stop_left board) }
        ensures { result ≡ jobs_of list_left stop_left board.entry }
    {
        RankedPeaks { board }
    }

    /// How many jobs there are, at most 10,000.
    pub fn job_count(&self) -> usize
        ensures count { result ≡ length self.now }
        ensures few { result ≤ max_peaks }
    {
        self.board.job_count()
    }

    /// The ranked candidates that the job at a place has found, in candidate order, at most 1,048,576.
    pub fn found(&self, job: usize) -> &[Ranked]
        requires { job < length self.now }
        ensures found { IfSome (slice_get self.now job) (λ progress. result.now ≡ progress.found) }
        ensures few { length result.now ≤ max_candidates }
    {
        self.board.found(job)
    }

    /// Whether the job at a place is done: it was allowed more candidates than there are.
    pub fn is_done(&self, job: usize) -> bool
        requires { job < length self.now }
        ensures { IfSome (slice_get self.now job) (λ progress. result ≡ progress.finished) }
    {
        self.board.finished(job)
    }
}
