//! Peaks that are ranked, and the turns that rank them.
ghost use Rattle.std.specs.Prelude.{◌≡◌, ◌≤◌, IfOk, map};
ghost use Rattle.reader_answers.specs.Answers.{Gives};
ghost use Rattle.job_turns.specs.Turns.{begun};
ghost use Rattle.ranking.specs.RankJobs.{list_left, stop_left};
ghost use Rattle.ranking.specs.Rankings.{is_memory};
ghost use Rattle.peak_ranking.specs.RankClaims.{AreRankedParts};
ghost use Rattle.peak_ranking.specs.RankQueries.{IsRankQuery};
ghost use Rattle.peak_ranking.specs.RankedJobs.{begun_jobs, played};

use crate::ranked::RankedPeaks;
use candidates::Ground;
use job_turns::{Board, BoardFault};
use peak_text::{MAX_PEAKS, Peaks};
use prediction_score::PeakOrder;
use ranking::{RankFault, RankJob, SharedLists};
use std::alloc::{AllocError, Global};
use std::marker::Model;
use turn_rounds::play_rounds;

/// Peaks of a list whose candidates are ranked, with the premises and the turns. It is seen as that query.
#[derive(Drop)]
pub struct PeakRanking {
    premises: Ground,
    peaks: Peaks,
    first: usize,
    jobs: usize,
    coverage: u64,
    turn: u64,
    turns: Option<u64>,
    /// The lists of elements that the jobs share while they take their turns.
    lists: SharedLists,
}

impl Model for PeakRanking {
    ghost use Rattle.peak_text.specs.PeakLists.{ArePeaks};
    ghost use Rattle.peak_ranking.specs.RankQueries.{IsRankQuery, RankQuery};

    ghost Value = { RankQuery };

    ghost view = { λ r. record {
      premises = r.premises;
      peaks = r.peaks;
      first = r.first;
      jobs = r.jobs;
      coverage = r.coverage;
      turn = r.turn;
      turns = r.turns;
    } };

    ghost invariant = { λ r. IsRankQuery (record {
      premises = r.premises;
      peaks = r.peaks;
      first = r.first;
      jobs = r.jobs;
      coverage = r.coverage;
      turn = r.turn;
      turns = r.turns;
    }) × ArePeaks r.peaks };
}

impl PeakRanking {
    /// The ranking of peaks of a list for a coverage in 10^-18. The places are that of the first peak that is ranked,
    /// counted from 0, and how many are. Each turn allows `turn` candidates, and there are so many turns, or as many as
    /// it takes.
    pub fn of(
        premises: Ground,
        peaks: Peaks,
        places: (usize, usize),
        coverage: u64,
        turn: u64,
        turns: Option<u64>,
    ) -> PeakRanking
        requires { IsRankQuery (record {
          premises = premises;
          peaks = peaks;
          first = places.0;
          jobs = places.1;
          coverage = coverage;
          turn = turn;
          turns = turns;
        }) }
        ensures { result ≡ record {
          premises = premises;
          peaks = peaks;
          first = places.0;
          jobs = places.1;
          coverage = coverage;
          turn = turn;
          turns = turns;
        } }
    {
        let (first, jobs) = places;
        prove!(peaks.mz().len() <= MAX_PEAKS);
        PeakRanking {
            premises,
            peaks,
            first,
            jobs,
            coverage,
            turn,
            turns,
            lists: SharedLists::new(),
        }
    }

    /// The peaks of the list.
    pub fn peaks(&self) -> &Peaks
        ensures peaks { result.now ≡ self.now.peaks }
        ensures query { IsRankQuery self.now }
    {
        &self.peaks
    }

    /// The place of the first peak that is ranked, from 0.
    pub fn first(&self) -> usize
        ensures first { result ≡ self.now.first }
        ensures query { IsRankQuery self.now }
    {
        self.first
    }

    /// How many peaks are ranked.
    pub fn jobs(&self) -> usize
        ensures { result ≡ self.now.jobs }
    {
        self.jobs
    }

    /// Lets the jobs of the peaks take their turns, against an order of the peaks. It gives how far they have come, or
    /// the stop that is met first.
    pub fn play<'t>(
        &'t self,
        alloc: Global,
        order: &'t PeakOrder<'t>,
    ) -> Result<RankedPeaks<'t>, RankFault>
        requires { order.now ≡ self.now.peaks }
        ensures played { Gives is_memory result (played self.now) }

        // Each job has found the first part of its list that its turns allow.
        ensures parts { IfOk result (λ _. AreRankedParts self.now) }
    {
        let jobs = self.begun_jobs(alloc, order)?;
        let mut board = Board::of(alloc, jobs)?;
        let end = play_rounds(&mut board, self.turn, self.turns);
        self.lists.clear();
        match end {
            Ok(()) => Ok(RankedPeaks::of(board)),
            Err(BoardFault::Job { fault, .. }) => Err(fault),
            Err(BoardFault::Memory) => Err(RankFault::Memory),
        }
    }

    /// The jobs of the peaks that are ranked, in their order.
    fn begun_jobs<'t>(
        &'t self,
        alloc: Global,
        order: &'t PeakOrder<'t>,
    ) -> Result<Vec<RankJob<'t>>, AllocError>
        requires { order.now ≡ self.now.peaks }
        ensures { IfOk result (λ jobs.
            map (λ job. begun (list_left job) (stop_left job)) jobs.items ≡ begun_jobs self.now) }
    {
        let (premises, lists) = (&self.premises, &self.lists);
        let mut jobs = Vec::new(alloc);
        for place in self.first..self.first + self.jobs {
            let job = RankJob::sharing(alloc, premises, order, lists, place, self.coverage)?;
            jobs.push(job)?;
        }
        Ok(jobs)
    }
}
