//! The job that ranks the candidates of a peak.
ghost use Rattle.std.specs.Prelude.{◌≡◌, ◌≤◌, ◌<◌, ◌*◌, ◌^◌, IfOk, length};
ghost use Rattle.ranking.specs.Rankings.{is_memory, ranked_list, stop_of};
ghost use Rattle.ranking.specs.RankJobs.{begun, list_left, stop_left};
ghost use Rattle.ranking.specs.Ratings.{peaks_of};
ghost use Rattle.ranking.specs.JobStops.{stop-not_free};

use crate::fault::RankFault;
use crate::limits::MAX_CANDIDATES;
use crate::lists::{JobLists, SharedLists};
use crate::ranked::Ranked;
use crate::task::{Order, Task};
use crate::waiting::Waiting;
use candidates::{Candidates, Ground};
use formula_text::Formula;
use job_turns::Job;
use peak_text::Peaks;
use prediction_score::PeakOrder;
use std::alloc::{AllocError, Global};
use std::marker::Model;

/// Ranks the candidates of a peak one by one, in candidate order. Lists of elements are kept from one candidate to the
/// next, until none is left or, where jobs share them, as long as those who made them keep them. Contracts see the job's
/// task, the candidates that are left and how many more of them it may give.
#[derive(Drop)]
pub struct RankJob<'t> {
    alloc: Global,
    task: Task<'t>,
    waiting: Waiting<'t>,
    room: u64,
    lists: JobLists<'t>,
}

impl<'t> Model for RankJob<'t> {
    ghost use Rattle.ranking.specs.Ratings.{task_of, waiting_of};
    ghost use Rattle.ranking.specs.RankJobs.{RankState, IsState};

    ghost Value = { RankState };

    ghost view = { λ j. record { task = task_of j.task; formulas = waiting_of j.waiting; room = j.room } };

    ghost invariant = { λ j. IsState (record {
      task = task_of j.task;
      formulas = waiting_of j.waiting;
      room = j.room;
    }) };
}

impl<'t> RankJob<'t> {
    /// The job of the peak at a place of a peak list, from 0 on, for a coverage in units of 10^-18, from 1 to
    /// 999,999 * 10^12. It makes an order of the peaks of its own.
    pub fn start(
        alloc: Global,
        premises: &'t Ground,
        peaks: &'t Peaks,
        peak: usize,
        coverage: u64,
    ) -> Result<RankJob<'t>, AllocError>
        requires inside { peak < length peaks.now }
        requires some { 1 ≤ coverage }
        requires below_one { coverage ≤ 999999 * 10 ^ 12 }
        ensures list { IfOk result (λ job. list_left job ≡ ranked_list (record {
          premises = premises.now;
          peaks = peaks.now;
          place = peak;
          coverage = coverage;
        })) }
        ensures stop { IfOk result (λ job. stop_left job ≡ stop_of (record {
          premises = premises.now;
          peaks = peaks.now;
          place = peak;
          coverage = coverage;
        })) }
    {
        let order = Order::Own(PeakOrder::of(alloc, peaks)?);
        let lists = JobLists::Own(SharedLists::new());
        RankJob::of(alloc, premises, order, lists, peak, coverage)
    }

    /// The same over an order of the peaks that several jobs share.
    pub fn over(
        alloc: Global,
        premises: &'t Ground,
        order: &'t PeakOrder<'t>,
        peak: usize,
        coverage: u64,
    ) -> Result<RankJob<'t>, AllocError>
        requires inside { peak < length order.now }
        requires some { 1 ≤ coverage }
        requires below_one { coverage ≤ 999999 * 10 ^ 12 }
        ensures list { IfOk result (λ job. list_left job ≡ ranked_list (record {
          premises = premises.now;
          peaks = order.now;
          place = peak;
          coverage = coverage;
        })) }
        ensures stop { IfOk result (λ job. stop_left job ≡ stop_of (record {
          premises = premises.now;
          peaks = order.now;
          place = peak;
          coverage = coverage;
        })) }
    {
        let lists = JobLists::Own(SharedLists::new());
        RankJob::of(alloc, premises, Order::Shared(order), lists, peak, coverage)
    }

    /// The same with lists of elements that several jobs share. They change nothing of what a job gives.
    pub fn sharing(
        alloc: Global,
        premises: &'t Ground,
        order: &'t PeakOrder<'t>,
        lists: &'t SharedLists,
        peak: usize,
        coverage: u64,
    ) -> Result<RankJob<'t>, AllocError>
        requires inside { peak < length order.now }
        requires some { 1 ≤ coverage }
        requires below_one { coverage ≤ 999999 * 10 ^ 12 }
        ensures list { IfOk result (λ job. list_left job ≡ ranked_list (record {
          premises = premises.now;
          peaks = order.now;
          place = peak;
          coverage = coverage;
        })) }
        ensures stop { IfOk result (λ job. stop_left job ≡ stop_of (record {
          premises = premises.now;
          peaks = order.now;
          place = peak;
          coverage = coverage;
        })) }
    {
        let (order, lists) = (Order::Shared(order), JobLists::Shared(lists));
        RankJob::of(alloc, premises, order, lists, peak, coverage)
    }

    /// The job over an order and with lists of either kind.
    fn of(
        alloc: Global,
        premises: &'t Ground,
        order: Order<'t>,
        lists: JobLists<'t>,
        peak: usize,
        coverage: u64,
    ) -> Result<RankJob<'t>, AllocError>
        requires inside { peak < length (peaks_of order) }
        requires some { 1 ≤ coverage }
        requires below_one { coverage ≤ 999999 * 10 ^ 12 }
        ensures { IfOk result (λ job. job ≡ begun (record {
          premises = premises.now;
          peaks = peaks_of order.entry;
          place = peak;
          coverage = coverage;
        })) }
    {
        // The table has the items of the candidates.
        let _table = premises.table();
        let mz = order.get().peaks().mz()[peak];
        let candidates = Candidates::start(alloc, premises, mz)?;
        let task = Task {
            premises,
            order,
            place: peak,
            coverage,
        };
        let waiting = Waiting {
            candidates,
            first: None,
        };
        Ok(RankJob {
            alloc,
            task,
            waiting,
            room: MAX_CANDIDATES,
            lists,
        })
    }
}

impl<'t> Job for RankJob<'t> {
    type Item = Ranked;

    type Fault = RankFault;

    ghost left = { list_left };

    ghost stop = { stop_left };

    ghost is_free = { is_memory };

    ghost never_free = { stop-not_free };

    fn is_free(fault: &RankFault) -> bool
        ensures { result ≡ is_memory fault.now }
    {
        match fault {
            RankFault::Memory => true,
            RankFault::TooMany { .. } | RankFault::Layer { .. } => false,
        }
    }

    fn next(&mut self) -> Result<Option<Ranked>, RankFault> {
        let Some(formula) = self.waiting.take()? else {
            self.lists.end();
            return Ok(None);
        };
        let mut lists = self.lists.lend(self.alloc);
        let rated = self
            .task
            .rated_within(self.alloc, self.room, &formula, &mut lists);
        self.lists.take_back(lists);
        match rated {
            Ok(rating) => {
                self.room -= 1;
                Ok(Some(Ranked {
                    formula,
                    score: rating.score,
                    size: rating.size,
                    bound: rating.bound,
                }))
            }
            Err(fault) => {
                self.waiting.put_back(formula);
                Err(fault)
            }
        }
    }
}
