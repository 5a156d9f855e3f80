//! The whole ranking of a peak.
ghost use Rattle.std.specs.Prelude.{◌≡◌, ◌≤◌, ◌<◌, ◌*◌, ◌^◌, length};
ghost use Rattle.reader_answers.specs.Answers.{GivesAs};
ghost use Rattle.ranking.specs.Rankings.{RankTask, is_memory, ranked_list, stop_of, unless_stopped};

use crate::fault::RankFault;
use crate::job::RankJob;
use crate::ranked::Ranked;
use candidates::Ground;
use job_turns::Job;
use peak_text::Peaks;
use std::alloc::Global;

/// The candidates of the peak at a place of a peak list, from 0 on, by rising score, ties in candidate order; or the
/// stop of the peak's [`RankJob`], where it has one.
pub fn rank(
    alloc: Global,
    premises: &Ground,
    peaks: &Peaks,
    peak: usize,
    coverage: u64,
) -> Result<Vec<Ranked>, RankFault>
    requires inside { peak < length peaks.now }
    requires some { 1 ≤ coverage }
    requires below_one { coverage ≤ 999999 * 10 ^ 12 }
    ensures { GivesAs (λ found. found.items) is_memory result (
        let task : RankTask = record { premises = premises.now; peaks = peaks.now; place = peak; coverage = coverage } in
        unless_stopped (stop_of task) (ranked_list task)) }
{
    let mut job = RankJob::start(alloc, premises, peaks, peak, coverage)?;
    let mut found = Vec::new(alloc);
    while let Some(ranked) = job.next()? {
        if found.push(ranked).is_err() {
            return Err(RankFault::Memory);
        }
    }
    found.sort_by_key(|ranked| ranked.score)?;
    Ok(found)
}
