//! Rounds of turns on a board of jobs: the jobs get their turns in the order of their places, again and again, each
//! with the same allowance.
//!
//! What comes of them follows from the lists of the jobs and their stops alone: where no stop is met each job has given
//! the first items of its list, as many as the sum of its allowances, and else the stop that is met first is answered.
//! The crate stands on `job_turns`, and gives each turn by [`Board::turn`].
#![tactic(auto)]

ghost use Rattle.std.specs.Prelude.{◌≡◌, ◌≤◌, ℕ, Some, None, false, length, Err};
ghost use Rattle.job_turns.specs.Boards.{jobs_of};
ghost use Rattle.job_turns.specs.Turns.{KeepsItems};
ghost use Rattle.turn_rounds.specs.Answers.{PlaysRounds, EndsRounds};

use job_turns::{Board, BoardFault, Job, TurnEnd};

#[cfg(test)]
mod tests;

/// Gives the jobs so many turns in rounds, each with this allowance. Without a number of turns it goes on, round by
/// round, until each job is finished. It stops at the first fault; the turns before it stay given. Where there is no
/// job it does nothing.
pub fn play_rounds<J: Job>(
    board: &mut Board<J>,
    allow: u64,
    turns: Option<u64>,
) -> Result<(), BoardFault<J::Fault>>
    requires { 1 ≤ allow }

    // The turns are those of rounds.
    ensures play { PlaysRounds allow turns (jobs_of J.left J.stop board.old) result (jobs_of J.left J.stop board.new) }

    // So this comes of them.
    ensures ends { EndsRounds allow turns (jobs_of J.left J.stop board.old) result (jobs_of J.left J.stop board.new) }
    ensures kept { KeepsItems (jobs_of J.left J.stop board.old) (jobs_of J.left J.stop board.new) }
    ensures count { length (jobs_of J.left J.stop board.new) ≡ length (jobs_of J.left J.stop board.old) }

    // A stop is never want of memory.
    ensures stop { (place : ℕ) (fault : J.Fault) →
        result ≡ Err (BoardFault.Job place fault) → J.is_free fault ≡ false }
{
    match turns {
        Some(count) => play_turns(board, allow, count),
        None => play_until_finished(board, allow),
    }
}

/// Gives so many turns in rounds.
fn play_turns<J: Job>(
    board: &mut Board<J>,
    allow: u64,
    count: u64,
) -> Result<(), BoardFault<J::Fault>>
    requires { 1 ≤ allow }
    ensures play { PlaysRounds allow (Some count)
        (jobs_of J.left J.stop board.old) result (jobs_of J.left J.stop board.new) }
    ensures ends { EndsRounds allow (Some count)
        (jobs_of J.left J.stop board.old) result (jobs_of J.left J.stop board.new) }
    ensures kept { KeepsItems (jobs_of J.left J.stop board.old) (jobs_of J.left J.stop board.new) }
    ensures stop { (place : ℕ) (fault : J.Fault) →
        result ≡ Err (BoardFault.Job place fault) → J.is_free fault ≡ false }
{
    let jobs = board.job_count();
    if jobs == 0 {
        return Ok(());
    }
    for number in 0..count {
        board.turn((number % jobs as u64) as usize, allow)?;
    }
    Ok(())
}

/// Gives turns in rounds up to a round in which each job has no item left.
fn play_until_finished<J: Job>(board: &mut Board<J>, allow: u64) -> Result<(), BoardFault<J::Fault>>
    requires { 1 ≤ allow }
    ensures play { PlaysRounds allow None
        (jobs_of J.left J.stop board.old) result (jobs_of J.left J.stop board.new) }
    ensures ends { EndsRounds allow None
        (jobs_of J.left J.stop board.old) result (jobs_of J.left J.stop board.new) }
    ensures kept { KeepsItems (jobs_of J.left J.stop board.old) (jobs_of J.left J.stop board.new) }
    ensures stop { (place : ℕ) (fault : J.Fault) →
        result ≡ Err (BoardFault.Job place fault) → J.is_free fault ≡ false }
{
    let jobs = board.job_count();
    let mut is_open = true;
    while is_open {
        is_open = false;
        for place in 0..jobs {
            if let TurnEnd::Full = board.turn(place, allow)? {
                is_open = true;
            }
        }
    }
    Ok(())
}
