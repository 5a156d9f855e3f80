//! Turns of small jobs: their answers, their order, which no clause knows, and that calls succeed with ample memory.
ghost use Rattle.std.specs.Prelude.{◌≡◌, false, Some, None, replicate, if◌then◌else◌};
ghost use Rattle.job_turns.specs.Jobs.{TakesNext};
ghost use Rattle.std.proofs.Common.{arith};

use super::*;
use std::alloc::Global;
use std::cell::Cell;
use std::process::Abort;
use std::test::Fail;

/// Why a job of the tests gives no more, or can't give now.
#[derive(Clone, Copy, Debug, PartialEq, Eq)]
struct Fault {
    is_memory: bool,
}

const STOP: Fault = Fault { is_memory: false };

/// A job that gives its own number so many times. At each item it puts the number behind the digits of a tally that
/// all jobs share.
#[derive(Drop)]
struct Repeats<'a> {
    number: u64,
    left: u64,
    is_broken: bool,
    /// Memory is wanting once where so many items are left.
    short_at: Option<u64>,
    tally: &'a Cell<u64>,
}

impl<'a> Job for Repeats<'a> {
    type Item = u64;

    type Fault = Fault;

    ghost left = { λ job. replicate job.left job.number };

    ghost stop = { λ job. if job.is_broken then Some (record { is_memory = false }) else None };

    ghost is_free = { λ fault. fault.is_memory };

    ghost never_free = { λ job fault is. Prim.grind arith };

    fn is_free(fault: &Fault) -> bool
        ensures { result ≡ fault.now.is_memory }
    {
        fault.is_memory
    }

    fn next(&mut self) -> Result<Option<u64>, Fault> {
        if self.short_at == Some(self.left) {
            self.short_at = None;
            return Err(Fault { is_memory: true });
        }
        if self.left > 0 {
            self.left -= 1;
            let digits = self.tally.get().wrapping_mul(10);
            self.tally.set(digits.wrapping_add(self.number));
            return Ok(Some(self.number));
        }
        if self.is_broken { Err(STOP) } else { Ok(None) }
    }
}

/// A job of so many items without a stop.
fn job_of<'a>(number: u64, left: u64, tally: &'a Cell<u64>) -> Repeats<'a> {
    Repeats {
        number,
        left,
        is_broken: false,
        short_at: None,
        tally,
    }
}

/// A board of one job.
fn board_of<'a>(alloc: Global, job: Repeats<'a>) -> Result<Board<Repeats<'a>>, Fail> {
    let mut jobs = Vec::new(alloc);
    jobs.push(job)?;
    Ok(Board::of(alloc, jobs)?)
}

#[test]
fn a_turn_ends_full_or_finished(rt: HostRuntime) -> Result<(), Fail> {
    let tally = Cell::new(0);
    let mut board = board_of(rt.alloc(), job_of(7, 2, &tally))?;
    assert_eq!(rt; board.job_count(), 1);
    assert!(rt; !board.finished(0));
    assert_eq!(rt; board.turn(0, 3), Ok(TurnEnd::Finished { gave: 2 }));
    assert_eq!(rt; board.found(0), [7, 7].as_slice());
    assert!(rt; board.finished(0));
    // A finished job may get further turns.
    assert_eq!(rt; board.turn(0, 1), Ok(TurnEnd::Finished { gave: 0 }));
    Ok(())
}

#[test]
fn a_job_is_finished_by_the_turn_that_finds_no_more(rt: HostRuntime) -> Result<(), Fail> {
    let tally = Cell::new(0);
    let mut board = board_of(rt.alloc(), job_of(7, 2, &tally))?;
    assert_eq!(rt; board.job_count(), 1);
    let one = Turn { job: 0, allow: 1 };
    board.play(&[])?;
    board.play(&[one, one])?;
    assert_eq!(rt; board.found(0), [7, 7].as_slice());
    assert!(rt; !board.finished(0));
    board.play(&[one])?;
    assert!(rt; board.finished(0));
    Ok(())
}

// The digits of the tally are the jobs' numbers in the order in which they gave items.
#[test]
fn turns_are_given_in_their_order(rt: HostRuntime) -> Result<(), Fail> {
    let alloc = rt.alloc();
    let tally = Cell::new(0);
    let mut jobs = Vec::new(alloc);
    jobs.push(job_of(1, 3, &tally))?;
    jobs.push(job_of(2, 3, &tally))?;
    let mut board = Board::of(alloc, jobs)?;
    let turns = [
        Turn { job: 0, allow: 1 },
        Turn { job: 1, allow: 2 },
        Turn { job: 0, allow: 2 },
    ];
    board.play(&turns)?;
    assert_eq!(rt; tally.get(), 12211);
    assert_eq!(rt; board.found(0), [1, 1, 1].as_slice());
    assert_eq!(rt; board.found(1), [2, 2].as_slice());
    Ok(())
}

#[test]
fn a_stop_ends_the_play_behind_all_items(rt: HostRuntime) -> Result<(), Fail> {
    let alloc = rt.alloc();
    let tally = Cell::new(0);
    let mut jobs = Vec::new(alloc);
    jobs.push(job_of(1, 100, &tally))?;
    jobs.push(Repeats {
        is_broken: true,
        ..job_of(2, 2, &tally)
    })?;
    let mut board = Board::of(alloc, jobs)?;
    assert_eq!(rt; board.turn(1, 1), Ok(TurnEnd::Full));
    let turns = [
        Turn { job: 0, allow: 70 },
        Turn { job: 1, allow: 2 },
        Turn { job: 0, allow: 30 },
    ];
    let stop = BoardFault::Job {
        job: 1,
        fault: STOP,
    };
    assert_eq!(rt; board.play(&turns), Err(stop));
    assert_eq!(rt; board.found(0).len(), 70);
    assert_eq!(rt; board.found(1), [2, 2].as_slice());
    assert!(rt; !board.finished(1));
    Ok(())
}

#[test]
fn what_was_taken_before_want_of_memory_stays_found(rt: HostRuntime) -> Result<(), Fail> {
    let tally = Cell::new(0);
    let job = Repeats {
        short_at: Some(1),
        ..job_of(3, 3, &tally)
    };
    let mut board = board_of(rt.alloc(), job)?;
    assert_eq!(rt; board.job_count(), 1);
    assert_eq!(rt; board.turn(0, 3), Err(BoardFault::Memory));
    assert_eq!(rt; board.found(0), [3, 3].as_slice());
    assert_eq!(rt; board.turn(0, 3), Ok(TurnEnd::Finished { gave: 1 }));
    assert_eq!(rt; board.found(0), [3, 3, 3].as_slice());
    Ok(())
}

#[test]
fn a_board_may_have_no_job(rt: HostRuntime) -> Result<(), Fail> {
    let jobs: Vec<Repeats<'static>> = Vec::new(rt.alloc());
    let mut board = Board::of(rt.alloc(), jobs)?;
    assert_eq!(rt; board.job_count(), 0);
    board.play(&[])?;
    Ok(())
}
