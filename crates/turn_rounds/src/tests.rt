//! Rounds of small jobs: how far they come, the stop that is met first, and that calls succeed with ample memory.
ghost use Rattle.std.specs.Prelude.{◌≡◌, false, refl, Some, None, if◌then◌else◌};
ghost use Rattle.turn_rounds.specs.declared.tests.Fault.TheVariants.{Limit};

use super::*;
use std::alloc::Global;
use std::test::Fail;

/// Why a job of the tests gives no more.
#[derive(Clone, Copy, Debug, PartialEq, Eq)]
enum Fault {
    Limit,
}

/// A job that gives the items of a list.
#[derive(Drop)]
struct ListJob<'a> {
    items: &'a [u64],
    is_broken: bool,
}

impl<'a> Job for ListJob<'a> {
    type Item = u64;

    type Fault = Fault;

    ghost left = { λ job. job.items.now };

    ghost stop = { λ job. if job.is_broken then Some Limit else None };

    ghost is_free = { λ fault. false };

    ghost never_free = { λ job fault is. refl };

    fn is_free(_fault: &Fault) -> bool
        ensures { result ≡ false }
    {
        false
    }

    fn next(&mut self) -> Result<Option<u64>, Fault> {
        if let [first, rest @ ..] = self.items {
            self.items = rest;
            return Ok(Some(*first));
        }
        if self.is_broken {
            Err(Fault::Limit)
        } else {
            Ok(None)
        }
    }
}

/// A board of two jobs over these lists.
fn board_of<'a>(
    alloc: Global,
    first: &'a [u64],
    second: &'a [u64],
    is_broken: bool,
) -> Result<Board<ListJob<'a>>, Fail> {
    let mut jobs = Vec::new(alloc);
    jobs.push(ListJob {
        items: first,
        is_broken,
    })?;
    jobs.push(ListJob {
        items: second,
        is_broken,
    })?;
    Ok(Board::of(alloc, jobs)?)
}

/// Rounds over a job of two items and one of three, and how far they come.
struct Case {
    allow: u64,
    turns: Option<u64>,
    found: [usize; 2],
    finished: [bool; 2],
}

const CASES: [Case; 6] = [
    Case {
        allow: 1,
        turns: Some(3),
        found: [2, 1],
        finished: [false, false],
    },
    Case {
        allow: 1,
        turns: Some(0),
        found: [0, 0],
        finished: [false, false],
    },
    Case {
        allow: 2,
        turns: Some(3),
        found: [2, 2],
        finished: [true, false],
    },
    Case {
        allow: 2,
        turns: Some(4),
        found: [2, 3],
        finished: [true, true],
    },
    Case {
        allow: 1,
        turns: None,
        found: [2, 3],
        finished: [true, true],
    },
    Case {
        allow: 64,
        turns: None,
        found: [2, 3],
        finished: [true, true],
    },
];

#[test]
fn each_job_goes_by_the_sum_of_its_allowances(rt: HostRuntime) -> Result<(), Fail> {
    for case in &CASES {
        assert!(rt; case.allow >= 1);
        let mut board = board_of(rt.alloc(), &[10, 11], &[20, 21, 22], false)?;
        play_rounds(&mut board, case.allow, case.turns)?;
        assert_eq!(rt; board.job_count(), 2);
        assert_eq!(rt; board.found(0).len(), case.found[0]);
        assert_eq!(rt; board.found(1).len(), case.found[1]);
        assert_eq!(rt; board.finished(0), case.finished[0]);
        assert_eq!(rt; board.finished(1), case.finished[1]);
    }
    Ok(())
}

// The second job stops in the fourth turn, and the first one would in the seventh.
#[test]
fn the_stop_of_the_earlier_turn_is_met(rt: HostRuntime) -> Result<(), Fail> {
    let stop = BoardFault::Job {
        job: 1,
        fault: Fault::Limit,
    };
    let mut board = board_of(rt.alloc(), &[10, 11, 12], &[20], true)?;
    assert_eq!(rt; play_rounds(&mut board, 1, Some(3)), Ok(()));
    let mut board = board_of(rt.alloc(), &[10, 11, 12], &[20], true)?;
    assert_eq!(rt; play_rounds(&mut board, 1, Some(4)), Err(stop));
    assert_eq!(rt; board.job_count(), 2);
    assert_eq!(rt; board.found(0), [10, 11].as_slice());
    Ok(())
}

#[test]
fn a_stop_ends_rounds_without_a_number(rt: HostRuntime) -> Result<(), Fail> {
    let stop = BoardFault::Job {
        job: 1,
        fault: Fault::Limit,
    };
    let mut board = board_of(rt.alloc(), &[10, 11, 12], &[20], true)?;
    assert_eq!(rt; play_rounds(&mut board, 1, None), Err(stop));
    Ok(())
}

#[test]
fn a_job_without_items_is_open_until_its_first_turn(rt: HostRuntime) -> Result<(), Fail> {
    let mut board = board_of(rt.alloc(), &[], &[], false)?;
    play_rounds(&mut board, 1, Some(1))?;
    assert_eq!(rt; board.job_count(), 2);
    assert!(rt; board.finished(0));
    assert!(rt; !board.finished(1));
    Ok(())
}

#[test]
fn without_a_job_there_is_no_turn(rt: HostRuntime) -> Result<(), Fail> {
    let jobs: Vec<ListJob<'static>> = Vec::new(rt.alloc());
    let mut board = Board::of(rt.alloc(), jobs)?;
    play_rounds(&mut board, 64, Some(1_000_000))?;
    play_rounds(&mut board, 64, None)?;
    Ok(())
}
