//! The lists of elements that jobs keep from one candidate to the next.

use reaching_layer::GrownLists;
use std::alloc::Global;
use std::cell::RefCell;

/// Lists of elements that jobs share, so that each is grown and kept once for all of them. They take 16 MB at most, and
/// none before a first job has ranked a candidate. No contract speaks of them.
#[derive(Drop)]
pub struct SharedLists {
    lists: RefCell<Option<GrownLists>>,
}

impl SharedLists {
    /// None yet. Takes no memory.
    pub fn new() -> SharedLists {
        SharedLists {
            lists: RefCell::new(None),
        }
    }

    /// Drops all lists.
    pub fn clear(&self) {
        let _ = self.lists.try_replace(None);
    }

    /// Lends the lists to the rating of a candidate.
    fn lend(&self, alloc: Global) -> GrownLists {
        match self.lists.try_replace(None) {
            Ok(Some(lists)) => lists,
            Ok(None) | Err(_) => GrownLists::new(alloc),
        }
    }

    /// Takes the lists back, with those that were grown meanwhile.
    fn take_back(&self, lists: GrownLists) {
        let _ = self.lists.try_replace(Some(lists));
    }
}

/// The lists that a job works with: of its own, or shared with other jobs.
#[derive(Drop)]
pub(crate) enum JobLists<'t> {
    Own(SharedLists),
    Shared(&'t SharedLists),
}

impl<'t> JobLists<'t> {
    /// Lends the lists to the rating of a candidate.
    pub(crate) fn lend(&self, alloc: Global) -> GrownLists {
        self.get().lend(alloc)
    }

    /// Takes the lists back, with those that were grown meanwhile.
    pub(crate) fn take_back(&self, lists: GrownLists) {
        self.get().take_back(lists);
    }

    /// Drops the lists that no other job can use.
    pub(crate) fn end(&self) {
        match self {
            JobLists::Own(lists) => lists.clear(),
            JobLists::Shared(_) => (),
        }
    }

    fn get(&self) -> &SharedLists {
        match self {
            JobLists::Own(lists) => lists,
            JobLists::Shared(lists) => lists,
        }
    }
}
