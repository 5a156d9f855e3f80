//! What is ranked, and how one candidate is.
ghost use Rattle.std.specs.Prelude.{◌≡◌, ◌+◌, ◌<◌, ◌^◌, IfOk};
ghost use Rattle.ranking.specs.RankJobs.{HasIon, IsTask};
ghost use Rattle.ranking.specs.Ratings.{RatedAs, RatedWithin, IsRatingOf, peaks_of, task_of};

use crate::fault::RankFault;
use crate::prediction::{Prediction, predict_with};
use adducts::ion_of;
use candidates::Ground;
use formula_text::Formula;
use prediction_score::PeakOrder;
use reaching_layer::{CoverFault, GrownLists};
use std::alloc::{AllocError, Global};

/// The peaks that predictions are held against: an order of a job's own, or one that several share.
#[derive(Drop)]
pub(crate) enum Order<'t> {
    Own(PeakOrder<'t>),
    Shared(&'t PeakOrder<'t>),
}

impl<'t> Order<'t> {
    /// The order of the peaks.
    pub(crate) fn get(&self) -> &PeakOrder<'t>
        ensures { result.now ≡ peaks_of self.now }
    {
        match self {
            Order::Own(order) => order,
            Order::Shared(order) => order,
        }
    }
}

/// The candidates of one peak, which are ranked for a coverage.
#[derive(Drop)]
pub(crate) struct Task<'t> {
    pub(crate) premises: &'t Ground,
    pub(crate) order: Order<'t>,
    pub(crate) place: usize,
    pub(crate) coverage: u64,
}

/// What a candidate is ranked by, and the size and the bound of its ion's cover.
#[derive(Clone, Copy)]
pub(crate) struct Rating {
    pub(crate) score: u64,
    pub(crate) size: u64,
    pub(crate) bound: u64,
}

impl<'t> Task<'t> {
    /// The peak's number, from 1 on.
    pub(crate) fn number(&self) -> u64
        requires { self.now.place + 1 < 2 ^ 64 }
        ensures { result ≡ self.now.place + 1 }
    {
        self.place as u64 + 1
    }

    /// The rating of a candidate of which so many more may be given, which may be one too many.
    pub(crate) fn rated_within(
        &self,
        alloc: Global,
        room: u64,
        formula: &Formula,
        kept: &mut GrownLists,
    ) -> Result<Rating, RankFault>
        requires task { IsTask (task_of self.now) }
        requires ion { HasIon (task_of self.now) formula.now }
        ensures { RatedWithin (task_of self.now) room formula.now result }
    {
        if room == 0 {
            return Err(RankFault::TooMany {
                peak: self.number(),
            });
        }
        self.rated(alloc, formula, kept)
    }

    /// The rating of a candidate, or that its ion has too large a layer.
    fn rated(
        &self,
        alloc: Global,
        formula: &Formula,
        kept: &mut GrownLists,
    ) -> Result<Rating, RankFault>
        requires task { IsTask (task_of self.now) }
        requires ion { HasIon (task_of self.now) formula.now }
        ensures { RatedAs (task_of self.now) formula.now result }
    {
        let adduct = self.premises.adduct();
        let Some(ion) = ion_of(alloc, formula, adduct)? else {
            unreachable!()
        };
        let table = self.premises.table();
        match predict_with(alloc, table, &ion, adduct.charge(), self.coverage, kept) {
            Ok(prediction) => Ok(self.scored(alloc, &prediction)?),
            Err(CoverFault::TooMany { .. }) => Err(RankFault::Layer {
                peak: self.number(),
                formula: ion,
            }),
            Err(CoverFault::Memory) => Err(RankFault::Memory),
        }
    }

    /// The rating of a prediction.
    fn scored(&self, alloc: Global, prediction: &Prediction) -> Result<Rating, AllocError>
        ensures { IfOk result (IsRatingOf (task_of self.now) prediction.now) }
    {
        let divisor = self.premises.adduct().divisor();
        let tolerance = self.premises.tolerance();
        let members = prediction.members();
        Ok(Rating {
            score: self.order.get().score(alloc, members, divisor, tolerance)?,
            size: prediction.size(),
            bound: prediction.bound(),
        })
    }
}
