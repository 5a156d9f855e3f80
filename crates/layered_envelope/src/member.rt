//! A member of a layer by its places.
ghost use Rattle.std.specs.Prelude.{◌≡◌, IfOk};

use std::alloc::{AllocError, Global};
use std::marker::Model;

/// A member of a layer: for each element the place of its counts in the element's list of items. It is seen as the list
/// of these places.
#[derive(Debug, Drop)]
pub struct Member {
    pub(crate) places: Vec<usize>,
}

impl Model for Member {
    ghost use Rattle.std.specs.Prelude.{ℕ, List};

    ghost Value = { List ℕ };

    ghost view = { λ m. m.places.items };
}

impl Member {
    /// The member of these places, one for each element.
    pub fn of(alloc: Global, places: &[usize]) -> Result<Member, AllocError>
        ensures { IfOk result (λ m. m ≡ places.now) }
    {
        let places = places.to_vec(alloc)?;
        Ok(Member { places })
    }

    /// The places.
    pub fn places(&self) -> &[usize]
        ensures { result.now ≡ self.now }
    {
        self.places.as_slice()
    }
}
