//! What a layer has.

/// The most members of a layer.
pub const MAX_MEMBERS: u64 = 1_048_576;

/// What a layer has. The bounds of its members are in units of 10^-18.
#[derive(Clone, Copy, Debug, PartialEq, Eq)]
pub struct LayerEnd {
    /// The upper bounds of its members are above this.
    pub threshold: u64,
    /// How many members it has.
    pub members: u64,
    /// What their lower bounds total.
    pub lo_total: u128,
    /// What their upper bounds total.
    pub hi_total: u128,
}

impl LayerEnd {
    ghost use Rattle.std.specs.Prelude.{◌≡◌};

    /// A layer of this threshold without a member.
    pub(crate) fn empty(threshold: u64) -> LayerEnd
        ensures { result ≡ record { threshold = threshold; members = 0; lo_total = 0; hi_total = 0 } }
    {
        LayerEnd {
            threshold,
            members: 0,
            lo_total: 0,
            hi_total: 0,
        }
    }
}
