//! Lists in an order: the list of given members by which a rule on pairs says which stands before which.
//!
//! The definitions that the contracts of the layers above cite wherever members stand in a stated order, with the
//! law that there is one such list. The crate stands on no other and has no code: code sorts by std.
#![tactic(auto)]
