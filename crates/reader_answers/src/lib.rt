//! What a reader of a text or of a file answers: a value, or its first fault.
//!
//! The definitions that the contracts of all readers cite: an answer that is the defined one or want of
//! memory, answers one after another, the rows of a file's records, and the place at which a text stops being
//! one of a grammar. The crate stands on no other and has no code.
#![tactic(auto)]
