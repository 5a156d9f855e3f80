//! `envelope` and `check`: the covers of ions and their certificates, read and reported.
//!
//! An [`Envelope`] is the cover that `envelope` asks for, and a [`CertifiedCover`] that cover with the text of its
//! certificate; contracts see both as the query for the cover. A [`Check`] is a certificate that was accepted, with the
//! table that it was judged by. Each is read from the options of its command and a shelf, and writes its report.
//!
//! The crate stands on `command_io` for what commands have in common, on `adducts` and `formula_text` for ions, on
//! `cover_certificate` for the cover of an ion and its certificate, on `certificate_check` for the judgement of one, and on
//! `report_lines` and `report_text` for lines.
#![tactic(auto)]

mod certified;
mod check;
mod envelope;

pub use certified::CertifiedCover;
pub use check::{Check, CheckOptions};
pub use envelope::{Envelope, EnvelopeOptions};
