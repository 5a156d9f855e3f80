//! The text of an isotope in room of one size, so that it is copied without a look at its length.
ghost use Rattle.std.specs.Prelude.{◌≡◌, ◌≤◌, length};

/// The most bytes of the text of an isotope: two brackets, ten digits and three letters, and one to spare.
pub(crate) const LABEL_LENGTH: usize = 16;

/// The text of an isotope: the bytes from `start` to the end.
#[derive(Clone, Copy)]
pub(crate) struct Label {
    pub bytes: [u8; LABEL_LENGTH],
    pub start: usize,
    ghost whole: { length bytes ≡ 16 },
    ghost within: { start ≤ 16 },
}
