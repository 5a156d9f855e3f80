//! The draws of a number.
ghost use Rattle.std.specs.Prelude.{◌≡◌, ◌<◌, ◌≤◌, ◌^◌};
ghost use Rattle.peak_generator.specs.Draws.{drawn_at, next_state};

use std::marker::Model;

/// The greatest number that draws begin with, 2^31 - 1.
pub const MAX_NUMBER: u64 = 2_147_483_647;

const MULTIPLIER: u64 = 1_103_515_245;

const INCREMENT: u64 = 12_345;

/// The draws of a number, one after another. Contracts see the state that they have come to, which is the number before
/// the first draw.
#[derive(Debug, Drop)]
pub struct Draws {
    state: u64,
}

impl Model for Draws {
    ghost use Rattle.std.specs.Prelude.{ℕ, ◌≤◌};
    ghost use Rattle.peak_generator.specs.declared.draws.TheConstants.{MAX_NUMBER};

    ghost Value = { ℕ };

    ghost view = { λ d. d.state };

    ghost invariant = { λ d. d.state ≤ MAX_NUMBER };
}

impl Draws {
    /// The draws of a number.
    pub fn of(number: u64) -> Draws
        requires { number ≤ MAX_NUMBER }
        ensures { result ≡ number }
    {
        Draws { state: number }
    }

    /// The next draw, of 15 bits.
    pub fn draw(&mut self) -> u32
        ensures state { self.new ≡ next_state self.old }
        ensures drawn { result ≡ drawn_at self.new }
        ensures small { result < 2 ^ 15 }
    {
        self.state = (MULTIPLIER * self.state + INCREMENT) % (MAX_NUMBER + 1);
        (self.state / 65_536) as u32
    }
}
