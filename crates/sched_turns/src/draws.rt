//! Draws: one number after another, all from one seed.
ghost use Rattle.std.specs.Prelude.{◌≡◌, ◌<◌};
ghost use Rattle.sched_turns.specs.Draws.{next_state, drawn_number};

use std::marker::Model;

// The next state of the draws is the state by this factor, and this sum to it, modulo 2^64.
pub(crate) const FACTOR: u64 = 6_364_136_223_846_793_005;

pub(crate) const SUMMAND: u64 = 1_442_695_040_888_963_407;

/// Draws, seen as their state.
#[derive(Drop)]
pub struct Draws {
    state: u64,
}

impl Model for Draws {
    ghost use Rattle.std.specs.Prelude.{ℕ};

    ghost Value = { ℕ };

    ghost view = { λ draws. draws.state };
}

impl Draws {
    /// The draws of a seed.
    pub fn of(seed: u64) -> Draws
        ensures { result ≡ seed }
    {
        Draws { state: seed }
    }

    /// Draws the next number: the upper 31 bits of the next state.
    pub fn next_number(&mut self) -> u64
        ensures state { self.new ≡ next_state self.old }
        ensures number { result ≡ drawn_number self.new }
    {
        self.state = self.state.wrapping_mul(FACTOR).wrapping_add(SUMMAND);
        self.state >> 33
    }
}
