//! `CountPass`, the right to use a count.
ghost use Rattle.std.specs.Prelude.{◌≡◌};
ghost use Rattle.shared_count.specs.History.{IsLegal};
ghost use Rattle.shared_count.specs.Passes.{handles};

use crate::ghost_types::View;
use atomic_table::Seat;
use std::marker::Model;

/// The right to use a count, in one thread at a time: `count.end(&mut pass)`. `SharedCount::open` makes the passes.
///
/// A pass owns some of the count's handles. If the pass is dropped, they stay counted forever. In a contract a pass
/// is its `count`, its `name`, which no other pass of that count has, and the history that it has `seen`.
#[derive(Drop)]
pub struct CountPass {
    pub(crate) seat: Seat<(), View>,
    pub(crate) owned: u64,
}

impl Model for CountPass {
    ghost use Rattle.shared_count.specs.Passes.{Pass};

    ghost Value = { Pass };

    ghost use Rattle.shared_count.specs.Inside.Seats.{pass_of, IsPass};

    ghost view = { λ p. pass_of p.seat.table_id p.seat.me };

    ghost invariant = { λ p. IsPass p.seat.me p.owned };
}

impl CountPass {
    /// Returns the number of handles that the pass owns, without a load: `pass.owned()`. Its contract also says that
    /// the history that the pass has seen is legal.
    pub fn owned(&self) -> u64
        ensures handles { result ≡ handles self.now }
        ensures legal { IsLegal self.now.count.passes self.now.seen }
    {
        self.owned
    }
}
