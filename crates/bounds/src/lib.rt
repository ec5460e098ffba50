// Bounds: how many old pins can be kept together, at most.
#![tactic(auto)]

ghost use Rattle.std.specs.Prelude.{◌≡◌, ℕ, List};
ghost use Rattle.bounds.specs.Clashes.{Reaches, Most};

pub mod counting;
pub mod pairing;
pub mod table;

use table::PinTable;

// A bound is given a pin table and the open pins, a set of numbers below 64. Its answer depends on nothing else, and
// asking changes nothing.
pub trait Bound {
    ghost answer: { Self → List ℕ → ℕ → ℕ };

    // How many of the open pins can be kept together, at most.
    fn most_kept(&self, table: &PinTable, pins: u64) -> u32
        ensures { result ≡ answer self.now table.now.rows pins };

    ghost reaches: { (s : Self) → Reaches (answer s) };

    ghost most: { (s : Self) → Most (answer s) };
}
