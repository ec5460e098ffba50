// The pair index: which two choices clash, pair by pair.
ghost use Rattle.std.specs.Prelude.{◌≡◌};
ghost use Rattle.indexes.specs.Pairs.{joins, pair_means, pair_meaning, ClashByPairs, pair_counts};
ghost use Rattle.indexes.specs.Pairing.{pair_rows};

use super::components::ComponentRow;
use super::index::{ClashRow, Index};
use archive::Archive;
use archive::choice::{Choice, same_pair};

// How many pair rows an index has room for.
pub const MAX_PAIRS: usize = 1024;

// The two choices clash.
#[derive(Clone, Copy, Default)]
pub struct PairRow {
    pub first: Choice,
    pub second: Choice,
}

impl PairRow {
    pub fn new(first: Choice, second: Choice) -> PairRow
        ensures { result ≡ record { first = first; second = second } }
    {
        PairRow { first, second }
    }
}

impl ClashRow for PairRow {
    ghost counts = { pair_counts };

    ghost parts = { joins };

    // Whether it names both choices, in either order.
    fn parts(&self, x: Choice, y: Choice) -> bool {
        same_pair(self.first, self.second, x, y)
    }

    ghost laws = { pair_rows };
}

pub type PairIndex = Index<PairRow, MAX_PAIRS>;

impl PairIndex {
    // Keeps the first 64 component rows and the first 1,024 pair rows. Each kind of index has a `new` of its own, which
    // states the law of its rows.
    pub fn new(components: &[ComponentRow], pairs: &[PairRow]) -> Self
        ensures archive { ⟦<PairIndex as Archive>⟧.meaning result ≡ pair_means result }
        ensures value { pair_means result ≡ pair_meaning components.now pairs.now }
        ensures clash { ClashByPairs components.now pairs.now }
    {
        Self::holding(components, pairs)
    }
}
