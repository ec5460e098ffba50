// The range index: what a release needs of another component.
ghost use Rattle.std.specs.Prelude.{◌≡◌};
ghost use Rattle.indexes.specs.Ranges.{leaves_out, parts, range_means, range_meaning, ClashByRanges, needs_count};
ghost use Rattle.indexes.specs.Ranging.{range_rows};

use super::components::ComponentRow;
use super::index::{ClashRow, Index};
use archive::Archive;
use archive::choice::Choice;

// How many needs rows an index has room for.
pub const MAX_NEEDS: usize = 512;

// The choice needs the other component at a release from low to high.
#[derive(Clone, Copy, Default)]
pub struct NeedsRow {
    pub choice: Choice,
    pub other: u8,
    pub low: u8,
    pub high: u8,
}

impl NeedsRow {
    pub fn new(choice: Choice, other: u8, low: u8, high: u8) -> NeedsRow
        ensures { result ≡ record { choice = choice; other = other; low = low; high = high } }
    {
        NeedsRow {
            choice,
            other,
            low,
            high,
        }
    }

    // Whether it is a row of x, names y's component and leaves y's release outside.
    fn leaves_out(&self, x: Choice, y: Choice) -> bool
        ensures { result ≡ leaves_out self.now x.component x.release y.component y.release }
    {
        self.choice == x
            && self.other == y.component
            && !(self.low <= y.release && y.release <= self.high)
    }
}

impl ClashRow for NeedsRow {
    ghost counts = { needs_count };

    ghost parts = { parts };

    // Whether it is a row of either choice that leaves the other out.
    fn parts(&self, x: Choice, y: Choice) -> bool {
        self.leaves_out(x, y) || self.leaves_out(y, x)
    }

    ghost laws = { range_rows };
}

pub type RangeIndex = Index<NeedsRow, MAX_NEEDS>;

impl RangeIndex {
    // Keeps the first 64 component rows and the first 512 needs rows. (Its own `new`, as that of `PairIndex`.)
    pub fn new(components: &[ComponentRow], needs: &[NeedsRow]) -> Self
        ensures archive { ⟦<RangeIndex as Archive>⟧.meaning result ≡ range_means result }
        ensures value { range_means result ≡ range_meaning components.now needs.now }
        ensures clash { ClashByRanges components.now needs.now }
    {
        Self::holding(components, needs)
    }
}
