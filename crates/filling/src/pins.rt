// The pin table of a search.
ghost use Rattle.std.specs.Prelude.{ℕ, ◌<◌, ◌≤◌, Decides};
ghost use Rattle.bounds.specs.Clashes.{Marks};
ghost use Rattle.filling.specs.Filled.{Same, Parted, PartedFrom};

use bounds::table::PinTable;
use masks::word::Word;
use rows::Row;
use rows::suits::SuitRows;

// The pins of the components, with what is open and what suits. Its methods take bytes below 64, as `from_fn` hands
// them out; a type for these would be packed and unpacked at every entry.
#[derive(Drop)]
pub(super) struct Pinned<'a> {
    pub components: u8,
    pub pins: &'a [u8; 64],
    pub opens: &'a Row,
    pub suits: &'a [SuitRows; 64],
    ghost few: { components ≤ 64 },
}

impl Pinned<'_> {
    // Marks the open pins that do not suit each other.
    pub fn table(&self) -> PinTable
        ensures { (a b : ℕ) → a < 64 → b < self.now.components → Same (Marks result.rows a b) (Parted self.now.opens.now self.now.pins.now self.now.suits.now a b) }
    {
        PinTable {
            rows: std::array::from_fn(|a| self.row(a as u8)),
        }
    }

    // The components whose open pins do not suit the open pin of a; none where that is not open.
    #[tactic(auto, using(masks::proofs::Words::nothing))]
    fn row(&self, a: u8) -> u64
        requires { a < 64 }
        ensures { PartedFrom self.now.components self.now.opens.now self.now.pins.now self.now.suits.now a result }
    {
        if !self.opens[a as usize].has(self.pins[a as usize]) {
            return 0;
        }
        u64::below(self.components).filter(|b| self.parted(a, b))
    }

    // Whether the pins of a and b are open and do not suit each other.
    #[tactic(auto, using(crate::proofs::Filling::below_32))]
    fn parted(&self, a: u8, b: u8) -> bool
        requires this { a < 64 }
        requires that { b < 64 }
        ensures { Decides result (Parted self.now.opens.now self.now.pins.now self.now.suits.now a b) }
    {
        let (pin, other) = (self.pins[a as usize], self.pins[b as usize]);
        self.opens[a as usize].has(pin)
            && self.opens[b as usize].has(other)
            && !self.suits[a as usize].rows[pin as usize].masks[b as usize].has(other)
    }
}
