// The pin table: which pins clash with which.
ghost use Rattle.std.specs.Prelude.{ℕ, Decides};
ghost use Rattle.bounds.specs.Clashes.{Marks, Clash, Marked};

use masks::word::Word;

// One row of 64 marks for each component's pin, in an array, since no memory is allocated (a rule of the project). A
// caller's table may mark a clash in one of the two rows only.
#[derive(Clone, Copy)]
pub struct PinTable {
    pub rows: [u64; 64],
}

impl PinTable {
    // Marks nothing.
    pub fn blank() -> Self
        ensures { (a b : ℕ) → Marks result.rows a b → ⊥ }
    {
        PinTable { rows: [0; 64] }
    }

    // Marks b in a's row, and there only; from 64 on there is nothing to mark.
    pub fn mark(&mut self, a: u8, b: u8)
        ensures { Marked self.old.rows a b self.new.rows }
    {
        // `get_mut` was tried, and the proof did not close: after it the array's length is known, and no element.
        if a < 64 && b < 64 {
            let row = &mut self.rows[a as usize];
            *row = row.with(b);
        }
    }

    // Whether the row of one marks the other; a number from 64 on clashes with nothing.
    pub fn clash(&self, a: u8, b: u8) -> bool
        ensures { Decides result (Clash self.now.rows a b) }
    {
        self.marks(a, b) || self.marks(b, a)
    }

    // Whether a's row marks b.
    #[tactic(auto, using(crate::proofs::Tables::past_clear))]
    fn marks(&self, a: u8, b: u8) -> bool
        ensures { Decides result (Marks self.now.rows a b) }
    {
        self.rows.get(a as usize).is_some_and(|row| row.has(b))
    }
}
