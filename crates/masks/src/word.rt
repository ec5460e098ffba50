// A machine word as a set of the numbers below its width.
ghost use Rattle.std.specs.Prelude.{◌≡◌, ◌≢◌, ℕ, true, false, ◌⊎◌, ◌-◌, ◌<◌, max, Decides, MatchOption, bit_and, bit_or, bit_xor};
ghost use Rattle.masks.specs.Masks.{bit, Has, Empty, Only, With, Without, Below, Highest, Lowest, size};

use std::ops::{BitAnd, BitOr, BitXor};

pub trait Word: Copy
    + BitAnd<Self, Output = Self>
    + BitOr<Self, Output = Self>
    + BitXor<Self, Output = Self> {
    // How many bits a word has.
    ghost width: { ℕ };

    // The number whose bits they are.
    ghost number: { Self → ℕ };

    // The set of j alone; nothing from the width on.
    fn only(j: u8) -> Self
        ensures { Only width j (number result) };

    // The numbers below n; all, where n is the width or more.
    fn below(n: u8) -> Self
        ensures { Below width n (number result) };

    // j alone where it is in the word; otherwise nothing.
    fn pick(self, j: u8) -> Self
        ensures same { bit (number result) j ≡ bit (number self) j }
        ensures alone { (k : ℕ) → k ≢ j → bit (number result) k ≡ 0 };

    // Whether nothing is in the word.
    fn is_empty(self) -> bool
        ensures { Decides result (Empty (number self)) };

    // The lowest in the word.
    fn lowest(self) -> Option<u8>
        ensures { MatchOption result (Empty (number self)) (λ j. Lowest width (number self) j) };

    // The highest in the word.
    fn highest(self) -> Option<u8>
        ensures { MatchOption result (Empty (number self)) (λ j. Highest width (number self) j) };

    // How many are in the word.
    fn count(self) -> u32
        ensures { result ≡ size width (number self) };

    // Whether j is in the word.
    fn has(self, j: u8) -> bool
        ensures { Decides result (Has (number self) j) }
    {
        !self.pick(j).is_empty()
    }

    // The word with j; j is left out from the width on.
    #[tactic(auto, using(crate::proofs::Words::with_only))]
    fn with(self, j: u8) -> Self
        ensures { With width (number self) j (number result) }
    {
        self.union(Self::only(j))
    }

    // The word without j.
    #[tactic(auto, using(crate::proofs::Words::without_pick))]
    fn without(self, j: u8) -> Self
        ensures { Without (number self) j (number result) }
    {
        self.minus(self.pick(j))
    }

    // Whether more than one is in the word.
    fn several(self) -> bool
        ensures { Decides result (1 < size width (number self)) }
    {
        self.count() > 1
    }

    // Whether some number is in both.
    fn meets(self, other: Self) -> bool
        ensures { Decides result ((j : ℕ) × Has (number self) j × Has (number other) j) }
    {
        !(self & other).is_empty()
    }

    // What is in the word or in the other.
    #[tactic(auto, using(crate::proofs::Words::union_or))]
    fn union(self, other: Self) -> Self
        ensures { (j : ℕ) → bit (number result) j ≡ max (bit (number self) j) (bit (number other) j) }
    {
        self | other
    }

    // What is in the word and not in the other.
    #[tactic(auto, using(crate::proofs::Words::minus_xor))]
    fn minus(self, other: Self) -> Self
        ensures { (j : ℕ) → bit (number result) j ≡ bit (number self) j - bit (number other) j }
    {
        self ^ (self & other)
    }

    // The members that pass the test. A closure is code of the caller's, so it has to be required that it may be
    // called; one that is safe for every byte may.
    #[tactic(auto, using(crate::proofs::Sizes::size_lowest))]
    fn filter<F: Fn(u8) -> bool>(self, test: F) -> Self
        requires { (j : ℕ) → j < width → Has (number self) j → F.pre test j }
        ensures within { (j : ℕ) → Has (number result) j → Has (number self) j }
        ensures passed { (j : ℕ) → Has (number self) j → (F.post test j true × Has (number result) j) ⊎ (F.post test j false × (Has (number result) j → ⊥)) }
    {
        let mut kept = self;
        let mut left = self;
        while let Some(j) = left.lowest() {
            left = left.without(j);
            if !test(j) {
                kept = kept.without(j);
            }
        }
        kept
    }

    // The operators on words work on the bits of their numbers, and may always be used.
    ghost can_bitand_law: { (a b : Self) → Self.can_bitand a b };

    ghost bitand_law: { (a b r : Self) → Self.bitand_gives a b r → number r ≡ bit_and (number a) (number b) };

    ghost can_bitor_law: { (a b : Self) → Self.can_bitor a b };

    ghost bitor_law: { (a b r : Self) → Self.bitor_gives a b r → number r ≡ bit_or (number a) (number b) };

    ghost can_bitxor_law: { (a b : Self) → Self.can_bitxor a b };

    ghost bitxor_law: { (a b r : Self) → Self.bitxor_gives a b r → number r ≡ bit_xor (number a) (number b) };
}
