// Sets of numbers below 64.
ghost use Rattle.std.proofs.Common.{rules};

use super::word::Word;

// What the machine does is a method of each type, and a law of `Word` speaks of any number: only here is it known that
// the number fits the width. So these bodies stand once for each width.
impl Word for u64 {
    ghost width = { 64 };

    ghost number = { λ m. m };

    #[tactic(auto, using(crate::proofs::Words::only_shifted, crate::proofs::Words::only_nothing))]
    fn only(j: u8) -> u64 {
        if j < 64 { 1 << j } else { 0 }
    }

    #[tactic(auto, using(crate::proofs::Words::below_shifted, crate::proofs::Words::below_whole))]
    fn below(n: u8) -> u64 {
        if n < 64 { (1 << n) - 1 } else { u64::MAX }
    }

    #[tactic(auto, using(crate::proofs::Words::pick_same, crate::proofs::Words::pick_alone))]
    fn pick(self, j: u8) -> u64 {
        self & u64::only(j)
    }

    // In place of the trait's own body, which makes the set of j before it looks.
    #[tactic(auto, using(crate::proofs::Words::has_shifted, crate::proofs::Words::has_past))]
    fn has(self, j: u8) -> bool {
        j < 64 && (self >> j) % 2 == 1
    }

    #[tactic(auto, using(crate::proofs::Words::empty_decides))]
    fn is_empty(self) -> bool {
        self == 0
    }

    #[tactic(auto, using(crate::proofs::Words::empty_decides, crate::proofs::Words::lowest_64))]
    fn lowest(self) -> Option<u8> {
        (self != 0).then(|| self.trailing_zeros() as u8)
    }

    #[tactic(auto, using(crate::proofs::Words::empty_decides, crate::proofs::Words::leading_short, crate::proofs::Words::highest_64))]
    fn highest(self) -> Option<u8> {
        (self != 0).then(|| (63 - self.leading_zeros()) as u8)
    }

    #[tactic(auto, using(crate::proofs::Sizes::ones_size))]
    fn count(self) -> u32 {
        self.count_ones()
    }

    ghost can_bitand_law = { Prim.search rules };

    ghost bitand_law = { Prim.search rules };

    ghost can_bitor_law = { Prim.search rules };

    ghost bitor_law = { Prim.search rules };

    ghost can_bitxor_law = { Prim.search rules };

    ghost bitxor_law = { Prim.search rules };
}
