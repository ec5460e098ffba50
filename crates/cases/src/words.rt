// A word of another crate, which writes what a `Word` has to and leaves the trait's own bodies as they are.
ghost use Rattle.std.specs.Prelude.{◌≡◌, bit_and, bit_or, bit_xor};

use masks::word::Word;
use std::ops::{BitAnd, BitOr, BitXor};

#[derive(Clone, Copy, Drop)]
struct Plain(u32);

impl BitAnd for Plain {
    type Output = Plain;

    ghost bitand_gives = { λ a b r. r.0 ≡ bit_and a.0 b.0 };

    fn bitand(self, other: Plain) -> Plain {
        Plain(self.0 & other.0)
    }
}

impl BitOr for Plain {
    type Output = Plain;

    ghost bitor_gives = { λ a b r. r.0 ≡ bit_or a.0 b.0 };

    fn bitor(self, other: Plain) -> Plain {
        Plain(self.0 | other.0)
    }
}

impl BitXor for Plain {
    type Output = Plain;

    ghost bitxor_gives = { λ a b r. r.0 ≡ bit_xor a.0 b.0 };

    fn bitxor(self, other: Plain) -> Plain {
        Plain(self.0 ^ other.0)
    }
}

impl Word for Plain {
    ghost width = { 32 };

    ghost number = { λ m. m.0 };

    fn only(j: u8) -> Plain {
        Plain(u32::only(j))
    }

    fn below(n: u8) -> Plain {
        Plain(u32::below(n))
    }

    fn pick(self, j: u8) -> Plain {
        Plain(self.0.pick(j))
    }

    fn is_empty(self) -> bool {
        self.0.is_empty()
    }

    fn lowest(self) -> Option<u8> {
        self.0.lowest()
    }

    fn highest(self) -> Option<u8> {
        self.0.highest()
    }

    fn count(self) -> u32 {
        self.0.count()
    }

    ghost can_bitand_law = { λ a b. tt };

    ghost bitand_law = { λ a b r g. g };

    ghost can_bitor_law = { λ a b. tt };

    ghost bitor_law = { λ a b r g. g };

    ghost can_bitxor_law = { λ a b. tt };

    ghost bitxor_law = { λ a b r g. g };
}

#[test]
fn a_word_has_its_numbers_by_the_body_of_the_trait(rt: HostRuntime) {
    // Bits 0, 5 and 31.
    let word = Plain(0x8000_0021);
    for j in 0..=255u8 {
        let is_in = j == 0 || j == 5 || j == 31;
        assert_eq!(rt; word.has(j), is_in);
        assert!(rt; Plain(u32::MAX).has(j) == (j < 32) && !Plain(0).has(j));
    }
}
