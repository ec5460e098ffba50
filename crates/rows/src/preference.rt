// Which release a component prefers.
ghost use Rattle.masks.specs.Masks.{Empty};
ghost use Rattle.rows.specs.Preference.{Preferred};
ghost use Rattle.std.specs.Option.{MatchOption};

use masks::word::Word;

// The most preferred release of a mask, for a component with this pin: the pin, else the newest.
pub fn preferred(mask: u32, pin: u8) -> Option<u8>
    ensures { MatchOption result (Empty mask) (λ r. Preferred pin mask r) }
{
    if mask.has(pin) {
        Some(pin)
    } else {
        mask.highest()
    }
}
