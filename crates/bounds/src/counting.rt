// The counting bound: all the open pins.
ghost use Rattle.masks.specs.Masks.{size};
ghost use Rattle.bounds.specs.Laws.{all_reach, all_most};

use super::Bound;
use super::table::PinTable;
use masks::word::Word;

#[derive(Clone, Copy)]
pub struct CountingBound;

impl Bound for CountingBound {
    ghost answer = { λ _ _ opens. size 64 opens };

    ghost reaches = { λ s. all_reach };

    ghost most = { λ s. all_most };

    fn most_kept(&self, _table: &PinTable, pins: u64) -> u32 {
        pins.count()
    }
}
