ghost use Rattle.std.specs.Prelude.{◌≤◌};
ghost use Rattle.rows.specs.Suits.{Mismarked};

use super::suits::SuitRows;
use bounds::table::PinTable;

// What is searched: how many components there are, their pins (any bytes, 255 is none), for each component the rows of
// what suits its choices, and which pins clash. No memory is allocated (a rule of the project), so the arrays have room
// for all components that there may be. Which bytes are components only the problem at hand says, so what takes one
// requires that it is below their number; a type for it would have to hold the problem too, and be made at every turn
// of a loop, and so is no plainer. The widest fields come first, so that no gap stands between them: tables of zeros are
// then set in one go, where they stand.
#[derive(Drop)]
pub struct Problem {
    pub suits: [SuitRows; 64],
    pub clashing: PinTable,
    pub pins: [u8; 64],
    pub components: u8,
    ghost few: { components ≤ 64 },
    ghost marked: { Mismarked components pins suits clashing.rows → ⊥ },
}
