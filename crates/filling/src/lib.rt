// The tables of a search, filled by asking an archive. Each question is asked once, and clashes only of choices that
// are not withdrawn, in one of their two orders.
#![tactic(auto)]

ghost use Rattle.filling.specs.Filled.{Means};

use archive::Archive;
use bounds::table::PinTable;
use opened::Opened;
use pins::Pinned;
use rows::Row;
use rows::problem::Problem;
use suits::NO_ROWS;

mod opened;
mod pins;
mod suits;

// What is searched, and the releases that are not withdrawn.
#[derive(Drop)]
pub struct Filled {
    pub problem: Problem,
    pub opens: Row,
}

// The tables are large: they are made in place, from tables of no components, since each move of them may cost a copy of
// its own, and room for it on the stack. Zeros alone are set in one go.
pub fn fill<A: Archive>(archive: &A, pins: &[u8; 64]) -> Filled
    ensures { Means (A.Archive.meaning archive.now) pins.now result }
{
    let opened = Opened::of(archive);
    let mut filled = Filled {
        problem: Problem {
            components: 0,
            pins: [0; 64],
            suits: [NO_ROWS; 64],
            clashing: PinTable::blank(),
        },
        opens: [0; 64],
    };
    filled.opens = opened.opens;
    filled.problem.pins = *pins;
    opened.suit(&mut filled.problem.suits);
    let pinned = Pinned {
        components: opened.components,
        pins,
        opens: &opened.opens,
        suits: &filled.problem.suits,
    };
    let clashing = pinned.table();
    filled.problem.clashing = clashing;
    filled.problem.components = opened.components;
    filled
}
