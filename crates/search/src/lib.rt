// The first of the lawful sets that move the fewest pins.
#![tactic(auto)]

ghost use Rattle.search.specs.Chosen.{NoneLawful, Chosen};
ghost use Rattle.std.specs.Option.{MatchOption};

use archive::Archive;
use bounds::Bound;
use descent::Descent;
use descent::found::Found;
use filling::fill;
use rows::weights::Weights;

mod first;
mod least;

// All components, whatever their number.
const EVERYONE: u64 = u64::MAX;

// A search over an archive, cut by a bound.
#[derive(Drop)]
pub struct Search<'a, A, B> {
    pub archive: &'a A,
    pub bound: &'a B,
}

impl<A: Archive, B: Bound> Search<'_, A, B> {
    // Of the lawful sets that move the fewest of these pins, the first in the order of preference, with how many it
    // moves; none where no set is lawful. A pin may be any byte, 255 is none.
    pub fn first_least(&self, pins: &[u8; 64]) -> Option<Found>
        ensures { MatchOption result (NoneLawful (A.Archive.meaning self.now.archive.now)) (λ f. Chosen (A.Archive.meaning self.now.archive.now) pins.now f) }
    {
        let tables = fill(self.archive, pins);
        let problem = &tables.problem;
        let mut weights = Weights::even();
        let mut row = tables.opens;
        problem.propagate(&mut row, EVERYONE, &mut weights).ok()?;
        let descent = Descent {
            problem,
            bound: self.bound,
        };
        let least = least::least(&descent, &mut weights, &row)?;
        Some(first::lead(&descent, &mut weights, &row, least))
    }
}
