// The first set at a distance, in the order of preference.
ghost use Rattle.std.specs.Prelude.{◌<◌};
ghost use Rattle.search.specs.Ranked.{Least, Settles, Leads};

use bounds::Bound;
use descent::Descent;
use descent::found::Found;
use masks::word::Word;
use rows::Row;
use rows::preference::preferred;
use rows::weights::Weights;

// What is required of the set at hand names the row, which narrows from turn to turn: a struct for both would be made
// anew each turn, and so is no plainer.

// Of the sets within the row as near as the one at hand, one with the most preferred release of component c. Where the
// set at hand has it, nothing is searched.
#[tactic(auto, using(rows::proofs::Rows::taken_less))]
fn settle<B: Bound>(
    descent: &Descent<'_, B>,
    weights: &mut Weights,
    row: &Row,
    c: u8,
    at_hand: Found,
) -> Found
    requires inside { c < descent.now.problem.now.components }
    requires least { Least descent.now.problem.now row.now at_hand }
    ensures { Settles descent.now.problem.now row.now at_hand.distance c result }
{
    let mut left = row[c as usize];
    while let Some(r) = preferred(left, descent.problem.pins[c as usize]) {
        if at_hand.set[c as usize] == r {
            return at_hand;
        }
        let mut trial = *row;
        trial[c as usize] = u32::only(r);
        let limit = at_hand.distance + 1;
        if let Some(found) = descent.below(weights, &trial, u64::only(c), limit) {
            return found;
        }
        left = left.without(r);
    }
    at_hand
}

// Of the sets within the row as near as the one at hand, the first: component by component, the most preferred release.
pub(super) fn lead<B: Bound>(
    descent: &Descent<'_, B>,
    weights: &mut Weights,
    first: &Row,
    least: Found,
) -> Found
    requires { Least descent.now.problem.now first.now least }
    ensures { Leads descent.now.problem.now first.now least.distance result }
{
    let mut row = *first;
    let mut best = least;
    // A `fold` is no plainer: each component changes the row, the set and the weights.
    for c in 0..descent.problem.components {
        best = settle(descent, weights, &row, c, best);
        row[c as usize] = u32::only(best.set[c as usize]);
        // No component loses its last release, since the best set stays within the row.
        let _ = descent.problem.propagate(&mut row, u64::only(c), weights);
    }
    best
}
