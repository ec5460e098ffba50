// The least distance.
ghost use Rattle.rows.specs.Rows.{Dead};
ghost use Rattle.search.specs.Ranked.{Least};
ghost use Rattle.std.specs.Option.{MatchOption};

use bounds::Bound;
use descent::Descent;
use descent::found::Found;
use rows::Row;
use rows::weights::Weights;

// Some agreeing set within the row at the least distance; none where no agreeing set is within it. The first limit is
// above the number of components, so that a set in which all pins move is found too.
#[tactic(auto, using(crate::proofs::Standing::lowest))]
pub(super) fn least<B: Bound>(
    descent: &Descent<'_, B>,
    weights: &mut Weights,
    row: &Row,
) -> Option<Found>
    ensures { MatchOption result (Dead descent.now.problem.now row.now) (λ f. Least descent.now.problem.now row.now f) }
{
    let mut limit = u32::from(descent.problem.components) + 1;
    let mut best = None;
    while let Some(found) = descent.below(weights, row, 0, limit) {
        limit = found.distance;
        best = Some(found);
    }
    best
}
