// Where a row is split next.
ghost use Rattle.std.specs.Prelude.{◌≡◌, ◌<◌, ◌≤◌, MatchOption, slice_index};
ghost use Rattle.masks.specs.Masks.{size};
ghost use Rattle.descent.specs.Judged.{Settled, Splittable};

use archive::choice::Choice;
use masks::word::Word;
use rows::Row;
use rows::preference::preferred;
use rows::problem::Problem;
use rows::weights::Weights;
use std::cmp::Ordering;

// A component that can be split, with what speaks for it: few branches, and a weight that its conflicts gave it.
#[derive(Clone, Copy)]
struct Candidate {
    component: u8,
    branches: u32,
    weight: u32,
}

impl Candidate {
    // The branches are two where the pin is open, to keep it or not, else the open releases.
    fn weigh(problem: &Problem, weights: &Weights, row: &Row, component: u8) -> Self
        requires { component < problem.now.components }
        ensures { result.component ≡ component }
    {
        let open = row[component as usize];
        let branches = if open.has(problem.pins[component as usize]) {
            2
        } else {
            open.count()
        };
        Candidate {
            component,
            branches,
            weight: weights.of(component),
        }
    }

    // Less comes sooner: what has fewer branches for its weight.
    fn order(&self, other: &Candidate) -> Ordering {
        let this = u64::from(self.branches).saturating_mul(u64::from(other.weight));
        this.cmp(&u64::from(other.branches).saturating_mul(u64::from(self.weight)))
    }
}

// These are functions of a problem, weights and a row, as those of lower.rt and whole.rt of a problem and a row or a
// set, and no methods of `Descent`: its bound would be a parameter that they never use. A struct of two or three
// references would say no more.

// The choice at which the row is split. One phase keeps an old pin while it is open; the other extends what was kept,
// from the newest release down. None where the row is settled.
pub(super) fn next_choice(problem: &Problem, weights: &Weights, row: &Row) -> Option<Choice>
    ensures { MatchOption result (Settled problem.now row.now) (λ x. Splittable problem.now row.now x) }
{
    let component = next_component(problem, weights, row)?;
    let release = preferred(row[component as usize], problem.pins[component as usize])?;
    Some(Choice::new(component, release))
}

// Of the components that are not settled, one that should come soonest.
fn next_component(problem: &Problem, weights: &Weights, row: &Row) -> Option<u8>
    ensures { MatchOption result (Settled problem.now row.now) (λ c. (c < problem.now.components) × (1 < size 32 (slice_index row.now c))) }
{
    let unsettled = (0..problem.components).filter(|&c| row[c as usize].several());
    let candidates = unsettled.map(|c| Candidate::weigh(problem, weights, row, c));
    Some(candidates.min_by(Candidate::order)?.component)
}
