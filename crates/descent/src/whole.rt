// The one set of a settled row.
ghost use Rattle.std.specs.Prelude.{◌≡◌, ℕ, ◌<◌, ◌≤◌, Decides, MatchOption};
ghost use Rattle.rows.specs.Rows.{at, Within, Agrees, far};
ghost use Rattle.rows.specs.Suits.{Suits};
ghost use Rattle.descent.specs.Judged.{Barren, Nearer, Settled, Picked};

use super::found::Found;
use archive::order::NO_PIN;
use masks::word::Word;
use rows::Row;
use rows::problem::Problem;

// The set of a settled row, if its choices suit each other and it is nearer than the limit.
pub(super) fn whole(problem: &Problem, row: &Row, limit: u32) -> Option<Found>
    requires { Settled problem.now row.now }
    ensures { MatchOption result (Barren problem.now row.now limit) (λ f. Nearer problem.now row.now limit f) }
{
    let set = sole_set(problem, row)?;
    if !agrees(problem, &set) {
        return None;
    }
    let distance = distance(problem, &set);
    (distance < limit).then_some(Found { set, distance })
}

// The highest open release of each component; none where a component has no open release.
fn sole_set(problem: &Problem, row: &Row) -> Option<[u8; 64]>
    ensures { MatchOption result ((s : ℕ → ℕ) → Within problem.now.components row.now s → ⊥) (λ set. Picked problem.now row.now set) }
{
    let mut set = [0u8; 64];
    // Tried `iter_mut` with `zip`, and with `enumerate` and `take`: what the array holds after the loop was missing.
    for c in 0..problem.components {
        set[c as usize] = row[c as usize].highest()?;
    }
    Some(set)
}

// Whether each choice of the set suits each.
fn agrees(problem: &Problem, set: &[u8; 64]) -> bool
    requires { (c : ℕ) → at set.now c < 32 }
    ensures { Decides result (Agrees problem.now (at set.now)) }
{
    (0..problem.components).all(|a| suited(problem, set, a))
}

// Whether each choice of the set suits that of a.
fn suited(problem: &Problem, set: &[u8; 64], a: u8) -> bool
    requires inside { a < problem.now.components }
    requires small { at set.now a < 32 }
    ensures { Decides result ((b : ℕ) → b < problem.now.components → Suits problem.now.suits a (at set.now a) b (at set.now b)) }
{
    let suits = &problem.suits[a as usize].rows[set[a as usize] as usize].masks;
    (0..problem.components).all(|b| suits[b as usize].has(set[b as usize]))
}

// How many pins the set moves.
fn distance(problem: &Problem, set: &[u8; 64]) -> u32
    ensures { result ≡ far problem.now (at set.now) }
{
    let pins = &problem.pins[..problem.components as usize];
    pins.iter()
        .zip(set)
        .filter(|&(&pin, &release)| pin != NO_PIN && pin != release)
        .count() as u32
}
