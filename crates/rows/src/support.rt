// The support scan: arc consistency over a row of open releases.
ghost use Rattle.std.specs.Prelude.{◌≡◌, ℕ, ◌+◌, ◌<◌, ◌≤◌, max, OnOk, OnErr, IfOk, IfErr, slice_index};
ghost use Rattle.masks.specs.Masks.{bit, Has, size};
ghost use Rattle.rows.specs.Rows.{Narrower, Keeps, Dead, Supports, ScannedFrom, Support, Bare, weight};

use super::Row;
use super::problem::Problem;
use super::weights::Weights;
use masks::word::Word;

// The component that lost its last open release.
#[derive(Clone, Copy, PartialEq, Eq, Debug)]
pub struct Emptied(pub u8);

// Adds the releases of the one row to the other.
fn add(row: &Row, to: &mut Row)
    ensures { (c j : ℕ) → c < 64 → bit (slice_index to.new c) j ≡ max (bit (slice_index to.old c) j) (bit (slice_index row.now c) j) }
{
    // Tried a `zip`: what the array holds after the loop was missing.
    for (c, mask) in to.iter_mut().enumerate() {
        *mask = mask.union(row[c]);
    }
}

impl Problem {
    // For each component, the releases that suit some open release of y.
    #[tactic(auto, using(crate::proofs::Rows::taken_less))]
    fn support(&self, row: &Row, y: u8) -> Row
        requires { y < self.now.components }
        ensures { Support self.now row.now y result }
    {
        let mut masks = [0u32; 64];
        let mut left = row[y as usize];
        while let Some(j) = left.highest() {
            left = left.without(j);
            add(&self.suits[y as usize].rows[j as usize].masks, &mut masks);
        }
        masks
    }

    // Strikes the releases that suit no open release of y, and answers which components lost one. The whole scan,
    // component by component and release by release, is left by a labelled break where a component loses its last one
    // (a rule of the project).
    #[tactic(auto, using(crate::proofs::Rows::taken_less))]
    fn strike(&self, row: &mut Row, y: u8) -> Result<u64, Emptied>
        requires { y < self.now.components }
        ensures narrower { Narrower self.now.components row.new row.old }
        ensures keeps { Keeps self.now row.old row.new }
        ensures dead { OnErr result (Dead self.now row.old) }
        ensures bare { IfErr result (λ e. Bare self.now row.new e.0) }
        ensures falls { IfOk result (λ changed. size 64 changed + weight self.now.components row.new ≤ weight self.now.components row.old) }
        ensures scanned { IfOk result (λ changed. ScannedFrom self.now row.old y row.new changed) }
    {
        let masks = self.support(row, y);
        let mut changed = 0u64;
        'scan: {
            for x in 0..self.components {
                let mut lost = row[x as usize].minus(masks[x as usize]);
                while let Some(r) = lost.highest() {
                    lost = lost.without(r);
                    row[x as usize] = row[x as usize].without(r);
                    changed = changed.with(x);
                    if row[x as usize].is_empty() {
                        break 'scan Err(Emptied(x));
                    }
                }
            }
            Ok(changed)
        }
    }

    // Strikes what lacks support, starting from the pending components and going on from each that lost a release. Ends
    // where a component has lost its last one; it and the one that took it then weigh more.
    #[tactic(auto, using(crate::proofs::Rows::taken_less))]
    pub fn propagate(
        &self,
        row: &mut Row,
        mut pending: u64,
        weights: &mut Weights,
    ) -> Result<(), Emptied>
        ensures narrower { Narrower self.now.components row.new row.old }
        ensures keeps { Keeps self.now row.old row.new }
        ensures supported { OnOk result ((y : ℕ) → y < self.now.components → Has pending y → Supports self.now row.new y) }
        ensures dead { OnErr result (Dead self.now row.old) }
        ensures bare { IfErr result (λ e. Bare self.now row.new e.0) }
    {
        while let Some(y) = pending.lowest() {
            pending = pending.without(y);
            if y < self.components {
                match self.strike(row, y) {
                    Ok(changed) => pending = pending.union(changed),
                    Err(emptied) => {
                        weights.raise(emptied.0);
                        weights.raise(y);
                        return Err(emptied);
                    }
                }
            }
        }
        Ok(())
    }
}
