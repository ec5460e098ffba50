// The descent: a stack of rows, one for each depth.
ghost use Rattle.std.specs.Prelude.{◌≡◌};
ghost use Rattle.descent.specs.Judged.{Barren, Nearer, Judged};
ghost use Rattle.descent.specs.Pins.{pinned};
ghost use Rattle.std.specs.Option.{MatchOption};

use super::Descent;
use super::choose::next_choice;
use super::found::Found;
use super::lower::pin_count;
use super::whole::whole;
use archive::choice::Choice;
use bounds::Bound;
use masks::word::Word;
use rows::Row;
use rows::weights::Weights;

// What a look at a row came to: no set in it is nearer than the limit; this one is; or it is to be split at a choice.
// Three cases, so neither an `Option` nor a `Result`.
#[derive(Clone, Copy)]
enum Verdict {
    Barred,
    Whole(Found),
    Split(Choice),
}

impl<B: Bound> Descent<'_, B> {
    // Narrows the row by the support scan, cuts it by the bound, and says where to split it if it is not settled.
    fn examine(
        &self,
        weights: &mut Weights,
        row: &mut Row,
        pending: u64,
        pins: u32,
        limit: u32,
    ) -> Verdict
        requires { pins ≡ pinned self.now.problem.now }
        ensures { Judged self.now.problem.now row.old row.new limit result }
    {
        let narrowed = self.problem.propagate(row, pending, weights);
        if narrowed.is_err() || self.least_moved(row, pins) >= limit {
            return Verdict::Barred;
        }
        if let Some(choice) = next_choice(self.problem, weights, row) {
            return Verdict::Split(choice);
        }
        match whole(self.problem, row, limit) {
            Some(found) => Verdict::Whole(found),
            None => Verdict::Barred,
        }
    }

    // Some agreeing set within the first row that is nearer than the limit; none where there is none. The pending
    // components are those from which the first scan starts.
    pub fn below(
        &self,
        weights: &mut Weights,
        first: &Row,
        pending: u64,
        limit: u32,
    ) -> Option<Found>
        ensures { MatchOption result (Barren self.now.problem.now first.now limit) (λ f. Nearer self.now.problem.now first.now limit f) }
    {
        // A rule of the project: no memory is allocated, the open releases of every depth stand in an array of arrays
        // of masks, with nothing else in it, so that what is pending stands beside it, and descent is a loop.
        let mut rows = [[0u32; 64]; 65];
        let mut changed = [0u64; 65];
        rows[0] = *first;
        changed[0] = pending;
        let mut height: usize = 1;
        // Counted once, since no look at a row changes it.
        let pins = pin_count(self.problem);
        while height > 0 {
            height -= 1;
            let mut row = rows[height];
            match self.examine(weights, &mut row, changed[height], pins, limit) {
                Verdict::Barred => {}
                Verdict::Whole(found) => return Some(found),
                Verdict::Split(x) => {
                    let c = x.component as usize;
                    let mut with_it = row;
                    with_it[c] = u32::only(x.release);
                    row[c] = row[c].without(x.release);
                    rows[height] = row;
                    rows[height + 1] = with_it;
                    changed[height] = u64::only(x.component);
                    changed[height + 1] = u64::only(x.component);
                    height += 2;
                }
            }
        }
        None
    }
}
