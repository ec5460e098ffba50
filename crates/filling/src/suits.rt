// Which releases suit each choice.
ghost use Rattle.std.specs.Prelude.{ℕ, ◌<◌, slice_index_or};
ghost use Rattle.rows.specs.Rows.{Open};
ghost use Rattle.rows.specs.Suits.{no_row};
ghost use Rattle.filling.specs.Filled.{Suiting, SuitingAt, SuitingIf, SuitingUpto};

use super::opened::Opened;
use archive::Archive;
use archive::choice::Choice;
use masks::word::Word;
use rows::suits::{SuitRow, SuitRows};
use std::cmp::Ordering;

const NO_ROW: SuitRow = SuitRow { masks: [0; 64] };

pub(super) const NO_ROWS: SuitRows = SuitRows { rows: [NO_ROW; 32] };

impl<A: Archive> Opened<'_, A> {
    // For each open choice, by component and release, the open releases of each component that do not clash with it.
    // The rows of a component are read for those of the next ones, so this is a loop over components.
    pub fn suit(&self, suits: &mut [SuitRows; 64])
        ensures { SuitingUpto (A.Archive.meaning self.now.archive.now) self.now.opens self.now.components suits.new }
    {
        for component in 0..self.components {
            let next = Next {
                // Lent again, as the rows so far are not lent for as long as self is.
                opened: &*self,
                lower: &*suits,
                component,
            };
            let rows = next.rows();
            suits[component as usize] = rows;
        }
    }
}

// A component, with the rows of all lower ones.
#[derive(Drop)]
struct Next<'a, A: Archive> {
    opened: &'a Opened<'a, A>,
    lower: &'a [SuitRows; 64],
    component: u8,
    ghost inside: { component < opened.now.components },
    ghost filled: { SuitingUpto (A.Archive.meaning opened.now.archive.now) opened.now.opens component lower.now },
}

impl<A: Archive> Next<'_, A> {
    // The rows of its open choices.
    fn rows(&self) -> SuitRows
        ensures { (i : ℕ) → Open self.now.opened.now.opens self.now.component i → Suiting (A.Archive.meaning self.now.opened.now.archive.now) self.now.opened.now.opens self.now.component i (slice_index_or result.rows i no_row).masks }
    {
        SuitRows {
            rows: std::array::from_fn(|release| self.row(release as u8)),
        }
    }

    // For one of its releases, if it is open: the open releases of each component that do not clash with it.
    fn row(&self, release: u8) -> SuitRow
        ensures { SuitingIf (A.Archive.meaning self.now.opened.now.archive.now) self.now.opened.now.opens self.now.component release result }
    {
        if !self.opened.opens[self.component as usize].has(release) {
            return NO_ROW;
        }
        SuitRow {
            masks: std::array::from_fn(|b| self.suiting(release, b as u8)),
        }
    }

    // The same for one component b, below 64 (as beside `Pinned`). Clashes with a lower one were asked there, and are
    // read from its rows.
    fn suiting(&self, release: u8, b: u8) -> u32
        requires { b < 64 }
        ensures { SuitingAt (A.Archive.meaning self.now.opened.now.archive.now) self.now.opened.now.opens self.now.component release b result }
    {
        let x = Choice::new(self.component, release);
        let open = self.opened.opens[b as usize];
        match b.cmp(&x.component) {
            Ordering::Less => open.filter(|j| {
                let row = &self.lower[b as usize].rows[j as usize];
                row.masks[x.component as usize].has(x.release)
            }),
            Ordering::Equal => open,
            Ordering::Greater => open.filter(|j| !self.opened.archive.clash(x, Choice::new(b, j))),
        }
    }
}
