// Tables of rows with a limit, for which no memory is allocated.
#![tactic(auto)]

ghost use Rattle.std.specs.Prelude.{◌≡◌, ◌<◌, ◌≤◌, [], ◌∷◌, ◌++◌, length, take};
ghost use Rattle.std.specs.List.{remove};
ghost use Rattle.tables.specs.Held.{held, Pushes, Removes};

pub mod table;

use table::Table;

impl<T: Copy, const N: usize> Table<T, N> {
    // No rows; the filler stands in the cells that are not in use.
    pub fn empty(filler: T) -> Self
        ensures { held result ≡ [] }
    {
        Table {
            cells: [filler; N],
            filled: 0,
        }
    }

    // The first N of the given rows.
    pub fn of(rows: &[T], filler: T) -> Self
        ensures { held result ≡ take N rows.now }
    {
        let mut table = Table::empty(filler);
        table.extend(rows);
        table
    }

    // The rows in order, without the fillers.
    pub fn rows(&self) -> &[T]
        ensures value { result.now ≡ held self.now }
        ensures bound { length result.now ≤ N }
    {
        let cells = &self.cells[..];
        &cells[..self.filled]
    }

    // One row more at the end; the row is handed back, and nothing changed, where the table is full.
    #[tactic(auto, using(std::proofs::lemmas::List::take_more_set))]
    pub fn push(&mut self, row: T) -> Result<(), T>
        ensures { Pushes self.old row result self.new }
    {
        if self.filled == N {
            return Err(row);
        }
        // Not by `get_mut`, which does not tell what the cells hold after a write.
        self.cells[self.filled] = row;
        self.filled += 1;
        Ok(())
    }

    // Takes the row at a place out, and closes the gap; none, and nothing changed, where no row is there.
    pub fn remove(&mut self, at: usize) -> Option<T>
        ensures { Removes self.old at result self.new }
    {
        let row = *self.rows().get(at)?;
        self.close_gap(at);
        Some(row)
    }

    // The rows behind the ones that are there, as far as there is room.
    #[tactic(auto, using(crate::proofs::Rows::extended))]
    fn extend(&mut self, rows: &[T])
        ensures { held self.new ≡ take N (held self.old ++ rows.now) }
    {
        let start = self.filled;
        let fitting = rows.len().min(N - start);
        let cells = &mut self.cells[..];
        cells[start..start + fitting].copy_from_slice(&rows[..fitting]);
        self.filled = start + fitting;
    }

    // Moves each row behind the gap one place down.
    #[tactic(auto, using(crate::proofs::Rows::gap_closed))]
    fn close_gap(&mut self, gap: usize)
        requires { gap < length (held self.old) }
        ensures { held self.new ≡ remove (held self.old) gap }
    {
        let cells = &mut self.cells[..];
        cells[gap..self.filled].rotate_left(1);
        self.filled -= 1;
    }
}
