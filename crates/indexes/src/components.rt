// The component table that both kinds of index have.
ghost use Rattle.std.specs.Prelude.{◌≡◌, length, take};
ghost use Rattle.indexes.specs.Components.{releases_of, offers, withdraws};
ghost use Rattle.tables.specs.Held.{held};

use archive::choice::Choice;
use archive::{MAX_COMPONENTS, MAX_RELEASES};
use tables::table::Table;

// A component: how many releases it has, and which of them are withdrawn. The marks are an array, since no memory is
// allocated (a rule of the project), and callers may mark more releases than there are.
#[derive(Clone, Copy, Default)]
pub struct ComponentRow {
    pub releases: u8,
    pub withdrawn: [bool; MAX_RELEASES],
}

#[derive(Drop)]
pub(crate) struct ComponentTable {
    rows: Table<ComponentRow, MAX_COMPONENTS>,
}

impl ComponentTable {
    pub(crate) fn of(rows: &[ComponentRow]) -> Self
        ensures { held result.rows ≡ take 64 rows.now }
    {
        ComponentTable {
            rows: Table::of(rows, ComponentRow::default()),
        }
    }

    pub(crate) fn count(&self) -> u8
        ensures { result ≡ length (held self.now.rows) }
    {
        self.rows.rows().len() as u8
    }

    pub(crate) fn releases(&self, component: u8) -> u8
        ensures { result ≡ releases_of (held self.now.rows) component }
    {
        let row = self.rows.rows().get(component as usize);
        row.map_or(0, |row| row.releases.min(MAX_RELEASES as u8))
    }

    pub(crate) fn offers(&self, x: Choice) -> bool
        ensures { result ≡ offers (held self.now.rows) x.component x.release }
    {
        x.release < self.releases(x.component)
    }

    pub(crate) fn withdraws(&self, x: Choice) -> bool
        ensures { result ≡ withdraws (held self.now.rows) x.component x.release }
    {
        match self.rows.rows().get(x.component as usize) {
            Some(row) if self.offers(x) => row.withdrawn[x.release as usize],
            _ => true,
        }
    }
}
