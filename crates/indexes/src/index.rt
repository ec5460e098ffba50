// The index that both kinds are: components with their releases, and rows that part choices.
ghost use Rattle.std.specs.Prelude.{◌≡◌, ℕ, true, Bool, List, take};
ghost use Rattle.std.specs.List.{list_any};
ghost use Rattle.indexes.specs.Components.{offers, by_rows};
ghost use Rattle.indexes.specs.Counting.{Rows, indexed_sound};
ghost use Rattle.tables.specs.Held.{held};
ghost use Rattle.std.proofs.Common.{lit≤};
ghost use Rattle.tables.proofs.Rows.{held_within};

use super::components::{ComponentRow, ComponentTable};
use archive::Archive;
use archive::choice::Choice;
use tables::table::Table;

// A row of an index: which two choices do not go together by it.
pub trait ClashRow: Copy + Default {
    ghost use Rattle.indexes.specs.declared.components.ComponentRow.{ComponentRow};

    // Whether the row counts among these components; a row that does not is ignored.
    ghost counts: { List ComponentRow → Self → Bool };

    // Whether the row parts the choices a:i and b:j, given as a, i, b, j.
    ghost parts: { ℕ → ℕ → ℕ → ℕ → Self → Bool };

    fn parts(&self, x: Choice, y: Choice) -> bool
        ensures { result ≡ parts x.component x.release y.component y.release self.now };

    // A row that parts two choices of one component does not count, one that parts two offered choices of two
    // components does; and it parts them in either order.
    ghost laws: { (components : List ComponentRow) → Rows Self components (counts components) parts };
}

#[derive(Drop)]
pub struct Index<R, const N: usize> {
    components: ComponentTable,
    rows: Table<R, N>,
}

impl<R: ClashRow, const N: usize> Index<R, N> {
    pub(crate) fn holding(components: &[ComponentRow], rows: &[R]) -> Self
        ensures components { held result.components.rows ≡ take 64 components.now }
        ensures rows { held result.rows ≡ take N rows.now }
    {
        Index {
            components: ComponentTable::of(components),
            rows: Table::of(rows, R::default()),
        }
    }

    // What the rows tell of two offered choices.
    fn parts(&self, x: Choice, y: Choice) -> bool
        requires first { offers (held self.now.components.rows) x.component x.release ≡ true }
        requires second { offers (held self.now.components.rows) y.component y.release ≡ true }
        ensures { result ≡ (by_rows R.counts R.parts (held self.now.components.rows) (held self.now.rows)).clash x.component x.release y.component y.release }
    {
        x.component != y.component && some_row_parts(self.rows.rows(), x, y)
    }
}

// Whether some row parts the choices: a plain `for` over the rows, as a rule of the project promises its readers.
#[tactic(auto, using(std::proofs::lemmas::List::Folds::list_any_more))]
fn some_row_parts<R: ClashRow>(rows: &[R], x: Choice, y: Choice) -> bool
    ensures { result ≡ list_any (R.parts x.component x.release y.component y.release) rows.now }
{
    for row in rows {
        if row.parts(x, y) {
            return true;
        }
    }
    false
}

impl<R: ClashRow, const N: usize> Archive for Index<R, N> {
    ghost meaning = { λ s. by_rows R.counts R.parts (held s.components.rows) (held s.rows) };

    ghost sound = { λ s. indexed_sound (held s.components.rows) (R.counts (held s.components.rows)) R.parts (R.laws (held s.components.rows)) (held s.rows) (held_within s.components.rows 64 (lit≤ tt)) };

    fn components(&self) -> u8 {
        self.components.count()
    }

    fn releases(&self, component: u8) -> u8 {
        self.components.releases(component)
    }

    fn withdrawn(&self, x: Choice) -> bool {
        self.components.withdraws(x)
    }

    fn clash(&self, x: Choice, y: Choice) -> bool {
        !self.components.offers(x) || !self.components.offers(y) || self.parts(x, y)
    }
}
