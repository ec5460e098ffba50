// The lower bound of a row.
ghost use Rattle.std.specs.Prelude.{◌≡◌};
ghost use Rattle.descent.specs.Judged.{Barren};
ghost use Rattle.descent.specs.Pins.{pinned, OpenPins};

use super::Descent;
use archive::order::NO_PIN;
use bounds::Bound;
use masks::word::Word;
use rows::Row;
use rows::problem::Problem;

impl<B: Bound> Descent<'_, B> {
    // How many of all the pins every agreeing set within the row moves, at least: all less those that can be kept
    // together.
    pub(super) fn least_moved(&self, row: &Row, pins: u32) -> u32
        requires { pins ≡ pinned self.now.problem.now }
        ensures { Barren self.now.problem.now row.now result }
    {
        let open = open_pins(self.problem, row);
        let kept = self.bound.most_kept(&self.problem.clashing, open);
        pins.saturating_sub(kept)
    }
}

// How many pins there are.
pub(super) fn pin_count(problem: &Problem) -> u32
    ensures { result ≡ pinned problem.now }
{
    let pins = &problem.pins[..problem.components as usize];
    pins.iter().filter(|&&pin| pin != NO_PIN).count() as u32
}

// The components whose pins are open in the row.
fn open_pins(problem: &Problem, row: &Row) -> u64
    ensures { OpenPins problem.now row.now result }
{
    u64::below(problem.components).filter(|c| row[c as usize].has(problem.pins[c as usize]))
}
