ghost use Rattle.std.specs.Prelude.{◌≡◌, Decides};
ghost use Rattle.notices.specs.Notices.{bars, bars_pair, alike};
ghost use Rattle.notices.specs.Filing.{Own};

use archive::choice::{Choice, same_pair};

// What a notice bars: one choice, or one pair of choices in either order.
#[derive(Clone, Copy)]
pub enum Notice {
    Single(Choice),
    Pair(Choice, Choice),
}

impl Notice {
    pub(crate) fn bars(self, x: Choice) -> bool
        ensures { result ≡ bars x.component x.release self }
    {
        matches!(self, Notice::Single(y) if y == x)
    }

    pub(crate) fn bars_pair(self, x: Choice, y: Choice) -> bool
        ensures { result ≡ bars_pair x.component x.release y.component y.release self }
    {
        matches!(self, Notice::Pair(u, v) if x.component != y.component && same_pair(u, v, x, y))
    }

    // Whether the two notices are one, a pair read in either order. It is no `==`: the laws of that would have to be
    // proved of both orders, and nothing needs them.
    pub(crate) fn alike(self, other: Notice) -> bool
        ensures { result ≡ alike self other }
    {
        match (self, other) {
            (Notice::Single(x), Notice::Single(u)) => x == u,
            (Notice::Pair(x, y), Notice::Pair(u, v)) => same_pair(x, y, u, v),
            _ => false,
        }
    }

    pub(crate) fn of_one_component(self) -> bool
        ensures { Decides result (Own self) }
    {
        matches!(self, Notice::Pair(x, y) if x.component == y.component)
    }
}
