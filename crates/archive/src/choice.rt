ghost use Rattle.std.specs.Prelude.{◌≡◌};
ghost use Rattle.archive.specs.Choices.{names_both};

// A component with one of its releases, both numbered from 0, releases oldest first.
#[derive(Clone, Copy, PartialEq, Eq, Debug, Default)]
pub struct Choice {
    pub component: u8,
    pub release: u8,
}

impl Choice {
    pub fn new(component: u8, release: u8) -> Choice
        ensures { result ≡ record { component = component; release = release } }
    {
        Choice { component, release }
    }
}

// Whether u and v are x and y, in either order.
pub fn same_pair(u: Choice, v: Choice, x: Choice, y: Choice) -> bool
    ensures { result ≡ names_both u v x.component x.release y.component y.release }
{
    (u, v) == (x, y) || (u, v) == (y, x)
}
