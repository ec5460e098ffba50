// Archives and what they mean; sets of releases over them.
#![tactic(auto)]

ghost use Rattle.std.specs.Prelude.{◌≡◌, ℕ};
ghost use Rattle.archive.specs.Meaning.{Meaning, Sound};

pub mod choice;
pub mod order;
pub mod sets;

use choice::Choice;

// How many components an archive has at most.
pub const MAX_COMPONENTS: usize = 64;

// How many releases a component has at most.
pub const MAX_RELEASES: usize = 32;

// An archive is asked four questions, with any bytes; asking changes nothing, and the answers are its meaning's.
pub trait Archive {
    ghost meaning: { Self → Meaning };

    // How many components there are, at most 64.
    fn components(&self) -> u8
        ensures { result ≡ (meaning self.now).components };

    // How many releases a component has, at most 32.
    fn releases(&self, component: u8) -> u8
        ensures { result ≡ (meaning self.now).releases component };

    // Whether the choice is withdrawn; yes where it is not offered.
    fn withdrawn(&self, x: Choice) -> bool
        ensures { result ≡ (meaning self.now).withdrawn x.component x.release };

    // Whether the choices clash; yes where one is not offered, no where both are offered and of one component.
    fn clash(&self, x: Choice, y: Choice) -> bool
        ensures { result ≡ (meaning self.now).clash x.component x.release y.component y.release };

    ghost sound: { (s : Self) → Sound (meaning s) };
}
