// Lawful sets: one release for every component, given by a byte each.
ghost use Rattle.std.specs.Prelude.{◌≡◌, ℕ, ◌<◌, ◌≤◌, true, false, length, Decides};
ghost use Rattle.archive.specs.Alike.{Alike};
ghost use Rattle.archive.specs.Meaning.{Meaning};
ghost use Rattle.archive.specs.Sets.{Lawful};
ghost use Rattle.archive.specs.Suited.{Suits};

use super::Archive;
use super::choice::Choice;

// Whether the set is lawful over the archive, and so over every archive that means alike.
#[tactic(auto, using(crate::proofs::Agreeing::lawful_alike, crate::proofs::Agreeing::alike_back, crate::proofs::Suiting::lawful_from_suits, crate::proofs::Suiting::suits_from_lawful))]
pub fn lawful<A: Archive>(archive: &A, set: &[u8]) -> bool
    ensures value { Decides result (Lawful (A.Archive.meaning archive.now) set.now) }
    ensures alike { (m : Meaning) → Alike (A.Archive.meaning archive.now) m → Decides result (Lawful m set.now) }
{
    set.len() == archive.components() as usize
        && (0..archive.components()).all(|a| suits(archive, set, a))
}

// Whether the choice of component a is barred neither alone nor with that of a later component.
fn suits<A: Archive>(archive: &A, set: &[u8], a: u8) -> bool
    requires whole { length set.now ≡ (A.Archive.meaning archive.now).components }
    requires within { a < length set.now }
    ensures { Decides result (Suits (A.Archive.meaning archive.now) set.now a) }
{
    let x = Choice::new(a, set[a as usize]);
    let clashes = |b: u8| archive.clash(x, Choice::new(b, set[b as usize]));
    !archive.withdrawn(x) && !(a + 1..archive.components()).any(clashes)
}
