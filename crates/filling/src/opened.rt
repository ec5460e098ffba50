// An archive with what is open in it.
ghost use Rattle.std.specs.Prelude.{◌≡◌};
ghost use Rattle.filling.specs.Filled.{Free, Opening};

use archive::Archive;
use archive::choice::Choice;
use masks::word::Word;
use rows::Row;

// An archive, how many components it has, and the releases of each that are not withdrawn.
#[derive(Drop)]
pub(super) struct Opened<'a, A: Archive> {
    pub archive: &'a A,
    pub components: u8,
    pub opens: Row,
    ghost all: { components ≡ (A.Archive.meaning archive.now).components },
    ghost opening: { Opening (A.Archive.meaning archive.now) opens },
}

impl<'a, A: Archive> Opened<'a, A> {
    // Asks the archive for its components, and for what is withdrawn.
    pub fn of(archive: &'a A) -> Self
        ensures { result.archive.now ≡ archive.now }
    {
        let components = archive.components();
        Opened {
            archive,
            components,
            opens: std::array::from_fn(|c| unbarred(archive, components, c as u8)),
        }
    }
}

// The releases of a component that are not withdrawn; none past the last component, for which nothing is asked.
#[tactic(auto, using(masks::proofs::Words::nothing))]
fn unbarred<A: Archive>(archive: &A, components: u8, component: u8) -> u32
    requires { components ≡ (A.Archive.meaning archive.now).components }
    ensures { Free result ((A.Archive.meaning archive.now).withdrawn component) }
{
    if component >= components {
        return 0;
    }
    let offered = u32::below(archive.releases(component));
    offered.filter(|release| !archive.withdrawn(Choice::new(component, release)))
}
