// The notice layer: an archive over any archive.
ghost use Rattle.std.specs.Prelude.{◌≡◌, [], Decides};
ghost use Rattle.std.specs.List.{list_any, position};
ghost use Rattle.notices.specs.Filing.{Admits, Missing, Unoffered, Files, Lifts};
ghost use Rattle.notices.specs.Notices.{alike, bars, bars_pair, noticed};
ghost use Rattle.tables.specs.Held.{held};
ghost use Rattle.notices.specs.Layering.{noticed_sound};

use super::notice::Notice;
use archive::Archive;
use archive::choice::Choice;
use refusals::Refusal;
use tables::table::Table;

// How many notices a layer has room for.
pub const MAX_NOTICES: usize = 64;

#[derive(Drop)]
pub struct NoticeLayer<A: Archive> {
    below: A,
    notices: Table<Notice, MAX_NOTICES>,
}

impl<A: Archive> NoticeLayer<A> {
    // A layer over the archive, with no notices yet.
    pub fn over(below: A) -> Self
        ensures below { result.below ≡ below }
        ensures notices { held result.notices ≡ [] }
    {
        let filler = Notice::Single(Choice::default());
        NoticeLayer {
            below,
            notices: Table::empty(filler),
        }
    }

    // The notices in order of filing.
    pub fn notices(&self) -> &[Notice]
        ensures { result.now ≡ held self.now.notices }
    {
        self.notices.rows()
    }

    // Adds a notice after those that are filed.
    #[tactic(auto, using(crate::proofs::Lifting::filed_position, crate::proofs::Declining::file_filed))]
    pub fn file(&mut self, notice: Notice) -> Result<(), Refusal>
        ensures below { self.new.below ≡ self.old.below }
        ensures notices { Files (A.Archive.meaning self.old.below) (held self.old.notices) notice result (held self.new.notices) }
    {
        self.admit(notice)?;
        if self.place(notice).is_some() {
            return Err(Refusal::AlreadyFiled);
        }
        self.notices.push(notice).map_err(|_| Refusal::NoticesFull)
    }

    // Takes a notice out and closes the gap.
    #[tactic(auto, using(crate::proofs::Lifting::filed_position, crate::proofs::Lifting::lifted_position))]
    pub fn lift(&mut self, notice: Notice) -> Result<(), Refusal>
        ensures below { self.new.below ≡ self.old.below }
        ensures notices { Lifts (A.Archive.meaning self.old.below) (held self.old.notices) notice result (held self.new.notices) }
    {
        self.admit(notice)?;
        let at = self.place(notice).ok_or(Refusal::NotFiled)?;
        self.notices.remove(at);
        Ok(())
    }

    // What both calls ask of a notice first: its choices are offered, and a pair is of two components.
    #[tactic(auto, using(crate::proofs::Declining::early))]
    fn admit(&self, notice: Notice) -> Result<(), Refusal>
        ensures { Admits (A.Archive.meaning self.now.below) (held self.now.notices) notice result }
    {
        if self.misses(notice) {
            return Err(Refusal::NotOffered);
        }
        if notice.of_one_component() {
            return Err(Refusal::OneComponent);
        }
        Ok(())
    }

    // Where the notice stands among those filed.
    fn place(&self, notice: Notice) -> Option<usize>
        ensures { result ≡ position (alike notice) (held self.now.notices) }
    {
        self.notices().iter().position(|other| notice.alike(*other))
    }

    fn lacks(&self, x: Choice) -> bool
        ensures { Decides result (Missing (A.Archive.meaning self.now.below) x) }
    {
        self.below.releases(x.component) <= x.release
    }

    // Whether a choice of the notice is not offered.
    fn misses(&self, notice: Notice) -> bool
        ensures { Decides result (Unoffered (A.Archive.meaning self.now.below) notice) }
    {
        match notice {
            Notice::Single(x) => self.lacks(x),
            Notice::Pair(x, y) => self.lacks(x) || self.lacks(y),
        }
    }
}

// Whether some notice bars the choice.
fn barred(notices: &[Notice], x: Choice) -> bool
    ensures { result ≡ list_any (bars x.component x.release) notices.now }
{
    notices.iter().any(|notice| notice.bars(x))
}

// Whether some notice bars the pair.
fn parted(notices: &[Notice], x: Choice, y: Choice) -> bool
    ensures { result ≡ list_any (bars_pair x.component x.release y.component y.release) notices.now }
{
    notices.iter().any(|notice| notice.bars_pair(x, y))
}

impl<A: Archive> Archive for NoticeLayer<A> {
    ghost meaning = { λ s. noticed (A.Archive.meaning s.below) (held s.notices) };

    ghost sound = { λ s. noticed_sound _ (held s.notices) (A.Archive.sound s.below) };

    fn components(&self) -> u8 {
        self.below.components()
    }

    fn releases(&self, component: u8) -> u8 {
        self.below.releases(component)
    }

    fn withdrawn(&self, x: Choice) -> bool {
        self.below.withdrawn(x) || barred(self.notices(), x)
    }

    fn clash(&self, x: Choice, y: Choice) -> bool {
        self.below.clash(x, y) || parted(self.notices(), x, y)
    }
}
