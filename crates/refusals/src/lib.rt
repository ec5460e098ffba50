// The refusals of all calls.
#![tactic(auto)]

ghost use Rattle.std.specs.Prelude.{◌≡◌, ◌<◌, ◌++◌, Some, Decides, codes};
ghost use Rattle.std.specs.Fmt.{decimal};
ghost use Rattle.refusals.specs.Refusals.{numbered, place, NumbersTellApart, OrderTellsApart};

use std::fmt;

// Why a call declines. docs/REFUSALS.md has each sentence whole, and the calls that meet it.
#[derive(Clone, Copy, PartialEq, Eq, Debug)]
pub enum Refusal {
    ProposalStands = 1,
    TicketMismatch = 2,
    NoProposal = 3,
    NotOffered = 4,
    OneComponent = 5,
    AlreadyFiled = 6,
    NotFiled = 7,
    NoticesFull = 8,
    LedgerFull = 9,
    NoLawfulSet = 10,
    WrongLength = 11,
    UnusableFile = 12,
    MalformedRecord = 13,
    MalformedName = 14,
    MalformedVersion = 15,
    WrongKind = 16,
    ReleaseOutOfOrder = 17,
    TableFull = 18,
    UnknownNeed = 19,
    NeedsItself = 20,
    ManifestMismatch = 21,
}

impl Refusal {
    // The number by which it is known outside.
    pub fn number(self) -> u8
        ensures value { result ≡ numbered self }
        ensures told { NumbersTellApart }
    {
        u8::from(self)
    }

    // Whether a call that could decline for either tries this one first.
    pub fn tried_before(self, other: Refusal) -> bool
        ensures { Decides result (place self < place other) }
    {
        self.turn() < other.turn()
    }

    // Its place in the order of trying; today that is the order of the numbers. A derived `Ord` would bind it to the
    // numbers for ever.
    #[tactic(auto, using(crate::proofs::Declining::place_number, crate::proofs::Declining::order_tells_apart))]
    fn turn(self) -> u8
        ensures value { result ≡ place self }
        ensures told { OrderTellsApart }
    {
        self.number() - 1
    }
}

impl From<Refusal> for u8 {
    ghost from_gives = { λ refusal n. n ≡ numbered refusal };

    fn from(refusal: Refusal) -> u8 {
        refusal as u8
    }
}

impl fmt::Display for Refusal {
    ghost output = { λ refusal. Some (codes "refusal " ++ decimal (numbered refusal)) };

    fn fmt<W: fmt::Write>(&self, f: &mut fmt::Formatter<W>) -> fmt::Result {
        write!(f, "refusal {}", self.number())
    }
}
