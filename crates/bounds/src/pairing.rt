// The pairing bound: the open pins in groups of one pin, or of two that clash. Of a group one pin at most is kept.
ghost use Rattle.std.specs.Prelude.{◌≡◌, MatchOption};
ghost use Rattle.bounds.specs.Lowest.{Found};
ghost use Rattle.bounds.specs.Pairing.{members, partner, pairs};
ghost use Rattle.bounds.specs.Rounds.{Taken, Round};
ghost use Rattle.bounds.specs.Laws.{pairs_reach, pairs_most};

use super::Bound;
use super::table::PinTable;
use masks::word::Word;

#[derive(Clone, Copy)]
pub struct PairingBound;

impl Bound for PairingBound {
    ghost answer = { λ _. pairs };

    ghost reaches = { λ s. pairs_reach };

    ghost most = { λ s. pairs_most };

    fn most_kept(&self, table: &PinTable, pins: u64) -> u32 {
        count_groups(table, pins)
    }
}

// How many groups the pins fall into. Here and below a table and a set of pins are two parameters, as in the question
// of the trait: the table stays while pins go.
#[tactic(auto, using(masks::proofs::Sizes::size_few))]
fn count_groups(table: &PinTable, pins: u64) -> u32
    ensures { result ≡ pairs table.now.rows pins }
{
    let mut left = pins;
    let mut groups = 0;
    while let Some(rest) = round(table, left) {
        left = rest;
        groups += 1;
    }
    groups
}

// What is left once the lowest pin is taken with its partner; none where no pin is left.
#[tactic(auto, using(crate::proofs::Turns::turn_none, crate::proofs::Turns::turn_some))]
fn round(table: &PinTable, left: u64) -> Option<u64>
    ensures { MatchOption result (pairs table.now.rows left ≡ 0) (λ rest. Round table.now.rows left rest) }
{
    let a = left.lowest()?;
    Some(take(left, a, find_partner(table, left, a)))
}

// What is left without a and its partner, if it has one.
fn take(left: u64, a: u8, other: Option<u8>) -> u64
    ensures { Taken left a other result }
{
    let alone = left.without(a);
    match other {
        Some(b) => alone.without(b),
        None => alone,
    }
}

// The lowest other pin that clashes with a. It stops there; a `filter` would try all.
#[tactic(auto, using(crate::proofs::Partners::looks, masks::proofs::Sizes::size_lowest))]
fn find_partner(table: &PinTable, left: u64, a: u8) -> Option<u8>
    ensures { Found result (partner table.now.rows (members left) a) }
{
    let mut rest = left.without(a);
    while let Some(b) = rest.lowest() {
        if table.clash(a, b) {
            return Some(b);
        }
        rest = rest.without(b);
    }
    None
}
