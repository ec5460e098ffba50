// A tour of the archives: two indexes that mean the same, and a notice layer on one of them.
#![tactic(auto)]

ghost use Rattle.std.specs.Prelude.{◌≡◌};
ghost use Rattle.archive.specs.Alike.{Alike};
ghost use Rattle.indexes.specs.Pairs.{pair_means, pair_meaning};
ghost use Rattle.indexes.specs.Ranges.{range_means, range_meaning};
ghost use Rattle.tour.specs.Example.{components, needs_rows, pair_rows};

use archive::Archive;
use archive::choice::Choice;
use archive::order::{NO_PIN, compare};
use archive::sets::lawful;
use indexes::components::ComponentRow;
use indexes::pair::{PairIndex, PairRow};
use indexes::range::{NeedsRow, RangeIndex};
use notices::layer::NoticeLayer;
use notices::notice::Notice;
use refusals::Refusal;
use std::cmp::Ordering;
use std::io;

const BOOT: u8 = 0;

const RADIO: u8 = 1;

const SHELL: u8 = 2;

// The sets that the tour asks about: the releases of boot, radio and shell.
const SETS: [[u8; 3]; 8] = [
    [0, 1, 0],
    [1, 1, 0],
    [0, 2, 0],
    [1, 2, 0],
    [1, 2, 1],
    [1, 1, 1],
    [1, 0, 0],
    [1, 2, 2],
];

// Boot and shell have two releases, radio has three, the oldest of them withdrawn.
fn component_rows() -> [ComponentRow; 3]
    ensures { result ≡ components }
{
    let mut radio = [false; 32];
    radio[0] = true;
    let two = ComponentRow {
        releases: 2,
        withdrawn: [false; 32],
    };
    let three = ComponentRow {
        releases: 3,
        withdrawn: radio,
    };
    [two, three, two]
}

fn by_ranges() -> RangeIndex
    ensures { range_means result ≡ range_meaning components needs_rows }
{
    let radio_needs = NeedsRow::new(Choice::new(RADIO, 2), BOOT, 1, 1);
    let shell_needs = NeedsRow::new(Choice::new(SHELL, 1), RADIO, 2, 2);
    RangeIndex::new(&component_rows(), &[radio_needs, shell_needs])
}

fn by_pairs() -> PairIndex
    ensures { pair_means result ≡ pair_meaning components pair_rows }
{
    let pairs = [
        PairRow::new(Choice::new(RADIO, 2), Choice::new(BOOT, 0)),
        PairRow::new(Choice::new(RADIO, 0), Choice::new(SHELL, 1)),
        PairRow::new(Choice::new(SHELL, 1), Choice::new(RADIO, 1)),
    ];
    PairIndex::new(&component_rows(), &pairs)
}

// One index of each kind; they agree on what is offered and barred.
#[tactic(auto, using(crate::proofs::Same::same_meaning))]
fn both_indexes() -> (RangeIndex, PairIndex)
    ensures { Alike (range_means result.0) (pair_means result.1) }
{
    (by_ranges(), by_pairs())
}

fn verdict(yes: bool) -> &'static str {
    if yes { "lawful" } else { "not lawful" }
}

fn print_table(
    rt: &impl Print,
    ranges: &RangeIndex,
    pairs: &PairIndex,
    layer: &NoticeLayer<PairIndex>,
) -> io::Result<()> {
    println!(rt; "{:<6}  {:<10}  {:<10}  layer", "set", "ranges", "pairs")?;
    for set in SETS {
        let [a, b, c] = set;
        let below = lawful(pairs, &set);
        let above = lawful(layer, &set);
        let by_range = verdict(lawful(ranges, &set));
        let by_pair = verdict(below);
        let by_layer = verdict(above);
        let change = if below == above { "" } else { ", by a notice" };
        println!(rt; "{a} {b} {c}   {by_range:<10}  {by_pair:<10}  {by_layer}{change}")?;
    }
    Ok(())
}

fn print_answer(rt: &impl Print, call: &str, answer: Result<(), Refusal>) -> io::Result<()> {
    match answer {
        Ok(()) => println!(rt; "{call}: done"),
        Err(refusal) => println!(rt; "{call}: {refusal}"),
    }
}

fn print_order(rt: &impl Print, pinned: &str, pins: &[u8], s: &[u8], t: &[u8]) -> io::Result<()> {
    let word = match compare(pins, s, t) {
        Some(Ordering::Less) => "comes before",
        Some(Ordering::Equal) => "is",
        Some(Ordering::Greater) => "comes after",
        None => "differs in length from",
    };
    println!(rt; "{pinned}: {s:?} {word} {t:?}")
}

fn main(rt: HostRuntime) -> io::Result<()> {
    let (ranges, pairs) = both_indexes();
    let mut layer = NoticeLayer::over(by_pairs());
    println!(rt; "boot has releases 0 and 1, radio 0 (withdrawn), 1 and 2, shell 0 and 1")?;
    println!(rt; "radio 2 needs boot 1, and shell 1 needs radio 2")?;
    print_table(&rt, &ranges, &pairs, &layer)?;

    let notice = Notice::Pair(Choice::new(SHELL, 1), Choice::new(BOOT, 1));
    let turned = Notice::Pair(Choice::new(BOOT, 1), Choice::new(SHELL, 1));
    let unknown = Notice::Single(Choice::new(RADIO, 3));
    print_answer(&rt, "file shell 1 with boot 1", layer.file(notice))?;
    print_answer(&rt, "file boot 1 with shell 1", layer.file(turned))?;
    print_answer(&rt, "file radio 3", layer.file(unknown))?;
    print_table(&rt, &ranges, &pairs, &layer)?;

    print_answer(&rt, "lift boot 1 with shell 1", layer.lift(turned))?;
    print_answer(&rt, "lift it again", layer.lift(turned))?;
    print_table(&rt, &ranges, &pairs, &layer)?;

    print_order(&rt, "no pins", &[NO_PIN; 3], &[0, 1, 0], &[1, 1, 0])?;
    print_order(
        &rt,
        "boot pinned at 0",
        &[0, NO_PIN, NO_PIN],
        &[0, 1, 0],
        &[1, 1, 0],
    )
}
