use super::build::component;
use archive::Archive;
use archive::choice::Choice;
use indexes::pair::{PairIndex, PairRow};
use indexes::range::{NeedsRow, RangeIndex};
use notices::layer::NoticeLayer;
use notices::notice::Notice;
use refusals::Refusal;
use std::process::Abort;

#[test]
fn components_past_the_64th_are_ignored(rt: HostRuntime) {
    let rows = [component(1); 66];
    for (given, expected) in [(0, 0), (1, 1), (63, 63), (64, 64), (65, 64), (66, 64)] {
        assert!(rt; given <= 66);
        let ranges = RangeIndex::new(&rows[0..given], &[]);
        let pairs = PairIndex::new(&rows[0..given], &[]);
        assert_eq!(rt; ranges.components(), expected);
        assert_eq!(rt; pairs.components(), expected);
        assert_eq!(rt; ranges.releases(63), (expected == 64) as u8);
        assert_eq!(rt; pairs.releases(64), 0);
    }
}

#[test]
fn a_release_count_above_32_reads_as_32(rt: HostRuntime) {
    for (given, expected) in [(0, 0), (1, 1), (31, 31), (32, 32), (33, 32), (255, 32)] {
        let index = RangeIndex::new(&[component(given)], &[]);
        assert_eq!(rt; index.releases(0), expected);
        assert_eq!(rt; index.withdrawn(Choice::new(0, 31)), expected < 32);
        assert!(rt; index.withdrawn(Choice::new(0, 32)));
    }
}

// Whether a needs row, or a pair row, that stands after so many others makes 0:0 and 1:0 clash. One function over both
// would take the rows, their number and the constructor as parameters, and so all that it is about.
fn needs_row_counts_after(rt: &impl Abort, others: usize) -> bool {
    let mut rows = [NeedsRow::new(Choice::new(0, 1), 1, 0, 0); 514];
    assert!(rt; others < 514);
    rows[others] = NeedsRow::new(Choice::new(0, 0), 1, 1, 1);
    let index = RangeIndex::new(&[component(2), component(2)], &rows);
    index.clash(Choice::new(0, 0), Choice::new(1, 0))
}

fn pair_row_counts_after(rt: &impl Abort, others: usize) -> bool {
    let mut rows = [PairRow::new(Choice::new(0, 1), Choice::new(1, 1)); 1026];
    assert!(rt; others < 1026);
    rows[others] = PairRow::new(Choice::new(1, 0), Choice::new(0, 0));
    let index = PairIndex::new(&[component(2), component(2)], &rows);
    index.clash(Choice::new(0, 0), Choice::new(1, 0))
}

#[test]
fn rows_past_the_last_are_ignored(rt: HostRuntime) {
    for (others, counts) in [
        (0, true),
        (1, true),
        (510, true),
        (511, true),
        (512, false),
        (513, false),
    ] {
        assert_eq!(rt; needs_row_counts_after(&rt, others), counts);
    }
    for (others, counts) in [
        (0, true),
        (512, true),
        (1022, true),
        (1023, true),
        (1024, false),
        (1025, false),
    ] {
        assert_eq!(rt; pair_row_counts_after(&rt, others), counts);
    }
}

#[test]
fn the_65th_notice_is_refused(rt: HostRuntime) {
    let mut layer = NoticeLayer::over(PairIndex::new(
        &[component(32), component(32), component(1)],
        &[],
    ));
    let late = Notice::Single(Choice::new(2, 0));
    for c in 0..2 {
        for r in 0..32 {
            assert_eq!(rt; layer.file(Notice::Single(Choice::new(c, r))), Ok(()));
        }
    }
    assert_eq!(rt; layer.file(late), Err(Refusal::NoticesFull));
    assert_eq!(rt; layer.lift(Notice::Single(Choice::new(0, 5))), Ok(()));
    assert_eq!(rt; layer.file(late), Ok(()));
    assert_eq!(rt; layer.notices().len(), 64);
}
