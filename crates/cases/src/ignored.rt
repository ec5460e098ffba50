use super::build::component;
use archive::Archive;
use archive::choice::Choice;
use indexes::components::ComponentRow;
use indexes::pair::{PairIndex, PairRow};
use indexes::range::{NeedsRow, RangeIndex};

// Each row of these would make 0:0 and 1:0 clash if one of its numbers were another.
#[test]
fn needs_rows_that_name_nothing_offered_are_ignored(rt: HostRuntime) {
    let components = [component(2), component(2), component(0)];
    let rows = [
        NeedsRow::new(Choice::new(0, 2), 1, 1, 0),
        NeedsRow::new(Choice::new(3, 0), 1, 1, 0),
        NeedsRow::new(Choice::new(2, 0), 0, 1, 0),
        NeedsRow::new(Choice::new(0, 0), 3, 1, 0),
        NeedsRow::new(Choice::new(0, 0), 255, 1, 0),
        NeedsRow::new(Choice::new(0, 0), 0, 1, 0),
        NeedsRow::new(Choice::new(1, 1), 1, 1, 0),
    ];
    let index = RangeIndex::new(&components, &rows);
    assert!(rt; !index.clash(Choice::new(0, 0), Choice::new(1, 0)));
    assert!(rt; !index.clash(Choice::new(0, 0), Choice::new(0, 0)));
    assert!(rt; !index.clash(Choice::new(0, 0), Choice::new(0, 1)));
    assert!(rt; !index.clash(Choice::new(1, 1), Choice::new(1, 0)));
}

#[test]
fn pair_rows_that_name_nothing_offered_are_ignored(rt: HostRuntime) {
    let components = [component(2), component(2), component(0)];
    let rows = [
        PairRow::new(Choice::new(0, 2), Choice::new(1, 0)),
        PairRow::new(Choice::new(0, 0), Choice::new(1, 2)),
        PairRow::new(Choice::new(2, 0), Choice::new(0, 0)),
        PairRow::new(Choice::new(0, 0), Choice::new(3, 0)),
        PairRow::new(Choice::new(0, 0), Choice::new(0, 1)),
        PairRow::new(Choice::new(1, 1), Choice::new(1, 1)),
    ];
    let index = PairIndex::new(&components, &rows);
    assert!(rt; !index.clash(Choice::new(0, 0), Choice::new(1, 0)));
    assert!(rt; !index.clash(Choice::new(0, 0), Choice::new(0, 1)));
    assert!(rt; !index.clash(Choice::new(1, 1), Choice::new(1, 1)));
}

#[test]
fn marks_past_the_release_count_are_ignored(rt: HostRuntime) {
    let mut withdrawn = [false; 32];
    withdrawn[1] = true;
    withdrawn[3] = true;
    let row = ComponentRow {
        releases: 3,
        withdrawn,
    };
    let index = PairIndex::new(&[row], &[]);
    for (release, expected) in [
        (0, false),
        (1, true),
        (2, false),
        (3, true),
        (4, true),
        (32, true),
        (255, true),
    ] {
        assert_eq!(rt; index.withdrawn(Choice::new(0, release)), expected);
    }
}

#[test]
fn a_choice_not_offered_is_withdrawn_and_clashes_with_everything(rt: HostRuntime) {
    let ranges = RangeIndex::new(&[component(2), component(1)], &[]);
    let pairs = PairIndex::new(&[component(2), component(1)], &[]);
    for missing in [
        Choice::new(0, 2),
        Choice::new(1, 1),
        Choice::new(2, 0),
        Choice::new(64, 0),
        Choice::new(255, 255),
    ] {
        assert!(rt; ranges.withdrawn(missing) && pairs.withdrawn(missing));
        assert!(rt;
            ranges.clash(missing, Choice::new(0, 0)) && ranges.clash(Choice::new(0, 0), missing)
        );
        assert!(rt; pairs.clash(missing, Choice::new(1, 0)) && pairs.clash(missing, missing));
    }
    assert!(rt;
        !ranges.clash(Choice::new(0, 0), Choice::new(1, 0))
            && !pairs.clash(Choice::new(0, 1), Choice::new(1, 0))
    );
}

// 0:0 needs component 1 from 1 to 2, and 0:1 needs it at none; the row stands for both orders of the question.
#[test]
fn a_needs_row_leaves_out_what_its_range_does_not_cover(rt: HostRuntime) {
    let rows = [
        NeedsRow::new(Choice::new(0, 0), 1, 1, 2),
        NeedsRow::new(Choice::new(0, 1), 1, 1, 0),
    ];
    let index = RangeIndex::new(&[component(3), component(4)], &rows);
    for (release, outside) in [(0, true), (1, false), (2, false), (3, true)] {
        assert_eq!(rt;
            index.clash(Choice::new(0, 0), Choice::new(1, release)),
            outside
        );
        assert_eq!(rt;
            index.clash(Choice::new(1, release), Choice::new(0, 0)),
            outside
        );
        assert!(rt; index.clash(Choice::new(0, 1), Choice::new(1, release)));
        assert!(rt; !index.clash(Choice::new(0, 2), Choice::new(1, release)));
    }
}
