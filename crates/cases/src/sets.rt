use super::build::component;
use archive::choice::Choice;
use archive::order::{NO_PIN, compare};
use archive::sets::lawful;
use indexes::components::ComponentRow;
use indexes::pair::{PairIndex, PairRow};
use indexes::range::{NeedsRow, RangeIndex};
use std::cmp::Ordering;

#[test]
fn a_set_needs_one_release_for_every_component(rt: HostRuntime) {
    let none = PairIndex::new(&[], &[]);
    assert!(rt; lawful(&none, &[]));
    assert!(rt; !lawful(&none, &[0]));
    let empty = PairIndex::new(&[component(1), component(0)], &[]);
    assert!(rt; !lawful(&empty, &[0, 0]));
    let two = PairIndex::new(&[component(1), component(2)], &[]);
    assert!(rt; lawful(&two, &[0, 1]));
    assert!(rt; !lawful(&two, &[0]) && !lawful(&two, &[0, 1, 0]) && !lawful(&two, &[]));
    assert!(rt; !lawful(&two, &[0, 2]) && !lawful(&two, &[1, 0]) && !lawful(&two, &[0, 255]));
}

// Component 1 below component 0, component 0 equal to component 2, component 1 unlike component 2, of three releases
// each, by ranges; (1,0,1), (2,0,2) and (2,1,2) are the lawful sets.
#[test]
fn lawful_sets_by_ranges(rt: HostRuntime) {
    let rows = [
        NeedsRow::new(Choice::new(0, 0), 1, 1, 0),
        NeedsRow::new(Choice::new(0, 1), 1, 0, 0),
        NeedsRow::new(Choice::new(0, 2), 1, 0, 1),
        NeedsRow::new(Choice::new(0, 0), 2, 0, 0),
        NeedsRow::new(Choice::new(0, 1), 2, 1, 1),
        NeedsRow::new(Choice::new(0, 2), 2, 2, 2),
        NeedsRow::new(Choice::new(1, 0), 2, 1, 2),
        NeedsRow::new(Choice::new(1, 2), 2, 0, 1),
        NeedsRow::new(Choice::new(2, 0), 1, 1, 2),
        NeedsRow::new(Choice::new(2, 1), 1, 0, 0),
        NeedsRow::new(Choice::new(2, 2), 1, 0, 1),
    ];
    let index = RangeIndex::new(&[component(3), component(3), component(3)], &rows);
    for a in 0..3u8 {
        for b in 0..3u8 {
            for c in 0..3u8 {
                assert_eq!(rt; lawful(&index, &[a, b, c]), b < a && a == c && b != c);
            }
        }
    }
}

// The last pair of the last two components counts as any other.
#[test]
fn every_pair_of_components_is_looked_at(rt: HostRuntime) {
    let components = [component(2); 5];
    for a in 0..5u8 {
        for b in 0..5u8 {
            let index = PairIndex::new(
                &components,
                &[PairRow::new(Choice::new(b, 1), Choice::new(a, 1))],
            );
            let mut set = [0; 5];
            set[a as usize] = 1;
            set[b as usize] = 1;
            assert_eq!(rt; lawful(&index, &set), a == b);
            assert!(rt; lawful(&index, &[0; 5]));
        }
    }
}

#[test]
fn a_withdrawn_release_is_in_no_lawful_set(rt: HostRuntime) {
    let mut withdrawn = [false; 32];
    withdrawn[1] = true;
    let row = ComponentRow {
        releases: 3,
        withdrawn,
    };
    let index = PairIndex::new(&[row], &[]);
    assert!(rt; lawful(&index, &[0]) && !lawful(&index, &[1]) && lawful(&index, &[2]));
}

// The pin first, then from the newest down, at the lowest component that differs.
#[test]
fn sets_compare_by_preference(rt: HostRuntime) {
    let pins = [1, NO_PIN];
    let order = [
        [1, 2],
        [1, 1],
        [1, 0],
        [2, 2],
        [2, 1],
        [2, 0],
        [0, 2],
        [0, 1],
        [0, 0],
    ];
    for (i, s) in order.iter().enumerate() {
        for (j, t) in order.iter().enumerate() {
            assert_eq!(rt; compare(&pins, s, t), Some(i.cmp(&j)));
        }
    }
    assert_eq!(rt; compare(&pins, &[1], &[1, 2]), None);
    assert_eq!(rt; compare(&[], &[1, 2], &[0, 3]), Some(Ordering::Less));
    assert_eq!(rt; compare(&[], &[], &[]), Some(Ordering::Equal));
}
