use super::build::component;
use archive::Archive;
use archive::choice::Choice;
use indexes::pair::{PairIndex, PairRow};
use notices::layer::NoticeLayer;
use notices::notice::Notice;
use refusals::Refusal;

// Three components of two releases; 0:0 clashes with 1:0.
fn index() -> PairIndex {
    let rows = [PairRow::new(Choice::new(0, 0), Choice::new(1, 0))];
    PairIndex::new(&[component(2), component(2), component(2)], &rows)
}

fn single(component: u8, release: u8) -> Notice {
    Notice::Single(Choice::new(component, release))
}

#[test]
fn refusals_are_tried_in_order(rt: HostRuntime) {
    let mut layer = NoticeLayer::over(index());
    let own = Notice::Pair(Choice::new(0, 0), Choice::new(0, 1));
    let own_past = Notice::Pair(Choice::new(0, 0), Choice::new(0, 2));
    let far = Notice::Pair(Choice::new(0, 0), Choice::new(3, 0));
    let both = Notice::Pair(Choice::new(0, 1), Choice::new(2, 1));
    let turned = Notice::Pair(Choice::new(2, 1), Choice::new(0, 1));
    assert_eq!(rt; layer.file(single(3, 0)), Err(Refusal::NotOffered));
    assert_eq!(rt; layer.file(single(2, 2)), Err(Refusal::NotOffered));
    assert_eq!(rt; layer.file(far), Err(Refusal::NotOffered));
    assert_eq!(rt; layer.file(own_past), Err(Refusal::NotOffered));
    assert_eq!(rt; layer.file(own), Err(Refusal::OneComponent));
    assert_eq!(rt; layer.lift(own_past), Err(Refusal::NotOffered));
    assert_eq!(rt; layer.lift(own), Err(Refusal::OneComponent));
    assert_eq!(rt; layer.lift(both), Err(Refusal::NotFiled));
    assert_eq!(rt; layer.file(both), Ok(()));
    assert_eq!(rt; layer.file(turned), Err(Refusal::AlreadyFiled));
    assert_eq!(rt; layer.lift(turned), Ok(()));
    assert_eq!(rt; layer.lift(both), Err(Refusal::NotFiled));
    assert_eq!(rt; layer.notices().len(), 0);
}

#[test]
fn a_filed_notice_bars_and_a_lifted_one_does_not(rt: HostRuntime) {
    let mut layer = NoticeLayer::over(index());
    let barred = Notice::Pair(Choice::new(0, 1), Choice::new(1, 1));
    assert_eq!(rt; layer.file(single(2, 0)), Ok(()));
    assert_eq!(rt; layer.file(barred), Ok(()));
    assert!(rt; layer.withdrawn(Choice::new(2, 0)) && !layer.withdrawn(Choice::new(2, 1)));
    assert!(rt;
        layer.clash(Choice::new(0, 1), Choice::new(1, 1))
            && layer.clash(Choice::new(1, 1), Choice::new(0, 1))
    );
    assert!(rt;
        layer.clash(Choice::new(0, 0), Choice::new(1, 0))
            && !layer.clash(Choice::new(0, 1), Choice::new(1, 0))
    );
    assert_eq!(rt; layer.lift(single(2, 0)), Ok(()));
    assert!(rt;
        !layer.withdrawn(Choice::new(2, 0)) && layer.clash(Choice::new(0, 1), Choice::new(1, 1))
    );
}

#[test]
fn lifting_keeps_the_order_of_the_others(rt: HostRuntime) {
    let mut layer = NoticeLayer::over(index());
    assert_eq!(rt; layer.file(single(0, 0)), Ok(()));
    assert_eq!(rt; layer.file(single(1, 0)), Ok(()));
    assert_eq!(rt; layer.file(single(2, 0)), Ok(()));
    assert_eq!(rt; layer.file(single(0, 1)), Ok(()));
    assert_eq!(rt; layer.file(single(1, 1)), Ok(()));
    assert_eq!(rt; layer.lift(single(1, 0)), Ok(()));
    assert_eq!(rt; layer.lift(single(1, 1)), Ok(()));
    assert_eq!(rt; layer.file(single(1, 0)), Ok(()));
    assert_eq!(rt; layer.lift(single(0, 0)), Ok(()));
    let expected = [Choice::new(2, 0), Choice::new(0, 1), Choice::new(1, 0)];
    assert_eq!(rt; layer.notices().len(), 3);
    for (filed, wanted) in layer.notices().iter().zip(expected) {
        assert!(rt; matches!(*filed, Notice::Single(x) if x == wanted));
    }
}

#[test]
fn layers_pile_up(rt: HostRuntime) {
    let mut lower = NoticeLayer::over(index());
    assert_eq!(rt; lower.file(single(2, 0)), Ok(()));
    let mut upper = NoticeLayer::over(lower);
    assert_eq!(rt; upper.lift(single(2, 0)), Err(Refusal::NotFiled));
    let notice = Notice::Pair(Choice::new(1, 1), Choice::new(2, 1));
    assert_eq!(rt; upper.file(notice), Ok(()));
    assert!(rt;
        upper.clash(Choice::new(2, 1), Choice::new(1, 1))
            && upper.clash(Choice::new(1, 0), Choice::new(0, 0))
    );
    assert!(rt; upper.withdrawn(Choice::new(2, 0)) && !upper.withdrawn(Choice::new(2, 1)));
    assert!(rt; upper.components() == 3 && upper.releases(2) == 2 && upper.releases(3) == 0);
}
