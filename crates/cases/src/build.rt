// A short way to write a component.
use indexes::components::ComponentRow;

pub(super) fn component(releases: u8) -> ComponentRow {
    ComponentRow {
        releases,
        withdrawn: [false; 32],
    }
}
