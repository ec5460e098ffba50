// Which releases suit which choice, in arrays with room for all that there may be, as `Row`.

// For one choice: the releases of each component that suit it.
#[derive(Clone, Copy)]
pub struct SuitRow {
    pub masks: [u32; 64],
}

// For one component: the row of each of its releases.
#[derive(Clone, Copy)]
pub struct SuitRows {
    pub rows: [SuitRow; 32],
}
