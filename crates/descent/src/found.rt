// A set and how many pins it moves; the bytes past the last component are 0, in an array with room for all that there
// may be, since no memory is allocated (a rule of the project).
#[derive(Clone, Copy)]
pub struct Found {
    pub set: [u8; 64],
    pub distance: u32,
}
