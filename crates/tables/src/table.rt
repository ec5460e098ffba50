ghost use Rattle.std.specs.Prelude.{◌≡◌, ◌≤◌, length};

// At most N rows, in order. It is an array with a count and not a `Vec`, since the project allocates no memory (a rule
// of it). Round the kit's `ArrayVec` it would be no plainer: contracts and definitions everywhere speak of what a
// `Table` holds, so that it would stay, and two types would stand for one list. The struct has a file of its own, since
// the file of a struct with an invariant cannot import definitions that name the struct; lib.rt has the methods.
#[derive(Drop)]
pub struct Table<T, const N: usize> {
    pub(crate) cells: [T; N],
    pub(crate) filled: usize,
    ghost within: { filled ≤ N },
    ghost whole: { length cells ≡ N },
}
