//! Whatever keeps a number for each list.

ghost use Rattle.std.specs.Prelude.{◌≡◌, ◌<◌, ℕ, length, slice_index};

/// Whatever keeps a number of seconds for each list of a hierarchy, by the list's number. No call takes memory.
pub trait KeptBounds {
    ghost kept: { Self → ℕ → ℕ };

    ghost lists: { Self → ℕ };

    /// The number that is kept for the list with this number, which is below the number of lists.
    fn kept(&self, list: u32) -> u64
        requires list { list < lists self.now }
        ensures kept { result ≡ kept self.now list };
}

/// The bounds of the first lists, by number.
#[derive(Drop)]
pub struct BoundsSoFar<'a> {
    pub bounds: &'a [u64],
}

impl<'a> KeptBounds for BoundsSoFar<'a> {
    ghost kept = { λ so_far. slice_index so_far.bounds.now };

    ghost lists = { λ so_far. length so_far.bounds.now };

    fn kept(&self, list: u32) -> u64 {
        self.bounds[list as usize]
    }
}
