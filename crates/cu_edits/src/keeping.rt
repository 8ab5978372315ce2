//! Which functions a settler keeps.

/// Which functions a settler keeps: all that it has; or those alone that lists of later edges may be made of, if edges are settled by
/// rising number, which takes less memory. Where it needs one of the others after all, it gives up.
#[derive(Clone, Copy)]
pub enum Keeping {
    All,
    Needed,
}
