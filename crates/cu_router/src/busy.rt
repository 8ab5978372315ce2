//! An edit in work, as it is kept between two steps.

use cu_edits::{PausedSettler, WorkPapers};
use cu_model::Edit;

/// An edit in work: the edit; whose it is, with the edges that it touches and the lists of those settled; and its settler, put
/// aside. It borrows nothing, so queries are answered while it is kept.
#[derive(Drop)]
pub struct Busy {
    pub edit: Edit,
    pub papers: WorkPapers,
    pub settler: PausedSettler,
}
