//! In what manner a run works: nothing of it changes an answer, a byte or a status.

use cu_progress::Progress;
use cu_session::ListRoom;

/// Who is told how far long work is, and how much memory may be taken beside the files for what is known of shortcuts.
#[derive(Drop)]
pub struct Manner<'p, P: Progress> {
    pub progress: &'p mut P,
    pub room: ListRoom,
}
