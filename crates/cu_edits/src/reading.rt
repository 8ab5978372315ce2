//! What is known of an edit once it was read.

ghost use Rattle.cu_edits.specs.Steps.Known.{IsEditSound};

use cu_model::Edit;

/// Learns that what an edit sets is a profile.
pub fn read_edit(edit: &Edit)
    ensures { IsEditSound edit.now }
{
    if let Edit::Set { pieces, .. } = edit {
        let _pieces = pieces.pieces();
    }
}
