//! What drives are, said of the definitions alone.

ghost use Rattle.std.specs.Prelude.{◌≡◌, ◌++◌, ℕ, List, codes};
ghost use Rattle.cu_model.specs.Answers.{arrive_text};
ghost use Rattle.cu_model.specs.Networks.{NetworkValue};
ghost use Rattle.cu_model.specs.Roads.{drive};
ghost use Rattle.cu_drive.specs.DriveAnswers.{says_drive};
ghost use Rattle.cu_drive.specs.Drives.{entered};
ghost use Rattle.cu_drive.specs.RoadTexts.{arrival_text, entered_text, number_text};

/// A law: the drive of a walk behind another goes on at the second at which that arrives; and what is written of an arrival, road
/// by road, is the reply to a query where each road is written by its number, and that of its drive where the second stands behind.
pub fn drives_go_on()
    ensures behind { (g : NetworkValue) (walk more : List ℕ) (t : ℕ)
        → entered g (walk ++ more) t ≡ entered g walk t ++ entered g more (drive g walk t) }
    ensures numbers { (g : NetworkValue) (second arrival : ℕ) (walk : List ℕ)
        → arrival_text (codes " arcs=") number_text g second arrival walk
        ≡ arrive_text arrival walk }
    ensures seconds { (g : NetworkValue) (second arrival : ℕ) (walk : List ℕ)
        → arrival_text (codes " drive=") entered_text g second arrival walk
        ≡ says_drive g second arrival walk }
{}
