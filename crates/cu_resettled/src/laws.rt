//! What edits leave of a hierarchy, said of the definitions alone.

ghost use Rattle.std.specs.Prelude.{List, [], ◌∷◌, ◌≡◌, ◌↔◌};
ghost use Rattle.cu_model.specs.declared.roads.Edit.{Edit};
ghost use Rattle.cu_model.specs.Edits.{IsEditInRange, edited};
ghost use Rattle.cu_model.specs.Networks.{IsNetwork};
ghost use Rattle.cu_interval.specs.Hierarchies.{HierarchyValue, IsBuilt, IsHierarchy};
ghost use Rattle.cu_interval.specs.Resettling.{IsResettled};
ghost use Rattle.cu_resettled.specs.ResettlingAll.{IsResettledAll, IsResettledInTurn, LeaveNetworks};

/// A law: a built hierarchy that is resettled by an edit is the built one of the edited network.
pub fn resettled_is_built()
    ensures built { (old new : HierarchyValue) (edit : Edit) → IsBuilt old
        → IsEditInRange old.network edit → IsHierarchy new → IsResettled old edit new
        → IsBuilt new }
{}

/// A law: a hierarchy that is resettled by an edit is one alone.
pub fn resettled_is_one()
    ensures one { (old a b : HierarchyValue) (edit : Edit) → IsHierarchy old → IsHierarchy a
        → IsHierarchy b → IsResettled old edit a → IsResettled old edit b → a ≡ b }
{}

/// A law: an edit that leaves a network leaves a hierarchy that is resettled by it.
pub fn resettled_is_there()
    ensures there { (old : HierarchyValue) (edit : Edit) → IsHierarchy old
        → IsNetwork (edited old.network edit)
        → (new : HierarchyValue) × IsHierarchy new × IsResettled old edit new }
{}

/// A law: edits made at once are no edit, or one, where they are so many; and one edit made after the other is both at once.
pub fn at_once_by_edits()
    ensures none { (old new : HierarchyValue) → IsResettledAll old [] new ↔ (new ≡ old) }
    ensures one { (old new : HierarchyValue) (edit : Edit)
        → IsResettledAll old (edit ∷ []) new ↔ IsResettled old edit new }
    ensures more { (old mid new : HierarchyValue) (edit : Edit) (edits : List Edit)
        → IsHierarchy mid → IsResettled old edit mid → IsResettledAll mid edits new
        → IsResettledAll old (edit ∷ edits) new }
{}

/// A law: a hierarchy that is resettled by edits at once is one alone.
pub fn at_once_is_one()
    ensures one { (old a b : HierarchyValue) (edits : List Edit) → IsHierarchy old → IsHierarchy a
        → IsHierarchy b → IsResettledAll old edits a → IsResettledAll old edits b → a ≡ b }
{}

/// A law: edits that each leave a network are resettled in turn where they are resettled at once, and the other way round.
pub fn at_once_is_in_turn()
    ensures turns { (old new : HierarchyValue) (edits : List Edit) → IsHierarchy old
        → IsHierarchy new → LeaveNetworks old.network edits
        → IsResettledAll old edits new ↔ IsResettledInTurn old edits new }
{}

/// A law: a built hierarchy that is resettled by edits at once is the built one of the network that they leave.
pub fn at_once_is_built()
    ensures built { (old new : HierarchyValue) (edits : List Edit) → IsBuilt old → IsHierarchy new
        → IsResettledAll old edits new → IsBuilt new }
{}
