//! What packed files are, said of their definition alone.

ghost use Rattle.std.specs.Prelude.{ℕ, ◌≡◌, ◌≢◌, length};
ghost use Rattle.cu_interval.specs.Hierarchies.{HierarchyValue, IsHierarchy};
ghost use Rattle.cu_pack.specs.declared.refusals.PackRefusal.{PackRefusal};
ghost use Rattle.cu_pack.specs.declared.refusals.PackRefusal.TheVariants.{NoMemory};
ghost use Rattle.cu_pack.specs.Checks.{IsRefusedIn};
ghost use Rattle.cu_pack.specs.Layouts.{file_length};
ghost use Rattle.cu_pack.specs.Reading.{decoded};
ghost use Rattle.cu_pack.specs.Spelling.{IsVersion, counts_of, spelling_in};

/// A law: in each version a file is as long as its counts say, and hierarchies with the same file are the same.
pub fn file_of_one_hierarchy()
    ensures long { (version : ℕ) (h : HierarchyValue) → IsVersion version → IsHierarchy h
        → length (spelling_in version h) ≡ file_length (counts_of version h) }
    ensures one { (version : ℕ) (h other : HierarchyValue) → IsVersion version → IsHierarchy h
        → IsHierarchy other → spelling_in version h ≡ spelling_in version other → h ≡ other }
{}

/// A law: in each version the packed file of a hierarchy says that hierarchy, and no check of the version refuses it.
pub fn file_is_read_back()
    ensures again { (version : ℕ) (h : HierarchyValue) → IsVersion version → IsHierarchy h
        → decoded (spelling_in version h) ≡ h }
    ensures accepted { (version : ℕ) (h : HierarchyValue) (refusal : PackRefusal)
        → IsVersion version → IsHierarchy h → refusal ≢ NoMemory
        → IsRefusedIn version (spelling_in version h) refusal → ⊥ }
{}
