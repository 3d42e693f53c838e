//! Laws of the rename of a declaration on a fixed layout.
ghost use Rattle.std.specs.Prelude.{◌≡◌, ◌↔◌, ℕ, List};
ghost use Rattle.go_scope.specs.Bindings.{Layout, Names, Declares, AllCount, IsUse, IsBoundTo, IsPackageLevel};
ghost use Rattle.types_declared.specs.Laid.{is_exported};
ghost use Rattle.law_rename.specs.Renaming.{Renames, KeepsScopeBindings, KeepsOtherBindings, HasSameBindings, IsLost, IsCaptured, IsBoundAnew};
ghost use Rattle.law_rename.specs.Renaming.{WouldAssign, WouldCapture, WouldLose, WouldBind, HasNoConflict, HasNoConflictAt, AreImportsUsed, AreUsesBound};
ghost use Rattle.law_rename.specs.Seen.{IsExportedAs};

/// Each bound identifier stays bound to its declaration exactly if the old names show no conflict.
pub fn bindings_are_kept_without_conflicts()
    ensures { (l : Layout) → (before : Names) → (d : ℕ) → (y : List ℕ) → (after : Names) → Renames l before d y after →
        KeepsScopeBindings l before after ↔ HasNoConflict l before d y }
{}

/// One identifier stays bound to its declaration exactly if the old names show no conflict at it.
pub fn a_binding_is_kept_without_conflict()
    ensures { (l : Layout) → (before : Names) → (d : ℕ) → (y : List ℕ) → (after : Names) → Renames l before d y after →
        (u e : ℕ) → IsBoundTo l before u e → IsBoundTo l after u e ↔ HasNoConflictAt l before d y u }
{}

/// All bindings stay the same, and unbound identifiers stay unbound, exactly if two conditions are met. The old names show no conflict, and
/// no unbound use of the new name is in the scope of the renamed declaration.
pub fn bindings_are_the_same_without_conflicts()
    ensures { (l : Layout) → (before : Names) → (d : ℕ) → (y : List ℕ) → (after : Names) → Renames l before d y after →
        HasSameBindings l before after ↔ (HasNoConflict l before d y × ((u : ℕ) → WouldBind l before d y u → ⊥)) }
{}

/// Where no use is unbound, all bindings stay the same exactly if there is no conflict.
pub fn bindings_are_the_same_where_uses_are_bound()
    ensures { (l : Layout) → (before : Names) → (d : ℕ) → (y : List ℕ) → (after : Names) → Renames l before d y after →
        AreUsesBound l before → HasSameBindings l before after ↔ HasNoConflict l before d y }
{}

/// The old names alone decide which identifiers a rename captures, loses and binds anew.
pub fn old_names_decide_conflicts()
    ensures captured { (l : Layout) → (before : Names) → (d : ℕ) → (y : List ℕ) → (after : Names) → Renames l before d y after →
        (u c : ℕ) → IsCaptured l before after u c ↔ WouldCapture l before d y u c }
    ensures lost { (l : Layout) → (before : Names) → (d : ℕ) → (y : List ℕ) → (after : Names) → Renames l before d y after →
        (u : ℕ) → WouldLose l before d y u → IsLost l before after u }
    ensures lost_only { (l : Layout) → (before : Names) → (d : ℕ) → (y : List ℕ) → (after : Names) → Renames l before d y after →
        (u : ℕ) → IsLost l before after u → (WouldLose l before d y u → ⊥) → ⊥ }
    ensures bound_anew { (l : Layout) → (before : Names) → (d : ℕ) → (y : List ℕ) → (after : Names) → Renames l before d y after →
        (u c : ℕ) → IsBoundAnew l before after u c ↔ ((c ≡ d) × WouldBind l before d y u) }
{}

/// Of the declaring identifiers, exactly the left names of `:=` that would assign no longer declare. No other identifier begins to declare.
pub fn declarations_stay_unless_they_assign()
    ensures stays { (l : Layout) → (before : Names) → (d : ℕ) → (y : List ℕ) → (after : Names) → Renames l before d y after →
        (x : ℕ) → Declares l before x → Declares l after x ↔ ((c : ℕ) → WouldAssign l before d y x c → ⊥) }
    ensures none_begins { (l : Layout) → (before : Names) → (d : ℕ) → (y : List ℕ) → (after : Names) → Renames l before d y after →
        (x : ℕ) → Declares l after x → Declares l before x }
{}

/// Where bindings are kept, each declaring identifier still declares, and each use is still a use. No declaration is repeated, no use
/// becomes unbound, and no import becomes unused.
pub fn kept_bindings_bring_no_fault()
    ensures declarations { (l : Layout) → (before : Names) → (d : ℕ) → (y : List ℕ) → (after : Names) → Renames l before d y after →
        KeepsScopeBindings l before after → (x : ℕ) → Declares l before x ↔ Declares l after x }
    ensures uses { (l : Layout) → (before : Names) → (d : ℕ) → (y : List ℕ) → (after : Names) → Renames l before d y after →
        KeepsScopeBindings l before after → (u : ℕ) → IsUse l before u ↔ IsUse l after u }
    ensures none_repeated { (l : Layout) → (before : Names) → (d : ℕ) → (y : List ℕ) → (after : Names) → Renames l before d y after →
        KeepsScopeBindings l before after → AllCount l after }
    ensures uses_bound { (l : Layout) → (before : Names) → (d : ℕ) → (y : List ℕ) → (after : Names) → Renames l before d y after →
        AreUsesBound l before → KeepsScopeBindings l before after → AreUsesBound l after }
    ensures imports_used { (l : Layout) → (before : Names) → (d : ℕ) → (y : List ℕ) → (after : Names) → Renames l before d y after →
        AreImportsUsed l before → KeepsScopeBindings l before after → AreImportsUsed l after }
{}

/// If no import is unused and all other identifiers stay bound, imports stay bound to themselves. An import that no longer counts has a use
/// that is captured: it gives way to a declaration of the package or to another import.
pub fn imports_are_kept_where_all_else_is()
    ensures { (l : Layout) → (before : Names) → (d : ℕ) → (y : List ℕ) → (after : Names) → Renames l before d y after →
        AreImportsUsed l before → KeepsOtherBindings l before after → KeepsScopeBindings l before after }
{}

/// Where all bindings stay the same, renaming back is a rename too.
pub fn a_rename_can_be_renamed_back()
    ensures { (l : Layout) → (before : Names) → (d : ℕ) → (y : List ℕ) → (after : Names) → Renames l before d y after →
        HasSameBindings l before after → Renames l after d (before d) before }
{}

/// The export of a renamed package-level declaration, where bindings are kept. Other packages see it under the new name as they saw it
/// under the old one exactly if both names are exported or neither is. They saw nothing under the new name, and see nothing under the old
/// one. Under all other names they see what they saw.
pub fn exports_follow_the_name()
    ensures renamed { (l : Layout) → (before : Names) → (d : ℕ) → (y : List ℕ) → (after : Names) → Renames l before d y after →
        KeepsScopeBindings l before after → IsPackageLevel l d →
        ((e : ℕ) → IsExportedAs l before (before d) e ↔ IsExportedAs l after y e) ↔ (is_exported (before d) ≡ is_exported y) }
    ensures new_was_free { (l : Layout) → (before : Names) → (d : ℕ) → (y : List ℕ) → (after : Names) → Renames l before d y after →
        KeepsScopeBindings l before after → IsPackageLevel l d → (e : ℕ) → IsExportedAs l before y e → ⊥ }
    ensures old_is_free { (l : Layout) → (before : Names) → (d : ℕ) → (y : List ℕ) → (after : Names) → Renames l before d y after →
        KeepsScopeBindings l before after → IsPackageLevel l d → (e : ℕ) → IsExportedAs l after (before d) e → ⊥ }
    ensures others { (l : Layout) → (before : Names) → (d : ℕ) → (y : List ℕ) → (after : Names) → Renames l before d y after →
        KeepsScopeBindings l before after → (name : List ℕ) → (name ≡ before d → ⊥) → (name ≡ y → ⊥) → (e : ℕ) →
        IsExportedAs l before name e ↔ IsExportedAs l after name e }
{}
