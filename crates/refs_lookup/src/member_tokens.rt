//! Laws of the tokens at which members are used.
ghost use Rattle.std.specs.Prelude.{ℕ, ◌≡◌, Bool, Contains};
ghost use Rattle.go_ast.specs.SourceFile.{SourceFile, IsSourceFile};
ghost use Rattle.types_expr.specs.Judge.{MemberUse, members_of};
ghost use Rattle.types_expr.specs.World.{World};
ghost use Rattle.types_stmt.specs.Declarations.{check_file};
ghost use Rattle.refs_lookup.specs.Places.{IsMemberToken};

/// At most one use of a member is at a token of a file.
pub fn one_use_stands_at_a_token()
    ensures { (w : World) → (is_init : ℕ → Bool) → (f : SourceFile) → IsSourceFile f → (x y : MemberUse) →
        Contains (members_of (check_file w is_init f.tree).uses) x → Contains (members_of (check_file w is_init f.tree).uses) y → x.place ≡ y.place → x ≡ y }
{}

/// A use of a member is a composite literal key, or the selector of a selection `x.f` where `x` is no name of a package.
pub fn uses_stand_at_links()
    ensures { (w : World) → (is_init : ℕ → Bool) → (f : SourceFile) → IsSourceFile f → (x : MemberUse) →
        Contains (members_of (check_file w is_init f.tree).uses) x → IsMemberToken w f.cut x.place }
{}
