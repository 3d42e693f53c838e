//! Laws of names behind dots and of keys: they are uses of members.
ghost use Rattle.std.specs.Prelude.{ℕ, Bool};
ghost use Rattle.std.specs.List.{AllByRecursion};
ghost use Rattle.go_ast.specs.SourceFile.{SourceFile, IsSourceFile};
ghost use Rattle.go_scope.specs.Site.{TokenSpellings};
ghost use Rattle.go_scope.specs.FileSites.{file_sites};
ghost use Rattle.types_expr.specs.Judge.{members_of};
ghost use Rattle.types_expr.specs.World.{World};
ghost use Rattle.types_stmt.specs.Declarations.{check_file};
ghost use Rattle.law_typing.specs.Declarations.{FileIsTyped};
ghost use Rattle.law_faultless.specs.MemberLinks.{IsUsedMember, IsLinked};

/// In a file that keeps the typing rules each key of a composite literal is one of its uses of members. So is each selector that is not
/// bound as a qualified identifier. The type before it has such a member.
pub fn links_of_typed_files_are_used()
    ensures { (w : World) → (is_init : ℕ → Bool) → (f : SourceFile) → IsSourceFile f → FileIsTyped w is_init f.tree → (s : TokenSpellings) →
        AllByRecursion (λ x. IsLinked w (IsUsedMember w (members_of (check_file w is_init f.tree).uses)) x.place.index x.role) (file_sites s f.tree) }
{}
