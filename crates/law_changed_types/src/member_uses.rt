//! The laws of the members that judging asks for.
ghost use Rattle.law_changed_types.specs.MemberUses.{ExpressionsAskForTheirUses, FilesAskForTheirUses};

/// What is found of an expression stays the same in a world that binds names alike and has the same definitions. The two need the same
/// members only at the uses that are found.
pub fn expressions_ask_for_their_uses()
    ensures { ExpressionsAskForTheirUses }
{}

/// What is found of a file stays the same in such a world, if its functions without a receiver keep being `init` or not.
pub fn files_ask_for_their_uses()
    ensures { FilesAskForTheirUses }
{}
