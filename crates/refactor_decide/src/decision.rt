//! What the scopes before a rename tell of it.
use refactor_conflict::Conflict;

/// The first conflict of a rename, if there is any, and whether the declaration is hidden: other packages see it under neither of its two
/// names, and it is no import that gains a name.
#[derive(Drop)]
pub struct ScopeDecision {
    pub conflict: Option<Conflict>,
    pub is_hidden: bool,
}
