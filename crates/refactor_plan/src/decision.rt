//! What the workspace before a rename tells of it.
use refactor_coupled::Obstacle;

/// What stands against a rename first, if anything does, and whether what is renamed is hidden: other packages see it under neither of its two
/// names, and it is no import that gains a name.
#[derive(Drop)]
pub struct Decision {
    pub obstacle: Option<Obstacle>,
    pub is_hidden: bool,
}
