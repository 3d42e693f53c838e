//! What a check has found after some statements.
use types_expr::found::FoundInFile;
use types_expr::locals::Locals;

/// The types of the locals declared so far, and the faults and member uses found so far.
#[derive(Drop)]
pub struct CheckedBody {
    pub locals: Locals,
    pub found: FoundInFile,
}
