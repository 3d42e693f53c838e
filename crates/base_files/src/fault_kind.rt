//! The kinds of faults of Go files.
ghost use Rattle.std.specs.Prelude.{◌≡◌};
ghost use Rattle.base_files.specs.FaultNames.{fault_word};

/// A kind of fault. Kinds are ordered as they are listed here.
#[derive(Clone, Copy, Debug, PartialEq, Eq, PartialOrd, Ord)]
pub enum FaultKind {
    Encoding,
    Number,
    String,
    Comment,
    Character,
    Syntax,
    Nesting,
    Package,
    Missing,
    Cycle,
    Import,
    Undeclared,
    Unexported,
    Repeated,
    Unused,
    NoNew,
    Loop,
    Recursive,
    Type,
}

impl FaultKind {
    /// The word for the kind in replies.
    pub fn name(self) -> &'static str
        ensures { result.now ≡ fault_word self }
    {
        match self {
            FaultKind::Encoding => "encoding",
            FaultKind::Number => "number",
            FaultKind::String => "string",
            FaultKind::Comment => "comment",
            FaultKind::Character => "character",
            FaultKind::Syntax => "syntax",
            FaultKind::Nesting => "nesting",
            FaultKind::Package => "package",
            FaultKind::Missing => "missing",
            FaultKind::Cycle => "cycle",
            FaultKind::Import => "import",
            FaultKind::Undeclared => "undeclared",
            FaultKind::Unexported => "unexported",
            FaultKind::Repeated => "repeated",
            FaultKind::Unused => "unused",
            FaultKind::NoNew => "nonew",
            FaultKind::Loop => "loop",
            FaultKind::Recursive => "recursive",
            FaultKind::Type => "type",
        }
    }
}
