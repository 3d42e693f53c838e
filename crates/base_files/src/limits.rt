//! The greatest sizes of a workspace, its history and a session.
ghost use Rattle.std.specs.Prelude.{◌≡◌, ◌≤◌};

/// The limits of a server. They may be lowered, but no limit exceeds that of `Limits::FULL`.
#[derive(Clone, Copy, Debug)]
pub struct Limits {
    pub file_bytes: usize,
    pub files: usize,
    pub total_bytes: usize,
    pub packages: usize,
    pub undo_depth: usize,
    pub journal: u64,
    pub command_bytes: usize,
    pub reads: u64,
    ghost file_bytes_capped: { file_bytes ≤ 1048576 },
    ghost files_capped: { files ≤ 4096 },
    ghost total_bytes_capped: { total_bytes ≤ 67108864 },
    ghost packages_capped: { packages ≤ 1024 },
    ghost undo_depth_capped: { undo_depth ≤ 100 },
    ghost undo_depth_positive: { 1 ≤ undo_depth },
    ghost journal_capped: { journal ≤ 1000000 },
    ghost command_bytes_capped: { command_bytes ≤ 1024 },
    ghost reads_capped: { reads ≤ 1000000000 },
}

impl Limits {
    /// The greatest limits that a server has.
    pub const FULL: Limits = Limits {
        file_bytes: 1_048_576,
        files: 4_096,
        total_bytes: 67_108_864,
        packages: 1_024,
        undo_depth: 100,
        journal: 1_000_000,
        command_bytes: 1_024,
        reads: 1_000_000_000,
    };
}

impl Default for Limits {
    /// `Limits::FULL`.
    fn default() -> Limits
        ensures file_bytes { result.file_bytes ≡ 1048576 }
        ensures files { result.files ≡ 4096 }
        ensures total_bytes { result.total_bytes ≡ 67108864 }
        ensures packages { result.packages ≡ 1024 }
        ensures undo_depth { result.undo_depth ≡ 100 }
        ensures journal { result.journal ≡ 1000000 }
        ensures command_bytes { result.command_bytes ≡ 1024 }
        ensures reads { result.reads ≡ 1000000000 }
    {
        Limits::FULL
    }
}
