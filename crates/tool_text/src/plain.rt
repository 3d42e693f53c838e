//! Texts without what stands before or behind them, and paths as people write them: with `./` before them, or with `/` behind them.
ghost use Rattle.std.specs.Prelude.{◌≡◌};
ghost use Rattle.tool_text.specs.Plain.{plain_path, without_prefix, without_suffix};

/// The text without a prefix, where it begins so.
pub fn without_prefix<'a>(prefix: &str, text: &'a str) -> &'a str
    ensures { result.now ≡ without_prefix prefix.now text.now }
{
    match text.strip_prefix(prefix) {
        Some(rest) => rest,
        None => text,
    }
}

/// The text without a suffix, where it ends so.
fn without_suffix<'a>(suffix: &str, text: &'a str) -> &'a str
    ensures { result.now ≡ without_suffix suffix.now text.now }
{
    match text.strip_suffix(suffix) {
        Some(front) => front,
        None => text,
    }
}

/// The path without `./` before it and `/` behind it.
pub fn plain_path(path: &str) -> &str
    ensures { result.now ≡ plain_path path.now }
{
    without_suffix("/", without_prefix("./", path))
}
