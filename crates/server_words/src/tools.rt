//! The options of the subcommands that read a folder of Go files.
ghost use Rattle.std.specs.Prelude.{◌≡◌, ◌↔◌, IsTrue, Some, codes, option_map};
ghost use Rattle.clap.specs.Words.{first_of, found_of, rows_of};
ghost use Rattle.server_words.specs.ToolOptions.{FindsFaults, FindsLsp, FindsMove, FindsRename, FindsUses};

use clap::ArgMatches;

/// The options of `rename`: the folder, whether files stay as they are, the word for a place, and the new name.
#[derive(Clone, Copy)]
pub struct RenameOptions<'a> {
    pub root: &'a str,
    pub dry_run: bool,
    pub place: &'a str,
    pub name: &'a str,
}

/// The options of `move`: the folder, whether files stay as they are, and the path of a package's folder before and after.
#[derive(Clone, Copy)]
pub struct MoveOptions<'a> {
    pub root: &'a str,
    pub dry_run: bool,
    pub from: &'a str,
    pub to: &'a str,
}

/// The options of `uses`: the folder, and the word for a place.
#[derive(Clone, Copy)]
pub struct UsesOptions<'a> {
    pub root: &'a str,
    pub place: &'a str,
}

/// The options of `faults`: the folder.
#[derive(Clone, Copy)]
pub struct FaultsOptions<'a> {
    pub root: &'a str,
}

/// The options of `lsp`: the folder, where the editor names none.
#[derive(Clone, Copy)]
pub struct LspOptions<'a> {
    pub root: &'a str,
}

/// The first value of an option or a word.
pub(crate) fn value<'a>(matches: &ArgMatches<'a>, option: &str) -> Option<&'a str>
    ensures { option_map (λ text. text.now) result ≡ first_of option.now (rows_of (found_of matches.now)) }
{
    matches.get_str(option)
}

/// Whether an option without a value was given.
pub(crate) fn is_given(matches: &ArgMatches<'_>, option: &str) -> bool
    ensures { IsTrue result ↔ (first_of option.now (rows_of (found_of matches.now)) ≡ Some (codes "true")) }
{
    match value(matches, option) {
        Some(text) => text == "true",
        None => false,
    }
}

/// The options of `rename`, or `None` where one is missing.
pub(crate) fn rename_options<'a>(matches: &ArgMatches<'a>) -> Option<RenameOptions<'a>>
    ensures { FindsRename (rows_of (found_of matches.now)) result }
{
    let root = value(matches, "root")?;
    let place = value(matches, "PLACE")?;
    let name = value(matches, "NAME")?;
    Some(RenameOptions {
        root,
        dry_run: is_given(matches, "dry-run"),
        place,
        name,
    })
}

/// The options of `move`, or `None` where one is missing.
pub(crate) fn move_options<'a>(matches: &ArgMatches<'a>) -> Option<MoveOptions<'a>>
    ensures { FindsMove (rows_of (found_of matches.now)) result }
{
    let root = value(matches, "root")?;
    let from = value(matches, "FROM")?;
    let to = value(matches, "TO")?;
    Some(MoveOptions {
        root,
        dry_run: is_given(matches, "dry-run"),
        from,
        to,
    })
}

/// The options of `uses`, or `None` where one is missing.
pub(crate) fn uses_options<'a>(matches: &ArgMatches<'a>) -> Option<UsesOptions<'a>>
    ensures { FindsUses (rows_of (found_of matches.now)) result }
{
    let root = value(matches, "root")?;
    let place = value(matches, "PLACE")?;
    Some(UsesOptions { root, place })
}

/// The options of `faults`, or `None` where one is missing.
pub(crate) fn faults_options<'a>(matches: &ArgMatches<'a>) -> Option<FaultsOptions<'a>>
    ensures { FindsFaults (rows_of (found_of matches.now)) result }
{
    let root = value(matches, "root")?;
    Some(FaultsOptions { root })
}

/// The options of `lsp`, or `None` where one is missing.
pub(crate) fn lsp_options<'a>(matches: &ArgMatches<'a>) -> Option<LspOptions<'a>>
    ensures { FindsLsp (rows_of (found_of matches.now)) result }
{
    let root = value(matches, "root")?;
    Some(LspOptions { root })
}
