//! Answers queries from a view: a file's text, a package's object, and what is found in the packages.
ghost use Rattle.std.specs.Prelude.{IfOk};
ghost use Rattle.workspace_check.specs.Found.{IsFound};
ghost use Rattle.server_commands.specs.Queries.{FindsFile, FindsObject};

use base_files::{FileText, Path, Place, Refusal};
use history_machine::View;
use std::alloc::{AllocError, Global};
use workspace_check::{Found, verdicts};

/// The text of one file. It is shared, not copied.
pub fn cat(alloc: Global, view: &View, path: &str) -> Result<FileText, Refusal>
    ensures { FindsFile view.now path.now result }
{
    let path = Path::read(alloc, path, 2)?;
    match view.snapshot.files().files().get(&path) {
        Some(text) => Ok(text.clone()?),
        None => Err(Refusal::NoFile),
    }
}

/// The object of a package. It is shared, not copied. The refusal says why there is none: no package has this path, its unit isn't
/// finished, or its unit is a fault.
pub fn object(alloc: Global, view: &View, path: &str) -> Result<FileText, Refusal>
    ensures { FindsObject view.now path.now result }
{
    let path = Path::read(alloc, path, 1)?;
    let Some(number) = view.snapshot.files().number_of(path.as_str().as_bytes()) else {
        return Err(Refusal::NoPackage);
    };
    let Some(unit) = view.finished.get(number) else {
        return Err(Refusal::Pending { package: path });
    };
    match unit.result() {
        Ok(text) => Ok(text.clone()?),
        Err(fault) => {
            let path = fault.place.path.clone()?;
            let offset = fault.place.offset;
            Err(Refusal::Faulty {
                place: Place { path, offset },
                kind: fault.kind,
            })
        }
    }
}

/// The findings of all packages of a view's files, and what is known of these after the check. A finding that the view knows isn't made
/// again.
pub(crate) fn found(alloc: Global, view: &View) -> Result<Found, AllocError>
    ensures { IfOk result (IsFound view.now.snapshot.files) }
{
    verdicts(alloc, view.snapshot.files(), view.snapshot.known())
}
