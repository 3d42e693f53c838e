//! Makes the socket. Only its owner can connect, from its first moment on. At its path nothing is replaced but a socket to which nobody can
//! connect. It is made in a folder that only its owner can enter, and linked to its path from there.
ghost use Rattle.std.specs.Prelude.{◌≢◌, IfErr};

use crate::fault::ServeFault;
use std::alloc::Global;
use std::fs::{DirBuilder, Permissions};
use std::net::Net;
use std::os::unix::fs::{DirBuilderExt, FileTypeExt, PermissionsExt};
use std::os::unix::net::{UnixListener, UnixStream};
use std::rt::Files;
use std::{fs, io};

const OWNER_ENTERS: u32 = 0o700;

const OWNER_CONNECTS: u32 = 0o600;

/// Lets only its owner connect to the socket at `made`, and links it to `path`. It fails where something exists at `path`.
fn link<R: Files>(rt: &R, made: &str, path: &str) -> io::Result<()> {
    fs::set_permissions(rt, made, Permissions::from_mode(OWNER_CONNECTS))?;
    fs::hard_link(rt, made, path)
}

/// Makes a socket at `made`, links it to `path`, and removes `made`, whether that succeeds or not.
fn listen_at<R: Files + Net>(rt: &R, made: &str, path: &str) -> io::Result<UnixListener> {
    let listener = match UnixListener::bind(rt, made) {
        Ok(listener) => listener,
        Err(fault) => {
            // the socket may have been made, though no one can connect to it
            let _ = fs::remove_file(rt, made);
            return Err(fault);
        }
    };
    let linked = link(rt, made, path);
    fs::remove_file(rt, made)?;
    linked?;
    Ok(listener)
}

/// Makes a socket in `folder`, and links it to `path`.
fn listen_in<R: Files + Net>(
    rt: &R,
    alloc: Global,
    folder: &str,
    path: &str,
) -> Result<UnixListener, ServeFault>
    ensures { IfErr result (λ fault. fault ≢ ServeFault.Unsettled) }
{
    let made = format!(in alloc; "{folder}/s")?;
    match listen_at(rt, made.as_str(), path) {
        Ok(listener) => Ok(listener),
        Err(_) => Err(ServeFault::Socket),
    }
}

/// Whether what stands at `path` is a socket that nobody serves: no one can connect to it.
fn is_unserved<R: Files + Net>(rt: &R, path: &str) -> bool {
    match fs::symlink_metadata(rt, path) {
        Ok(data) if data.file_type().is_socket() => match UnixStream::connect(rt, path) {
            Ok(_) => false,
            Err(fault) => fault.kind() == io::ErrorKind::ConnectionRefused,
        },
        _ => false,
    }
}

/// Removes a socket that nobody serves from `path`. All else stays there.
pub(crate) fn clear<R: Files + Net>(rt: &R, path: &str) {
    if is_unserved(rt, path) {
        let _ = fs::remove_file(rt, path);
    }
}

/// Makes a folder that only its owner can enter.
fn make_folder<R: Files>(rt: &R, folder: &str) -> io::Result<()> {
    let mut builder = DirBuilder::new();
    builder.mode(OWNER_ENTERS);
    builder.create(rt, folder)
}

/// Makes the socket at `path`, by way of the folder `path.new`, which is removed.
pub(crate) fn listen<R: Files + Net>(
    rt: &R,
    alloc: Global,
    path: &str,
) -> Result<UnixListener, ServeFault>
    ensures { IfErr result (λ fault. fault ≢ ServeFault.Unsettled) }
{
    let folder = format!(in alloc; "{path}.new")?;
    if make_folder(rt, folder.as_str()).is_err() {
        return Err(ServeFault::Socket);
    }
    let listener = listen_in(rt, alloc, folder.as_str(), path);
    match fs::remove_dir(rt, folder.as_str()) {
        Ok(()) => listener,
        Err(_) => Err(ServeFault::Socket),
    }
}
