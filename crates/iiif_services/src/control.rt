//! The socket at which a server that runs is told what to do.

use crate::command::Command;
use iiif_listener::{Retry, after_failure};
use std::alloc::Global;
use std::fs::{DirBuilder, File, Permissions};
use std::io::{ErrorKind, Read, Write};
use std::net::{Net, Shutdown};
use std::os::fd::OwnedFd;
use std::os::unix::fs::{FileTypeExt, PermissionsExt};
use std::os::unix::net::{UnixListener, UnixStream};
use std::rt::Files;
use std::time::Duration;
use std::{fs, io};

/// Mode of the socket: only the user that the server runs as, and root, may connect.
const OWN_ALONE: u32 = 0o600;

/// Mode of the folder in which the socket is made.
const OWN_FOLDER: u32 = 0o700;

/// Time-out of a read or a write of a command's connection, in milliseconds.
const SILENCE: u64 = 1_000;

/// The most bytes of a command's line.
const LONGEST: usize = 16;

/// Makes and removes control sockets. It stands for the bound `Files<File = File>` where threads are started.
pub trait Controls {
    /// Binds a socket at a path, which nobody but this user and root may ever write to: it is made in a folder of its own beside it,
    /// `PATH.d`. A socket at which nobody listens is replaced. Where somebody does, or something else stands there, the error is
    /// `AddrInUse`.
    fn control(&self, alloc: Global, path: &str) -> io::Result<UnixListener>;

    /// Removes the socket at a path.
    fn remove_control(&self, path: &str);
}

/// Refuses a path at which somebody listens, or where something else than a socket stands.
fn refuse_taken<R: Files + Net>(rt: &R, path: &str) -> io::Result<()> {
    match fs::symlink_metadata(rt, path) {
        Ok(found) if !found.file_type().is_socket() => Err(io::Error::from(ErrorKind::AddrInUse)),
        Ok(_) if UnixStream::connect(rt, path).is_ok() => {
            Err(io::Error::from(ErrorKind::AddrInUse))
        }
        Ok(_) => Ok(()),
        Err(error) if error.kind() == ErrorKind::NotFound => Ok(()),
        Err(error) => Err(error),
    }
}

/// Binds a socket at one path, lets this user alone write to it, and moves it to another path.
fn bind_private<R: Files + Net>(rt: &R, made: &str, path: &str) -> io::Result<UnixListener> {
    let listener = UnixListener::bind(rt, made)?;
    fs::set_permissions(rt, made, Permissions::from_mode(OWN_ALONE))?;
    fs::rename(rt, made, path)?;
    Ok(listener)
}

/// Makes a folder that nobody else may enter, whatever the mask of new files is.
fn make_private<R: Files>(rt: &R, folder: &str) -> io::Result<()> {
    DirBuilder::new().create(rt, folder)?;
    fs::set_permissions(rt, folder, Permissions::from_mode(OWN_FOLDER))
}

impl<R: Files<File = File> + Net> Controls for R {
    fn control(&self, alloc: Global, path: &str) -> io::Result<UnixListener> {
        refuse_taken(self, path)?;
        let folder = format!(in alloc; "{path}.d")?;
        let made = format!(in alloc; "{path}.d/s")?;
        // A start that was ended may have left them.
        let _ = fs::remove_file(self, made.as_str());
        let _ = fs::remove_dir(self, folder.as_str());
        make_private(self, folder.as_str())?;
        let listener = bind_private(self, made.as_str(), path);
        let _ = fs::remove_file(self, made.as_str());
        let _ = fs::remove_dir(self, folder.as_str());
        listener
    }

    fn remove_control(&self, path: &str) {
        let _ = fs::remove_file(self, path);
    }
}

/// A control socket, and a copy of it that sets the time-out of `accept`.
#[derive(Drop)]
pub struct Control {
    listener: UnixListener,
    timer: UnixStream,
}

impl Control {
    /// Takes commands at a listener.
    pub fn new(listener: UnixListener) -> io::Result<Control> {
        let timer = UnixStream::from(OwnedFd::from(listener.try_clone()?));
        Ok(Control { listener, timer })
    }

    /// Accepts a connection, if one comes within a time.
    pub fn accept(&self, limit: Duration) -> io::Result<Option<UnixStream>> {
        self.timer.set_read_timeout(Some(limit))?;
        match self.listener.accept() {
            Ok((stream, _)) => Ok(Some(stream)),
            Err(error) => match after_failure(error.kind()) {
                Retry::AtOnce | Retry::Silent => Ok(None),
                Retry::Later | Retry::Never => Err(error),
            },
        }
    }

    /// Shuts the socket down: later connections are refused.
    pub fn stop(&self) {
        let _ = self.timer.shutdown(Shutdown::Both);
    }
}

/// Reads the command of a connection, which has a second to send it. None of another word.
pub fn read_command(stream: &mut UnixStream) -> io::Result<Option<Command>> {
    let limit = Some(Duration::from_millis(SILENCE));
    stream.set_read_timeout(limit)?;
    stream.set_write_timeout(limit)?;
    let mut line = [0u8; LONGEST];
    let count = stream.read(&mut line)?.min(LONGEST);
    match line[..count].strip_suffix(b"\n") {
        Some(word) => Ok(Command::named(word)),
        None => Ok(None),
    }
}

/// Sends a command to the server that listens at a path, and appends its whole reply to a text.
pub fn tell<R: Net>(rt: &R, path: &str, command: Command, reply: &mut Vec<u8>) -> io::Result<()> {
    let mut stream = UnixStream::connect(rt, path)?;
    // Whole at once, as the server reads it.
    stream.write_all(command.line())?;
    stream.read_to_end(reply)?;
    Ok(())
}
