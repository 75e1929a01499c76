//! Lines about words that are at fault.

ghost use Rattle.std.specs.Prelude.{◌≡◌, ◌<◌, true, length};
ghost use Rattle.std.specs.List.{list_all};
ghost use Rattle.iiif_advice.specs.Lines.{is_line_byte};
ghost use Rattle.iiif_start.specs.Statuses.{status_of_words};

use crate::name::Word;
use crate::stop::report_end;
use iiif_command_line::LineFault;
use iiif_image_list::FolderImage;
use std::io;
use std::io::Write;

/// Returns the remedy for words that are at fault: one line, without its end. Of a list of images its own line says more.
fn remedy(fault: LineFault) -> &'static str
    ensures one_line { list_all is_line_byte result.now ≡ true }
    ensures some { 0 < length result.now }
{
    match fault {
        LineFault::Base => {
            "--base is http:// or https://, a host, and no / at the end, as --base http://localhost:8080/iiif"
        }
        LineFault::Edge => "--edge is 1 to 1024, and at most --max",
        LineFault::Max => "--max is 1 to 16384",
        LineFault::Cache => "--cache-bytes is a number of bytes, 0 to 1099511627776",
        LineFault::CacheEntries => "--cache-entries is a number of entries, 1 to 16777216",
        LineFault::Hold => "--hold is a number of bytes, 0 to 1099511627776",
        LineFault::Band => "--band is a number of rows, 1 to 16384",
        LineFault::Workers => "--workers is a number of threads, 1 to 16",
        LineFault::OpenFiles => "--open-files is a number of files, 1 to 65536",
        LineFault::Touch => "--touch-bytes is a number of bytes, 0 to 1099511627776",
        LineFault::PeerTimeout => "--peer-timeout is a number of milliseconds, 10 to 60000",
        LineFault::MinRate => "--min-rate is a number of bytes a second, 0 to 1099511627776",
        LineFault::PerAddress => "--per-address is a number of connections, 0 to 64",
        LineFault::DrainSeconds => "--drain-seconds is a number of seconds, 0 to 3600",
        LineFault::Image => {
            "at least one NAME=FILE, here or in the file of --images, or a file of --folder, with a name of 1 to 1024 bytes that stands \
             once"
        }
        LineFault::Unread => "the file of --images can't be read",
        LineFault::List(_) => "the file of --images has lines NAME=FILE",
        LineFault::UnreadFolder => "the folder of --folder can't be read",
        LineFault::FolderEncoding => { "a file of --folder has a name that isn't UTF-8: rename it" }
        LineFault::Folder(_) => {
            "an image of --folder has the name of another one: rename its file"
        }
        LineFault::LongName => {
            "with --peer-versions an image's name has at most 992 bytes: the version of its file stands behind it"
        }
        LineFault::UnreadManifest => "the file of --manifest can't be read",
        LineFault::ManifestAlone =>
            "--manifest goes with --hold, since only files that are held are compared with it, or with --check",
        LineFault::Manifest(_) => {
            "the file of --manifest is UTF-8, in lines of a SHA-256 digest and a path, as sha256sum writes them"
        }
        LineFault::Peer => {
            "--peer is NAME=ADDR with a port at its end, at most 63 times; it and --name have names of 1 to 255 bytes that stand once"
        }
        LineFault::Record => {
            "--record FILE only with --listen; --record-bytes is a number of bytes, up to 1099511627776, and only with --record"
        }
        LineFault::Mode => {
            "one of --listen ADDR, --one TARGET and --check; --hex only with --one; --peer-listen, --log, --stats-listen and --control \
             only with --listen; --peer-only only with --peer-listen"
        }
        LineFault::Tell => {
            "--tell PATH has one of status, drain, reload and stop behind it, and neither --listen, --one, --check nor --control beside it"
        }
        LineFault::NoMemory => "memory was refused: give the process more",
    }
}

/// The origins of the list of images: its file, the folder, and the images of this.
#[derive(Clone, Copy)]
pub struct Origins<'a> {
    pub list: Option<&'a str>,
    pub folder: Option<&'a str>,
    pub images: &'a [FolderImage],
}

/// Finds the first of some images of a folder that has a name.
fn first_named<'a>(images: &'a [FolderImage], name: &str) -> Option<&'a FolderImage> {
    images.iter().find(|image| image.name.as_str() == name)
}

/// Says of two files of a folder, or of one whose name stands elsewhere, that they come to one name.
fn say_twice<E: Write>(
    err: &mut E,
    images: &[FolderImage],
    image: &FolderImage,
    place: usize,
) -> io::Result<()> {
    let (name, path) = (Word(image.name.as_str()), Word(image.path.as_str()));
    let (before, _) = images.split_at(place.min(images.len()));
    match first_named(before, image.name.as_str()) {
        Some(other) => {
            let other = Word(other.path.as_str());
            writeln!(
                err,
                "{other} and {path} come to one name, {name}: rename one"
            )
        }
        None => writeln!(
            err,
            "{path} comes to a name that the words or the list of --images have, {name}: rename one"
        ),
    }
}

/// Says what is wrong with the words, and in a second line what to do. Where it is a line of the list of images, that is the
/// second line; where the list or the folder can't be read, its file; where a file of the folder comes to the name of another, both.
fn say<E: Write>(err: &mut E, fault: LineFault, origins: &Origins<'_>) -> io::Result<()> {
    writeln!(err, "line: {fault}")?;
    match (fault, origins.list, origins.folder) {
        (LineFault::List(line), _, _) => return writeln!(err, "{line}"),
        (LineFault::Manifest(fault), _, _) if fault.line > 0 => {
            return writeln!(err, "manifest {fault}");
        }
        (LineFault::Unread, Some(file), _) => return writeln!(err, "{file} can't be read"),
        (LineFault::UnreadFolder, _, Some(folder)) => {
            return writeln!(err, "{folder} can't be read");
        }
        (LineFault::Folder(at), _, _) => {
            if let Some(image) = origins.images.get(at.place) {
                return say_twice(err, origins.images, image, at.place);
            }
        }
        _ => {}
    }
    writeln!(err, "{}", remedy(fault))
}

/// Says what is wrong with the words, where the list of images is of these origins, and gives the program's status: 1 where memory
/// ran out, else 2.
pub fn report_fault<E: Write>(err: &mut E, fault: LineFault, origins: &Origins<'_>) -> u8
    ensures { result ≡ status_of_words fault }
{
    match fault {
        LineFault::NoMemory => report_end(err, "run: memory", 1),
        _ => {
            // Where the words can't be written, the status says it.
            let _ = say(err, fault, origins);
            2
        }
    }
}
