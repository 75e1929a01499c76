//! The record of a node, and its head: what the node stands on, in the words that describe a world.

use iiif_command_line::Options;
use iiif_connections::{Catalogue, Recorder};
use iiif_open_files::{Opens, Texts};
use iiif_pixel::{Depth, Kind};
use iiif_start::{Stop, Stored};
use std::alloc::{AllocError, Global};
use std::fs::File;
use std::sync::Wait;

/// How many bytes of lines wait at most until they are written.
const ROOM: usize = 8 << 20;

/// Begins the record of a node, where one is wanted: a new file of this path, which gets at most so many bytes.
pub(crate) fn record_of<'a, R: Texts>(
    rt: &R,
    alloc: Global,
    wanted: Option<(&str, u64)>,
) -> Result<Option<Recorder<File>>, Stop<'a>> {
    let Some((path, bytes)) = wanted else {
        return Ok(None);
    };
    let Ok(file) = rt.create(path) else {
        return Err(Stop::Record);
    };
    match Recorder::new(alloc, file, ROOM, bytes) {
        Ok(record) => Ok(Some(record)),
        Err(_) => Err(Stop::Memory),
    }
}

/// Writes the head of a server's first generation. Each further one has caches of its own, so the record ends where one begins. The only
/// error is lack of memory.
pub(crate) fn begin_record<R: Opens + Wait>(
    rt: &R,
    alloc: Global,
    record: &Recorder<File>,
    number: u64,
    options: &Options<'_>,
    catalogue: &Catalogue<R, Stored<R>>,
) -> Result<(), AllocError> {
    if number == 1 {
        let head = head(alloc, options, catalogue)?;
        record.put_line(rt, head.as_bytes());
    } else {
        record.end(rt);
    }
    record.write(rt);
    Ok(())
}

/// Writes a name as one word, percent-encoded.
fn put_name(text: &mut String, name: &str) -> Result<(), AllocError> {
    for byte in name.as_bytes() {
        if byte.is_ascii_graphic() && *byte != b'%' {
            text.push(char::from(*byte))?;
        } else {
            write!(text, "%{:02X}", *byte)?;
        }
    }
    Ok(())
}

/// Makes the head: the edge, the limits and the images, and this node with the names on its ring.
fn head<R: Opens + Wait>(
    alloc: Global,
    options: &Options<'_>,
    catalogue: &Catalogue<R, Stored<R>>,
) -> Result<String, AllocError> {
    let mut text = String::new(alloc);
    write!(text, "set edge {}\n", options.edge)?;
    let upscale = if options.upscale { " upscale" } else { "" };
    write!(
        text,
        "set limits {} {}{upscale}\n",
        options.max, options.max
    )?;
    for (name, _) in &options.images {
        let Some(entry) = catalogue.find(name) else {
            continue;
        };
        let shape = entry.shape();
        let kind = match shape.kind {
            Kind::Gray => "gray",
            Kind::Rgb => "rgb",
        };
        let bits = match shape.depth {
            Depth::Eight => 8,
            Depth::Sixteen => 16,
        };
        text.push_str("set picture ")?;
        put_name(&mut text, name)?;
        write!(
            text,
            " {kind} {bits} {} {} blank\n",
            shape.dim.w, shape.dim.h
        )?;
    }
    text.push_str("set node ")?;
    put_name(&mut text, options.name)?;
    write!(
        text,
        " 2 {} {} ",
        options.cache_bytes, options.cache_entries
    )?;
    put_name(&mut text, options.name)?;
    for (name, _) in &options.peers {
        text.push_str(" ")?;
        put_name(&mut text, name)?;
    }
    text.push_str("\n")?;
    Ok(text)
}
