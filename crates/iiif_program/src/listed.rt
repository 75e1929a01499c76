//! The images that are listed beside the words, and the manifest of their files.

use clap::ArgMatches;
use iiif_command_line::{LineFault, Listed};
use iiif_fixity::{Bag, EntryFault, Manifest, folder_of};
use iiif_image_list::FolderImage;
use iiif_open_files::Texts;
use iiif_start::{Origins, read_folder, read_list, read_manifest};
use std::alloc::Global;

/// The text of the list, the images of the folder, and the text of the manifest if one is named, or why they can't be read.
#[derive(Drop)]
pub(crate) struct Lists {
    text: Result<Vec<u8>, LineFault>,
    images: Result<Vec<FolderImage>, LineFault>,
    lines: Result<Option<Vec<u8>>, LineFault>,
}

/// A manifest that was parsed, if one is named, or why there is none.
pub(crate) type ParsedManifest<'t> = Result<Option<Manifest<'t>>, LineFault>;

impl Lists {
    /// Reads what the words name.
    pub(crate) fn read<R: Texts>(rt: &R, alloc: Global, matches: &ArgMatches<'_>) -> Lists {
        Lists {
            text: read_list(rt, alloc, matches),
            images: read_folder(rt, alloc, matches),
            lines: read_manifest(rt, alloc, matches),
        }
    }

    /// Parses the manifest of the text that was read.
    pub(crate) fn manifest(&self, alloc: Global) -> ParsedManifest<'_> {
        let text = match &self.lines {
            Ok(Some(text)) => text,
            Ok(None) => return Ok(None),
            Err(fault) => return Err(*fault),
        };
        match Manifest::parse(alloc, text.as_slice()) {
            Ok(manifest) => Ok(Some(manifest)),
            Err(fault) if fault.fault == EntryFault::NoMemory => Err(LineFault::NoMemory),
            Err(fault) => Err(LineFault::Manifest(fault)),
        }
    }

    /// Returns all of them and the manifest, or the first that can't be read.
    pub(crate) fn listed<'t, 'a: 't, 'm: 't>(
        &'t self,
        matches: &ArgMatches<'a>,
        manifest: &'t ParsedManifest<'m>,
    ) -> Result<Listed<'t>, LineFault> {
        match (&self.text, &self.images) {
            (Ok(text), Ok(images)) => Ok(Listed {
                list: text.as_slice(),
                folder: images.as_slice(),
                bag: bag_in(matches, manifest)?,
            }),
            (Err(fault), _) => Err(*fault),
            (_, Err(fault)) => Err(*fault),
        }
    }

    /// Returns their origins.
    pub(crate) fn origins<'t, 'a: 't>(&'t self, matches: &ArgMatches<'a>) -> Origins<'t> {
        Origins {
            list: matches.get_str("list"),
            folder: matches.get_str("folder"),
            images: match &self.images {
                Ok(images) => images.as_slice(),
                Err(_) => &[],
            },
        }
    }
}

/// Returns the manifest in its folder, if there is one.
fn bag_in<'t, 'a: 't, 'm: 't>(
    matches: &ArgMatches<'a>,
    manifest: &'t ParsedManifest<'m>,
) -> Result<Option<Bag<'t>>, LineFault> {
    match (matches.get_str("manifest"), manifest) {
        (Some(file), Ok(Some(manifest))) => Ok(Some(Bag {
            folder: folder_of(file.as_bytes()),
            manifest,
        })),
        (_, Ok(_)) => Ok(None),
        (_, Err(fault)) => Err(*fault),
    }
}

/// The words as they were parsed, and the lists that were read at the start.
#[derive(Clone, Copy)]
pub(crate) struct Named<'t, 'a> {
    pub matches: &'t ArgMatches<'a>,
    pub lists: &'t Lists,
}
