//! The images that a node has, by their names.

ghost use Rattle.std.specs.Prelude.{◌≡◌, ◌++◌, ◌∷◌, [], None, false, is_some, length, OnOk, OnErr, option_map, string_bytes};
ghost use Rattle.iiif_tiff.specs.Tiff.{refusal_of, scheme};
ghost use Rattle.iiif_tiff_read.specs.Layouts.{FitsIn};
ghost use Rattle.iiif_tile_group.specs.Collection.{item_named, number_of, Takes};
ghost use Rattle.iiif_tile_group.specs.Items.{item_of};

use crate::entry::ImageEntry;
use iiif_keys::{Name, is_name};
use iiif_source::Source;
use iiif_tiff_read::Layout;
use std::alloc::{AllocError, Global};
use std::collections::BTreeMap;
use std::marker::{Model, PhantomData};
use thiserror::Error;

/// Why an image isn't added: its name's length, a name that is there already, or lack of memory.
#[derive(Clone, Copy, Debug, PartialEq, Eq, Error)]
pub enum AddFault {
    #[error("a name has 1 to 1,024 bytes")]
    Name,
    #[error("there is an image of that name")]
    Twice,
    #[error("out of memory")]
    NoMemory,
}

impl AddFault {
    /// The number by which the fault is known outside, 1 to 3.
    pub const fn number(self) -> u8
        ensures { result ≡ number_of self }
    {
        match self {
            AddFault::Name => 1,
            AddFault::Twice => 2,
            AddFault::NoMemory => 3,
        }
    }
}

/// Images with names of their own. Clauses see them in the order in which they were added.
#[derive(Drop)]
pub struct Catalogue<R, S: Source<R>> {
    entries: Vec<ImageEntry<R, S>>,
    /// The index of each image by its name, so that a look-up takes about as long among many images as among few.
    indices: BTreeMap<String, usize>,
}

impl<R, S: Source<R>> Model for Catalogue<R, S> {
    ghost use Rattle.std.specs.Prelude.{List, map};
    ghost use Rattle.iiif_tile_group.specs.Code.{AreIndicesOf};
    ghost use Rattle.iiif_tile_group.specs.Collection.{Item};

    ghost Value = { List (Item S) };

    ghost use Rattle.iiif_tile_group.specs.Items.{item_of};

    ghost view = { λ c. map item_of c.entries.items };

    ghost invariant = { λ c. AreIndicesOf c.indices (map item_of c.entries.items) };
}

impl<R, S: Source<R> + Drop> Catalogue<R, S> {
    /// Makes a catalogue of no images.
    pub fn new(alloc: Global) -> Catalogue<R, S>
        ensures { result ≡ [] }
    {
        Catalogue {
            entries: Vec::new(alloc),
            indices: BTreeMap::new(alloc),
        }
    }

    /// Whether there is an image of a name.
    pub fn has(&self, name: &str) -> bool
        ensures { result ≡ is_some (item_named self.now name.now) }
    {
        self.find(name).is_some()
    }

    /// Adds an image: a name of 1 to 1,024 bytes that isn't there yet, a source, and the layout that was opened from it.
    /// A refused source and layout are dropped.
    #[tactic(auto, unfolding(crate::specs::Collection::refusal_of_name))]
    pub fn add(&mut self, name: String, source: S, layout: Layout) -> Result<(), AddFault>
        requires in_file { FitsIn layout (length (S.bytes source)) }
        requires accepted { S.keeps source → refusal_of (S.bytes source) ≡ None }
        requires shown { S.keeps source → layout ≡ scheme (S.bytes source) }
        ensures ok { OnOk result (self.new ≡ self.old ++ (record { name = string_bytes name; source = source; layout = layout }) ∷ []) }
        ensures err { OnErr result (self.new ≡ self.old) }
        ensures takes { Takes self.old (string_bytes name) result }
    {
        if !is_name(name.as_str()) {
            return Err(AddFault::Name);
        }
        if self.has(name.as_str()) {
            return Err(AddFault::Twice);
        }
        let Ok(key) = name.clone() else {
            return Err(AddFault::NoMemory);
        };
        let Ok(name) = Name::new(name) else {
            return Err(AddFault::NoMemory);
        };
        let entry = ImageEntry {
            name,
            source,
            layout,
            of: PhantomData,
        };
        match self.push(key, entry) {
            Ok(()) => Ok(()),
            Err(_) => Err(AddFault::NoMemory),
        }
    }

    /// Pushes an entry, and inserts the index of its name; or does neither.
    fn push(&mut self, name: String, entry: ImageEntry<R, S>) -> Result<(), AllocError>
        requires named { string_bytes name ≡ entry.name }
        requires absent { is_some (item_named self.old (string_bytes name)) ≡ false }
        ensures ok { OnOk result (self.new ≡ self.old ++ item_of entry ∷ []) }
        ensures err { OnErr result (self.new ≡ self.old) }
    {
        self.entries.reserve(1)?;
        self.indices.insert(name, self.entries.len())?;
        self.entries.push_reserved(entry);
        Ok(())
    }

    /// Finds the image of a name.
    pub fn find(&self, name: &str) -> Option<&ImageEntry<R, S>>
        ensures { option_map (λ e. item_of e.now) result ≡ item_named self.now name.now }
    {
        let index = self.indices.get(name)?;
        self.entries.get(*index)
    }
}
