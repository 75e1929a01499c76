//! Worlds, as the lines before their first event describe them.

ghost use Rattle.std.specs.Prelude.{◌≡◌, ◌⊎◌, ◌<◌, ◌++◌, ◌∷◌, [], true, false, codes, length, string_bytes, IfOk, IsErrOf, OnOk};
ghost use Rattle.iiif_pixel.specs.Geometry.{channels_of};
ghost use Rattle.iiif_pixel.specs.Depths.{depth_of, values_of};
ghost use Rattle.iiif_ring.specs.Names.{names_of};
ghost use Rattle.iiif_world.specs.Code.{world_of, IsSoundWorld};
ghost use Rattle.iiif_event_list.specs.declared.fault.LineFault.{LineFault};
ghost use Rattle.iiif_event_list.specs.Described.{CanBegin, first_of, plain_settings};
ghost use Rattle.iiif_event_list.specs.Settings.{AreNames, AreNumbers, IsLimits, IsNode, IsPicture, IsSettingOf, HasSamples, depth_word};
ghost use Rattle.iiif_event_list.specs.Settings.{settings_of};
ghost use Rattle.iiif_event_list.specs.Spellings.{IsNumber, IsSetting, NumberAt, WordAt};
ghost use Rattle.iiif_event_list.specs.Texts.{kind_word};

use crate::fault::LineFault;
use crate::reading::{count, decode, dim, name, number, side, word};
use iiif_canonical::Limits;
use iiif_pixel::{Depth, Dim, Kind, NoMemory, Raster, Samples};
use iiif_ring::{Ring, RingFault};
use iiif_world::{Item, Setup, SetupFault, World};
use std::alloc::Global;

/// Of what a world is made.
#[derive(Drop)]
pub struct Description {
    edge: u32,
    limits: Limits,
    room: u64,
    faults_early: bool,
    items: Vec<Item>,
    setups: Vec<Setup>,
}

/// Gray or RGB.
fn kind(word: &str) -> Result<Kind, LineFault>
    ensures { IfOk result (λ k. word.now ≡ kind_word (channels_of k)) }
{
    match word {
        "gray" => Ok(Kind::Gray),
        "rgb" => Ok(Kind::Rgb),
        _ => Err(LineFault::Bad),
    }
}

/// 8 or 16 bits.
fn depth(word: &str) -> Result<Depth, LineFault>
    ensures { IfOk result (λ d. word.now ≡ depth_word d) }
{
    match word {
        "8" => Ok(Depth::Eight),
        "16" => Ok(Depth::Sixteen),
        _ => Err(LineFault::Bad),
    }
}

/// The sample of 8 bits that a word is.
fn byte_of(word: &str) -> Result<u8, LineFault>
    ensures { IfOk result (IsNumber word.now) }
{
    match word.parse::<u8>() {
        Ok(sample) => Ok(sample),
        Err(_) => Err(LineFault::Bad),
    }
}

/// The sample of 16 bits that a word is.
fn pair_of(word: &str) -> Result<u16, LineFault>
    ensures { IfOk result (IsNumber word.now) }
{
    match word.parse::<u16>() {
        Ok(sample) => Ok(sample),
        Err(_) => Err(LineFault::Bad),
    }
}

/// Adds an item.
fn push<T: Drop>(items: &mut Vec<T>, item: T) -> Result<(), NoMemory>
    ensures { OnOk result (items.new.items ≡ items.old.items ++ item ∷ []) }
{
    items.push(item)?;
    Ok(())
}

/// Samples of 8 bits, each of which is a word.
fn eight(alloc: Global, words: &[&str]) -> Result<Vec<u8>, LineFault>
    ensures { IfOk result (λ samples. AreNumbers words.now samples.items) }
{
    let mut samples = Vec::new(alloc);
    for word in words {
        push(&mut samples, byte_of(word)?)?;
    }
    Ok(samples)
}

/// Samples of 16 bits, each of which is a word.
fn sixteen(alloc: Global, words: &[&str]) -> Result<Vec<u16>, LineFault>
    ensures { IfOk result (λ samples. AreNumbers words.now samples.items) }
{
    let mut samples = Vec::new(alloc);
    for word in words {
        push(&mut samples, pair_of(word)?)?;
    }
    Ok(samples)
}

/// Samples of so many bits, each of which is a word.
fn samples(alloc: Global, depth: Depth, words: &[&str]) -> Result<Samples, LineFault>
    ensures values { IfOk result (λ s. AreNumbers words.now (values_of s)) }
    ensures depth { IfOk result (λ s. depth_of s ≡ depth) }
{
    match depth {
        Depth::Eight => Ok(Samples::Eight(eight(alloc, words)?)),
        Depth::Sixteen => Ok(Samples::Sixteen(sixteen(alloc, words)?)),
    }
}

/// How many samples there are.
fn len_of(samples: &Samples) -> usize
    ensures { result ≡ length (values_of samples.now) }
{
    match samples {
        Samples::Eight(samples) => samples.len(),
        Samples::Sixteen(samples) => samples.len(),
    }
}

/// The picture of these sides that words behind the sixth show: each sample, where there are as many as it has.
fn sampled(
    alloc: Global,
    dim: Dim,
    kind: Kind,
    depth: Depth,
    words: &[&str],
) -> Result<Raster, LineFault>
    ensures { IfOk result (HasSamples words.now dim kind depth) }
{
    if words.len() < 6 {
        return Err(LineFault::Bad);
    }
    let (_, rest) = words.split_at(6);
    let samples = samples(alloc, depth, rest)?;
    match kind.count(dim) {
        Some(count) if count == len_of(&samples) => Ok(Raster::from_samples(dim, kind, samples)),
        _ => Err(LineFault::Bad),
    }
}

/// Whether the seventh word is the last, and `blank`.
fn is_blank(words: &[&str]) -> bool
    ensures { result ≡ true → (length words.now ≡ 7) × WordAt words.now 6 (codes "blank") }
{
    if words.len() != 7 {
        return false;
    }
    match word(words, 6) {
        Ok(word) => word == "blank",
        Err(_) => false,
    }
}

/// The picture of these sides that words behind the sixth show.
fn show(
    alloc: Global,
    dim: Dim,
    kind: Kind,
    depth: Depth,
    words: &[&str],
) -> Result<Raster, LineFault>
    ensures { IfOk result (HasSamples words.now dim kind depth) }
{
    if is_blank(words) {
        return Ok(Raster::new(alloc, dim, kind, depth)?);
    }
    sampled(alloc, dim, kind, depth, words)
}

/// `picture NAME gray|rgb 8|16 WIDTH HEIGHT blank`, or each sample in place of `blank`
fn picture(alloc: Global, words: &[&str]) -> Result<Item, LineFault>
    ensures { IfOk result (IsPicture words.now) }
{
    let name = name(alloc, words, 1)?;
    let kind = kind(word(words, 2)?)?;
    let depth = depth(word(words, 3)?)?;
    let dim = dim(words, 4)?;
    let picture = show(alloc, dim, kind, depth, words)?;
    Ok(Item { name, picture })
}

/// The names for which words stand.
fn names(alloc: Global, words: &[&str]) -> Result<Vec<String>, LineFault>
    ensures { IfOk result (λ names. AreNames words.now (names_of names.items)) }
{
    let mut names = Vec::new(alloc);
    for word in words {
        push(&mut names, decode(alloc, word)?)?;
    }
    Ok(names)
}

/// The ring of the names for which words stand.
fn ring(alloc: Global, words: &[&str]) -> Result<Ring, LineFault>
    ensures { IfOk result (AreNames words.now) }
{
    match Ring::new(alloc, names(alloc, words)?) {
        Ok(ring) => Ok(ring),
        Err(RingFault::NoMemory) => Err(LineFault::NoMemory),
        Err(_) => Err(LineFault::Bad),
    }
}

/// The last version of messages that a node speaks: 1 or 2.
fn version(word: &str) -> Result<u8, LineFault>
    ensures { IfOk result (λ v. ((v ≡ 1) × (word.now ≡ codes "1")) ⊎ ((v ≡ 2) × (word.now ≡ codes "2"))) }
{
    match word {
        "1" => Ok(1),
        "2" => Ok(2),
        _ => Err(LineFault::Bad),
    }
}

/// How many entries a table keeps: one at least.
fn entries(words: &[&str]) -> Result<usize, LineFault>
    ensures { IfOk result (λ n. NumberAt words.now 4 n × (0 < n)) }
{
    match count(words, 4)? {
        0 => Err(LineFault::Bad),
        room => Ok(room),
    }
}

/// `node NAME 1|2 BYTES ENTRIES NAME..`, behind the name its version, and behind the entries the names on its ring
fn node(alloc: Global, words: &[&str]) -> Result<Setup, LineFault>
    ensures { IfOk result (IsNode words.now) }
{
    if words.len() < 5 {
        return Err(LineFault::Bad);
    }
    let (_, rest) = words.split_at(5);
    Ok(Setup {
        name: name(alloc, words, 1)?,
        ring: ring(alloc, rest)?,
        version: version(word(words, 2)?)?,
        limit: number(words, 3)?,
        room: entries(words)?,
    })
}

/// Whether a line of limits lets results be larger than their regions.
fn upscale(words: &[&str]) -> Result<bool, LineFault>
    ensures { IfOk result (λ up. ((length words.now ≡ 3) × (up ≡ false))
        ⊎ ((length words.now ≡ 4) × WordAt words.now 3 (codes "upscale") × (up ≡ true))) }
{
    match words.len() {
        3 => Ok(false),
        4 => match word(words, 3)? {
            "upscale" => Ok(true),
            _ => Err(LineFault::Bad),
        },
        _ => Err(LineFault::Bad),
    }
}

/// `limits COLUMNS ROWS`, and behind them `upscale`, where the server scales up
fn limits(words: &[&str]) -> Result<Limits, LineFault>
    ensures { IfOk result (IsLimits words.now) }
{
    Ok(Limits {
        max_w: side(words, 1)?,
        max_h: side(words, 2)?,
        upscale: upscale(words)?,
    })
}

/// `edge SIDE`: the side of a tile
fn edge(words: &[&str]) -> Result<u32, LineFault>
    ensures { IfOk result (λ n. (length words.now ≡ 2) × NumberAt words.now 1 n) }
{
    if words.len() != 2 {
        return Err(LineFault::Bad);
    }
    side(words, 1)
}

/// `room SUMS`: the room of a plan
fn room(words: &[&str]) -> Result<u64, LineFault>
    ensures { IfOk result (λ n. (length words.now ≡ 2) × NumberAt words.now 1 n) }
{
    if words.len() != 2 {
        return Err(LineFault::Bad);
    }
    number(words, 1)
}

/// `faults early`: a fault counts as soon as it is certain
fn faults_early(words: &[&str]) -> Result<bool, LineFault>
    ensures { IfOk result (λ early. (length words.now ≡ 2) × WordAt words.now 1 (codes "early") × (early ≡ true)) }
{
    if words.len() != 2 {
        return Err(LineFault::Bad);
    }
    match word(words, 1)? {
        "early" => Ok(true),
        _ => Err(LineFault::Bad),
    }
}

impl Description {
    /// A world without pictures and nodes: tiles of 256 places a side, images of at most 4096 by 4096 that aren't scaled up, a room of
    /// 65,536 sums for a plan, and faults that aren't early.
    pub fn new(alloc: Global) -> Description
        ensures { settings_of result ≡ plain_settings }
    {
        Description {
            edge: 256,
            limits: Limits {
                max_w: 4096,
                max_h: 4096,
                upscale: false,
            },
            room: 65_536,
            faults_early: false,
            items: Vec::new(alloc),
            setups: Vec::new(alloc),
        }
    }

    fn add_item(&mut self, item: Item) -> Result<(), NoMemory>
        ensures { OnOk result (settings_of self.new
            ≡ record (settings_of self.old) { items = (settings_of self.old).items ++ item ∷ [] }) }
    {
        self.items.push(item)?;
        Ok(())
    }

    fn add_setup(&mut self, setup: Setup) -> Result<(), NoMemory>
        ensures { OnOk result (settings_of self.new
            ≡ record (settings_of self.old) { setups = (settings_of self.old).setups ++ setup ∷ [] }) }
    {
        self.setups.push(setup)?;
        Ok(())
    }

    /// Sets what the words of a line say; `false`, where they are no setting, and `Bad`, where they are one that can't be read. It is
    /// as it was after `false`.
    pub fn set(&mut self, alloc: Global, words: &[&str]) -> Result<bool, LineFault>
        ensures yes { IfOk result (λ set. set ≡ true → IsSettingOf words.now (settings_of self.old) (settings_of self.new)) }
        ensures no { IfOk result (λ set. set ≡ false → self.new ≡ self.old) }
        ensures bad { IsErrOf result LineFault.Bad → (length words.now ≡ 0) ⊎ IsSetting words.now }
    {
        match word(words, 0)? {
            "edge" => {
                self.edge = edge(words)?;
                Ok(true)
            }
            "room" => {
                self.room = room(words)?;
                Ok(true)
            }
            "faults" => {
                self.faults_early = faults_early(words)?;
                Ok(true)
            }
            "limits" => {
                self.limits = limits(words)?;
                Ok(true)
            }
            "picture" => {
                self.add_item(picture(alloc, words)?)?;
                Ok(true)
            }
            "node" => {
                self.add_setup(node(alloc, words)?)?;
                Ok(true)
            }
            _ => Ok(false),
        }
    }

    /// The world that was described, in which nothing has happened. `Bad`, where no world can begin so.
    pub fn begin(self, alloc: Global) -> Result<World, LineFault>
        ensures first { IfOk result (λ w. world_of w ≡ first_of self) }
        ensures sound { IfOk result (λ w. IsSoundWorld (world_of w)) }
        ensures bad { IsErrOf result LineFault.Bad → ¬ CanBegin self }
    {
        let Description {
            edge,
            limits,
            room,
            faults_early,
            items,
            setups,
        } = self;
        match World::new(alloc, items, edge, limits, room, faults_early, setups) {
            Ok(world) => Ok(world),
            Err(SetupFault::NoMemory) => Err(LineFault::NoMemory),
            Err(_) => Err(LineFault::Bad),
        }
    }
}
