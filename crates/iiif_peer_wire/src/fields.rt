//! Fields of messages, read from any reader.

ghost use Rattle.std.specs.Prelude.{◌≡◌, ◌≢◌, ℕ, ◌<◌, ◌≤◌, ◌^◌, List, [], ◌∷◌, ◌++◌, length, slice_index, take, IfOk, IsTrue, ◌↔◌, IfErr};
ghost use Rattle.std.specs.Prelude.{IfNone, IfSome, OnOk};
ghost use Rattle.std.specs.Int.{w32, to_be_bytes};
ghost use Rattle.std.specs.Io.KnownBytes.{Consumes, IsAtEnd};
ghost use Rattle.iiif_peer_wire.specs.Code.{Broken, Came, Unread};
ghost use Rattle.iiif_peer_wire.specs.Faults.{LeftAt};
ghost use Rattle.iiif_peer_wire.specs.Messages.{ask_magic, ask_text, field, IsAsk, IsFrontOfAsk, IsFrontOfReply, IsGroup, IsReply};
ghost use Rattle.iiif_peer_wire.specs.Messages.{reply_magic, reply_text};
ghost use Rattle.iiif_peer_wire.specs.Reading.{ask_at, IsUnfinishedAsk, ask_fields_at, ask_version_of, byte_at, bytes_at, digest_at};
ghost use Rattle.iiif_peer_wire.specs.Reading.{key_at, length_at, magic_at, reply_at, value_at};
ghost use Rattle.sha2.specs.Sha256.{sha256};

use crate::ask::Ask;
use crate::fault::WireFault;
use crate::version::Version;
use iiif_io::Inlet;
use sha2::{Digest, Sha256};
use std::alloc::Global;

/// How many bytes a key has at most.
pub const KEY_LIMIT: usize = 4096;

/// How many bytes a value has at most.
pub const VALUE_LIMIT: usize = 1 << 26;

/// How many bytes are read at once.
const CHUNK: usize = 8192;

/// Reads until the buffer is full or the reader ends, and says how many bytes came.
fn fill<I: Inlet>(reader: &mut I, buffer: &mut [u8]) -> Result<usize, WireFault>
    ensures within { IfOk result (λ came. came ≤ length buffer.new) }
    ensures bytes { IfOk result (λ came. Consumes (I.remaining reader.old) (I.remaining reader.new) (take came buffer.new)) }
    ensures end { IfOk result (λ came. came < length buffer.new → IsAtEnd (I.remaining reader.new)) }
    ensures io { IfErr result (λ fault. (fault ≡ WireFault.Io) × LeftAt I.fails reader.new) }
    ensures unfinished { IfErr result (λ _. (text : List ℕ) × Consumes (I.remaining reader.old) (I.remaining reader.new) text
        × (length text < length buffer.new)) }
{
    let mut came = 0;
    while came < buffer.len() {
        match reader.pull(&mut buffer[came..]) {
            Ok(0) => return Ok(came),
            Ok(n) => came += n,
            Err(_) => return Err(WireFault::Io),
        }
    }
    Ok(came)
}

/// Reads until the buffer is full.
fn read_field<I: Inlet>(reader: &mut I, buffer: &mut [u8]) -> Result<(), WireFault>
    ensures whole { OnOk result (Consumes (I.remaining reader.old) (I.remaining reader.new) buffer.new) }
    ensures bytes { OnOk result ((k : ℕ) → slice_index buffer.new k < 256) }
    ensures unread { IfErr result (λ fault. (count : ℕ) → length buffer.old ≡ count
        → Unread I.remaining I.fails reader.old reader.new (bytes_at count) fault) }
    ensures broken { IfErr result (λ fault. (count : ℕ) → length buffer.old ≡ count
        → Broken (I.remaining reader.old) (I.remaining reader.new) (bytes_at count) fault) }
    ensures memory { IfErr result (λ fault. fault ≢ WireFault.NoMemory) }
{
    let came = fill(reader, buffer)?;
    if came < buffer.len() {
        return Err(WireFault::Short);
    }
    Ok(())
}

/// Reads one byte.
fn read_byte<I: Inlet>(reader: &mut I) -> Result<u8, WireFault>
    ensures whole { IfOk result (λ byte. Consumes (I.remaining reader.old) (I.remaining reader.new) (byte ∷ [])) }
    ensures unread { IfErr result (Unread I.remaining I.fails reader.old reader.new byte_at) }
    ensures broken { IfErr result (Broken (I.remaining reader.old) (I.remaining reader.new) byte_at) }
    ensures memory { IfErr result (λ fault. fault ≢ WireFault.NoMemory) }
{
    let mut byte = [0u8; 1];
    read_field(reader, &mut byte)?;
    Ok(byte[0])
}

/// Reads a length of four bytes.
fn read_length<I: Inlet>(reader: &mut I, limit: usize) -> Result<usize, WireFault>
    requires { limit < 2 ^ 32 }
    ensures within { IfOk result (λ size. size ≤ limit) }
    ensures whole { IfOk result (λ size. Consumes (I.remaining reader.old) (I.remaining reader.new) (to_be_bytes w32 size)) }
    ensures unread { IfErr result (Unread I.remaining I.fails reader.old reader.new (length_at limit)) }
    ensures broken { IfErr result (Broken (I.remaining reader.old) (I.remaining reader.new) (length_at limit)) }
    ensures memory { IfErr result (λ fault. fault ≢ WireFault.NoMemory) }
{
    let mut bytes = [0u8; 4];
    read_field(reader, &mut bytes)?;
    let size = u32::from_be_bytes(bytes) as usize;
    if size > limit {
        return Err(WireFault::Long);
    }
    Ok(size)
}

/// Reads the magic of a message.
fn read_magic<I: Inlet>(reader: &mut I, magic: [u8; 4]) -> Result<(), WireFault>
    ensures whole { OnOk result (Consumes (I.remaining reader.old) (I.remaining reader.new) magic) }
    ensures unread { IfErr result (Unread I.remaining I.fails reader.old reader.new (magic_at magic)) }
    ensures memory { IfErr result (λ fault. fault ≢ WireFault.NoMemory) }
{
    let mut bytes = [0u8; 4];
    read_field(reader, &mut bytes)?;
    if bytes != magic {
        return Err(WireFault::Magic);
    }
    Ok(())
}

/// Reads the magic of a reply of the version.
fn read_reply_magic<I: Inlet>(reader: &mut I, version: Version) -> Result<(), WireFault>
    ensures whole { OnOk result (Consumes (I.remaining reader.old) (I.remaining reader.new) (reply_magic version)) }
    ensures unread { IfErr result (Unread I.remaining I.fails reader.old reader.new (magic_at (reply_magic version))) }
    ensures memory { IfErr result (λ fault. fault ≢ WireFault.NoMemory) }
{
    let digit = version.digit();
    read_magic(reader, [b'I', b'G', b'R', digit])
}

/// Reads so many bytes. Memory is taken as they come.
fn read_bytes<I: Inlet>(alloc: Global, reader: &mut I, count: usize) -> Result<Vec<u8>, WireFault>
    ensures size { IfOk result (λ bytes. length bytes.items ≡ count) }
    ensures whole { IfOk result (λ bytes. Consumes (I.remaining reader.old) (I.remaining reader.new) bytes.items) }
    ensures unread { IfErr result (Unread I.remaining I.fails reader.old reader.new (bytes_at count)) }
    ensures broken { IfErr result (Broken (I.remaining reader.old) (I.remaining reader.new) (bytes_at count)) }
    ensures memory { IfErr result (λ fault. fault ≡ WireFault.NoMemory → Came (I.remaining reader.old) (I.remaining reader.new) [] count) }
{
    let mut bytes = Vec::new(alloc);
    let mut chunk = [0u8; CHUNK];
    'bytes: while bytes.len() < count {
        let room = (count - bytes.len()).min(CHUNK);
        match reader.pull(&mut chunk[..room]) {
            Ok(0) => return Err(WireFault::Short),
            Ok(n) => {
                if bytes.extend_from_slice(&chunk[..n]).is_err() {
                    return Err(WireFault::NoMemory);
                }
            }
            Err(_) => return Err(WireFault::Io),
        }
    }
    Ok(bytes)
}

/// Reads a reply's key, which is to be the one that was asked.
fn read_key<I: Inlet>(reader: &mut I, asked: &[u8]) -> Result<(), WireFault>
    ensures within { OnOk result (length asked.now ≤ KEY_LIMIT) }
    ensures whole { OnOk result (Consumes (I.remaining reader.old) (I.remaining reader.new) (field asked.now)) }
    ensures unread { IfErr result (Unread I.remaining I.fails reader.old reader.new (key_at asked.now)) }
    ensures memory { IfErr result (λ fault. fault ≢ WireFault.NoMemory) }
{
    let size = read_length(reader, KEY_LIMIT)?;
    let mut buffer = [0u8; KEY_LIMIT];
    let key = &mut buffer[..size];
    read_field(reader, key)?;
    if *key != *asked {
        return Err(WireFault::Key);
    }
    Ok(())
}

/// Reads a reply's status and value.
fn read_value<I: Inlet>(alloc: Global, reader: &mut I) -> Result<(u8, Vec<u8>), WireFault>
    ensures status { IfOk result (λ answer. answer.0 ≤ 4) }
    ensures within { IfOk result (λ answer. length answer.1.items ≤ VALUE_LIMIT) }
    ensures no_value { IfOk result (λ answer. 0 < answer.0 → answer.1.items ≡ []) }
    ensures whole { IfOk result (λ answer. Consumes (I.remaining reader.old) (I.remaining reader.new) (answer.0 ∷ field answer.1.items)) }
    ensures unread { IfErr result (Unread I.remaining I.fails reader.old reader.new value_at) }
    ensures memory { IfErr result (λ fault. fault ≡ WireFault.NoMemory → (size : ℕ) × (size ≤ VALUE_LIMIT)
        × Came (I.remaining reader.old) (I.remaining reader.new) (0 ∷ to_be_bytes w32 size) size) }
{
    let status = read_byte(reader)?;
    if status > 4 {
        return Err(WireFault::Status);
    }
    let size = read_length(reader, VALUE_LIMIT)?;
    if status != 0 && size != 0 {
        return Err(WireFault::Status);
    }
    let value = read_bytes(alloc, reader, size)?;
    Ok((status, value))
}

/// Reads a reply's digest, of the key and the value.
fn read_digest<I: Inlet>(reader: &mut I, key: &[u8], value: &[u8]) -> Result<(), WireFault>
    ensures whole { OnOk result (Consumes (I.remaining reader.old) (I.remaining reader.new) (sha256 (key.now ++ value.now))) }
    ensures unread { IfErr result (Unread I.remaining I.fails reader.old reader.new (digest_at (key.now ++ value.now))) }
    ensures memory { IfErr result (λ fault. fault ≢ WireFault.NoMemory) }
{
    let mut digest = [0u8; 32];
    read_field(reader, &mut digest)?;
    let mut hasher = Sha256::new();
    hasher.update(key);
    hasher.update(value);
    if digest != hasher.finalize() {
        return Err(WireFault::Digest);
    }
    Ok(())
}

/// Whether there is a group of this number.
fn is_group(group: u8) -> bool
    ensures { IsTrue result ↔ IsGroup group }
{
    group == 1 || group == 2
}

/// The version whose asks begin with these four bytes.
fn ask_version(bytes: [u8; 4]) -> Option<Version>
    ensures { result ≡ ask_version_of bytes }
{
    if bytes == *b"IGA1" {
        return Some(Version::One);
    }
    if bytes == *b"IGA2" {
        return Some(Version::Two);
    }
    None
}

/// Reads the magic of an ask, and says its version, or none where the input is at its end.
fn read_ask_magic<I: Inlet>(reader: &mut I) -> Result<Option<Version>, WireFault>
    ensures none { IfOk result (λ begun. IfNone begun (Consumes (I.remaining reader.old) (I.remaining reader.new) []
        × IsAtEnd (I.remaining reader.new))) }
    ensures whole { IfOk result (λ begun. IfSome begun (λ version.
        Consumes (I.remaining reader.old) (I.remaining reader.new) (ask_magic version))) }
    ensures memory { IfErr result (λ fault. fault ≢ WireFault.NoMemory) }
    ensures unread { IfErr result (Unread I.remaining I.fails reader.old reader.new ask_at) }
    ensures unfinished { IfErr result (λ fault. fault ≡ WireFault.Io → (text : List ℕ) × IsUnfinishedAsk text
        × Consumes (I.remaining reader.old) (I.remaining reader.new) text) }
{
    let mut bytes = [0u8; 4];
    let came = fill(reader, &mut bytes)?;
    if came == 0 {
        return Ok(None);
    }
    if came < bytes.len() {
        return Err(WireFault::Short);
    }
    match ask_version(bytes) {
        Some(version) => Ok(Some(version)),
        None => Err(WireFault::Magic),
    }
}

/// Reads an ask, or none at the input's end.
pub fn ask_from<I: Inlet>(alloc: Global, reader: &mut I) -> Result<Option<Ask>, WireFault>
    ensures none { IfOk result (λ answer. IfNone answer (Consumes (I.remaining reader.old) (I.remaining reader.new) []
        × IsAtEnd (I.remaining reader.new))) }
    ensures known { IfOk result (λ answer. IfSome answer (λ ask. IsAsk ask.group ask.key.items)) }
    ensures whole { IfOk result (λ answer. IfSome answer (λ ask.
        Consumes (I.remaining reader.old) (I.remaining reader.new) (ask_text ask.version ask.group ask.key.items))) }
    ensures unread { IfErr result (Unread I.remaining I.fails reader.old reader.new ask_at) }
    ensures unfinished { IfErr result (λ fault. fault ≡ WireFault.Io → (text : List ℕ) × IsUnfinishedAsk text
        × Consumes (I.remaining reader.old) (I.remaining reader.new) text) }
    ensures memory { IfErr result (λ fault. fault ≡ WireFault.NoMemory → (text : List ℕ) × IsFrontOfAsk text
        × Consumes (I.remaining reader.old) (I.remaining reader.new) text) }
{
    let Some(version) = read_ask_magic(reader)? else {
        return Ok(None);
    };
    let (group, key) = read_ask_fields(alloc, reader)?;
    Ok(Some(Ask {
        version,
        group,
        key,
    }))
}

/// Reads a reply of the version for the key.
pub fn read_reply_fields<I: Inlet>(
    alloc: Global,
    reader: &mut I,
    version: Version,
    asked: &[u8],
) -> Result<(u8, Vec<u8>), WireFault>
    ensures known { IfOk result (λ answer. IsReply asked.now answer.0 answer.1.items) }
    ensures whole { IfOk result (λ answer. Consumes (I.remaining reader.old) (I.remaining reader.new)
        (reply_text version asked.now answer.0 answer.1.items)) }
    ensures unread { IfErr result (Unread I.remaining I.fails reader.old reader.new (reply_at version asked.now)) }
    ensures memory { IfErr result (λ fault. fault ≡ WireFault.NoMemory → (text : List ℕ) × IsFrontOfReply version asked.now text
        × Consumes (I.remaining reader.old) (I.remaining reader.new) text) }
{
    read_reply_magic(reader, version)?;
    read_key(reader, asked)?;
    let (status, value) = read_value(alloc, reader)?;
    read_digest(reader, asked, value.as_slice())?;
    Ok((status, value))
}

/// Reads an ask's group and key.
fn read_ask_fields<I: Inlet>(alloc: Global, reader: &mut I) -> Result<(u8, Vec<u8>), WireFault>
    ensures known { IfOk result (λ ask. IsAsk ask.0 ask.1.items) }
    ensures whole { IfOk result (λ ask. Consumes (I.remaining reader.old) (I.remaining reader.new) (ask.0 ∷ field ask.1.items)) }
    ensures unread { IfErr result (Unread I.remaining I.fails reader.old reader.new ask_fields_at) }
    ensures broken { IfErr result (Broken (I.remaining reader.old) (I.remaining reader.new) ask_fields_at) }
    ensures memory { IfErr result (λ fault. fault ≡ WireFault.NoMemory → (group size : ℕ) × IsGroup group × (size ≤ KEY_LIMIT)
        × Came (I.remaining reader.old) (I.remaining reader.new) (group ∷ to_be_bytes w32 size) size) }
{
    let group = read_byte(reader)?;
    if !is_group(group) {
        return Err(WireFault::Magic);
    }
    let size = read_length(reader, KEY_LIMIT)?;
    let key = read_bytes(alloc, reader, size)?;
    Ok((group, key))
}
