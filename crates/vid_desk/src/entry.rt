// The files and names that a desk in memory holds (own).
ghost use Rattle.std.specs.Prelude.{◌≡◌, ◌^◌, ◌<◌, ◌∷◌, ◌++◌, [], length, map, find, reverse, vec_len, IsOk, OnOk, OnErr, IfOk, IfSome};
ghost use Rattle.std.specs.Option.{option_copied};
ghost use Rattle.std.specs.Str.{bytes_eq};
ghost use Rattle.std.specs.String.{string_bytes};
ghost use Rattle.vid_desk.specs.Meaning.{bytes_at, place_of, with_more};
ghost use Rattle.vid_desk.specs.Entry.{file_of};

use std::alloc::{AllocError, Global};

/// A file with its name.
#[derive(Debug, Drop)]
pub struct Entry {
    pub name: String,
    pub bytes: Vec<u8>,
}

impl Entry {
    /// A file with copies of the name and the bytes.
    pub fn new(alloc: Global, name: &str, bytes: &[u8]) -> Result<Entry, AllocError>
        ensures { IfOk result (λ entry. file_of entry ≡ record { name = name.now; bytes = bytes.now }) }
    {
        Ok(Entry {
            name: String::from_str(alloc, name)?,
            bytes: bytes.to_vec(alloc)?,
        })
    }
}

/// One more name at the end.
pub fn add_name(names: &mut Vec<String>, alloc: Global, name: &str) -> Result<(), AllocError>
    ensures added { OnOk result (map string_bytes names.new.items ≡ map string_bytes names.old.items ++ name.now ∷ []) }
    ensures memory { OnErr result (names.new.items ≡ names.old.items) }
{
    let copy = String::from_str(alloc, name)?;
    names.push(copy)?;
    Ok(())
}

/// Where the first file of that name stands.
pub fn place_of(entries: &[Entry], name: &str) -> Option<u32>
    requires { length entries.now < 2 ^ 32 }
    ensures place { result ≡ place_of (map file_of entries.now) name.now }
    ensures there { IfSome result (λ id. id < length entries.now) }
{
    for (id, entry) in entries.iter().enumerate() {
        if entry.name.as_str() == name {
            return Some(id as u32);
        }
    }
    None
}

/// The last file of that name.
pub fn last_entry<'a>(entries: &'a [Entry], name: &str) -> Option<&'a Entry>
    ensures { option_copied result ≡ find (λ entry. bytes_eq (string_bytes entry.name) name.now) (reverse entries.now) }
{
    entries
        .iter()
        .rev()
        .find(|entry| entry.name.as_str() == name)
}

/// The bytes of the file at a place.
pub fn bytes_at(entries: &[Entry], id: usize) -> &[u8]
    requires { id < length entries.now }
    ensures { result.now ≡ bytes_at (map file_of entries.now) id }
{
    &entries[id].bytes
}

/// More bytes at the end of the file at a place.
pub fn extend(entries: &mut Vec<Entry>, id: usize, piece: &[u8]) -> Result<(), AllocError>
    requires { id < vec_len entries.old }
    ensures added { OnOk result (map file_of entries.new.items ≡ with_more (map file_of entries.old.items) id piece.now) }
    ensures memory { OnErr result (map file_of entries.new.items ≡ map file_of entries.old.items) }
    ensures nothing { length piece.now ≡ 0 → IsOk result }
    ensures len { vec_len entries.new ≡ vec_len entries.old }
{
    let entry = &mut entries[id];
    match entry.bytes.extend_from_slice(piece) {
        Ok(()) => Ok(()),
        Err(e) => Err(e),
    }
}
