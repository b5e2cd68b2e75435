// A shelf in memory, which fails at the calls that it was told.
ghost use Rattle.std.specs.Prelude.{◌≡◌, ◌≤◌, ◌↔◌, Some, [], Contains, IfOk, IfSome, IsErrOf, OnOk, OnErr, position, vec_len};
ghost use Rattle.std.specs.Option.{option_map};
ghost use Rattle.std.specs.FinMap.{empty, get, insert};
ghost use Rattle.std.specs.Str.{bytes_eq};
ghost use Rattle.pcm_io.specs.Memory.{one_more};
ghost use Rattle.pcm_io.specs.MemFiles.{files_in};
ghost use Rattle.pcm_io.specs.Shelf.{first_bytes, HasShelfCause};

use crate::{LOAD_LIMIT, Shelf, ShelfError};
use pcm_base::Name;
use std::alloc::{AllocError, Global};
use std::marker::Model;

#[derive(Drop)]
struct File {
    name: Vec<u8>,
    bytes: Vec<u8>,
}

/// A shelf in memory. Contracts see its files, the numbers of the calls that fail, and the counts of calls and of
/// faults; each count stays at its last value.
#[derive(Drop)]
pub struct MemShelf {
    alloc: Global,
    files: Vec<File>,
    failing: Vec<u64>,
    calls: u64,
    faults: u64,
}

impl Model for MemShelf {
    ghost use Rattle.pcm_io.specs.MemFiles.{ShelfState, shelf_code, files_in};

    ghost Value = { ShelfState };

    ghost coded = { shelf_code };

    ghost view = { λ s. record { files = files_in s.files.items; failing = s.failing.items; calls = s.calls; faults = s.faults } };
}

// The place of the first file of this name.
fn place_of(files: &[File], name: &[u8]) -> Option<usize>
    ensures { result ≡ position (λ f. bytes_eq name.now f.name.items) files.now }
{
    files.iter().position(|f| name == f.name.as_slice())
}

fn bytes_of<'a>(files: &'a [File], name: &[u8]) -> Option<&'a [u8]>
    ensures { option_map (λ bytes. bytes.now) result ≡ get (files_in files.now) name.now }
{
    match place_of(files, name) {
        Some(at) => Some(files[at].bytes.as_slice()),
        None => None,
    }
}

// A copy of the file's first bytes.
fn copy_of(alloc: Global, files: &[File], name: &[u8]) -> Result<Option<Vec<u8>>, AllocError>
    ensures found { IfOk result (λ found. option_map (λ bytes. bytes.items) found ≡ option_map first_bytes (get (files_in files.now) name.now)) }
    ensures bound { IfOk result (λ found. IfSome found (λ bytes. vec_len bytes ≤ LOAD_LIMIT)) }
{
    let Some(bytes) = bytes_of(files, name) else {
        return Ok(None);
    };
    let copy = bytes[..bytes.len().min(LOAD_LIMIT)].to_vec(alloc)?;
    Ok(Some(copy))
}

// In place of the bytes that stood under the name, if any did.
fn put(alloc: Global, files: &mut Vec<File>, name: &[u8], bytes: &[u8]) -> Result<(), AllocError>
    ensures ok { OnOk result (files_in files.new.items ≡ insert (files_in files.old.items) name.now bytes.now) }
    ensures err { OnErr result (files.new.items ≡ files.old.items) }
{
    let bytes = bytes.to_vec(alloc)?;
    if let Some(at) = place_of(files, name) {
        files[at].bytes = bytes;
        return Ok(());
    }
    let name = name.to_vec(alloc)?;
    files.push(File { name, bytes })?;
    Ok(())
}

impl MemShelf {
    /// A shelf without files, which takes its memory from `alloc`. It fails at the calls of `load` and `store` with the
    /// numbers in `failing`, counted from 1.
    pub fn new(alloc: Global, failing: Vec<u64>) -> MemShelf
        ensures { result ≡ record { files = empty; failing = failing.items; calls = 0; faults = 0 } }
    {
        MemShelf {
            alloc,
            files: Vec::new(alloc),
            failing,
            calls: 0,
            faults: 0,
        }
    }

    /// The bytes of the file; None where no file has the name. It takes no memory, and is no call that is counted.
    pub fn get(&self, name: &Name) -> Option<&[u8]>
        ensures { option_map (λ bytes. bytes.now) result ≡ get self.now.files name.now }
    {
        bytes_of(&self.files, name.as_slice())
    }
}

impl Shelf for MemShelf {
    ghost files = { λ s. Some s.files };

    ghost faults = { λ s. s.faults };

    fn load(&mut self, name: &Name) -> Result<Option<Vec<u8>>, ShelfError>
        ensures found { IfOk result (λ found. option_map (λ bytes. bytes.items) found ≡ option_map first_bytes (get self.old.files name.now)) }
        ensures bound { IfOk result (λ found. IfSome found (λ bytes. vec_len bytes ≤ LOAD_LIMIT)) }
        ensures cause { HasShelfCause self.old.faults self.new.faults result }

        // Exactly the listed calls fail.
        ensures listed { IsErrOf result ShelfError.Failed ↔ Contains self.old.failing (one_more self.old.calls) }
        ensures counted { IsErrOf result ShelfError.Failed → self.new.faults ≡ one_more self.old.faults }
        ensures stay { self.new ≡ record self.old { calls = one_more self.old.calls; faults = self.new.faults } }
    {
        self.calls = self.calls.saturating_add(1);
        if self.failing.contains(&self.calls) {
            self.faults = self.faults.saturating_add(1);
            return Err(ShelfError::Failed);
        }
        Ok(copy_of(self.alloc, &self.files, name.as_slice())?)
    }

    fn store(&mut self, name: &Name, bytes: &[u8]) -> Result<(), ShelfError>
        ensures stored { OnOk result (self.new.files ≡ insert self.old.files name.now bytes.now) }
        ensures err { OnErr result (self.new.files ≡ self.old.files) }
        ensures cause { HasShelfCause self.old.faults self.new.faults result }

        // Exactly the listed calls fail.
        ensures listed { IsErrOf result ShelfError.Failed ↔ Contains self.old.failing (one_more self.old.calls) }
        ensures counted { IsErrOf result ShelfError.Failed → self.new.faults ≡ one_more self.old.faults }
        ensures others { self.new ≡ record self.old { files = self.new.files; calls = one_more self.old.calls; faults = self.new.faults } }
    {
        self.calls = self.calls.saturating_add(1);
        if self.failing.contains(&self.calls) {
            self.faults = self.faults.saturating_add(1);
            return Err(ShelfError::Failed);
        }
        put(self.alloc, &mut self.files, name.as_slice(), bytes)?;
        Ok(())
    }
}
