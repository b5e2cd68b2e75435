// The files of a folder as a shelf.
ghost use Rattle.std.specs.Prelude.{◌≡◌, ◌≤◌, None, IfOk, IfSome, vec_len};
ghost use Rattle.pcm_io.specs.Folder.{folder_of};
ghost use Rattle.pcm_io.specs.Shelf.{HasShelfCause};

use crate::{LOAD_LIMIT, Shelf, ShelfError, StdSink, StdSource, read_to_limit, write_all};
use pcm_base::Name;
use std::alloc::{AllocError, Global};
use std::fs;
use std::fs::{File, Files, OpenOptions};
use std::io::{Error, ErrorKind};
use std::path::PathBuf;
use std::str::from_utf8;

/// The files of a folder. No file is loaded exactly where the system says "not found"; any other error counts, as that
/// of a folder in a file's place, or of a file that may not be read or written. A store writes beside the file, under a
/// name that begins with a dot and ends in `.part` and the first free number, and then renames, so that no half of a file
/// stands under the name; it touches no other file, and what a store that was cut off has left stays. It replaces a regular
/// file, a symbolic link to one or to nothing (what a link points to stays), or nothing. A pipe or a device is neither
/// loaded nor replaced, but refused at once. This project's own.
#[derive(Drop)]
pub struct FolderShelf<'a, F> {
    files: F,
    alloc: Global,
    folder: &'a str,
    faults: u64,
}

fn text_of(name: &Name) -> Result<&str, ShelfError> {
    match from_utf8(name.as_slice()) {
        Ok(text) => Ok(text),
        Err(_) => Err(ShelfError::Failed),
    }
}

fn path_in(alloc: Global, folder: &str, file: &str) -> Result<PathBuf, AllocError> {
    let mut path = PathBuf::from_str(alloc, folder)?;
    path.push(file)?;
    Ok(path)
}

// Why a file was not opened: there is none, or something failed.
fn unopened<T>(error: &Error) -> Result<Option<T>, ShelfError> {
    match error.kind() {
        ErrorKind::NotFound => Ok(None),
        _ => Err(ShelfError::Failed),
    }
}

// The file of that name; None where there is none. What is no file is not opened, since that may wait.
fn open_file<F: Files>(files: &F, path: &PathBuf) -> Result<Option<F::File>, ShelfError> {
    match fs::metadata(files, path) {
        Ok(found) if !found.is_file() => return Err(ShelfError::Failed),
        Ok(_) => {}
        Err(e) => return unopened(&e),
    }
    match File::open(files, path) {
        Ok(file) => Ok(Some(file)),
        Err(e) => unopened(&e),
    }
}

// A file of that name may be written, or there is none. What is no file is not opened, since that may wait.
fn may_write<F: Files>(files: &F, path: &PathBuf) -> bool {
    match fs::metadata(files, path) {
        Ok(found) => found.is_file() && OpenOptions::new().write(true).open(files, path).is_ok(),
        Err(e) => e.kind() == ErrorKind::NotFound,
    }
}

fn part_path(alloc: Global, folder: &str, name: &str, number: u64) -> Result<PathBuf, AllocError> {
    let part = format!(in alloc; ".{name}.part{number}")?;
    path_in(alloc, folder, part.as_str())
}

// A file that was not there; None where one was.
fn create_part<F: Files>(files: &F, path: &PathBuf) -> Result<Option<F::File>, ShelfError> {
    match File::create_new(files, path) {
        Ok(file) => Ok(Some(file)),
        Err(e) if e.kind() == ErrorKind::AlreadyExists => Ok(None),
        Err(_) => Err(ShelfError::Failed),
    }
}

// A new file beside that of the name. What stands under a number is of another store, one that was cut off or one that
// still writes: it is left alone, so that each store renames the file that it wrote.
fn create_beside<F: Files>(
    files: &F,
    alloc: Global,
    folder: &str,
    name: &str,
) -> Result<(PathBuf, F::File), ShelfError> {
    for number in 0..u64::MAX {
        let path = part_path(alloc, folder, name, number)?;
        if let Some(file) = create_part(files, &path)? {
            return Ok((path, file));
        }
    }
    Err(ShelfError::Failed)
}

impl<'a, F: Files> FolderShelf<'a, F> {
    /// The files of this folder, with no fault yet. It takes its memory from `alloc`.
    pub fn new(files: F, alloc: Global, folder: &'a str) -> Self
        ensures folder { folder_of result ≡ folder.now }
        ensures files { ⟦<FolderShelf<'a, F> as Shelf>⟧.files result ≡ None }
        ensures faults { ⟦<FolderShelf<'a, F> as Shelf>⟧.faults result ≡ 0 }
    {
        FolderShelf {
            files,
            alloc,
            folder,
            faults: 0,
        }
    }

    fn load_file(&self, name: &Name) -> Result<Option<Vec<u8>>, ShelfError>
        ensures bound { IfOk result (λ found. IfSome found (λ bytes. vec_len bytes ≤ LOAD_LIMIT)) }
    {
        let path = path_in(self.alloc, self.folder, text_of(name)?)?;
        let Some(file) = open_file(&self.files, &path)? else {
            return Ok(None);
        };
        let bytes = read_to_limit(self.alloc, &mut StdSource::new(file), LOAD_LIMIT - 1)?;
        Ok(Some(bytes))
    }

    fn store_file(&self, name: &Name, bytes: &[u8]) -> Result<(), ShelfError> {
        let text = text_of(name)?;
        let path = path_in(self.alloc, self.folder, text)?;
        if !may_write(&self.files, &path) {
            return Err(ShelfError::Failed);
        }
        let (beside, file) = create_beside(&self.files, self.alloc, self.folder, text)?;
        let written = write_all(&mut StdSink::new(file), bytes);
        if written.is_ok() && fs::rename(&self.files, &beside, &path).is_ok() {
            return Ok(());
        }
        let _ = fs::remove_file(&self.files, &beside);
        Err(ShelfError::Failed)
    }
}

// Each answer Failed raises the count.
fn count<T>(faults: &mut u64, answer: Result<T, ShelfError>) -> Result<T, ShelfError>
    ensures cause { HasShelfCause faults.old faults.new answer }
    ensures same { result ≡ answer }
{
    if let Err(ShelfError::Failed) = answer {
        *faults = faults.saturating_add(1);
    }
    answer
}

impl<'a, F: Files> Shelf for FolderShelf<'a, F> {
    ghost files = { λ _. None };

    ghost faults = { λ s. s.faults };

    fn load(&mut self, name: &Name) -> Result<Option<Vec<u8>>, ShelfError> {
        let answer = self.load_file(name);
        count(&mut self.faults, answer)
    }

    fn store(&mut self, name: &Name, bytes: &[u8]) -> Result<(), ShelfError> {
        let answer = self.store_file(name, bytes);
        count(&mut self.faults, answer)
    }
}
