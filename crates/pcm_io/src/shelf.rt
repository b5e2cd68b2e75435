// Where files lie.
ghost use Rattle.std.specs.Prelude.{◌≡◌, ◌≤◌, ℕ, IfOk, IfSome, OnOk, IsErrOf, vec_len};
ghost use Rattle.std.specs.Option.{option_map};
ghost use Rattle.std.specs.declared.option.Option.{Option};
ghost use Rattle.std.specs.FinMap.{get};
ghost use Rattle.pcm_io.specs.declared.shelf.ShelfError.TheVariants.{Memory};
ghost use Rattle.pcm_io.specs.Shelf.{Files, shelf_error_of, first_bytes, Stay, Stores, OthersStay, HasShelfCause};

use crate::ReadEnd;
use pcm_base::Name;
use std::alloc::AllocError;

/// Why a file was not loaded or stored.
#[derive(Clone, Copy, Debug, PartialEq, Eq)]
pub enum ShelfError {
    /// The shelf failed, and counted it.
    Failed,
    /// There was no memory.
    Memory,
}

impl From<AllocError> for ShelfError {
    ghost from_gives = { λ _ e. e ≡ Memory };

    fn from(_e: AllocError) -> ShelfError {
        ShelfError::Memory
    }
}

impl From<ReadEnd> for ShelfError {
    ghost from_gives = { λ r e. e ≡ shelf_error_of r };

    fn from(e: ReadEnd) -> ShelfError {
        match e {
            ReadEnd::Failed => ShelfError::Failed,
            ReadEnd::Memory => ShelfError::Memory,
        }
    }
}

/// The most bytes that one load gives: one more than a WAV file may have.
pub const LOAD_LIMIT: usize = 68_157_441;

/// Where files lie by name. It has a count of the calls that failed, which never falls. This project's own.
pub trait Shelf {
    /// The files, where the shelf tells them.
    ghost files: { Self → Option Files };

    /// How often a call has failed.
    ghost faults: { Self → ℕ };

    /// The first `LOAD_LIMIT` bytes of the file, or all where it has fewer; None exactly where no file has the name. All
    /// files stay, whatever the answer.
    fn load(&mut self, name: &Name) -> Result<Option<Vec<u8>>, ShelfError>
        ensures found { IfOk result (λ found. IfSome (files self.old)
            (λ files. option_map (λ bytes. bytes.items) found ≡ option_map first_bytes (get files name.now))) }
        ensures bound { IfOk result (λ found. IfSome found (λ bytes. vec_len bytes ≤ LOAD_LIMIT)) }
        ensures stay { Stay (files self.old) (files self.new) }
        ensures cause { HasShelfCause (faults self.old) (faults self.new) result };

    /// Puts exactly these bytes under the name; other files stay. After `Failed` the bytes under that one name are not
    /// told. After `Memory` nothing has changed.
    fn store(&mut self, name: &Name, bytes: &[u8]) -> Result<(), ShelfError>
        ensures stored { OnOk result (Stores (files self.old) (files self.new) name.now bytes.now) }
        ensures others { IsErrOf result ShelfError.Failed → OthersStay (files self.old) (files self.new) name.now }
        ensures memory { IsErrOf result ShelfError.Memory → Stay (files self.old) (files self.new) }
        ensures cause { HasShelfCause (faults self.old) (faults self.new) result };
}
