// A shelf that remembers the file that was asked for last.
ghost use Rattle.std.specs.Prelude.{◌≡◌, ◌≤◌, ℕ, IfOk, IfSome, OnOk, IsErrOf, Some, vec_len, true};
ghost use Rattle.std.specs.Option.{option_map};
ghost use Rattle.std.specs.FinMap.{get};
ghost use Rattle.pcm_io.specs.Shelf.{first_bytes, Stay, Stores, OthersStay, HasShelfCause};
ghost use Rattle.pcm_help.specs.declared.shelf.Asked.TheVariants as asked_of;

use pcm_base::Name;
use pcm_io::{LOAD_LIMIT, Shelf, ShelfError};

/// The file that a call of a shelf asked for. This project's own.
#[derive(Drop)]
pub enum Asked {
    /// It was to be loaded.
    Load(Name),
    /// It was to be stored.
    Store(Name),
}

/// A shelf that passes on each call, and remembers the file of the last one where that is wanted. This project's own.
#[derive(Drop)]
pub struct RememberingShelf<F> {
    /// The shelf that is asked.
    pub shelf: F,
    /// Whether files are remembered.
    pub wanted: bool,
    /// The file of the last call; None before the first.
    pub asked: Option<Asked>,
}

/// The same name once more, without memory.
pub(crate) fn copy_of(name: &Name) -> Name
    ensures { result ≡ name.now }
{
    match Name::of(name.as_slice()) {
        Some(name) => name,
        None => unreachable!(),
    }
}

impl<F: Shelf> Shelf for RememberingShelf<F> {
    ghost files = { λ s. F.files s.shelf };

    ghost faults = { λ s. F.faults s.shelf };

    fn load(&mut self, name: &Name) -> Result<Option<Vec<u8>>, ShelfError>
        ensures found { IfOk result (λ found. IfSome (F.files self.old.shelf)
            (λ files. option_map (λ bytes. bytes.items) found ≡ option_map first_bytes (get files name.now))) }
        ensures bound { IfOk result (λ found. IfSome found (λ bytes. vec_len bytes ≤ LOAD_LIMIT)) }
        ensures stay { Stay (F.files self.old.shelf) (F.files self.new.shelf) }
        ensures cause { HasShelfCause (F.faults self.old.shelf) (F.faults self.new.shelf) result }

        // The call is remembered, whatever it answers.
        ensures asked { self.old.wanted ≡ true → self.new.asked ≡ Some (asked_of.Load name.now) }
        ensures wanted { self.new.wanted ≡ self.old.wanted }
    {
        if self.wanted {
            self.asked = Some(Asked::Load(copy_of(name)));
        }
        self.shelf.load(name)
    }

    fn store(&mut self, name: &Name, bytes: &[u8]) -> Result<(), ShelfError>
        ensures stored { OnOk result (Stores (F.files self.old.shelf) (F.files self.new.shelf) name.now bytes.now) }
        ensures others { IsErrOf result ShelfError.Failed → OthersStay (F.files self.old.shelf) (F.files self.new.shelf) name.now }
        ensures memory { IsErrOf result ShelfError.Memory → Stay (F.files self.old.shelf) (F.files self.new.shelf) }
        ensures cause { HasShelfCause (F.faults self.old.shelf) (F.faults self.new.shelf) result }

        // The call is remembered, whatever it answers.
        ensures asked { self.old.wanted ≡ true → self.new.asked ≡ Some (asked_of.Store name.now) }
        ensures wanted { self.new.wanted ≡ self.old.wanted }
    {
        if self.wanted {
            self.asked = Some(Asked::Store(copy_of(name)));
        }
        self.shelf.store(name, bytes)
    }
}
