// The logs of a floor are held against what each caller knows, and against each other.
ghost use Rattle.std.specs.Prelude.{◌≡◌, ◌<◌, length, slice_get};
ghost use Rattle.floor_rule.specs.Steps.{told_by_pass};
ghost use Rattle.live_gather.specs.Told.{Agrees, Each, HoldsAt, IsFoundIn, IsMet, IsTold, OwnsIn};

use crate::piece::Piece;
use floor_rule::{Note, SharedWords, laws};
use room_parts::{FloorName, Pass};

// A note of the log at a place, and of what backs each of its entries.
fn tell_at<N: FloorName>(pieces: &mut Vec<Piece<N>>, words: &SharedWords, i: usize) -> Note
    requires table { words.now.table ≡ N.table }
    requires place { i < length pieces.old.items }
    ensures same { pieces.new.items ≡ pieces.old.items }
    ensures table { result.table ≡ N.table }
    ensures tells { HoldsAt (λ l. IsTold (length N.cards) l result.lists) i pieces.old.items }
{
    pieces[i].tell(words)
}

// The log at a place is held against what the note tells.
fn check_at<N: FloorName>(pieces: &mut Vec<Piece<N>>, words: &SharedWords, i: usize, note: Note)
    requires table { words.now.table ≡ N.table }
    requires note { note.table ≡ N.table }
    requires place { i < length pieces.old.items }
    ensures same { pieces.new.items ≡ pieces.old.items }
    ensures agrees { HoldsAt (Agrees note.lists) i pieces.old.items }
{
    pieces[i].check(words, note);
}

// Each log is held against all that a pass knows.
fn check_all<N: FloorName>(pieces: &mut Vec<Piece<N>>, words: &SharedWords, pass: &mut Pass<N>)
    requires table { words.now.table ≡ N.table }
    ensures same { (pieces.new.items ≡ pieces.old.items) × (pass.new ≡ pass.old) }
    ensures agree { Each (Agrees (told_by_pass pass.old.knows)) pieces.old.items }
{
    for i in 0..pieces.len() {
        let note = pass.tell(words);
        check_at(pieces, words, i, note);
    }
}

// A pass is told each log, and looks whose entries it has.
fn look_at_all<N: FloorName>(pieces: &mut Vec<Piece<N>>, words: &SharedWords, pass: &mut Pass<N>)
    requires table { words.now.table ≡ N.table }
    ensures same { pieces.new.items ≡ pieces.old.items }
    ensures own { Each (OwnsIn pass.old.knows.number pass.old.knows.calls) pieces.old.items }
{
    for i in 0..pieces.len() {
        let note = tell_at(pieces, words, i);
        pass.hear(words, note);
        pass.look(words);
    }
}

// The logs and a pass are held against each other.
fn meet<N: FloorName>(pieces: &mut Vec<Piece<N>>, words: &SharedWords, mut pass: Pass<N>)
    requires table { words.now.table ≡ N.table }
    ensures same { pieces.new.items ≡ pieces.old.items }
    ensures met { IsMet (length N.cards) pieces.old.items pass }
{
    pass.look(words);
    check_all(pieces, words, &mut pass);
    look_at_all(pieces, words, &mut pass);
}

/// The logs and each of some passes are held against each other.
pub(crate) fn meet_all<N: FloorName>(
    pieces: &mut Vec<Piece<N>>,
    words: &SharedWords,
    mut passes: Vec<Pass<N>>,
)
    requires table { words.now.table ≡ N.table }
    ensures same { pieces.new.items ≡ pieces.old.items }
    ensures met { Each (IsMet (length N.cards) pieces.old.items) passes.items }
{
    while let Some(pass) = passes.pop() {
        meet(pieces, words, pass);
    }
}

// Each log is held against what that at a place tells.
fn find_of<N: FloorName>(pieces: &mut Vec<Piece<N>>, words: &SharedWords, own: usize)
    requires table { words.now.table ≡ N.table }
    requires place { own < length pieces.old.items }
    ensures same { pieces.new.items ≡ pieces.old.items }
    ensures found { HoldsAt (λ l. Each (IsFoundIn (length N.cards) l) pieces.old.items) own pieces.old.items }
{
    laws::lists();
    for i in 0..pieces.len() {
        let note = tell_at(pieces, words, own);
        check_at(pieces, words, i, note);
    }
}

/// Each log is held against what each tells: the causes of its entries are found.
pub(crate) fn find_causes<N: FloorName>(pieces: &mut Vec<Piece<N>>, words: &SharedWords)
    requires table { words.now.table ≡ N.table }
    ensures same { pieces.new.items ≡ pieces.old.items }
    ensures found { Each (λ l. Each (IsFoundIn (length N.cards) l) pieces.old.items) pieces.old.items }
{
    for i in 0..pieces.len() {
        find_of(pieces, words, i);
    }
}
