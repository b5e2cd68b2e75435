// The acts of an event in the book of a room.
ghost use Rattle.std.specs.Prelude.{◌≡◌, ◌≤◌, ◌+◌, ◌++◌, map, length, vec_len, vec_capacity};
ghost use Rattle.room_book.specs.declared.book.BookEntry.TheVariants.{Act as Noted};
ghost use Rattle.room_lock.specs.Joints.{FewVoted};

use pcm_base::{Acted, Votes};
use room_book::BookEntry;

fn copied_votes(votes: &Votes) -> Votes
    requires { length votes.now ≤ 16 }
    ensures { result ≡ votes.now }
{
    let votes = votes.as_slice();
    let mut copy = Votes::new();
    for i in 0..votes.len() {
        copy.push(votes[i]);
    }
    copy
}

fn copied(acted: &Acted) -> Acted
    requires { length acted.now.votes ≤ 16 }
    ensures { result ≡ acted.now }
{
    Acted {
        act: acted.act,
        outcome: acted.outcome,
        votes: copied_votes(&acted.votes),
    }
}

/// The book has these acts behind its other entries.
pub(crate) fn note_acts(book: &mut Vec<BookEntry>, acts: &[Acted])
    requires voted { FewVoted acts.now }
    requires room { vec_len book.old + length acts.now ≤ vec_capacity book.old }
    ensures { book.new.items ≡ book.old.items ++ map Noted acts.now }
{
    for i in 0..acts.len() {
        book.push_reserved(BookEntry::Act(copied(&acts[i])));
    }
}
