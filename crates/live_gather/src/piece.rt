// A rec with the stream to which its log plays.
ghost use Rattle.std.specs.Prelude.{◌≡◌, ◌≤◌, ◌+◌, length, vec_len, vec_capacity};
ghost use Rattle.pcm_stream.specs.Members.{members_of};
ghost use Rattle.live_gather.specs.Gathered.{IsGatheredOf};
ghost use Rattle.live_gather.specs.Pieces.{FitInRoom, HasPlayed, log_of, with_logs};
ghost use Rattle.live_gather.specs.Told.{Agrees, IsTold};

use crate::gathered::{Gathered, Log};
use card_emul::AnyCard;
use floor_rule::{Note, RecSeat, SharedWords};
use pcm_stream::{Member, Members, Substream};
use room_parts::{FloorName, Rec};
use std::marker::Model;

/// A member of a floor at rest: its rec, and the stream to which the log of the rec plays. Contracts see the marked log, with
/// the number of its substream.
#[derive(Drop)]
pub struct Piece<N: FloorName> {
    rec: Rec<N>,
    stream: Substream<AnyCard>,
}

impl<N: FloorName> Model for Piece<N> {
    ghost use Rattle.std.specs.Prelude.{ℕ, List};
    ghost use Rattle.floor_rule.specs.declared.rule.Marked.{Marked};
    ghost use Rattle.live_gather.specs.Pieces.{HasPlayed, log_of};

    ghost Value = { ℕ × List Marked };

    ghost view = { λ p. log_of p.rec.knows };

    ghost invariant = { λ p. HasPlayed N.cards N.long_max (log_of p.rec.knows) p.stream };
}

impl<N: FloorName> Piece<N> {
    /// A rec, and its member of a group.
    pub fn new(rec: Rec<N>, member: Member<AnyCard>) -> Piece<N>
        requires plays { HasPlayed N.cards N.long_max (log_of rec.knows) member.stream }
        ensures { result ≡ log_of rec.knows }
    {
        Piece {
            rec,
            stream: member.stream,
        }
    }

    /// A note of the log, and of what backs each of its entries.
    pub(crate) fn tell(&mut self, words: &SharedWords) -> Note
        requires table { words.now.table ≡ N.table }
        ensures same { self.new ≡ self.old }
        ensures table { result.table ≡ N.table }
        ensures tells { IsTold (length N.cards) self.old result.lists }
    {
        self.rec.tell(words)
    }

    /// The log is held against what the note tells.
    pub(crate) fn check(&mut self, words: &SharedWords, note: Note)
        requires table { words.now.table ≡ N.table }
        requires note { note.table ≡ N.table }
        ensures same { self.new ≡ self.old }
        ensures agrees { Agrees note.lists self.old }
    {
        self.rec.hear(words, note);
        self.rec.confirm(words);
    }

    /// The log without its marks, with the stream; and the seat of the rec.
    pub(crate) fn into_gathered(self) -> (Gathered, RecSeat)
        ensures gathered { IsGatheredOf N.cards N.long_max self.0 self.1 result.0 }
        ensures seat { (result.1.table ≡ N.table) × (result.1.knows.sub ≡ self.0) }
    {
        let Piece { rec, stream } = self;
        let sub = rec.sub();
        let (entries, seat) = rec.into_parts();
        let log = Log { sub, entries };
        (Gathered { log, stream }, seat)
    }
}

/// The recs of a room with its members, behind the pieces that are there. It takes no memory.
pub fn add_pieces<N: FloorName>(
    pieces: &mut Vec<Piece<N>>,
    mut recs: Vec<Rec<N>>,
    mut members: Members<AnyCard>,
)
    requires fit { FitInRoom N.cards N.long_max recs.items (members_of members) }
    requires room { vec_len pieces.old + length recs.items ≤ vec_capacity pieces.old }
    ensures pieces { pieces.new.items ≡ with_logs pieces.old.items recs.items }
    ensures count { vec_len pieces.new ≡ vec_len pieces.old + length recs.items }
    ensures capacity { vec_capacity pieces.new ≡ vec_capacity pieces.old }
{
    while let Some(rec) = recs.pop() {
        let member = members.take(recs.len());
        pieces.push_reserved(Piece::new(rec, member));
    }
}
