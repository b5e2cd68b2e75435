// A floor of two cards is gathered, of which a client has linked the first to the second while both were closed.
ghost use Rattle.std.specs.Prelude.{◌≡◌, ◌<◌, ◌∷◌, [], ℕ, length};
ghost use Rattle.card_emul.specs.Limits.{basic};
ghost use Rattle.pcm_base.specs.declared.state.Dir.TheVariants.{Playback as PlaybackDir};
ghost use Rattle.pcm_base.specs.declared.state.State.TheVariants.{Closed};
ghost use Rattle.floor_rule.specs.declared.entry.EntryMark.TheVariants.{Called};
ghost use Rattle.room_parts.specs.Links.{link_entry};
ghost use Rattle.live_gather.specs.Pieces.{log_of};

use super::*;
use card_emul::AnyCard;
use floor_rule::{Maker, SharedWords};
use pcm_base::{ClientId, Dir, Errno, Model, Reply, State, SubId};
use pcm_stream::{Member, Substream};
use room_parts::{Caller, FloorName, Linked, Pass, Rec, link_on};
use sleepers::Sleepers;
use std::alloc::{AllocError, Global};
use std::marker::Brand;
use std::test::Fail;

const CLIENT: ClientId = ClientId(3);

// A link of two closed substreams, which is refused.
const LINK: Linked = Linked {
    client: CLIENT,
    first: SubId(0),
    second: SubId(1),
    first_state: State::Closed,
    second_state: State::Closed,
    second_linked: false,
    reply: Reply::Err(Errno::Enxio),
};

// A rec whose log has that link alone, with a new member.
fn piece<N: FloorName>(alloc: Global, rec: Rec<N>) -> Piece<N>
    requires cards { (N.cards ≡ (basic, PlaybackDir) ∷ (basic, PlaybackDir) ∷ []) × (N.long_max ≡ 2147483647) }
    requires card { rec.knows.sub < 2 }
    requires log { (n : ℕ) × (k : ℕ) × (rec.knows.log ≡ record { entry = link_entry LINK; mark = Called Closed 0 n k 0 } ∷ []) }
    ensures { result ≡ log_of rec.knows }
{
    let sub = rec.sub();
    let card = AnyCard::new(alloc, Model::Basic, Dir::Playback);
    let stream = Substream::new(alloc, card, Dir::Playback, 2_147_483_647);
    let member = Member {
        sub,
        stream,
        sleepers: Sleepers::new(),
    };
    Piece::new(rec, member)
}

// Of each entry the number of its substream, and how many entries its log has.
fn gathering<N: FloorName>(
    alloc: Global,
    words: SharedWords,
    mut maker: Maker,
) -> Result<[(u8, usize); 2], AllocError>
    requires words { words ≡ record { table = N.table; cards = 2 } }
    requires cards { (N.cards ≡ (basic, PlaybackDir) ∷ (basic, PlaybackDir) ∷ []) × (N.long_max ≡ 2147483647) }
    requires maker { maker ≡ record { table = N.table; knows = record { recs = 0; passes = 0; roll = [] } } }
{
    let mut first = Rec::<N>::new(alloc, maker.add_rec(&words));
    let mut second = Rec::<N>::new(alloc, maker.add_rec(&words));
    let mut pass = Pass::<N>::new(maker.add_pass(&words), Caller::Client(CLIENT));
    first.reserve()?;
    second.reserve()?;
    link_on(&words, &mut first, &mut second, &mut pass, &LINK, 0, 0);
    let mut pieces = Vec::with_capacity(alloc, 2)?;
    pieces.push_reserved(piece(alloc, second));
    pieces.push_reserved(piece(alloc, first));
    let mut clients = Vec::with_capacity(alloc, 1)?;
    clients.push_reserved(pass);
    let all = Vec::with_capacity(alloc, 2)?;
    let all = gather(&words, maker, pieces, clients, Vec::new(alloc), all);
    Ok([
        (all[0].log.sub.0, all[0].log.entries.len()),
        (all[1].log.sub.0, all[1].log.entries.len()),
    ])
}

#[test]
fn a_refused_link_stands_once_in_each_log(rt: HostRuntime) -> Result<(), Fail> {
    let (words, maker) = SharedWords::new(rt.alloc(), 2)?;
    let found = gathering::<Brand>(rt.alloc(), words, maker)?;
    assert_eq!(rt; found[0], (0, 1));
    assert_eq!(rt; found[1], (1, 1));
    Ok(())
}
