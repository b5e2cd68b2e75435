// The two devices of the program.
ghost use Rattle.std.specs.Prelude.{◌≡◌, [], IfOk, true};
ghost use Rattle.pcm_base.specs.declared.state.Dir.{Dir as DirOf};
ghost use Rattle.pcm_base.specs.declared.state.Dir.TheVariants.{Capture, Playback};
ghost use Rattle.pcm_group.specs.Inside.{members_in};
ghost use Rattle.pcm_stream.specs.MembersStand.{MemberStandsFor};
ghost use Rattle.pcm_stream.specs.StandsFor.{tells_plan};
ghost use Rattle.play_record.specs.Devices.{IsDevice};
ghost use Rattle.play_record.specs.Stages.{lone, opened_with};

use crate::sound::LONG_MAX;
use card_emul::AnyCard;
use pcm_base::{Dir, Model, SubId};
use pcm_group::Group;
use pcm_stream::{Member, Members, Substream};
use sleepers::Sleepers;
use std::alloc::{AllocError, Global};

/// A device that plays and one that records, each a group of the one substream s0 over a card of the model `duplex`. This
/// project's own.
#[derive(Drop)]
pub struct Deck {
    pub player: Group<AnyCard>,
    pub recorder: Group<AnyCard>,
}

// The substream s0, open, over a new card.
fn open_member(alloc: Global, dir: Dir) -> Member<AnyCard>
    ensures stands { MemberStandsFor result (lone result.sub (opened_with dir [])) }
    ensures tells { tells_plan result.stream ≡ true }
{
    let card = AnyCard::new(alloc, Model::Duplex, dir);
    let mut stream = Substream::new(alloc, card, dir, LONG_MAX);
    // no client has opened it yet, so it is not busy
    let _ = stream.open_sub();
    Member {
        sub: SubId(0),
        stream,
        sleepers: Sleepers::new(),
    }
}

// A device of one direction.
fn device(alloc: Global, dir: Dir) -> Result<Group<AnyCard>, AllocError>
    ensures { IfOk result (λ group. IsDevice dir (members_in group)) }
{
    let mut members = Members::new(alloc)?;
    members.add(open_member(alloc, dir));
    let (group, _) = Group::of(members);
    Ok(group)
}

impl Deck {
    /// Two new devices, whose substreams are open.
    pub fn new(alloc: Global) -> Result<Deck, AllocError>
        ensures player { IfOk result (λ deck. IsDevice Playback (members_in deck.player)) }
        ensures recorder { IfOk result (λ deck. IsDevice Capture (members_in deck.recorder)) }
    {
        Ok(Deck {
            player: device(alloc, Dir::Playback)?,
            recorder: device(alloc, Dir::Capture)?,
        })
    }
}
