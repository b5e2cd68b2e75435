// Members of emulated cards that join and leave.
ghost use Rattle.std.specs.Prelude.{◌≡◌, ◌∷◌, [], length, IfOk};
ghost use Rattle.pcm_stream.specs.Members.{members_of, numbers_of};

use super::*;
use card_emul::AnyCard;
use pcm_base::{Dir, Model};
use pcm_stream::Substream;
use sleepers::Sleepers;
use std::alloc::{AllocError, Global};

// A group of one closed member.
fn alone(alloc: Global, sub: SubId) -> Result<Members<AnyCard>, AllocError>
    ensures one { IfOk result (λ ms. length (members_of ms) ≡ 1) }
    ensures number { IfOk result (λ ms. numbers_of (members_of ms) ≡ sub ∷ []) }
{
    let card = AnyCard::new(alloc, Model::Basic, Dir::Playback);
    let mut members = Members::new(alloc)?;
    members.add(Member {
        sub,
        stream: Substream::new(alloc, card, Dir::Playback, 2_147_483_647),
        sleepers: Sleepers::new(),
    });
    Ok(members)
}

// A group of two, in this order.
#[tactic(auto, using(crate::proofs::PlaceLemmas::numbers_append))]
fn pair(alloc: Global, first: SubId, second: SubId) -> Result<Members<AnyCard>, AllocError>
    ensures two { IfOk result (λ ms. length (members_of ms) ≡ 2) }
    ensures numbers { IfOk result (λ ms. numbers_of (members_of ms) ≡ first ∷ second ∷ []) }
{
    let mut group = alone(alloc, first)?;
    let mut lone = alone(alloc, second)?;
    join_members(&mut group, &mut lone);
    Ok(group)
}

#[test]
fn the_last_two_part(rt: HostRuntime) -> Result<(), AllocError> {
    let mut group = pair(rt.alloc(), SubId(4), SubId(9))?;
    let left = leave_member(&mut group, SubId(4));
    assert_eq!(rt; left.gone.sub, SubId(4));
    assert_eq!(rt; left.alone.map(|member| member.sub), Some(SubId(9)));
    assert_eq!(rt; group.len(), 0);
    Ok(())
}
