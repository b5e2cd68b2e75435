//! Members that join a group and leave it (`snd_pcm_link` and `snd_pcm_unlink` of `pcm_native.c`; one that joins comes last
//! here, where the kernel puts it first). Their streams and the calls in progress on them stay as they are.
//!
//! It stands on `pcm_stream`.
#![tactic(auto)]

ghost use Rattle.std.specs.Prelude.{◌≡◌, ◌≤◌, ◌<◌, ◌↔◌, ◌++◌, ◌∷◌, [], true, false, List, length, map, IsNone, OnSome, Some, slice_get, remove};
ghost use Rattle.std.specs.Option.{option_to_list};
ghost use Rattle.pcm_base.specs.declared.ids.SubId.{SubId as SubIdOf};
ghost use Rattle.pcm_base.specs.model.Replay.{is_member};
ghost use Rattle.pcm_base.specs.model.Stream.{Member as ModelMember};
ghost use Rattle.pcm_base.specs.model.World.{only_member, without_member};
ghost use Rattle.pcm_stream.specs.Members.{all_differ, members_of, numbers_of};
ghost use Rattle.pcm_stream.specs.MembersStand.{AllStandFor};
ghost use Rattle.link_group.specs.Numbers.{first_of};

#[cfg(test)]
mod tests;

use pcm_base::{Card, SubId};
use pcm_stream::{Member, Members};

/// What leaves a group: the member that was named, and the one that would be left alone.
#[derive(Drop)]
pub struct Left<C: Card> {
    pub gone: Member<C>,
    pub alone: Option<Member<C>>,
}

/// The one member of `lone` joins behind the others, and `lone` is empty. Its number is new to the group. No memory.
pub fn join_members<C: Card>(group: &mut Members<C>, lone: &mut Members<C>)
    requires one { length (members_of lone.old) ≡ 1 }
    requires room { length (members_of group.old) < 16 }
    ensures joined { members_of group.new ≡ members_of group.old ++ members_of lone.old }
    ensures empty { members_of lone.new ≡ [] }
    ensures stands { (a b : List ModelMember) → AllStandFor (members_of group.old) a → AllStandFor (members_of lone.old) b → AllStandFor (members_of group.new) (a ++ b) }
    ensures distinct { (sub : SubIdOf) → numbers_of (members_of lone.old) ≡ sub ∷ [] → is_member sub (numbers_of (members_of group.old)) ≡ false
        → all_differ (numbers_of (members_of group.old)) ≡ true → all_differ (numbers_of (members_of group.new)) ≡ true }
{
    group.add(lone.take(0));
}

// The place of a substream.
fn place_of<C: Card>(group: &Members<C>, sub: SubId) -> usize
    requires { is_member sub (numbers_of (members_of group.now)) ≡ true }
    ensures value { result ≡ first_of sub (numbers_of (members_of group.now)) }
    ensures below { result < length (members_of group.now) }
{
    let mut i = 0;
    'places: while i + 1 < group.len() {
        if group.at(i).sub.0 == sub.0 {
            return i;
        }
        i += 1;
    }
    i
}

/// Takes a member out of a group of two or more. Where one is left, it is taken out too; the others keep their order. No
/// memory.
pub fn leave_member<C: Card>(group: &mut Members<C>, sub: SubId) -> Left<C>
    requires member { is_member sub (numbers_of (members_of group.old)) ≡ true }
    requires two { 2 ≤ length (members_of group.old) }
    ensures taken { slice_get (members_of group.old) (first_of sub (numbers_of (members_of group.old))) ≡ Some result.gone }
    ensures kept { option_to_list result.alone ++ members_of group.new ≡ remove (members_of group.old) (first_of sub (numbers_of (members_of group.old))) }
    ensures alone { IsNone result.alone ↔ (3 ≤ length (members_of group.old)) }
    ensures empty { OnSome result.alone (members_of group.new ≡ []) }
    ensures gone { (ms : List ModelMember) → AllStandFor (members_of group.old) ms → AllStandFor (result.gone ∷ []) (only_member sub ms) }
    ensures others { (ms : List ModelMember) → AllStandFor (members_of group.old) ms → AllStandFor (option_to_list result.alone ++ members_of group.new) (without_member sub ms) }
    ensures distinct { all_differ (numbers_of (members_of group.old)) ≡ true → all_differ (numbers_of (members_of group.new)) ≡ true }
{
    let place = place_of(group, sub);
    let gone = group.take(place);
    let alone = if group.len() == 1 {
        Some(group.take(0))
    } else {
        None
    };
    Left { gone, alone }
}
