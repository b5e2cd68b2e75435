// The device that plays or records: its one substream, an event at a time.
ghost use Rattle.std.specs.Prelude.{◌≡◌, ◌≢◌, ◌≤◌, ◌∷◌, [], ℕ, List, true, false, IfOk, IfErr, OnOk};
ghost use Rattle.std.specs.Option.{ForSome, is_none};
ghost use Rattle.pcm_base.specs.declared.reply.Reply.TheVariants as reply;
ghost use Rattle.pcm_base.specs.declared.state.Dir.{Dir};
ghost use Rattle.pcm_base.specs.declared.state.State.TheVariants.{Setup};
ghost use Rattle.pcm_base.specs.model.Allowed.{accepts};
ghost use Rattle.pcm_base.specs.model.Events.{program, setup_of};
ghost use Rattle.pcm_base.specs.model.Frame.{bytes_of};
ghost use Rattle.pcm_base.specs.model.Program.{Answer};
ghost use Rattle.pcm_base.specs.model.Standing.{Put};
ghost use Rattle.pcm_base.specs.model.Stream.{Stream, Member as ModelMember};
ghost use Rattle.card_emul.specs.Limits.{duplex};
ghost use Rattle.pcm_stream.specs.Members.{numbers_of};
ghost use Rattle.pcm_stream.specs.MembersStand.{AllStandFor};
ghost use Rattle.pcm_group.specs.Bytes.{HasLength, bytes_left};
ghost use Rattle.pcm_group.specs.Inside.{members_in};
ghost use Rattle.pcm_group.specs.Lent.{is_lent_call};
ghost use Rattle.pcm_group.specs.Turn.{caller_of, is_card_event, is_group_call, may_want_memory};
ghost use Rattle.play_record.specs.declared.error.PlayError.TheVariants as play_error;
ghost use Rattle.play_record.specs.Devices.{IsAt, taken_by};
ghost use Rattle.play_record.specs.Stages.{device_at, long_max, opened_with};
ghost use Rattle.play_record.specs.Steps.{CanMoveOn, GoesTo, moved_on};

use crate::error::PlayError;
use pcm_base::{Call, Card, ClientId, Config, Event, Reply, SubId};
use pcm_group::Group;
use std::alloc::{AllocError, Global};

/// The client that plays or records.
pub(crate) const CLIENT: Option<ClientId> = Some(ClientId(0));

/// The number of the substream.
pub(crate) fn substream<C: Card>(group: &Group<C>) -> SubId
    requires { (x : ModelMember) × AllStandFor (members_in group.now) (x ∷ []) }
    ensures { numbers_of (members_in group.now) ≡ result ∷ [] }
{
    group.members().at(0).sub
}

/// One event of the device, of a client or, where there is none, of the card, with the bytes of its call.
pub(crate) fn step<C: Card>(
    group: &mut Group<C>,
    sub: SubId,
    client: Option<ClientId>,
    call: Call,
    io: &mut [u8],
) -> Reply
    requires device { (s : Stream) × IsAt sub s (members_in group.old) }
    requires call { is_group_call call ≡ true }
    requires caller { is_card_event call ≡ is_none client }
    requires client { ForSome client (λ c. c.0 ≤ 15) }
    requires length { (s : Stream) → IsAt sub s (members_in group.old) → HasLength call io.old s }
    ensures goes { (s t : Stream) (a : Answer) → IsAt sub s (members_in group.old) → GoesTo (program call (caller_of client) false io.old s) a t → t.sleepers ≡ []
        → result ≢ reply.Memory → (result ≡ a.reply) × IsAt sub t (members_in group.new) }
    ensures bytes { (s t : Stream) (a : Answer) → IsAt sub s (members_in group.old) → GoesTo (program call (caller_of client) false io.old s) a t → t.sleepers ≡ []
        → is_lent_call call ≡ false → result ≢ reply.Memory → io.new ≡ bytes_left call (caller_of client) s a io.old }
    ensures wants { result ≡ reply.Memory → may_want_memory call ≡ true }
    ensures numbers { numbers_of (members_in group.new) ≡ numbers_of (members_in group.old) }
{
    let event = Event { client, sub, call };
    group.step(&event, io).reply
}

/// The client sets the open device up. `Memory` alone can come.
pub(crate) fn set_up<C: Card>(
    group: &mut Group<C>,
    sub: SubId,
    config: &Config,
) -> Result<(), PlayError>
    requires device { (s : Stream) × IsAt sub s (members_in group.old) }
    requires accepted { accepts duplex long_max config.now ≡ true }
    ensures ok { (d : Dir) (puts : List Put) → IsAt sub (opened_with d puts) (members_in group.old)
        → OnOk result (IsAt sub (device_at d (setup_of config.now long_max) Setup false 0 0 0 [] [] []) (members_in group.new)) }
    ensures memory { IfErr result (λ e. e ≡ play_error.Memory) }
    ensures numbers { numbers_of (members_in group.new) ≡ numbers_of (members_in group.old) }
{
    match step(group, sub, CLIENT, Call::HwParams(*config), &mut []) {
        Reply::Ok => Ok(()),
        _ => Err(PlayError::Memory),
    }
}

/// The card moves on by so many frames and interrupts. `Memory` alone can come.
pub(crate) fn move_on<C: Card>(
    group: &mut Group<C>,
    sub: SubId,
    frames: u64,
) -> Result<(), PlayError>
    requires { (s : Stream) × IsAt sub s (members_in group.old) × CanMoveOn frames s }
    ensures ok { (s : Stream) → IsAt sub s (members_in group.old) → CanMoveOn frames s → OnOk result (IsAt sub (moved_on frames s) (members_in group.new)) }
    ensures memory { IfErr result (λ e. e ≡ play_error.Memory) }
    ensures numbers { numbers_of (members_in group.new) ≡ numbers_of (members_in group.old) }
{
    match step(group, sub, None, Call::MoveBy(frames), &mut []) {
        Reply::Moved(_) => {
            let _ = step(group, sub, None, Call::Irq, &mut []);
            Ok(())
        }
        _ => Err(PlayError::Memory),
    }
}

/// A copy of what the card has taken.
pub(crate) fn taken<C: Card>(alloc: Global, group: &Group<C>) -> Result<Vec<u8>, AllocError>
    requires { (x : ModelMember) × AllStandFor (members_in group.now) (x ∷ []) }
    ensures taken { IfOk result (λ copy. taken_by (members_in group.now) ≡ copy.items ∷ []) }
    ensures frames { (x : ModelMember) → AllStandFor (members_in group.now) (x ∷ []) → IfOk result (λ copy. copy.items ≡ bytes_of x.stream.card.taken) }
{
    let copy = group.members().at(0).stream.card().taken().to_vec(alloc)?;
    Ok(copy)
}
