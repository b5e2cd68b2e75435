// One step of a room's group.
ghost use Rattle.std.specs.Prelude.{◌≡◌, ◌≢◌, ◌≤◌, ℕ, List, true, length};
ghost use Rattle.std.specs.Option.{ForSome, is_none};
ghost use Rattle.pcm_base.specs.declared.reply.Reply.TheVariants.{Memory};
ghost use Rattle.pcm_base.specs.model.Group.{stream_of};
ghost use Rattle.pcm_base.specs.model.Replay.{IsLent, is_member, reading_length};
ghost use Rattle.pcm_base.specs.model.Stream.{Member as ModelMember};
ghost use Rattle.pcm_group.specs.Inside.{members_in};
ghost use Rattle.pcm_group.specs.Turn.{is_card_event, is_group_call};
ghost use Rattle.pcm_group.specs.Waiting.{IsFreeFor};
ghost use Rattle.pcm_stream.specs.Members.{numbers_of};
ghost use Rattle.pcm_stream.specs.MembersStand.{AllStandFor};
ghost use Rattle.room_book.specs.Logs.{client_of};
ghost use Rattle.room_lock.specs.GroupStep.{IsGroupStep};

use card_emul::AnyCard;
use pcm_base::Event;
use pcm_group::{Group, Turn};

/// The step of the group that an event makes, which was lent these bytes, of so many that were handed in.
pub(crate) fn step(group: &mut Group<AnyCard>, event: &Event, io: &mut [u8]) -> Turn
    requires call { is_group_call event.now.call ≡ true }
    requires member { is_member event.now.sub (numbers_of (members_in group.old)) ≡ true }
    requires caller { is_card_event event.now.call ≡ is_none event.now.client }
    requires client { ForSome event.now.client (λ c. c.0 ≤ 15) }
    requires free { ForSome event.now.client (λ c. IsFreeFor event.now.call event.now.sub c (members_in group.old)) }
    requires lent { (xs : List ModelMember) → AllStandFor (members_in group.old) xs → (count : ℕ) × IsLent (reading_length event.now.call (client_of event.now.client) (stream_of event.now.sub xs)) count (length io.old) }
    ensures made { (xs : List ModelMember) → AllStandFor (members_in group.old) xs → result.reply ≢ Memory → IsGroupStep event.now io.old io.new xs result (members_in group.new) }
    ensures memory { (xs : List ModelMember) → AllStandFor (members_in group.old) xs → result.reply ≡ Memory → AllStandFor (members_in group.new) xs }
    ensures kept { result.reply ≡ Memory → io.new ≡ io.old }
    ensures numbers { numbers_of (members_in group.new) ≡ numbers_of (members_in group.old) }
    ensures size { length io.new ≡ length io.old }
{
    group.step(event, io)
}
