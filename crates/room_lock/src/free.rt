// Whether the client of an event is free.
ghost use Rattle.std.specs.Prelude.{◌≡◌, true, false};
ghost use Rattle.std.specs.Option.{ForSome};
ghost use Rattle.pcm_group.specs.Waiting.{IsFreeFor, is_its_own};
ghost use Rattle.pcm_stream.specs.Members.{members_of};
ghost use Rattle.sleepers.specs.Clients.{has_client};

use card_emul::AnyCard;
use pcm_base::{Call, ClientId, Event};
use pcm_stream::{Member, Members};

// Whether the client has a call in progress on this member, other than the one that its own Go names.
fn is_caught(member: &Member<AnyCard>, event: &Event, client: ClientId) -> bool
    ensures { result ≡ false → is_its_own event.now.call event.now.sub member.now.sub ≡ false → has_client client member.now.sleepers ≡ false }
{
    if matches!(event.call, Call::Go) && member.sub.0 == event.sub.0 {
        return false;
    }
    member.sleepers.task(client).is_some()
}

// Whether the client has no call in progress on any member, but on that of the event the one that goes on.
fn is_free_of(members: &Members<AnyCard>, event: &Event, client: ClientId) -> bool
    ensures { result ≡ true → IsFreeFor event.now.call event.now.sub client (members_of members.now) }
{
    for i in 0..members.len() {
        if is_caught(members.at(i), event, client) {
            return false;
        }
    }
    true
}

/// Whether the event's client has no call in progress in the group, but the one that its own Go names.
pub(crate) fn is_free(members: &Members<AnyCard>, event: &Event) -> bool
    ensures { result ≡ true → ForSome event.now.client (λ c. IsFreeFor event.now.call event.now.sub c (members_of members.now)) }
{
    match event.client {
        Some(client) => is_free_of(members, event, client),
        None => true,
    }
}
