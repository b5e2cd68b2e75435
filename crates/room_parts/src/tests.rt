// Two cards are linked, and a start of the one is told to the other: on a floor of two substreams and one client's pass.
ghost use Rattle.std.specs.Prelude.{◌≡◌, [], length};

use super::*;
use floor_rule::{Entry, Glance, Joint, Joints, Maker, SharedWords};
use pcm_base::{Act, Bytes, Call, ClientId, Event, Outcome, Reply, State, SubId, Vote};
use std::alloc::{AllocError, Global};
use std::marker::Brand;
use std::test::Fail;

const CLIENT: ClientId = ClientId(3);

const FIRST: SubId = SubId(0);

const SECOND: SubId = SubId(1);

// What the pass then reads of each, and the counts of entries stored.
fn linking<N: FloorName>(
    alloc: Global,
    words: SharedWords,
    mut maker: Maker,
) -> Result<([Glance; 2], [u32; 3], [usize; 2]), AllocError>
    requires table { words.table ≡ N.table }
    requires cards { (words.cards ≡ 2) × (length N.cards ≡ 2) }
    requires maker { maker ≡ record { table = N.table; knows = record { recs = 0; passes = 0; roll = [] } } }
{
    let mut first = Rec::<N>::new(alloc, maker.add_rec(&words));
    let mut second = Rec::<N>::new(alloc, maker.add_rec(&words));
    let mut pass = Pass::<N>::new(maker.add_pass(&words), Caller::Client(CLIENT));
    let link = Linked {
        client: CLIENT,
        first: FIRST,
        second: SECOND,
        first_state: State::Prepared,
        second_state: State::Prepared,
        second_linked: false,
        reply: Reply::Ok,
    };
    first.reserve()?;
    second.reserve()?;
    link_on(&words, &mut first, &mut second, &mut pass, &link, 0, 0);
    let news = first.tell(&words);
    first.move_to(&words, news, 16, State::Prepared, 0, FIRST, 0);
    let news = first.tell(&words);
    second.move_to(&words, news, 16, State::Prepared, 0, FIRST, 0);
    let joint = Joint {
        act: Act::Start,
        room: 16,
        serial: 0,
        vote: Vote::Yes,
        outcome: Outcome::Done,
    };
    let mut joints = Joints::new();
    joints.push(joint);
    let event = Event {
        client: Some(CLIENT),
        sub: FIRST,
        call: Call::Start,
    };
    let entry = Entry::Own {
        event,
        bytes: Bytes::copy_of(alloc, &[])?,
        joints,
        reply: Reply::Ok,
        state: State::Running,
    };
    call_on(
        &words,
        &mut first,
        &mut pass,
        &event,
        0,
        entry,
        State::Running,
        0,
    );
    let called = pass.seen(FIRST);
    let news = first.tell(&words);
    second.join(&words, news, joint, State::Running, 0, FIRST, 2);
    let seen = full_page(&words, &mut first, &mut pass);
    let other = pass.page(&words, SECOND);
    Ok((
        [seen, other],
        [called, pass.seen(SECOND), pass.seen(SubId(255))],
        [first.entries().len(), second.entries().len()],
    ))
}

#[test]
fn two_cards_are_linked_and_started(rt: HostRuntime) -> Result<(), Fail> {
    let (words, maker) = SharedWords::new(rt.alloc(), 2)?;
    let page = Glance {
        count: 3,
        state: State::Running,
        hw: 0,
    };
    let seen = linking::<Brand>(rt.alloc(), words, maker)?;
    assert_eq!(rt; seen.0[0], page);
    assert_eq!(rt; seen.0[1], page);
    assert_eq!(rt; seen.1, [3, 3, 0]);
    assert_eq!(rt; seen.2[0], 3);
    assert_eq!(rt; seen.2[1], 3);
    Ok(())
}
