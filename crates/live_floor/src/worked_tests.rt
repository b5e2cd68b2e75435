// What calls on a floor show, with the state on the page and the clients that were woken: a group of two that parts, and a
// client that sleeps in a write until its card wakes it.
ghost use Rattle.std.specs.Prelude.{◌≡◌, ◌<◌, ◌∷◌, [], true, false, length};
ghost use Rattle.std.specs.Option.{is_none};
ghost use Rattle.card_emul.specs.Limits.{basic};
ghost use Rattle.pcm_base.specs.declared.state.Dir.TheVariants.{Playback as PlaybackDir};
ghost use Rattle.pcm_group.specs.Turn.{is_card_event, is_group_call};
ghost use Rattle.room_parts.specs.declared.pass.Caller.TheVariants.{Card};

use super::*;
use crate::tests::{SMALL, linked, unlinked};
use floor_rule::{Maker, SharedWords};
use pcm_base::{Call, Dir, Errno, Event, Layout, Mode, Model, Reply, State, SubId};
use room_lock::Answer;
use room_parts::{FloorName, Pass};
use std::alloc::Global;
use std::marker::Brand;
use std::process::Abort;
use std::sync::Wait;
use std::sync::ledger::{Blank, Ledger};
use std::test::Fail;

const FIRST: SubId = SubId(0);

const SECOND: SubId = SubId(1);

const THIRD: SubId = SubId(2);

// What is shown of a call: its reply, the state on the page after it, and the mask of the clients that it woke. None where the
// floor did not make it.
fn shown<N: FloorName + Ledger>(
    floor: &Floor<N>,
    pass: &mut Pass<N>,
    sub: SubId,
    answer: Answer,
) -> Option<(Reply, State, u16)>
    requires card { sub.0 < length N.cards }
    ensures caller { pass.new.caller ≡ pass.old.caller }
{
    let page = floor.page(pass, sub);
    match answer {
        Answer::Done { reply, woken, .. } => Some((reply, page.state, woken)),
        _ => None,
    }
}

// What a call of the client of a pass shows. A pass with a call in progress makes none.
fn called<N: FloorName + Ledger, R: Wait>(
    rt: &R,
    floor: &Floor<N>,
    pass: &mut Pass<N>,
    sub: SubId,
    call: Call,
    io: &mut [u8],
) -> Option<(Reply, State, u16)>
    requires card { sub.0 < length N.cards }
    requires call { (is_group_call call ≡ true) × (is_card_event call ≡ false) }
{
    let client = pass.client()?;
    if client.0 > 15 || pass.busy().is_some() {
        return None;
    }
    let event = Event {
        client: Some(client),
        sub,
        call,
    };
    let answer = floor.call(rt, pass, &event, io);
    shown(floor, pass, sub, answer)
}

// What is shown where the call in progress of the client of a pass goes on, with the bytes that it had from the first.
fn gone_on<N: FloorName + Ledger, R: Wait>(
    rt: &R,
    floor: &Floor<N>,
    pass: &mut Pass<N>,
    sub: SubId,
    io: &mut [u8],
) -> Option<(Reply, State, u16)>
    requires card { sub.0 < length N.cards }
{
    let client = pass.client()?;
    let on = pass.busy()?;
    if client.0 > 15 || on.0 != sub.0 {
        return None;
    }
    let event = Event {
        client: Some(client),
        sub,
        call: Call::Go,
    };
    let answer = floor.call(rt, pass, &event, io);
    shown(floor, pass, sub, answer)
}

// What an event of the card of a pass shows.
fn of_card<N: FloorName + Ledger, R: Wait>(
    rt: &R,
    floor: &Floor<N>,
    pass: &mut Pass<N>,
    sub: SubId,
    call: Call,
) -> Option<(Reply, State, u16)>
    requires card { sub.0 < length N.cards }
    requires call { (is_group_call call ≡ true) × (is_card_event call ≡ true) }
    requires by { pass.old.caller ≡ Card sub }
    ensures caller { pass.new.caller ≡ pass.old.caller }
{
    if pass.busy().is_some() {
        return None;
    }
    let event = Event {
        client: None,
        sub,
        call,
    };
    let answer = floor.call(rt, pass, &event, &mut []);
    shown(floor, pass, sub, answer)
}

// A call that woke nobody.
fn quiet(reply: Reply, state: State) -> Option<(Reply, State, u16)> {
    Some((reply, state, 0))
}

// Three cards, which nobody has opened, are opened and set up.
fn set_up<N: FloorName + Ledger, R: Abort + Wait>(rt: &R, f: &Floor<N>, pass: &mut Pass<N>)
    requires cards { length N.cards ≡ 3 }
{
    for i in 0..3 {
        let sub = SubId(i);
        assert_eq!(rt; f.page(pass, sub).state, State::Closed);
        let got = called(rt, f, pass, sub, Call::OpenSub, &mut []);
        assert_eq!(rt; got, quiet(Reply::Ok, State::Opened));
        let got = called(rt, f, pass, sub, Call::HwParams(SMALL), &mut []);
        assert_eq!(rt; got, quiet(Reply::Ok, State::Setup));
    }
}

// A card is not linked to itself. Two meet, and the second of them can't be linked by another. It leaves, and then no group is
// left from which the first could go.
fn meet_and_part<N: FloorName + Ledger, R: Abort + Wait>(rt: &R, f: &Floor<N>, pass: &mut Pass<N>)
    requires cards { length N.cards ≡ 3 }
{
    let answer = linked(rt, f, pass, FIRST, FIRST);
    let got = shown(f, pass, FIRST, answer);
    assert_eq!(rt; got, quiet(Reply::Err(Errno::Einval), State::Setup));
    let answer = linked(rt, f, pass, FIRST, SECOND);
    let got = shown(f, pass, FIRST, answer);
    assert_eq!(rt; got, quiet(Reply::Ok, State::Setup));
    let answer = linked(rt, f, pass, THIRD, SECOND);
    let got = shown(f, pass, THIRD, answer);
    assert_eq!(rt; got, quiet(Reply::Err(Errno::Ealready), State::Setup));
    let answer = unlinked(rt, f, pass, SECOND);
    let got = shown(f, pass, SECOND, answer);
    assert_eq!(rt; got, quiet(Reply::Ok, State::Setup));
    let answer = unlinked(rt, f, pass, FIRST);
    let got = shown(f, pass, FIRST, answer);
    assert_eq!(rt; got, quiet(Reply::Err(Errno::Ealready), State::Setup));
}

fn parting<N: FloorName + Ledger, R: Abort + Wait>(
    rt: &R,
    alloc: Global,
    blank: Blank,
    words: SharedWords,
    maker: Maker,
) -> Result<(), Fail>
    requires ledger { (blank.name ≡ N.name) × (blank.parts ≡ N.parts) × (N.parts ≡ 32) }
    requires words { words ≡ record { table = N.table; cards = 3 } }
    requires cards { (N.cards ≡ (basic, PlaybackDir) ∷ (basic, PlaybackDir) ∷ (basic, PlaybackDir) ∷ []) × (N.long_max ≡ 2147483647) }
    requires maker { maker ≡ record { table = N.table; knows = record { recs = 0; passes = 0; roll = [] } } }
{
    let cards = [(Model::Basic, Dir::Playback); 3];
    let (floor, passes) = Floor::<N>::new(alloc, blank, words, maker, &cards, 2_147_483_647)?;
    let mut clients = passes.clients;
    set_up(rt, &floor, &mut clients[0]);
    meet_and_part(rt, &floor, &mut clients[0]);
    Ok(())
}

#[test]
fn a_group_of_two_ends_when_one_leaves(rt: HostRuntime) -> Result<(), Fail> {
    let (words, maker) = SharedWords::new(rt.alloc(), 3)?;
    parting::<Brand, HostRuntime>(&rt, rt.alloc(), Blank::new(32), words, maker)
}

// A client writes six frames to a buffer of four. It starts the card with those that fit, and sleeps.
fn write_and_sleep<N: FloorName + Ledger, R: Abort + Wait>(rt: &R, f: &Floor<N>, pass: &mut Pass<N>)
    requires card { 0 < length N.cards }
{
    let write = Call::Write(Layout::Interleaved, Mode::Block);
    let got = called(rt, f, pass, FIRST, Call::OpenSub, &mut []);
    assert_eq!(rt; got, quiet(Reply::Ok, State::Opened));
    let got = called(rt, f, pass, FIRST, Call::HwParams(SMALL), &mut []);
    assert_eq!(rt; got, quiet(Reply::Ok, State::Setup));
    let got = called(rt, f, pass, FIRST, Call::Prepare, &mut []);
    assert_eq!(rt; got, quiet(Reply::Ok, State::Prepared));
    let got = called(rt, f, pass, FIRST, write, &mut [1, 2, 3, 4, 5, 6]);
    assert_eq!(rt; got, quiet(Reply::Asleep, State::Running));
}

// The card moves, and its client sleeps on. The interrupt wakes the client, which writes the rest.
fn wake_and_end<N: FloorName + Ledger, R: Abort + Wait>(
    rt: &R,
    f: &Floor<N>,
    pass: &mut Pass<N>,
    card: &mut Pass<N>,
)
    requires card { 0 < length N.cards }
    requires by { card.old.caller ≡ Card FIRST }
{
    let got = of_card(rt, f, card, FIRST, Call::MoveBy(2));
    assert_eq!(rt; got, quiet(Reply::Moved(2), State::Running));
    let got = gone_on(rt, f, pass, FIRST, &mut [1, 2, 3, 4, 5, 6]);
    assert_eq!(rt; got, quiet(Reply::Asleep, State::Running));
    let got = of_card(rt, f, card, FIRST, Call::Irq);
    assert_eq!(rt; got, Some((Reply::Ok, State::Running, 1)));
    let got = gone_on(rt, f, pass, FIRST, &mut [1, 2, 3, 4, 5, 6]);
    assert_eq!(rt; got, quiet(Reply::Frames(6), State::Running));
}

fn waking<N: FloorName + Ledger, R: Abort + Wait>(
    rt: &R,
    alloc: Global,
    blank: Blank,
    words: SharedWords,
    maker: Maker,
) -> Result<(), Fail>
    requires ledger { (blank.name ≡ N.name) × (blank.parts ≡ N.parts) × (N.parts ≡ 32) }
    requires words { words ≡ record { table = N.table; cards = 1 } }
    requires cards { (N.cards ≡ (basic, PlaybackDir) ∷ []) × (N.long_max ≡ 2147483647) }
    requires maker { maker ≡ record { table = N.table; knows = record { recs = 0; passes = 0; roll = [] } } }
{
    let cards = [(Model::Basic, Dir::Playback)];
    let (floor, passes) = Floor::<N>::new(alloc, blank, words, maker, &cards, 2_147_483_647)?;
    let mut clients = passes.clients;
    let mut of_cards = passes.cards;
    assert_eq!(rt; floor.page(&mut clients[0], FIRST).state, State::Closed);
    write_and_sleep(rt, &floor, &mut clients[0]);
    wake_and_end(rt, &floor, &mut clients[0], &mut of_cards[0]);
    Ok(())
}

#[test]
fn a_client_asleep_in_a_write_is_woken_by_its_card(rt: HostRuntime) -> Result<(), Fail> {
    let (words, maker) = SharedWords::new(rt.alloc(), 1)?;
    waking::<Brand, HostRuntime>(&rt, rt.alloc(), Blank::new(32), words, maker)
}
