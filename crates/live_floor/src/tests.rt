// Floors of one card: a client plays, and two clients ask at once. A floor of three: links, a start that all follow, and
// unlinks.
ghost use Rattle.std.specs.Prelude.{◌≡◌, ◌<◌, ◌≤◌, ◌∷◌, [], true, false, length};
ghost use Rattle.std.specs.Option.{ForSome, is_none};
ghost use Rattle.card_emul.specs.Limits.{basic};
ghost use Rattle.pcm_base.specs.declared.state.Dir.TheVariants.{Capture as CaptureDir, Playback as PlaybackDir};
ghost use Rattle.pcm_group.specs.Turn.{is_card_event, is_group_call};
ghost use Rattle.room_parts.specs.Passes.{IsBy};
ghost use Rattle.room_parts.specs.declared.pass.Caller.TheVariants.{Card, Client};

use super::*;
use floor_rule::{Glance, Maker, SharedWords};
use pcm_base::{
    Access, Call, ClientId, Config, Dir, Errno, Event, Format, Layout, Mode, Model, Page, Reply,
    State, SubId,
};
use room_lock::{Answer, Receipt};
use room_parts::{FloorName, Pass};
use std::alloc::Global;
use std::marker::Brand;
use std::process::Abort;
use std::sync::Wait;
use std::sync::ledger::{Blank, Ledger};
use std::test::Fail;
use std::thread::{Threads, join};

const CLIENT: ClientId = ClientId(0);

const CARD: SubId = SubId(0);

const OTHER: SubId = SubId(1);

const THIRD: SubId = SubId(2);

// Two periods of two one-byte frames.
pub(crate) const SMALL: Config = Config {
    access: Access::RwInterleaved,
    format: Format::U8,
    channels: 1,
    rate: 8000,
    period: 2,
    periods: 2,
};

// What an event was answered, and what the page shows then. A pass with a call in progress makes none.
fn answered<N: FloorName + Ledger, R: Wait>(
    rt: &R,
    floor: &Floor<N>,
    pass: &mut Pass<N>,
    event: Event,
    io: &mut [u8],
) -> (Answer, Glance)
    requires card { event.sub.0 < length N.cards }
    requires call { is_group_call event.call ≡ true }
    requires caller { is_card_event event.call ≡ is_none event.client }
    requires client { ForSome event.client (λ c. c.0 ≤ 15) }
    requires by { IsBy pass.old.caller event }
    ensures caller { pass.new.caller ≡ pass.old.caller }
{
    let answer = match pass.busy() {
        None => floor.call(rt, pass, &event, io),
        Some(_) => Answer::Memory,
    };
    let page = floor.page(pass, event.sub);
    (answer, page)
}

fn by_client(call: Call) -> Event
    ensures { result ≡ record { client = Some CLIENT; sub = CARD; call = call } }
{
    Event {
        client: Some(CLIENT),
        sub: CARD,
        call,
    }
}

fn by_card(call: Call) -> Event
    ensures { result ≡ record { client = None; sub = CARD; call = call } }
{
    Event {
        client: None,
        sub: CARD,
        call,
    }
}

// The answer of the call whose entry is the one at this place, and the page after it.
fn done(reply: Reply, index: u32, state: State, hw: u64) -> (Answer, Glance)
    requires { index ≤ 100 }
{
    let receipt = Receipt { sub: CARD, index };
    let answer = Answer::Done {
        reply,
        receipt,
        woken: 0,
    };
    let page = Glance {
        count: index + 1,
        state,
        hw,
    };
    (answer, page)
}

// A client opens the card, sets it up and fills its buffer.
fn fill<N: FloorName + Ledger, R: Abort + Wait>(rt: &R, f: &Floor<N>, client: &mut Pass<N>)
    requires card { 0 < length N.cards }
    requires client { client.old.caller ≡ Client CLIENT }
    ensures caller { client.new.caller ≡ Client CLIENT }
{
    let open = by_client(Call::OpenSub);
    let hw = by_client(Call::HwParams(SMALL));
    let prepare = by_client(Call::Prepare);
    let write = by_client(Call::Write(Layout::Interleaved, Mode::NonBlock));
    let got = answered(rt, f, client, open, &mut []);
    assert_eq!(rt; got, done(Reply::Ok, 0, State::Opened, 0));
    let got = answered(rt, f, client, hw, &mut []);
    assert_eq!(rt; got, done(Reply::Ok, 1, State::Setup, 0));
    let got = answered(rt, f, client, prepare, &mut []);
    assert_eq!(rt; got, done(Reply::Ok, 2, State::Prepared, 0));
    let got = answered(rt, f, client, write, &mut [1, 2, 3, 4]);
    assert_eq!(rt; got, done(Reply::Frames(4), 3, State::Running, 0));
}

// The card moves by three frames, and interrupts.
fn take_three<N: FloorName + Ledger, R: Abort + Wait>(rt: &R, f: &Floor<N>, card: &mut Pass<N>)
    requires card { 0 < length N.cards }
    requires caller { card.old.caller ≡ Card CARD }
{
    let movement = by_card(Call::MoveBy(3));
    let interrupt = by_card(Call::Irq);
    let got = answered(rt, f, card, movement, &mut []);
    assert_eq!(rt; got, done(Reply::Moved(3), 4, State::Running, 0));
    let got = answered(rt, f, card, interrupt, &mut []);
    assert_eq!(rt; got, done(Reply::Ok, 5, State::Running, 3));
}

fn playing<N: FloorName + Ledger, R: Abort + Wait>(
    rt: &R,
    alloc: Global,
    blank: Blank,
    words: SharedWords,
    maker: Maker,
) -> Result<(), Fail>
    requires ledger { (blank.name ≡ N.name) × (blank.parts ≡ N.parts) × (N.parts ≡ 32) }
    requires words { words ≡ record { table = N.table; cards = 1 } }
    requires cards { (N.cards ≡ (basic, PlaybackDir) ∷ []) × (N.long_max ≡ 2147483647) }
    requires maker { maker ≡ record { table = N.table; knows = record { recs = 0; passes = 0; roll = [] } } }
{
    let cards = [(Model::Basic, Dir::Playback)];
    let (floor, passes) = Floor::<N>::new(alloc, blank, words, maker, &cards, 2_147_483_647)?;
    let mut clients = passes.clients;
    let mut of_cards = passes.cards;
    let client = &mut clients[0];
    let f = &floor;
    fill(rt, f, client);
    take_three(rt, f, &mut of_cards[0]);
    let status = by_client(Call::Status);
    let got = answered(rt, f, client, status, &mut []);
    let page = Page {
        state: State::Running,
        hw: 3,
        appl: 4,
        avail: 3,
    };
    assert_eq!(rt; got, done(Reply::Ptrs(page), 6, State::Running, 3));
    Ok(())
}

#[test]
fn a_client_plays_on_a_floor(rt: HostRuntime) -> Result<(), Fail> {
    let (words, maker) = SharedWords::new(rt.alloc(), 1)?;
    playing::<Brand, HostRuntime>(&rt, rt.alloc(), Blank::new(32), words, maker)
}

// What a call of the client of a pass is answered. A pass with a call in progress makes none.
fn asked<N: FloorName + Ledger, R: Wait>(
    rt: &R,
    floor: &Floor<N>,
    pass: &mut Pass<N>,
    sub: SubId,
    call: Call,
) -> Answer
    requires card { sub.0 < length N.cards }
    requires call { (is_group_call call ≡ true) × (is_card_event call ≡ false) }
{
    let Some(client) = pass.client() else {
        return Answer::Memory;
    };
    if client.0 > 15 || pass.busy().is_some() {
        return Answer::Memory;
    }
    let event = Event {
        client: Some(client),
        sub,
        call,
    };
    floor.call(rt, pass, &event, &mut [])
}

fn ask_thrice<N: FloorName + Ledger, R: Wait>(rt: &R, floor: &Floor<N>, pass: &mut Pass<N>)
    requires card { 0 < length N.cards }
{
    for _ in 0..3 {
        asked(rt, floor, pass, CARD, Call::Status);
    }
}

// Two clients ask from threads of their own, after one of them has opened the card.
fn asking<N: FloorName + Ledger + Send + Sync, R: Abort + Threads + Wait + Sync>(
    rt: &R,
    alloc: Global,
    blank: Blank,
    words: SharedWords,
    maker: Maker,
) -> Result<(), Fail>
    requires ledger { (blank.name ≡ N.name) × (blank.parts ≡ N.parts) × (N.parts ≡ 32) }
    requires words { words ≡ record { table = N.table; cards = 1 } }
    requires cards { (N.cards ≡ (basic, PlaybackDir) ∷ []) × (N.long_max ≡ 2147483647) }
    requires maker { maker ≡ record { table = N.table; knows = record { recs = 0; passes = 0; roll = [] } } }
{
    let cards = [(Model::Basic, Dir::Playback)];
    let (floor, passes) = Floor::<N>::new(alloc, blank, words, maker, &cards, 2_147_483_647)?;
    let mut clients = passes.clients;
    let f = &floor;
    let open = by_client(Call::OpenSub);
    let got = answered(rt, f, &mut clients[0], open, &mut []);
    assert_eq!(rt; got, done(Reply::Ok, 0, State::Opened, 0));
    let (front, back) = clients.split_at_mut(1);
    let one = &mut front[0];
    let two = &mut back[0];
    join(
        rt,
        ||
            requires { 0 < length N.cards }
        { ask_thrice(rt, f, one) },
        ||
            requires { 0 < length N.cards }
        { ask_thrice(rt, f, two) },
    );
    let page = floor.page(&mut clients[0], CARD);
    assert_eq!(rt; page.count, 7);
    Ok(())
}

#[test]
fn two_clients_ask_at_once(rt: HostRuntime) -> Result<(), Fail> {
    let (words, maker) = SharedWords::new(rt.alloc(), 1)?;
    asking::<Brand, HostRuntime>(&rt, rt.alloc(), Blank::new(32), words, maker)
}

// What a link by the client of a pass is answered. A pass with a call in progress makes none.
pub(crate) fn linked<N: FloorName + Ledger, R: Wait>(
    rt: &R,
    floor: &Floor<N>,
    pass: &mut Pass<N>,
    first: SubId,
    second: SubId,
) -> Answer
    requires card { first.0 < length N.cards }
{
    match (pass.client(), pass.busy()) {
        (Some(_), None) => floor.link(rt, pass, first, second),
        _ => Answer::Memory,
    }
}

// What an unlink is answered.
pub(crate) fn unlinked<N: FloorName + Ledger, R: Wait>(
    rt: &R,
    floor: &Floor<N>,
    pass: &mut Pass<N>,
    sub: SubId,
) -> Answer
    requires card { sub.0 < length N.cards }
{
    match (pass.client(), pass.busy()) {
        (Some(_), None) => floor.unlink(rt, pass, sub),
        _ => Answer::Memory,
    }
}

// The answer of the call whose entry is the one at this place of a log.
fn at(sub: SubId, index: u32, reply: Reply) -> Answer {
    Answer::Done {
        reply,
        receipt: Receipt { sub, index },
        woken: 0,
    }
}

// How many entries the log of a card has, and its state.
fn shown<N: FloorName + Ledger>(floor: &Floor<N>, pass: &mut Pass<N>, sub: SubId) -> (u32, State)
    requires card { sub.0 < length N.cards }
{
    let page = floor.page(pass, sub);
    (page.count, page.state)
}

// Each of three cards is opened and set up.
fn set_up<N: FloorName + Ledger, R: Abort + Wait>(rt: &R, floor: &Floor<N>, pass: &mut Pass<N>)
    requires cards { length N.cards ≡ 3 }
{
    for i in 0..3 {
        let sub = SubId(i);
        let got = asked(rt, floor, pass, sub, Call::OpenSub);
        assert_eq!(rt; got, at(sub, 0, Reply::Ok));
        let got = asked(rt, floor, pass, sub, Call::HwParams(SMALL));
        assert_eq!(rt; got, at(sub, 1, Reply::Ok));
    }
}

// A link to the same card is refused, and so are one to no card, and one of two that are linked. Two meet, and a third joins.
fn link_all<N: FloorName + Ledger, R: Abort + Wait>(rt: &R, f: &Floor<N>, pass: &mut Pass<N>)
    requires cards { length N.cards ≡ 3 }
{
    let got = linked(rt, f, pass, CARD, CARD);
    assert_eq!(rt; got, at(CARD, 2, Reply::Err(Errno::Einval)));
    let got = linked(rt, f, pass, CARD, SubId(9));
    assert_eq!(rt; got, at(CARD, 3, Reply::Err(Errno::Enxio)));
    let got = linked(rt, f, pass, CARD, OTHER);
    assert_eq!(rt; got, at(CARD, 4, Reply::Ok));
    let got = linked(rt, f, pass, CARD, OTHER);
    assert_eq!(rt; got, at(CARD, 6, Reply::Err(Errno::Ealready)));
    let got = linked(rt, f, pass, OTHER, THIRD);
    assert_eq!(rt; got, at(OTHER, 5, Reply::Ok));
    assert_eq!(rt; shown(f, pass, CARD), (7, State::Setup));
    assert_eq!(rt; shown(f, pass, OTHER), (6, State::Setup));
    assert_eq!(rt; shown(f, pass, THIRD), (4, State::Setup));
}

// All are prepared and start together. The third goes, and then the two that are left part.
fn start_and_part<N: FloorName + Ledger, R: Abort + Wait>(rt: &R, f: &Floor<N>, pass: &mut Pass<N>)
    requires cards { length N.cards ≡ 3 }
{
    let got = asked(rt, f, pass, CARD, Call::Prepare);
    assert_eq!(rt; got, at(CARD, 7, Reply::Ok));
    let got = asked(rt, f, pass, THIRD, Call::Start);
    assert_eq!(rt; got, at(THIRD, 5, Reply::Ok));
    assert_eq!(rt; shown(f, pass, CARD), (9, State::Running));
    assert_eq!(rt; shown(f, pass, OTHER), (8, State::Running));
    let got = unlinked(rt, f, pass, THIRD);
    assert_eq!(rt; got, at(THIRD, 6, Reply::Ok));
    let got = unlinked(rt, f, pass, CARD);
    assert_eq!(rt; got, at(CARD, 9, Reply::Ok));
    let got = unlinked(rt, f, pass, CARD);
    assert_eq!(rt; got, at(CARD, 11, Reply::Err(Errno::Ealready)));
}

// What one client does with all cards, and a call of another on a card that has been linked and unlinked.
fn linking<N: FloorName + Ledger, R: Abort + Wait>(
    rt: &R,
    alloc: Global,
    blank: Blank,
    words: SharedWords,
    maker: Maker,
) -> Result<(), Fail>
    requires ledger { (blank.name ≡ N.name) × (blank.parts ≡ N.parts) × (N.parts ≡ 32) }
    requires words { words ≡ record { table = N.table; cards = 3 } }
    requires cards { (N.cards ≡ (basic, CaptureDir) ∷ (basic, CaptureDir) ∷ (basic, CaptureDir) ∷ []) × (N.long_max ≡ 2147483647) }
    requires maker { maker ≡ record { table = N.table; knows = record { recs = 0; passes = 0; roll = [] } } }
{
    let cards = [(Model::Basic, Dir::Capture); 3];
    let (floor, passes) = Floor::<N>::new(alloc, blank, words, maker, &cards, 2_147_483_647)?;
    let mut clients = passes.clients;
    set_up(rt, &floor, &mut clients[0]);
    link_all(rt, &floor, &mut clients[0]);
    start_and_part(rt, &floor, &mut clients[0]);
    assert_eq!(rt; shown(&floor, &mut clients[1], OTHER), (9, State::Running));
    let got = asked(rt, &floor, &mut clients[1], OTHER, Call::DropNow);
    assert_eq!(rt; got, at(OTHER, 9, Reply::Ok));
    let all = floor.gather(Passes {
        clients,
        cards: passes.cards,
    });
    assert_eq!(rt; all.len(), 3);
    assert_eq!(rt; all[1].log.sub, OTHER);
    assert_eq!(rt; all[1].log.entries.len(), 10);
    Ok(())
}

#[test]
fn cards_are_linked_start_and_part(rt: HostRuntime) -> Result<(), Fail> {
    let (words, maker) = SharedWords::new(rt.alloc(), 3)?;
    linking::<Brand, HostRuntime>(&rt, rt.alloc(), Blank::new(32), words, maker)
}
