// Rooms of one member, and links of them, on floors of one and three cards.
ghost use Rattle.std.specs.Prelude.{◌≡◌, ◌≤◌, ◌<◌, ◌∷◌, [], true, Some, length};
ghost use Rattle.std.specs.Option.{ForSome, is_none};
ghost use Rattle.card_emul.specs.Limits.{basic};
ghost use Rattle.pcm_base.specs.declared.state.Dir.TheVariants.{Playback as PlaybackDir};
ghost use Rattle.pcm_base.specs.model.Replay.{is_member};
ghost use Rattle.pcm_group.specs.Turn.{is_card_event, is_group_call};
ghost use Rattle.pcm_stream.specs.Members.{numbers_of};
ghost use Rattle.room_parts.specs.Passes.{IsBy};
ghost use Rattle.room_parts.specs.declared.pass.Caller.TheVariants.{Client as ClientCaller};

use super::*;
use floor_rule::{Glance, Maker, SharedWords};
use pcm_base::{
    Access, Call, ClientId, Config, Dir, Errno, Event, Format, Layout, Mode, Model, Page, Reply,
    State, SubId,
};
use room_parts::{Caller, FloorName, Pass, Rec};
use std::alloc::{AllocError, Global};
use std::marker::Brand;
use std::process::Abort;
use std::test::Fail;

const CLIENT: ClientId = ClientId(0);

const OTHER: ClientId = ClientId(1);

const FIRST: SubId = SubId(0);

const SECOND: SubId = SubId(1);

const THIRD: SubId = SubId(2);

// Two periods of two one-byte frames.
const SMALL: Config = Config {
    access: Access::RwInterleaved,
    format: Format::U8,
    channels: 1,
    rate: 8000,
    period: 2,
    periods: 2,
};

// What an event of a substream that stands alone was answered, and what the page of its log shows then.
fn answered<N: FloorName>(
    room: &mut Room<N>,
    words: &SharedWords,
    pass: &mut Pass<N>,
    sub: SubId,
    event: Event,
    io: &mut [u8],
) -> (Answer, Glance)
    requires words { (words.now.table ≡ N.table) × (words.now.cards ≡ length N.cards) }
    requires card { sub.0 < length N.cards }
    requires here { (event.sub ≡ sub) × (numbers_of room.old.members ≡ sub ∷ []) }
    requires call { is_group_call event.call ≡ true }
    requires caller { is_card_event event.call ≡ is_none event.client }
    requires client { ForSome event.client (λ c. c.0 ≤ 15) }
    requires by { IsBy pass.old.caller event }
    ensures here { numbers_of room.new.members ≡ sub ∷ [] }
    ensures number { room.new.number ≡ room.old.number }
    ensures caller { pass.new.caller ≡ pass.old.caller }
{
    let answer = room.turn(words, pass, &event, io);
    let page = pass.page(words, sub);
    (answer, page)
}

// The same of a member of a group.
fn answered_in_group<N: FloorName>(
    room: &mut Room<N>,
    words: &SharedWords,
    pass: &mut Pass<N>,
    sub: SubId,
    event: Event,
    io: &mut [u8],
) -> (Answer, Glance)
    requires words { (words.now.table ≡ N.table) × (words.now.cards ≡ length N.cards) }
    requires card { sub.0 < length N.cards }
    requires here { (event.sub ≡ sub) × (is_member sub (numbers_of room.old.members) ≡ true) }
    requires call { is_group_call event.call ≡ true }
    requires caller { is_card_event event.call ≡ is_none event.client }
    requires client { ForSome event.client (λ c. c.0 ≤ 15) }
    requires by { IsBy pass.old.caller event }
    ensures here { numbers_of room.new.members ≡ numbers_of room.old.members }
    ensures caller { pass.new.caller ≡ pass.old.caller }
{
    let answer = room.turn(words, pass, &event, io);
    let page = pass.page(words, sub);
    (answer, page)
}

fn by_client(sub: SubId, call: Call) -> Event
    ensures { result ≡ record { client = Some CLIENT; sub = sub; call = call } }
{
    Event {
        client: Some(CLIENT),
        sub,
        call,
    }
}

fn by_card(sub: SubId, call: Call) -> Event
    ensures { result ≡ record { client = None; sub = sub; call = call } }
{
    Event {
        client: None,
        sub,
        call,
    }
}

// The answer of the call whose entry is the one at this place, and the page after it.
fn done(sub: SubId, reply: Reply, index: u32, state: State, hw: u64) -> (Answer, Glance)
    requires { index ≤ 100 }
{
    let receipt = Receipt { sub, index };
    let answer = Answer::Done {
        reply,
        receipt,
        woken: 0,
    };
    let page = Glance {
        count: index + 1,
        state,
        hw,
    };
    (answer, page)
}

// A page that shows so many entries, and the hardware position 0.
fn page_of(count: u32, state: State) -> Glance {
    Glance {
        count,
        state,
        hw: 0,
    }
}

// Four frames are written, three are taken, and the card interrupts.
fn playing<N: FloorName, R: Abort>(
    rt: &R,
    alloc: Global,
    words: SharedWords,
    mut maker: Maker,
) -> Result<(), AllocError>
    requires table { words.table ≡ N.table }
    requires cards { (words.cards ≡ 1) × (N.cards ≡ (basic, PlaybackDir) ∷ []) × (N.long_max ≡ 2147483647) }
    requires maker { maker ≡ record { table = N.table; knows = record { recs = 0; passes = 0; roll = [] } } }
{
    let rec = Rec::<N>::new(alloc, maker.add_rec(&words));
    let mut client = Pass::<N>::new(maker.add_pass(&words), Caller::Client(CLIENT));
    let mut card = Pass::<N>::new(maker.add_pass(&words), Caller::Card(FIRST));
    let mut room = Room::alone(alloc, rec, (Model::Basic, Dir::Playback), 2_147_483_647)?;
    let r = &mut room;
    let open = by_client(FIRST, Call::OpenSub);
    let hw = by_client(FIRST, Call::HwParams(SMALL));
    let prepare = by_client(FIRST, Call::Prepare);
    let write = by_client(FIRST, Call::Write(Layout::Interleaved, Mode::NonBlock));
    let movement = by_card(FIRST, Call::MoveBy(3));
    let interrupt = by_card(FIRST, Call::Irq);
    let status = by_client(FIRST, Call::Status);
    let got = answered(r, &words, &mut client, FIRST, open, &mut []);
    assert_eq!(rt; got, done(FIRST, Reply::Ok, 0, State::Opened, 0));
    let got = answered(r, &words, &mut client, FIRST, hw, &mut []);
    assert_eq!(rt; got, done(FIRST, Reply::Ok, 1, State::Setup, 0));
    let got = answered(r, &words, &mut client, FIRST, prepare, &mut []);
    assert_eq!(rt; got, done(FIRST, Reply::Ok, 2, State::Prepared, 0));
    let got = answered(r, &words, &mut client, FIRST, write, &mut [1, 2, 3, 4]);
    assert_eq!(rt; got, done(FIRST, Reply::Frames(4), 3, State::Running, 0));
    let got = answered(r, &words, &mut card, FIRST, movement, &mut []);
    assert_eq!(rt; got, done(FIRST, Reply::Moved(3), 4, State::Running, 0));
    let got = answered(r, &words, &mut card, FIRST, interrupt, &mut []);
    assert_eq!(rt; got, done(FIRST, Reply::Ok, 5, State::Running, 3));
    let got = answered(r, &words, &mut client, FIRST, status, &mut []);
    let page = Page {
        state: State::Running,
        hw: 3,
        appl: 4,
        avail: 3,
    };
    assert_eq!(rt; got, done(FIRST, Reply::Ptrs(page), 6, State::Running, 3));
    Ok(())
}

// A card is opened and set up.
fn set_up<N: FloorName>(
    room: &mut Room<N>,
    words: &SharedWords,
    pass: &mut Pass<N>,
    sub: SubId,
) -> (Answer, Glance)
    requires words { (words.now.table ≡ N.table) × (words.now.cards ≡ length N.cards) }
    requires card { sub.0 < length N.cards }
    requires here { numbers_of room.old.members ≡ sub ∷ [] }
    requires caller { pass.old.caller ≡ ClientCaller CLIENT }
    ensures here { numbers_of room.new.members ≡ sub ∷ [] }
    ensures number { room.new.number ≡ room.old.number }
    ensures caller { pass.new.caller ≡ pass.old.caller }
{
    let open = by_client(sub, Call::OpenSub);
    let _ = answered(room, words, pass, sub, open, &mut []);
    let hw = by_client(sub, Call::HwParams(SMALL));
    answered(room, words, pass, sub, hw, &mut [])
}

// Three cards are set up alike. A link to itself is refused, two are linked, a link of the second to the third is refused, and
// so is an unlink of the third, which stands alone.
fn linking<N: FloorName, R: Abort>(
    rt: &R,
    alloc: Global,
    words: SharedWords,
    mut maker: Maker,
) -> Result<(), AllocError>
    requires table { words.table ≡ N.table }
    requires cards { (words.cards ≡ 3) × (N.cards ≡ (basic, PlaybackDir) ∷ (basic, PlaybackDir) ∷ (basic, PlaybackDir) ∷ []) × (N.long_max ≡ 2147483647) }
    requires maker { maker ≡ record { table = N.table; knows = record { recs = 0; passes = 0; roll = [] } } }
{
    let card = (Model::Basic, Dir::Playback);
    let rec = Rec::<N>::new(alloc, maker.add_rec(&words));
    let second_rec = Rec::<N>::new(alloc, maker.add_rec(&words));
    let third_rec = Rec::<N>::new(alloc, maker.add_rec(&words));
    let mut pass = Pass::<N>::new(maker.add_pass(&words), Caller::Client(CLIENT));
    let mut first = Room::alone(alloc, rec, card, 2_147_483_647)?;
    let mut second = Room::alone(alloc, second_rec, card, 2_147_483_647)?;
    let mut third = Room::alone(alloc, third_rec, card, 2_147_483_647)?;
    let mut group = Room::<N>::new(alloc, 16)?;
    let p = &mut pass;
    let got = set_up(&mut first, &words, p, FIRST);
    assert_eq!(rt; got, done(FIRST, Reply::Ok, 1, State::Setup, 0));
    let got = set_up(&mut second, &words, p, SECOND);
    assert_eq!(rt; got, done(SECOND, Reply::Ok, 1, State::Setup, 0));
    let got = set_up(&mut third, &words, p, THIRD);
    assert_eq!(rt; got, done(THIRD, Reply::Ok, 1, State::Setup, 0));
    let link = by_client(FIRST, Call::Link(FIRST));
    let answer = link_to_itself(&words, p, &mut first, &link);
    let got = (answer, p.page(&words, FIRST));
    let refused = Reply::Err(Errno::Einval);
    assert_eq!(rt; got, done(FIRST, refused, 2, State::Setup, 0));
    let link = by_client(FIRST, Call::Link(SECOND));
    let answer = link_rooms(&words, p, &mut first, &mut second, &mut group, &link);
    assert_eq!(rt; answer, done(FIRST, Reply::Ok, 3, State::Setup, 0).0);
    assert_eq!(rt; p.page(&words, FIRST), page_of(5, State::Setup));
    assert_eq!(rt; p.page(&words, SECOND), page_of(4, State::Setup));
    let is_here = group.holds(SECOND) && !third.holds(SECOND);
    assert!(rt; is_here);
    let link = by_client(THIRD, Call::Link(SECOND));
    let answer = link_to_group(&words, p, &mut third, &mut group, &link);
    let got = (answer, p.page(&words, THIRD));
    let refused = Reply::Err(Errno::Ealready);
    assert_eq!(rt; got, done(THIRD, refused, 2, State::Setup, 0));
    let number = third.number();
    assert!(rt; number < 16);
    let is_here = third.holds(THIRD);
    assert!(rt; is_here);
    let unlink = by_client(THIRD, Call::Unlink);
    let answer = unlink_alone(&words, p, &mut third, &unlink);
    let got = (answer, p.page(&words, THIRD));
    assert_eq!(rt; got, done(THIRD, refused, 3, State::Setup, 0));
    joining(rt, &words, p, &mut group, &mut third);
    draining(rt, &words, p, &mut group);
    let mut other = Pass::<N>::new(maker.add_pass(&words), Caller::Client(OTHER));
    parting(rt, &words, &mut other, &mut group, &mut first, &mut second);
    Ok(())
}

// The third joins the two that are linked, and leaves them again.
fn joining<N: FloorName, R: Abort>(
    rt: &R,
    words: &SharedWords,
    pass: &mut Pass<N>,
    group: &mut Room<N>,
    third: &mut Room<N>,
)
    requires words { (words.now.table ≡ N.table) × (words.now.cards ≡ length N.cards) × (length N.cards ≡ 3) }
    requires group { group.old.number ≡ 16 }
    requires third { third.old.number ≡ 2 }
    requires caller { pass.old.caller ≡ ClientCaller CLIENT }
    ensures caller { pass.new.caller ≡ pass.old.caller }
{
    let is_here = group.holds(FIRST) && third.holds(THIRD) && !group.holds(THIRD);
    assert!(rt; is_here);
    let link = by_client(FIRST, Call::Link(THIRD));
    let answer = link_to_group(words, pass, group, third, &link);
    assert_eq!(rt; answer, done(FIRST, Reply::Ok, 5, State::Setup, 0).0);
    assert_eq!(rt; pass.page(words, FIRST), page_of(6, State::Setup));
    assert_eq!(rt; pass.page(words, THIRD), page_of(6, State::Setup));
    let is_gone = group.holds(THIRD) && !third.holds(THIRD);
    assert!(rt; is_gone);
    leaving(rt, words, pass, group, third);
}

// The third leaves the two, and stands alone.
fn leaving<N: FloorName, R: Abort>(
    rt: &R,
    words: &SharedWords,
    pass: &mut Pass<N>,
    group: &mut Room<N>,
    third: &mut Room<N>,
)
    requires words { (words.now.table ≡ N.table) × (words.now.cards ≡ length N.cards) × (length N.cards ≡ 3) }
    requires third { third.old.number ≡ 2 }
    requires caller { pass.old.caller ≡ ClientCaller CLIENT }
    ensures caller { pass.new.caller ≡ pass.old.caller }
{
    let is_ready = group.len() >= 3 && group.holds(THIRD) && third.is_empty();
    assert!(rt; is_ready);
    let unlink = by_client(THIRD, Call::Unlink);
    let answer = unlink_from_group(words, pass, group, third, &unlink);
    assert_eq!(rt; answer, done(THIRD, Reply::Ok, 6, State::Setup, 0).0);
    assert_eq!(rt; pass.page(words, THIRD), page_of(8, State::Setup));
    let is_home = group.len() == 2 && third.holds(THIRD);
    assert!(rt; is_home);
}

// The second of two plays out what it was given, and the client waits on the first for that.
fn draining<N: FloorName, R: Abort>(
    rt: &R,
    words: &SharedWords,
    pass: &mut Pass<N>,
    group: &mut Room<N>,
)
    requires words { (words.now.table ≡ N.table) × (words.now.cards ≡ length N.cards) × (length N.cards ≡ 3) }
    requires caller { pass.old.caller ≡ ClientCaller CLIENT }
{
    let is_ready = group.holds(FIRST) && group.holds(SECOND);
    assert!(rt; is_ready);
    let prepare = by_client(FIRST, Call::Prepare);
    let write = by_client(SECOND, Call::Write(Layout::Interleaved, Mode::NonBlock));
    let drain = by_client(SECOND, Call::Drain(Mode::NonBlock));
    let wait = by_client(FIRST, Call::Drain(Mode::Block));
    let got = answered_in_group(group, words, pass, FIRST, prepare, &mut []);
    assert_eq!(rt; got, done(FIRST, Reply::Ok, 6, State::Prepared, 0));
    let got = answered_in_group(group, words, pass, SECOND, write, &mut [1, 2]);
    assert_eq!(rt; got, done(SECOND, Reply::Frames(2), 6, State::Prepared, 0));
    let got = answered_in_group(group, words, pass, SECOND, drain, &mut []);
    let again = Reply::Err(Errno::Eagain);
    assert_eq!(rt; got, done(SECOND, again, 7, State::Draining, 0));
    let got = answered_in_group(group, words, pass, FIRST, wait, &mut []);
    assert_eq!(rt; got, done(FIRST, Reply::Asleep, 9, State::Setup, 0));
}

// The two part by a call of another client. The one that waited on the first is woken, since nothing drains there any more.
fn parting<N: FloorName, R: Abort>(
    rt: &R,
    words: &SharedWords,
    pass: &mut Pass<N>,
    group: &mut Room<N>,
    first: &mut Room<N>,
    second: &mut Room<N>,
)
    requires words { (words.now.table ≡ N.table) × (words.now.cards ≡ length N.cards) × (length N.cards ≡ 3) }
    requires homes { (first.old.number ≡ 0) × (second.old.number ≡ 1) }
    requires caller { pass.old.caller ≡ ClientCaller OTHER }
{
    let is_ready = group.len() == 2 && group.holds(FIRST) && group.holds(SECOND);
    assert!(rt; is_ready);
    let are_left = first.is_empty() && second.is_empty();
    assert!(rt; are_left);
    let unlink = Event {
        client: Some(OTHER),
        sub: FIRST,
        call: Call::Unlink,
    };
    let answer = unlink_rooms(words, pass, group, first, second, &unlink);
    let receipt = Receipt {
        sub: FIRST,
        index: 10,
    };
    let told = Answer::Done {
        reply: Reply::Ok,
        receipt,
        woken: 1,
    };
    assert_eq!(rt; answer, told);
    assert_eq!(rt; pass.page(words, FIRST), page_of(12, State::Setup));
    assert_eq!(rt; pass.page(words, SECOND), page_of(11, State::Draining));
    let are_home = group.is_empty() && first.holds(FIRST) && second.holds(SECOND);
    assert!(rt; are_home);
}

#[test]
fn one_member_plays(rt: HostRuntime) -> Result<(), Fail> {
    let (words, maker) = SharedWords::new(rt.alloc(), 1)?;
    playing::<Brand, HostRuntime>(&rt, rt.alloc(), words, maker)?;
    Ok(())
}

#[test]
fn substreams_are_linked(rt: HostRuntime) -> Result<(), Fail> {
    let (words, maker) = SharedWords::new(rt.alloc(), 3)?;
    linking::<Brand, HostRuntime>(&rt, rt.alloc(), words, maker)?;
    Ok(())
}

// Two that are linked are linked again, and what is left of their room is their logs and themselves.
fn linking_again<N: FloorName, R: Abort>(
    rt: &R,
    alloc: Global,
    words: SharedWords,
    mut maker: Maker,
) -> Result<(), AllocError>
    requires table { words.table ≡ N.table }
    requires cards { (words.cards ≡ 2) × (N.cards ≡ (basic, PlaybackDir) ∷ (basic, PlaybackDir) ∷ []) × (N.long_max ≡ 2147483647) }
    requires maker { maker ≡ record { table = N.table; knows = record { recs = 0; passes = 0; roll = [] } } }
{
    let card = (Model::Basic, Dir::Playback);
    let rec = Rec::<N>::new(alloc, maker.add_rec(&words));
    let second_rec = Rec::<N>::new(alloc, maker.add_rec(&words));
    let mut pass = Pass::<N>::new(maker.add_pass(&words), Caller::Client(CLIENT));
    let mut first = Room::alone(alloc, rec, card, 2_147_483_647)?;
    let mut second = Room::alone(alloc, second_rec, card, 2_147_483_647)?;
    let mut group = Room::<N>::new(alloc, 16)?;
    let p = &mut pass;
    let _ = set_up(&mut first, &words, p, FIRST);
    let _ = set_up(&mut second, &words, p, SECOND);
    let link = by_client(FIRST, Call::Link(SECOND));
    let _ = link_rooms(&words, p, &mut first, &mut second, &mut group, &link);
    let are_here = group.holds(FIRST) && group.holds(SECOND);
    assert!(rt; are_here);
    let link = by_client(SECOND, Call::Link(FIRST));
    let answer = link_within(&words, p, &mut group, &link);
    let refused = Reply::Err(Errno::Ealready);
    assert_eq!(rt; answer, done(SECOND, refused, 4, State::Setup, 0).0);
    assert_eq!(rt; p.page(&words, FIRST), page_of(5, State::Setup));
    assert_eq!(rt; p.page(&words, SECOND), page_of(5, State::Setup));
    let (recs, members) = group.into_parts();
    let is_whole = recs.len() == 2 && members.len() == 2;
    assert!(rt; is_whole);
    Ok(())
}

#[test]
fn two_of_one_room_are_linked(rt: HostRuntime) -> Result<(), Fail> {
    let (words, maker) = SharedWords::new(rt.alloc(), 2)?;
    linking_again::<Brand, HostRuntime>(&rt, rt.alloc(), words, maker)?;
    Ok(())
}
