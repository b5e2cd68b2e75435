// Acts over groups of emulated cards.
use super::*;
use card_emul::AnyCard;
use pcm_base::{
    Access, Act, Card, Config, Dir, Errno, Format, Layout, Model, Outcome, SubId, Vote,
};
use pcm_stream::{Member, Members, Substream};
use sleepers::Sleepers;
use std::alloc::{AllocError, Global};

// Two periods of two one-byte frames.
const SMALL: Config = Config {
    access: Access::RwInterleaved,
    format: Format::U8,
    channels: 1,
    rate: 8000,
    period: 2,
    periods: 2,
};

// A playback member of this number, configured.
fn configured(alloc: Global, sub: u8) -> Member<AnyCard> {
    let card = AnyCard::new(alloc, Model::Basic, Dir::Playback);
    let mut stream = Substream::new(alloc, card, Dir::Playback, 2_147_483_647);
    let _ = stream.open_sub();
    let _ = stream.hw_params(&SMALL, false);
    Member {
        sub: SubId(sub),
        stream,
        sleepers: Sleepers::new(),
    }
}

// A group of so many members.
fn group_of(alloc: Global, count: u8) -> Result<Members<AnyCard>, AllocError> {
    let mut members = Members::new(alloc)?;
    for sub in 0..count {
        if members.len() < 16 {
            members.add(configured(alloc, sub));
        }
    }
    Ok(members)
}

// Two frames of data for the member at a place.
fn put(members: &mut Members<AnyCard>, place: usize) {
    if place >= members.len() {
        return;
    }
    let stream = &mut members.at_mut(place).stream;
    let Some(shape) = stream.shape() else {
        return;
    };
    let count = 2 / shape.frame_bytes;
    if 2 % shape.frame_bytes == 0 && count <= shape.buffer {
        stream.put_frames(Layout::Interleaved, &[1, 2], 0, count);
    }
}

fn plan(members: &mut Members<AnyCard>, place: usize) {
    if place < members.len() {
        let _ = members.at_mut(place).stream.fail_at(1);
    }
}

// How many cards run.
fn running(members: &Members<AnyCard>) -> usize {
    let mut count = 0;
    for i in 0..members.len() {
        if members.at(i).stream.card().runs() && count < 16 {
            count += 1;
        }
    }
    count
}

#[test]
fn a_start_that_fails_leaves_every_card_standing(rt: HostRuntime) -> Result<(), AllocError> {
    let mut members = group_of(rt.alloc(), 3)?;
    let prepared = act(&mut members, Act::Prepare { stop_first: false });
    assert_eq!(rt; prepared.outcome, Outcome::Done);
    for place in 0..3 {
        put(&mut members, place);
    }
    plan(&mut members, 2);
    let failed = act(&mut members, Act::Start);
    assert_eq!(rt; failed.outcome, Outcome::Failed(SubId(2)));
    assert_eq!(rt;
        failed.votes.as_slice(),
        [Vote::Yes, Vote::Yes, Vote::Fail].as_slice()
    );
    assert_eq!(rt; running(&members), 0);
    assert_eq!(rt; act(&mut members, Act::Start).outcome, Outcome::Done);
    assert_eq!(rt; running(&members), 3);
    Ok(())
}

#[test]
fn a_member_without_data_refuses_the_start_of_all(rt: HostRuntime) -> Result<(), AllocError> {
    let mut members = group_of(rt.alloc(), 2)?;
    let _ = act(&mut members, Act::Prepare { stop_first: false });
    put(&mut members, 0);
    plan(&mut members, 0);
    let refused = act(&mut members, Act::Start);
    assert_eq!(rt; refused.outcome, Outcome::Refused(SubId(1), Errno::Epipe));
    assert_eq!(rt;
        refused.votes.as_slice(),
        [Vote::Yes, Vote::Refuse(Errno::Epipe)].as_slice()
    );
    put(&mut members, 1);
    // The refused start has not looked at the plan.
    assert_eq!(rt;
        act(&mut members, Act::Start).outcome,
        Outcome::Failed(SubId(0))
    );
    assert_eq!(rt; act(&mut members, Act::Start).outcome, Outcome::Done);
    assert_eq!(rt; running(&members), 2);
    Ok(())
}
