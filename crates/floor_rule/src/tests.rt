// Worked examples: page words, and a call on a substream, as a room makes it, on a floor of two substreams and one pass.
ghost use Rattle.std.specs.Prelude.{◌<◌, ◌^◌};

use super::*;
use pcm_base::{Bytes, Call, Event, Reply, State, SubId};
use std::process::Abort;
use std::sync::Mutex;
use std::test::Fail;

fn packs_as(rt: &impl Abort, count: u32, state: State, hw: u64, word: u64)
    requires count { count < 2 ^ 24 }
    requires hw { hw < 2 ^ 36 }
{
    let packed = pack(count, state, hw);
    assert_eq!(rt; packed, word);
    assert_eq!(rt; unpack(packed), Glance { count, state, hw });
}

// The count times 2^40, the number of the state times 2^36, and the shown hardware position.
#[test]
fn a_page_word_has_three_parts(rt: HostRuntime) {
    packs_as(&rt, 0, State::Closed, 0, 1_030_792_151_040);
    packs_as(&rt, 1, State::Running, 7, 1_305_670_057_991);
    packs_as(&rt, 5, State::Xrun, 65_536, 5_772_436_111_360);
    packs_as(
        &rt,
        16_777_215,
        State::Disconnected,
        68_719_476_735,
        18_446_743_592_673_214_463,
    );
}

fn is_shared<T: Sync>(_value: &T) {}

#[test]
fn a_page_shows_the_last_entry(rt: HostRuntime) -> Result<(), Fail> {
    let (words, mut maker) = SharedWords::new(rt.alloc(), 2)?;
    let mut rec = maker.add_rec(&words);
    let other = maker.add_rec(&words);
    let mut pass = maker.add_pass(&words);
    let event = Event {
        client: None,
        sub: SubId(0),
        call: Call::Irq,
    };
    let entry = Entry::Own {
        event,
        bytes: Bytes::copy_of(rt.alloc(), &[])?,
        joints: Joints::new(),
        reply: Reply::Ok,
        state: State::Running,
    };
    own_call(
        &words,
        &mut rec,
        &mut pass,
        &event,
        0,
        &entry,
        State::Running,
        7,
    );
    rec.set_place(&words, 17);
    let word = pass.read_page(&words, SubId(0));
    assert_eq!(rt;
        unpack(word),
        Glance {
            count: 1,
            state: State::Running,
            hw: 7
        }
    );
    assert_eq!(rt; pass.read_page(&words, SubId(1)), 1_030_792_151_040);
    assert_eq!(rt; pass.read_place(&words, SubId(0)), 17);
    assert_eq!(rt; pass.read_place(&words, SubId(1)), 1);
    maker.take_rec(&words, rec);
    maker.take_rec(&words, other);
    maker.call_roll(&words);
    is_shared(&words);
    is_shared(&Mutex::new(maker));
    Ok(())
}
