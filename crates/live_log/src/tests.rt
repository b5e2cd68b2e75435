// Logs as they are printed, and where they go.
use super::*;
use floor_rule::{Entry, Joint, Joints};
use pcm_base::{
    Access, Act, Bytes, Call, ClientId, Config, Dir, Errno, Event, Format, Layout, Mode, Outcome,
    Page, Reply, State, SubId, Vote,
};
use pcm_io::MemSink;
use std::alloc::Global;
use std::process::Abort;
use std::test::Fail;

const DONE: Joint = Joint {
    act: Act::Start,
    room: 0,
    serial: 1,
    vote: Vote::Yes,
    outcome: Outcome::Done,
};

// An event of c0 on s0, that made these acts.
fn own(
    alloc: Global,
    call: Call,
    bytes: &[u8],
    made: Option<Joint>,
    reply: Reply,
    state: State,
) -> Result<Entry, Fail> {
    let client = match call {
        Call::MoveBy(_) | Call::Irq | Call::FailAt(_) | Call::Give | Call::Unplug => None,
        _ => Some(ClientId(0)),
    };
    let mut joints = Joints::new();
    if let Some(joint) = made {
        joints.push(joint);
    }
    Ok(Entry::Own {
        event: Event {
            client,
            sub: SubId(0),
            call,
        },
        bytes: Bytes::copy_of(alloc, bytes)?,
        joints,
        reply,
        state,
    })
}

fn joint(act: Act, serial: u64) -> Option<Joint> {
    Some(Joint {
        act,
        serial,
        ..DONE
    })
}

// Opened, set up, written once and dropped.
fn written_once(alloc: Global) -> Result<[Entry; 6], Fail> {
    let config = Config {
        access: Access::RwInterleaved,
        format: Format::U8,
        channels: 1,
        rate: 8000,
        period: 2,
        periods: 2,
    };
    let page = Page {
        state: State::Running,
        hw: 0,
        appl: 4,
        avail: 0,
    };
    let write = Call::Write(Layout::Interleaved, Mode::NonBlock);
    let prepared = joint(Act::Prepare { stop_first: false }, 0);
    let stopped = joint(Act::Stop(State::Setup), 2);
    Ok([
        own(alloc, Call::OpenSub, &[], None, Reply::Ok, State::Opened)?,
        own(
            alloc,
            Call::HwParams(config),
            &[],
            None,
            Reply::Ok,
            State::Setup,
        )?,
        own(
            alloc,
            Call::Prepare,
            &[],
            prepared,
            Reply::Ok,
            State::Prepared,
        )?,
        own(
            alloc,
            write,
            &[1, 2, 3, 4],
            Some(DONE),
            Reply::Frames(4),
            State::Running,
        )?,
        own(
            alloc,
            Call::Status,
            &[],
            None,
            Reply::Ptrs(page),
            State::Running,
        )?,
        own(alloc, Call::DropNow, &[], stopped, Reply::Ok, State::Setup)?,
    ])
}

const TWO_LOGS: &str = "s0 0 open c0 s0 = ok OPEN
s0 1 hw c0 s0 RW_INTERLEAVED U8 1 8000 2 2 = ok SETUP
s0 2 prepare c0 s0 = ok PREPARED + prepare r0 0 yes done
s0 3 writei c0 s0 n 01020304 = frames 4 RUNNING + start r0 1 yes done
s0 4 status c0 s0 = ptrs hw 0 appl 4 avail 0 RUNNING
s0 5 drop c0 s0 = ok SETUP + stop-SETUP r0 2 yes done
s1 0 moved r16
s1 1 moved r1
";

#[test]
fn a_log_printed_whole(rt: HostRuntime) -> Result<(), Fail> {
    let entries = written_once(rt.alloc())?;
    let other = [Entry::Moved { room: 16 }, Entry::Moved { room: 1 }];
    let logs = [
        LogOf {
            sub: SubId(0),
            dir: Dir::Playback,
            entries: &entries,
        },
        LogOf {
            sub: SubId(1),
            dir: Dir::Capture,
            entries: &other,
        },
    ];
    let mut out = MemSink::new(rt.alloc(), Vec::new(rt.alloc()));
    write_logs(rt.alloc(), &logs, &mut out)?;
    assert_eq!(rt; out.bytes(), TWO_LOGS.as_bytes());
    Ok(())
}

// The line of an entry at place 7 of s0.
fn shows(rt: &impl Abort, alloc: Global, dir: Dir, entry: &Entry, line: &str) -> Result<(), Fail> {
    let mut text = Vec::new(alloc);
    push_entry(&mut text, dir, SubId(0), 7, entry)?;
    assert_eq!(rt; text.as_slice(), line.as_bytes());
    Ok(())
}

#[test]
fn each_act_vote_and_outcome(rt: HostRuntime) -> Result<(), Fail> {
    let busy = Errno::Ebusy;
    let (first, last) = (Outcome::Failed(SubId(0)), Outcome::Failed(SubId(15)));
    let refused = Outcome::Refused(SubId(1), busy);
    let stop = Act::Stop(State::Xrun);
    let prepare = Act::Prepare { stop_first: true };
    for (act, vote, outcome, line) in [
        (
            Act::Start,
            Vote::Yes,
            Outcome::Done,
            "s15 0 joint start r16 3 yes done\n",
        ),
        (
            stop,
            Vote::Yes,
            Outcome::Done,
            "s15 0 joint stop-XRUN r16 3 yes done\n",
        ),
        (
            prepare,
            Vote::Refuse(busy),
            refused,
            "s15 0 joint prepare-stop r16 3 refuse-EBUSY refused-s1-EBUSY\n",
        ),
        (
            Act::Pause,
            Vote::Fail,
            first,
            "s15 0 joint pause r16 3 fail failed-s0\n",
        ),
        (
            Act::Release,
            Vote::Unasked,
            last,
            "s15 0 joint release r16 3 unasked failed-s15\n",
        ),
        (
            Act::Suspend,
            Vote::Yes,
            Outcome::Done,
            "s15 0 joint suspend r16 3 yes done\n",
        ),
        (
            Act::Resume,
            Vote::Yes,
            Outcome::Done,
            "s15 0 joint resume r16 3 yes done\n",
        ),
        (
            Act::Drain,
            Vote::Yes,
            Outcome::Done,
            "s15 0 joint drain r16 3 yes done\n",
        ),
        (
            Act::Watch,
            Vote::Yes,
            Outcome::Done,
            "s15 0 joint watch r16 3 yes done\n",
        ),
    ] {
        let shared = Entry::Shared(Joint {
            act,
            room: 16,
            serial: 3,
            vote,
            outcome,
        });
        let mut text = Vec::new(rt.alloc());
        push_entry(&mut text, Dir::Capture, SubId(15), 0, &shared)?;
        assert_eq!(rt; text.as_slice(), line.as_bytes());
    }
    Ok(())
}

#[test]
fn each_kind_of_entry(rt: HostRuntime) -> Result<(), Fail> {
    let link = Entry::Linkage {
        client: ClientId(3),
        first: SubId(0),
        second: SubId(1),
        first_state: State::Setup,
        second_state: State::Opened,
        second_linked: false,
        reply: Reply::Ok,
    };
    let linked = Entry::Linkage {
        client: ClientId(3),
        first: SubId(2),
        second: SubId(0),
        first_state: State::Setup,
        second_state: State::Running,
        second_linked: true,
        reply: Reply::Err(Errno::Ealready),
    };
    let stop = joint(Act::Stop(State::Setup), 2);
    let unplug = own(
        rt.alloc(),
        Call::Unplug,
        &[],
        stop,
        Reply::Ok,
        State::Disconnected,
    )?;
    for (entry, line) in [
        (&link, "s0 7 link c3 s0 s1 SETUP OPEN free = ok\n"),
        (
            &linked,
            "s0 7 link c3 s2 s0 SETUP RUNNING linked = err EALREADY 114\n",
        ),
        (
            &unplug,
            "s0 7 unplug s0 = ok DISCONNECTED + stop-SETUP r0 2 yes done\n",
        ),
        (&Entry::Moved { room: 31 }, "s0 7 moved r31\n"),
    ] {
        shows(&rt, rt.alloc(), Dir::Playback, entry, line)?;
    }
    Ok(())
}

#[test]
fn the_bytes_of_a_step(rt: HostRuntime) -> Result<(), Fail> {
    let write = Call::Write(Layout::Interleaved, Mode::Block);
    let read = Call::Read(Layout::Planar, Mode::Block, 3);
    let (to_card, to_client) = (Dir::Playback, Dir::Capture);
    let refused = Reply::Err(Errno::Einval);
    let (one, two): (&[u8], &[u8]) = (&[10], &[10, 11]);
    for (dir, call, bytes, reply, line) in [
        (
            to_card,
            write,
            two,
            Reply::Asleep,
            "s0 7 writei c0 s0 b 0a0b = asleep RUNNING\n",
        ),
        (
            to_card,
            write,
            &[],
            refused,
            "s0 7 writei c0 s0 b - = err EINVAL 22 RUNNING\n",
        ),
        (
            to_card,
            Call::Go,
            one,
            Reply::Frames(3),
            "s0 7 go c0 0a = frames 3 RUNNING\n",
        ),
        (
            to_card,
            Call::Go,
            &[],
            Reply::Ok,
            "s0 7 go c0 = ok RUNNING\n",
        ),
        (
            to_client,
            read,
            &[],
            Reply::Asleep,
            "s0 7 readn c0 s0 b 3 - = asleep RUNNING\n",
        ),
        (
            to_client,
            read,
            one,
            Reply::Asleep,
            "s0 7 readn c0 s0 b 3 0a = asleep RUNNING\n",
        ),
        (
            to_client,
            read,
            two,
            Reply::Frames(2),
            "s0 7 readn c0 s0 b 3 = frames 2 0a0b RUNNING\n",
        ),
        (
            to_client,
            Call::Go,
            one,
            Reply::Asleep,
            "s0 7 go c0 0a = asleep RUNNING\n",
        ),
        (
            to_client,
            Call::Go,
            two,
            Reply::Frames(3),
            "s0 7 go c0 0a0b = frames 3 0a0b RUNNING\n",
        ),
        (
            to_client,
            Call::Go,
            &[],
            Reply::Frames(2),
            "s0 7 go c0 = frames 2 - RUNNING\n",
        ),
        (
            to_card,
            Call::Load(0, 2),
            two,
            Reply::Frames(2),
            "s0 7 load c0 s0 0 2 = frames 2 0a0b RUNNING\n",
        ),
        (
            to_card,
            Call::Store(2),
            two,
            Reply::Frames(2),
            "s0 7 store c0 s0 2 0a0b = frames 2 RUNNING\n",
        ),
        (
            to_card,
            Call::Store(3),
            &[],
            refused,
            "s0 7 store c0 s0 3 - = err EINVAL 22 RUNNING\n",
        ),
        (
            to_card,
            Call::Rewind(2),
            &[],
            Reply::Frames(2),
            "s0 7 rewind c0 s0 2 = frames 2 RUNNING\n",
        ),
        (
            to_client,
            Call::Give,
            two,
            Reply::Ok,
            "s0 7 give s0 0a0b = ok RUNNING\n",
        ),
        (
            to_card,
            Call::MoveBy(2),
            two,
            Reply::Moved(2),
            "s0 7 move s0 2 = moved 2 0a0b RUNNING\n",
        ),
        (
            to_client,
            Call::MoveBy(2),
            two,
            Reply::Moved(2),
            "s0 7 move s0 2 = moved 2 RUNNING\n",
        ),
    ] {
        let entry = own(rt.alloc(), call, bytes, None, reply, State::Running)?;
        shows(&rt, rt.alloc(), dir, &entry, line)?;
    }
    Ok(())
}

#[test]
fn a_failed_write_ends_the_text(rt: HostRuntime) -> Result<(), Fail> {
    let entries = written_once(rt.alloc())?;
    let log = LogOf {
        sub: SubId(0),
        dir: Dir::Playback,
        entries: &entries,
    };
    let failing = [1].to_vec(rt.alloc())?;
    let mut out = MemSink::new(rt.alloc(), failing);
    let written = write_logs(rt.alloc(), &[log], &mut out);
    assert_eq!(rt; written, Err(LogError::Failed));
    assert_eq!(rt; out.bytes().len(), 0);
    Ok(())
}
