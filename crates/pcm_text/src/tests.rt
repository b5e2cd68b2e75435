// Lines and texts as they are printed.
use super::*;
use pcm_base::{ClientId, Errno, Name, Page, Ready, Reply, State, SubId, Told};
use pcm_line::LineError;
use std::test::Fail;
use wav_file::WavError;

const PAGE: Page = Page {
    state: State::Running,
    hw: 3,
    appl: 4,
    avail: 3,
};

type Shown<'a> = (u64, Reply, Option<State>, u16, Option<&'a [u8]>, &'a str);

fn line_of(
    number: u64,
    told: &Told,
    bytes: Option<&[u8]>,
    rt: &HostRuntime,
) -> Result<Vec<u8>, Fail> {
    match told.reply {
        Reply::Memory => Err("want of memory is not printed".into()),
        _ => Ok(told_text(rt.alloc(), number, told, bytes)?),
    }
}

#[test]
fn transcript_lines(rt: HostRuntime) -> Result<(), Fail> {
    let running = Some(State::Running);
    let taken: &[u8] = &[1, 2, 3];
    let mixed: &[u8] = &[0x00, 0x0a, 0xf0, 0xff];
    let lines: [Shown; 24] = [
        (
            5,
            Reply::Frames(4),
            running,
            0,
            None,
            "5 frames 4 RUNNING\n",
        ),
        (
            6,
            Reply::Moved(3),
            running,
            0,
            Some(taken),
            "6 moved 3 010203 RUNNING\n",
        ),
        (
            6,
            Reply::Moved(4),
            running,
            0,
            Some(mixed),
            "6 moved 4 000af0ff RUNNING\n",
        ),
        (7, Reply::Moved(3), running, 0, None, "7 moved 3 RUNNING\n"),
        (
            10,
            Reply::Frames(3),
            Some(State::Draining),
            0,
            Some(taken),
            "10 frames 3 010203 DRAINING\n",
        ),
        (
            11,
            Reply::Frames(0),
            Some(State::Setup),
            0,
            Some(&[]),
            "11 frames 0 - SETUP\n",
        ),
        (
            19,
            Reply::Ok,
            Some(State::Setup),
            1,
            None,
            "19 ok SETUP wake c0\n",
        ),
        (
            20,
            Reply::Ok,
            Some(State::Closed),
            0x9401,
            None,
            "20 ok CLOSED wake c0 c10 c12 c15\n",
        ),
        (6, Reply::Delay(4), running, 0, None, "6 delay 4 RUNNING\n"),
        (
            7,
            Reply::Delay(-12),
            Some(State::Paused),
            0,
            None,
            "7 delay -12 PAUSED\n",
        ),
        (
            8,
            Reply::Ptrs(PAGE),
            running,
            0,
            None,
            "8 ptrs hw 3 appl 4 avail 3 RUNNING\n",
        ),
        (
            9,
            Reply::Poll(Ready::No),
            running,
            0,
            None,
            "9 poll none RUNNING\n",
        ),
        (
            10,
            Reply::Poll(Ready::Yes),
            Some(State::Prepared),
            0,
            None,
            "10 poll ready PREPARED\n",
        ),
        (
            11,
            Reply::Poll(Ready::Error),
            Some(State::Suspended),
            0,
            None,
            "11 poll error SUSPENDED\n",
        ),
        (5, Reply::Asleep, running, 0, None, "5 asleep RUNNING\n"),
        (
            8,
            Reply::Err(Errno::Epipe),
            Some(State::Xrun),
            0,
            None,
            "8 err EPIPE 32 XRUN\n",
        ),
        (
            12,
            Reply::Err(Errno::Ealready),
            Some(State::Setup),
            0,
            None,
            "12 err EALREADY 114 SETUP\n",
        ),
        (6, Reply::Late(3), running, 0, None, "6 late 3 RUNNING\n"),
        (
            22,
            Reply::Idle,
            Some(State::Opened),
            0,
            None,
            "22 idle OPEN\n",
        ),
        (
            23,
            Reply::Limit(67108865),
            running,
            0,
            None,
            "23 limit 67108865 RUNNING\n",
        ),
        (
            6,
            Reply::Busy(ClientId(0)),
            running,
            0,
            None,
            "6 busy c0 RUNNING\n",
        ),
        (1, Reply::Ok, None, 0, None, "1 ok -\n"),
        (
            6,
            Reply::Ok,
            Some(State::Disconnected),
            1,
            None,
            "6 ok DISCONNECTED wake c0\n",
        ),
        (
            8,
            Reply::Err(Errno::Ebadfd),
            Some(State::Disconnected),
            0,
            None,
            "8 err EBADFD 77 DISCONNECTED\n",
        ),
    ];
    for (number, reply, state, woken, bytes, shown) in lines {
        let told = Told {
            reply,
            state,
            woken,
        };
        let text = line_of(number, &told, bytes, &rt)?;
        assert_eq!(rt; text.as_slice(), shown.as_bytes());
    }
    Ok(())
}

#[test]
fn lines_follow_one_another(rt: HostRuntime) -> Result<(), Fail> {
    let mut text = Vec::new(rt.alloc());
    for number in 1..3u64 {
        let told = Told {
            reply: Reply::Ok,
            state: Some(State::Closed),
            woken: 0,
        };
        push_told(&mut text, number, &told, None)?;
    }
    assert_eq!(rt; text.as_slice(), b"1 ok CLOSED\n2 ok CLOSED\n".as_slice());
    Ok(())
}

#[test]
fn parts_of_a_line_are_added(rt: HostRuntime) -> Result<(), Fail> {
    let mut text = Vec::new(rt.alloc());
    push_text(&mut text, b"give ")?;
    push_hex(&mut text, &[0x0a, 0xff])?;
    push_text(&mut text, b" ")?;
    push_number(&mut text, 10)?;
    push_text(&mut text, b" ")?;
    push_reply(&mut text, &Reply::Frames(4), None)?;
    assert_eq!(rt; text.as_slice(), b"give 0aff 10 frames 4".as_slice());
    Ok(())
}

#[test]
fn a_playback_stream_at_the_end(rt: HostRuntime) -> Result<(), Fail> {
    let text = end_text(rt.alloc(), SubId(0), &PAGE, 3)?;
    assert_eq!(rt;
        text.as_slice(),
        b"end s0 RUNNING hw 3 appl 4 moved 3\n".as_slice()
    );
    Ok(())
}

#[test]
fn faults_of_a_run(rt: HostRuntime) -> Result<(), Fail> {
    let missing = Name::of(b"none.wav").ok_or("a name")?;
    let refused = Name::of(b"in.wav").ok_or("a name")?;
    let faults = [
        (Status::Ok, 0, ""),
        (Status::Usage, 1, "usage"),
        (Status::BadLine(2, LineError::Short), 2, "bad line 2: short"),
        (
            Status::BadLine(2, LineError::Word(8)),
            2,
            "bad line 2: word at 8",
        ),
        (
            Status::BadLine(2, LineError::Number(8)),
            2,
            "bad line 2: number at 8",
        ),
        (
            Status::BadLine(2, LineError::Long(7)),
            2,
            "bad line 2: long at 7",
        ),
        (Status::ReadFault, 3, "read failed"),
        (Status::WriteFault, 4, "write failed"),
        (Status::ShelfFault, 5, "file access failed"),
        (Status::Missing(missing), 6, "missing none.wav"),
        (
            Status::BadWav(refused, WavError::NotPcm(3)),
            7,
            "bad wav in.wav: not PCM 3",
        ),
        (Status::Memory, 8, "out of memory"),
        (
            Status::Limit(Which::ScriptBytes, 67108865),
            9,
            "limit ScriptBytes 67108865",
        ),
        (
            Status::Limit(Which::GenNumber, 1001),
            9,
            "limit GenNumber 1001",
        ),
        (Status::Refused(Errno::Einval), 10, "refused EINVAL 22"),
    ];
    for (status, number, text) in faults {
        assert_eq!(rt; status.number(), number);
        assert_eq!(rt; fault_text(rt.alloc(), &status)?.as_str(), text);
    }
    Ok(())
}

#[test]
fn faults_of_a_file(rt: HostRuntime) -> Result<(), Fail> {
    let faults = [
        (WavError::NotRiff, "bad wav a: not RIFF"),
        (WavError::NoFmt, "bad wav a: no fmt"),
        (WavError::NoData, "bad wav a: no data"),
        (WavError::BadFmt(16), "bad wav a: bad fmt at 16"),
        (WavError::Width(12), "bad wav a: width 12"),
    ];
    for (error, text) in faults {
        let name = Name::of(b"a").ok_or("a name")?;
        let status = Status::BadWav(name, error);
        assert_eq!(rt; fault_text(rt.alloc(), &status)?.as_str(), text);
    }
    Ok(())
}
