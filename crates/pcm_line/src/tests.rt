use super::*;
use pcm_base::{Access, Call, ClientId, Config, Event, Format, Layout, Mode, SubId, SwParams};
use std::test::Fail;

#[test]
fn the_leftmost_fault_is_given(rt: HostRuntime) {
    let table = [
        ("", LineError::Word(0)),
        (" irq s0", LineError::Word(0)),
        ("Open c0 s0", LineError::Word(0)),
        ("open c0", LineError::Short),
        ("open c0 s16", LineError::Word(8)),
        ("open c16 s0", LineError::Word(5)),
        ("open c01 s0", LineError::Word(5)),
        ("open c0  s0", LineError::Word(8)),
        ("move s0 01", LineError::Number(8)),
        ("move s0 -1", LineError::Number(8)),
        ("move s0 +1", LineError::Number(8)),
        ("move s0 ", LineError::Number(8)),
        ("move s0 9223372036854775808", LineError::Number(8)),
        ("move s0 18446744073709551617", LineError::Number(8)),
        ("beat s0 x", LineError::Number(8)),
        ("irq s0 x", LineError::Long(7)),
        ("irq s0 ", LineError::Long(7)),
        ("irq s0\r", LineError::Word(4)),
        ("irq s0\0", LineError::Word(4)),
        ("give s0 abc", LineError::Word(8)),
        ("give s0 AB", LineError::Word(8)),
        ("give s0 0g", LineError::Word(8)),
        ("give s0 --", LineError::Word(8)),
        ("give s0 00 x", LineError::Long(11)),
        ("feed s0 .wav", LineError::Word(8)),
        ("hw c0 s0 RW_BOTH X 01", LineError::Word(9)),
        ("hw c0 s0 RW_INTERLEAVED U8 2 x", LineError::Number(29)),
        ("threads x", LineError::Long(8)),
        ("# four frames", LineError::Word(0)),
        ("version 01", LineError::Number(8)),
        ("version -1 x", LineError::Number(8)),
        ("version 2 2", LineError::Long(10)),
        ("carry s0 s16", LineError::Word(9)),
        ("wire s0 c1 x", LineError::Word(8)),
        ("wire s0", LineError::Short),
        ("card s0 Indirect p", LineError::Word(8)),
    ];
    for (text, fault) in table {
        match read_line(rt.alloc(), text.as_bytes()) {
            Ok(_) => assert!(rt; false, "{text} is a line"),
            Err(e) => assert_eq!(rt; e, fault, "{text}"),
        }
    }
}

#[test]
fn every_form_is_printed_as_it_was_read(rt: HostRuntime) -> Result<(), Fail> {
    let lines = [
        "long 1023",
        "card s0 duplex p",
        "card s15 noresume c",
        "card s0 indirect p",
        "open c0 s0",
        "close c15 s15",
        "hw c0 s0 MMAP_NONINTERLEAVED S24_3LE 2 48000 1024 4",
        "hwfree c0 s0",
        "sw c0 s0 2 1 16 0 9223372036854775807",
        "prepare c0 s0",
        "start c0 s0",
        "drop c0 s0",
        "pause c0 s0",
        "release c0 s0",
        "suspend c0 s0",
        "resume c0 s0",
        "xrun c0 s0",
        "drain c0 s0 b",
        "writei c0 s0 n 00ff10a9",
        "writen c0 s0 b -",
        "readi c0 s0 b 8",
        "readn c0 s0 n 0",
        "rewind c0 s0 3",
        "forward c0 s0 3",
        "hwsync c0 s0",
        "delay c0 s0",
        "status c0 s0",
        "page c0 s0",
        "poll c0 s0",
        "sync c0 s0 7",
        "mmap c0 s0",
        "munmap c0 s0",
        "store c0 s0 5 0a0b",
        "load c0 s0 5 2",
        "link c0 s0 s1",
        "unlink c0 s0",
        "go c3",
        "move s0 4",
        "irq s0",
        "fail s0 1",
        "unplug s0",
        "give s0 7f80",
        "feed s0 a-b_c.wav",
        "save s0 -",
        "space basic 8 4 2 2 1 200000 1 65536 2 32 4 65536",
        "beat s0 4 100",
        "threads",
        "join",
        "version 2",
        "carry s0 s1",
        "wire s14 s15",
    ];
    for text in lines {
        let line = read_line(rt.alloc(), text.as_bytes())?;
        let printed = print_line(rt.alloc(), &line)?;
        assert_eq!(rt; printed.as_slice(), text.as_bytes(), "{text}");
    }
    Ok(())
}

#[test]
fn operands_stand_in_their_order(rt: HostRuntime) -> Result<(), Fail> {
    let config = Config {
        access: Access::RwInterleaved,
        format: Format::S16Le,
        channels: 2,
        rate: 48000,
        period: 1024,
        periods: 4,
    };
    let software = SwParams {
        avail_min: 1,
        start_threshold: 2,
        stop_threshold: 3,
        silence_threshold: 4,
        silence_size: 5,
    };
    let table = [
        (
            "hw c3 s1 RW_INTERLEAVED S16_LE 2 48000 1024 4",
            Call::HwParams(config),
        ),
        ("sw c3 s1 1 2 3 4 5", Call::SwParams(software)),
        (
            "writen c3 s1 n 0102",
            Call::Write(Layout::Planar, Mode::NonBlock),
        ),
        (
            "readi c3 s1 b 9",
            Call::Read(Layout::Interleaved, Mode::Block, 9),
        ),
        ("load c3 s1 6 7", Call::Load(6, 7)),
        ("link c3 s1 s2", Call::Link(SubId(2))),
    ];
    for (text, call) in table {
        let event = Event {
            client: Some(ClientId(3)),
            sub: SubId(1),
            call,
        };
        match read_line(rt.alloc(), text.as_bytes())? {
            Line::Event(read, _) => assert_eq!(rt; read, event, "{text}"),
            _ => assert!(rt; false, "{text} is no event"),
        }
    }
    match read_line(rt.alloc(), b"go c3")? {
        Line::Event(read, _) => {
            let event = Event {
                client: Some(ClientId(3)),
                sub: SubId(0),
                call: Call::Go,
            };
            assert_eq!(rt; read, event, "a go stands with s0");
        }
        _ => assert!(rt; false),
    }
    match read_line(rt.alloc(), b"give s1 00ff10a9")? {
        Line::Event(_, bytes) => assert_eq!(rt; bytes.as_slice(), [0, 255, 16, 169].as_slice()),
        _ => assert!(rt; false),
    }
    Ok(())
}

#[test]
fn the_first_substream_stands_first(rt: HostRuntime) -> Result<(), Fail> {
    match read_line(rt.alloc(), b"carry s2 s11")? {
        Line::Carry(from, to) => assert_eq!(rt; (from, to), (SubId(2), SubId(11))),
        _ => assert!(rt; false),
    }
    match read_line(rt.alloc(), b"wire s11 s2")? {
        Line::Wire(from, to) => assert_eq!(rt; (from, to), (SubId(11), SubId(2))),
        _ => assert!(rt; false),
    }
    Ok(())
}

#[test]
fn remarks_are_skipped_in_version_2(rt: HostRuntime) {
    for text in ["", "#", "# four frames"] {
        assert!(rt; is_skipped(2, text.as_bytes()), "{text}");
        assert!(rt; !is_skipped(1, text.as_bytes()), "{text}");
    }
    assert!(rt; !is_skipped(2, b" # four frames"));
}

#[test]
fn bytes_are_copied(rt: HostRuntime) -> Result<(), Fail> {
    let copy = pcm_base::Bytes::copy_of(rt.alloc(), &[1, 2, 3])?;
    assert_eq!(rt; copy.as_slice(), [1, 2, 3].as_slice());
    Ok(())
}
