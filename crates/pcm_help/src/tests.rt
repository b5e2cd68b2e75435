use super::*;
use pcm_base::{CardModel, Errno, Name, Span};
use pcm_io::{MemShelf, MemSink, MemSource, Shelf, Sink, Source};
use pcm_line::{LineError, read_line};
use pcm_text::{Status, Which};
use std::alloc::{AllocError, Global};
use std::process::Abort;
use std::test::Fail;
use wav_file::WavError;

static MODEL: CardModel = CardModel {
    accesses: 27,
    formats: 6,
    channels: Span { least: 1, most: 2 },
    rate: Span {
        least: 8000,
        most: 48000,
    },
    wide_rate: 48000,
    period: Span {
        least: 1,
        most: 8192,
    },
    buffer_bytes: 65536,
    can_pause: true,
    can_resume: true,
};

fn help_of(
    alloc: Global,
    status: &Status,
    command: Option<Command>,
    script: &[u8],
    answered: u64,
    asked: Option<&Asked>,
) -> Result<Vec<u8>, AllocError> {
    let mut recent = Recent::new(alloc)?;
    recent.push(script);
    let seen = Seen {
        command,
        recent: Some(&recent),
        answered,
        asked,
        model: &MODEL,
    };
    help_text(alloc, status, &seen)
}

fn check_line(
    rt: &(impl Abort + AllocGlobal),
    command: Command,
    line: &str,
    wanted: &str,
) -> Result<(), AllocError> {
    let fault = match read_line(rt.alloc(), line.as_bytes()) {
        Ok(_) => LineError::Word(0),
        Err(fault) => fault,
    };
    let status = Status::BadLine(1, fault);
    let help = help_of(rt.alloc(), &status, Some(command), line.as_bytes(), 0, None)?;
    assert_eq!(rt; help.as_slice(), wanted.as_bytes(), "{line}");
    Ok(())
}

#[test]
fn a_line_at_fault_is_shown_with_its_form(rt: HostRuntime) -> Result<(), Fail> {
    let table = [
        (
            "open c0 s16",
            "    open c0 s16\n            ^^^\n  form: open CLIENT SUB\n  SUB is s and a number below 16, as s0\n",
        ),
        (
            "open c0",
            "    open c0\n           ^\n  form: open CLIENT SUB\n  SUB is missing: s and a number below 16, as s0\n",
        ),
        (
            "move s0 01",
            "    move s0 01\n            ^^\n  form: move SUB FRAMES\n  FRAMES is a number, digits without a leading zero, below 2^63\n",
        ),
        (
            "irq s0 x",
            "    irq s0 x\n           ^\n  form: irq SUB\n  nothing more may follow\n",
        ),
        (
            "writei c0 s0 q 00",
            "    writei c0 s0 q 00\n                 ^\n  form: writei CLIENT SUB MODE HEX\n  MODE is b or n\n",
        ),
        (
            "give s0 abc",
            "    give s0 abc\n            ^^^\n  form: give SUB HEX\n  HEX is two digits of 0-9 and a-f for each byte, or - for no bytes\n",
        ),
        (
            "card s0 Duplex p",
            "    card s0 Duplex p\n            ^^^^^^\n  form: card SUB MODEL DIRECTION\n  MODEL is basic, duplex, studio, nopause, noresume or indirect\n",
        ),
        (
            "feed s0 .wav",
            "    feed s0 .wav\n            ^^^^\n  form: feed SUB NAME\n  NAME is 1 to 64 of a-z, 0-9, '.', '_' and '-', not beginning with '.'\n",
        ),
        (
            "version x",
            "    version x\n            ^\n  form: version VERSION\n  VERSION is 1 or 2\n",
        ),
        (
            "beat s0 4 10",
            "    beat s0 4 10\n    ^^^^\n  beat, wire, threads and join are lines of live plans, not of run\n",
        ),
    ];
    for (line, wanted) in table {
        check_line(&rt, Command::Run, line, wanted)?;
    }
    Ok(())
}

#[test]
fn what_is_odd_in_a_line_is_named(rt: HostRuntime) -> Result<(), Fail> {
    let table = [
        (
            "irq s0\r",
            "    irq s0\\r\n        ^^^^\n  \\r is a carriage return; lines end in a line feed alone\n",
        ),
        (
            "irq\ts0",
            "    irq\\ts0\n    ^^^^^^^\n  \\t is a tab; words have one space between them\n",
        ),
        (
            "irq  s0",
            "    irq  s0\n        ^\n  two spaces stand side by side; words have one between them\n",
        ),
        (
            "irq s0 ",
            "    irq s0 \n           ^\n  the line ends in a space\n",
        ),
        (
            " irq s0",
            "     irq s0\n    ^\n  the line begins with a space\n",
        ),
        (
            "# four frames",
            "    # four frames\n    ^\n  a script has remarks where its first line is `version 2`\n",
        ),
    ];
    for (line, wanted) in table {
        check_line(&rt, Command::Run, line, wanted)?;
    }
    Ok(())
}

#[test]
fn a_line_of_another_command_is_told(rt: HostRuntime) -> Result<(), Fail> {
    check_line(
        &rt,
        Command::Refine,
        "irq s0",
        "    irq s0\n    ^^^\n  refine has space lines alone\n  form: space MODEL ACCESSES FORMATS CHANNELS_MIN CHANNELS_MAX RATE_MIN\n    RATE_MAX PERIOD_MIN PERIOD_MAX PERIODS_MIN PERIODS_MAX BUFFER_MIN\n    BUFFER_MAX\n",
    )?;
    check_line(
        &rt,
        Command::Run,
        "opne c0 s0",
        "    opne c0 s0\n    ^^^^\n  a line begins with one of: version long card open close hw hwfree sw\n    prepare start drop xrun pause release suspend resume drain writei writen\n    readi readn rewind forward hwsync delay status page sync poll mmap\n    munmap store load link unlink go move irq fail unplug give feed save\n    carry\n",
    )?;
    Ok(())
}

#[test]
fn a_long_line_is_cut_round_its_fault(rt: HostRuntime) -> Result<(), Fail> {
    check_line(
        &rt,
        Command::Run,
        "give s0 0123456789abcdef0123456789abcdef0123456789abcdef0123456789abcdef0123456789abcdef x",
        "    ...def0123456789abcdef0123456789abcdef x\n                                           ^\n  form: give SUB HEX\n  nothing more may follow\n",
    )?;
    Ok(())
}

#[test]
fn a_file_is_told_with_its_line(rt: HostRuntime) -> Result<(), Fail> {
    let script = b"version 2\nopen c0 s0\n\n# to hear\nfeed s1 take.wav\nirq s0\n";
    let (Some(name), Some(other)) = (Name::of(b"take.wav"), Name::of(b"take.wav")) else {
        return Ok(());
    };
    let run = Some(Command::Run);
    let help = help_of(rt.alloc(), &Status::Missing(name), run, script, 2, None)?;
    let wanted = b"  line 5: feed s1 take.wav\n  take.wav is no file of the current folder\n";
    assert_eq!(rt; help.as_slice(), wanted.as_slice());
    let asked = Asked::Store(other);
    let play = Some(Command::Play);
    let help = help_of(rt.alloc(), &Status::ShelfFault, play, b"", 0, Some(&asked))?;
    assert_eq!(rt;
        help.as_slice(),
        b"  take.wav could not be written\n".as_slice()
    );
    let Some(name) = Name::of(b"x") else {
        return Ok(());
    };
    let status = Status::BadWav(name, WavError::NotRiff);
    let help = help_of(rt.alloc(), &status, play, b"", 0, Some(&asked))?;
    let wanted = b"  wanted is a RIFF file of PCM with 8, 16, 24 or 32 bits and 1 to 8 channels\n";
    assert_eq!(rt; help.as_slice(), wanted.as_slice());
    Ok(())
}

#[test]
fn a_limit_is_told_with_its_number(rt: HostRuntime) -> Result<(), Fail> {
    let table = [
        (
            Status::Limit(Which::ScriptLines, 1048577),
            "  a script has at most 1,048,576 lines\n",
        ),
        (
            Status::Limit(Which::GenNumber, 1001),
            "  N is at most 1000\n",
        ),
        (
            Status::Refused(Errno::Einval),
            "  the card's model does not allow this configuration\n  it allows rates of 8000 to 48000 Hz, periods of 1 to 8192 frames, 2 to 32\n    periods, buffers of 4 to 65536 frames and at most 65536 bytes\n",
        ),
        (Status::ReadFault, "  standard input could not be read\n"),
        (Status::Memory, ""),
    ];
    for (status, wanted) in table {
        let help = help_of(rt.alloc(), &status, None, b"", 0, None)?;
        assert_eq!(rt; help.as_slice(), wanted.as_bytes(), "{wanted}");
    }
    Ok(())
}

#[test]
fn a_wrong_command_is_told_all(rt: HostRuntime) -> Result<(), Fail> {
    let wanted = "  pcm run                           executes the script on standard input
  pcm refine                        answers the space lines on standard input
  pcm play IN OUT PERIOD PERIODS    plays the WAV file IN into OUT
  pcm capture IN OUT N              records N frames of the WAV file IN into OUT
  pcm gen N                         runs the generated script N, 0 to 1000
  IN and OUT are files here, each named by 1 to 64 of a-z, 0-9, '.', '_' and
    '-', not beginning with '.'
  PERIOD, PERIODS and N are each a number, digits without a leading zero,
    below 2^63
";
    let help = help_of(rt.alloc(), &Status::Usage, None, b"", 0, None)?;
    assert_eq!(rt; help.as_slice(), wanted.as_bytes());
    Ok(())
}

#[test]
fn the_last_bytes_are_kept(rt: HostRuntime) -> Result<(), Fail> {
    let text = b"0123456789abcd\n";
    let mut piece = [0; 4095];
    for (i, byte) in piece.iter_mut().enumerate() {
        *byte = text[i % 15];
    }
    let mut recent = Recent::new(rt.alloc())?;
    for _ in 0..400 {
        recent.push(&piece);
    }
    recent.push(b"the last");
    assert!(rt; recent.from_line(1).is_none());
    assert!(rt; recent.from_line(109_202).is_none());
    let line = recent.from_line(109_200).ok_or("kept")?;
    assert_eq!(rt; first_line(line), b"0123456789abcd".as_slice());
    let line = recent.from_line(109_201).ok_or("kept")?;
    assert_eq!(rt; first_line(line), b"the last".as_slice());
    Ok(())
}

#[test]
fn a_source_is_passed_on_and_remembered(rt: HostRuntime) -> Result<(), Fail> {
    let script = b"long 15\nirq s0\n".to_vec(rt.alloc())?;
    let failing = [2].to_vec(rt.alloc())?;
    let mut source = RememberingSource {
        source: MemSource::new(script, failing, 10),
        recent: Some(Recent::new(rt.alloc())?),
    };
    let mut into = [0; 16];
    assert_eq!(rt; source.read(&mut into), Ok(10));
    assert!(rt; source.read(&mut into).is_err());
    assert_eq!(rt; source.read(&mut into), Ok(5));
    let recent = source.recent.as_ref().ok_or("remembered")?;
    let line = recent.from_line(2).ok_or("line 2")?;
    assert_eq!(rt; first_line(line), b"irq s0".as_slice());
    Ok(())
}

#[test]
fn the_number_of_the_last_whole_line_is_remembered(rt: HostRuntime) -> Result<(), Fail> {
    let mut sink = RememberingSink {
        sink: MemSink::new(rt.alloc(), vec![in rt.alloc()]?),
        wanted: true,
        answered: Answered::NONE,
    };
    assert_eq!(rt; sink.write_some(b"1 ok -\n12 frames 4 PREP"), Ok(23));
    assert_eq!(rt; sink.answered.last, 1);
    assert_eq!(rt; sink.write_some(b"ARED\n1"), Ok(6));
    assert_eq!(rt; sink.answered.last, 12);
    assert_eq!(rt; sink.sink.bytes().len(), 29);
    Ok(())
}

#[test]
fn the_last_file_is_remembered(rt: HostRuntime) -> Result<(), Fail> {
    let (Some(name), Some(other)) = (Name::of(b"a.wav"), Name::of(b"b.wav")) else {
        return Ok(());
    };
    let mut shelf = RememberingShelf {
        shelf: MemShelf::new(rt.alloc(), [2].to_vec(rt.alloc())?),
        wanted: true,
        asked: None,
    };
    assert!(rt; shelf.store(&name, b"abc").is_ok());
    assert!(rt; shelf.load(&other).is_err());
    match &shelf.asked {
        Some(Asked::Load(last)) => assert_eq!(rt; last.as_slice(), b"b.wav".as_slice()),
        _ => assert!(rt; false),
    }
    let found = shelf.load(&name).ok().ok_or("loaded")?;
    assert_eq!(rt; found.ok_or("found")?.as_slice(), b"abc".as_slice());
    Ok(())
}
