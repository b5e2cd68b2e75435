// The call over memory: worked scripts, and what the outside may do to a run.
use super::*;
use pcm_base::Name;
use pcm_io::{MemShelf, MemSink, MemSource, Shelf, Source};
use pcm_text::fault_text;
use play_record::Deck;
use std::alloc::{AllocError, Global};
use std::process::Abort;
use std::test::Fail;

// A card, a client, and a buffer of four frames of one byte.
const OPENED: &str =
    "card s0 basic p\nopen c0 s0\nhw c0 s0 RW_INTERLEAVED U8 1 8000 2 2\nprepare c0 s0\n";

const OPENED_TOLD: &str = "1 ok CLOSED\n2 ok OPEN\n3 ok SETUP\n4 ok PREPARED\n";

const FIRST: &str = "writei c0 s0 n 01020304\nmove s0 3\nirq s0\nstatus c0 s0\n";

const FIRST_TOLD: &str =
    "5 frames 4 RUNNING\n6 moved 3 010203 RUNNING\n7 ok RUNNING\n8 ptrs hw 3 appl 4 avail 3 RUNNING\n";

// The file of the three frames that the card took in the first script.
const SAVED: &[u8] =
    b"RIFF\x28\0\0\0WAVEfmt \x10\0\0\0\x01\0\x01\0\x40\x1f\0\0\x40\x1f\0\0\x01\0\x08\0data\x03\0\0\0\x01\x02\x03\0";

const OTHER: &[u8] = b"another file";

// One run over memory: its word, what stands before the script, the script, and the calls of the outside that fail.
#[derive(Clone, Copy)]
struct Calls<'a> {
    word: &'a str,
    before: &'a str,
    script: &'a str,
    read: u64,
    write: u64,
    shelf: u64,
}

// What it came to: the status, the bytes written, the file `out.wav`, and whether the other file stays.
#[derive(Drop)]
struct Ran {
    status: u8,
    out: Vec<u8>,
    file: Option<Vec<u8>>,
    stays: bool,
}

fn copy_of(alloc: Global, file: Option<&[u8]>) -> Result<Option<Vec<u8>>, AllocError> {
    match file {
        None => Ok(None),
        Some(bytes) => Ok(Some(bytes.to_vec(alloc)?)),
    }
}

// The first call of the shelf puts another file there.
fn run(rt: &impl Abort, alloc: Global, calls: &Calls) -> Result<Ran, Fail> {
    let mut words = Vec::new(alloc);
    words.push(String::from_str(alloc, calls.word)?)?;
    let mut script = calls.before.as_bytes().to_vec(alloc)?;
    script.extend_from_slice(calls.script.as_bytes())?;
    let mut source = MemSource::new(script, [calls.read].to_vec(alloc)?, 64);
    let mut out = MemSink::new(alloc, [calls.write].to_vec(alloc)?);
    let mut shelf = MemShelf::new(alloc, [calls.shelf].to_vec(alloc)?);
    let name = Name::of(b"out.wav").expect(rt, "a name");
    let other = Name::of(b"other.wav").expect(rt, "a name");
    assert!(rt; shelf.store(&other, OTHER).is_ok());
    let mut deck = Deck::new(alloc)?;
    let status = pcm_main(alloc, &words, &mut source, &mut out, &mut shelf, &mut deck).number();
    let stays = shelf.get(&other) == Some(OTHER);
    let file = copy_of(alloc, shelf.get(&name))?;
    let out = out.bytes().to_vec(alloc)?;
    Ok(Ran {
        status,
        out,
        file,
        stays,
    })
}

// A script of `run` that nothing outside fails.
fn script<'a>(before: &'a str, script: &'a str) -> Calls<'a> {
    Calls {
        word: "run",
        before,
        script,
        read: 0,
        write: 0,
        shelf: 0,
    }
}

fn is_text(out: &[u8], first: &str, second: &str) -> bool {
    out.strip_prefix(first.as_bytes()) == Some(second.as_bytes())
}

// The transcript of a script over the file `in.wav`, where it is not empty, and the line that tells why it ended.
pub(crate) fn told(
    rt: &impl Abort,
    alloc: Global,
    word: &str,
    script: &str,
    file: &[u8],
) -> Result<(Vec<u8>, String), Fail> {
    let mut words = Vec::new(alloc);
    words.push(String::from_str(alloc, word)?)?;
    let none = Vec::new(alloc);
    let mut source = MemSource::new(script.as_bytes().to_vec(alloc)?, none, 64);
    let mut out = MemSink::new(alloc, Vec::new(alloc));
    let mut shelf = MemShelf::new(alloc, Vec::new(alloc));
    let name = Name::of(b"in.wav").expect(rt, "a name");
    if !file.is_empty() {
        assert!(rt; shelf.store(&name, file).is_ok());
    }
    let mut deck = Deck::new(alloc)?;
    let status = pcm_main(alloc, &words, &mut source, &mut out, &mut shelf, &mut deck);
    Ok((out.bytes().to_vec(alloc)?, fault_text(alloc, &status)?))
}

// The first so many lines of a text.
fn first_lines(text: &[u8], count: usize) -> &[u8] {
    let mut rest = text;
    for _ in 0..count {
        match rest.iter().position(|b| *b == b'\n') {
            Some(at) => rest = &rest[at + 1..],
            None => return text,
        }
    }
    &text[..text.len().saturating_sub(rest.len())]
}

#[test]
fn a_transcript_tells_each_answer(rt: HostRuntime) -> Result<(), Fail> {
    for (lines, told) in [
        // The first example.
        (
            FIRST,
            "5 frames 4 RUNNING\n6 moved 3 010203 RUNNING\n7 ok RUNNING\n8 ptrs hw 3 appl 4 avail 3 RUNNING\nend s0 RUNNING hw 3 appl 4 moved 3\n",
        ),
        // A movement of a whole buffer is late.
        (
            "writei c0 s0 n 01020304\nmove s0 4\nmove s0 3\n",
            "5 frames 4 RUNNING\n6 late 3 RUNNING\n7 moved 3 010203 RUNNING\nend s0 RUNNING hw 0 appl 4 moved 3\n",
        ),
        // An underrun stops the stream.
        (
            "writei c0 s0 n 0102\nmove s0 3\nirq s0\nwritei c0 s0 n 03\n",
            "5 frames 2 RUNNING\n6 moved 3 010200 RUNNING\n7 ok XRUN\n8 err EPIPE 32 XRUN\nend s0 XRUN hw 3 appl 2 moved 3\n",
        ),
        // A full buffer takes nothing.
        (
            "writei c0 s0 n 01020304\nwritei c0 s0 n 05\nwritei c0 s0 n -\n",
            "5 frames 4 RUNNING\n6 err EAGAIN 11 RUNNING\n7 frames 0 RUNNING\nend s0 RUNNING hw 0 appl 4 moved 0\n",
        ),
        // A pause, and a card that stands.
        (
            "pause c0 s0\nwritei c0 s0 n 0102\npause c0 s0\nmove s0 1\nrelease c0 s0\ndrop c0 s0\n",
            "5 err EBADFD 77 PREPARED\n6 frames 2 RUNNING\n7 ok PAUSED\n8 idle PAUSED\n9 ok RUNNING\n10 ok SETUP\nend s0 SETUP hw 0 appl 2 moved 0\n",
        ),
        // A suspended stream comes back as it was.
        (
            "suspend c0 s0\nwritei c0 s0 n 01\nresume c0 s0\nstart c0 s0\nxrun c0 s0\n",
            "5 ok SUSPENDED\n6 err ESTRPIPE 86 SUSPENDED\n7 ok PREPARED\n8 err EPIPE 32 PREPARED\n9 err EBADFD 77 PREPARED\nend s0 PREPARED hw 0 appl 0 moved 0\n",
        ),
        // A planned fault meets no trigger before the start, and a drain ends where all is played.
        (
            "fail s0 65\nfail s0 1\nwritei c0 s0 n 01\nstart c0 s0\ndrain c0 s0 n\nmove s0 1\nirq s0\n",
            "5 err EINVAL 22 PREPARED\n6 ok PREPARED\n7 frames 1 PREPARED\n8 ok RUNNING\n9 err EAGAIN 11 DRAINING\n10 moved 1 01 DRAINING\n11 ok SETUP\nend s0 SETUP hw 1 appl 1 moved 1\n",
        ),
        // The delay, and whether a transfer could go on.
        (
            "writei c0 s0 n 01020304\ndelay c0 s0\npoll c0 s0\nmove s0 3\nhwsync c0 s0\npoll c0 s0\n",
            "5 frames 4 RUNNING\n6 delay 4 RUNNING\n7 poll none RUNNING\n8 moved 3 010203 RUNNING\n9 ok RUNNING\n10 poll ready RUNNING\nend s0 RUNNING hw 3 appl 4 moved 3\n",
        ),
        // What was set up goes, and the substream is closed.
        (
            "sw c0 s0 0 1 4 0 0\nstart c0 s0\nhwfree c0 s0\npoll c0 s0\nsw c0 s0 1 1 4 0 0\nclose c0 s0\nopen c1 s0\n",
            "5 err EINVAL 22 PREPARED\n6 err EPIPE 32 PREPARED\n7 ok OPEN\n8 poll error OPEN\n9 err EBADFD 77 OPEN\n10 ok CLOSED\n11 ok OPEN\nend s0 OPEN hw 0 appl 0 moved 0\n",
        ),
        // A card is unplugged: the substream is closed and opened again.
        (
            "writei c0 s0 n 0102\nunplug s0\nprepare c0 s0\npoll c0 s0\npage c0 s0\nunplug s0\nclose c0 s0\nopen c0 s0\n",
            "5 frames 2 RUNNING\n6 ok DISCONNECTED\n7 err EBADFD 77 DISCONNECTED\n8 poll error DISCONNECTED\n9 ptrs hw 0 appl 2 avail 2 DISCONNECTED\n10 err EBADFD 77 DISCONNECTED\n11 ok CLOSED\n12 ok OPEN\nend s0 OPEN hw 0 appl 0 moved 0\n",
        ),
        // A configuration that the model does not allow.
        (
            "hw c0 s0 RW_INTERLEAVED S32_BE 1 8000 2 2\npage c0 s0\n",
            "5 err EINVAL 22 OPEN\n6 ptrs hw 0 appl 0 avail 0 OPEN\nend s0 OPEN hw 0 appl 0 moved 0\n",
        ),
    ] {
        let ran = run(&rt, rt.alloc(), &script(OPENED, lines))?;
        assert_eq!(rt; ran.status, 0);
        assert!(rt; is_text(&ran.out, OPENED_TOLD, told));
    }
    Ok(())
}

#[test]
fn a_script_may_begin_otherwise(rt: HostRuntime) -> Result<(), Fail> {
    for (lines, status, told) in [
        ("", 0, ""),
        // Samples of two bytes, two to a frame.
        (
            "card s0 duplex p\nopen c0 s0\nhw c0 s0 RW_INTERLEAVED S16_BE 2 8000 2 2\nprepare c0 s0\nwritei c0 s0 n 0102030405\nwritei c0 s0 n 0102030405060708\nmove s0 1\n",
            0,
            "1 ok CLOSED\n2 ok OPEN\n3 ok SETUP\n4 ok PREPARED\n5 err EINVAL 22 PREPARED\n6 frames 2 RUNNING\n7 moved 1 01020304 RUNNING\nend s0 RUNNING hw 0 appl 2 moved 1\n",
        ),
        // A substream that is not declared, not opened, not set up.
        (
            "writei c0 s0 n 01\nsave s0 out.wav\ncard s0 basic p\nirq s0\nlong 31\ncard s0 duplex p\nopen c0 s0\nopen c1 s0\nwritei c0 s0 n 01\nmove s0 1\nsave s0 out.wav\n",
            0,
            "1 err ENXIO 6 CLOSED\n2 err ENXIO 6 CLOSED\n3 ok CLOSED\n4 err ENXIO 6 CLOSED\n5 err EBUSY 16 -\n6 err EBUSY 16 CLOSED\n7 ok OPEN\n8 err EBUSY 16 OPEN\n9 err EBADFD 77 OPEN\n10 idle OPEN\n11 err EINVAL 22 OPEN\nend s0 OPEN hw 0 appl 0 moved 0\n",
        ),
        // Unplugged when open, it has no configuration.
        (
            "card s0 basic p\nopen c0 s0\nunplug s0\nwritei c0 s0 n 01\nstatus c0 s0\nclose c0 s0\n",
            0,
            "1 ok CLOSED\n2 ok OPEN\n3 ok DISCONNECTED\n4 err EBADFD 77 DISCONNECTED\n5 ptrs hw 0 appl 0 avail 0 DISCONNECTED\n6 ok CLOSED\nend s0 CLOSED hw 0 appl 0 moved 0\n",
        ),
        // LONG_MAX is too small for four buffers.
        (
            "long 14\nlong 15\ncard s0 basic p\nopen c0 s0\nhw c0 s0 RW_INTERLEAVED U8 1 8000 2 2\n",
            0,
            "1 err EINVAL 22 -\n2 ok -\n3 ok CLOSED\n4 ok OPEN\n5 err EINVAL 22 OPEN\nend s0 OPEN hw 0 appl 0 moved 0\n",
        ),
        // Above the stop threshold old frames come again, or silence.
        (
            "long 31\ncard s0 basic p\nopen c0 s0\nhw c0 s0 RW_INTERLEAVED U8 1 8000 2 2\nprepare c0 s0\nsw c0 s0 2 1 16 0 0\nwritei c0 s0 n 01020304\nmove s0 3\nirq s0\nmove s0 3\nirq s0\n",
            0,
            "1 ok -\n2 ok CLOSED\n3 ok OPEN\n4 ok SETUP\n5 ok PREPARED\n6 ok PREPARED\n7 frames 4 RUNNING\n8 moved 3 010203 RUNNING\n9 ok RUNNING\n10 moved 3 040102 RUNNING\n11 ok RUNNING\nend s0 RUNNING hw 6 appl 4 moved 6\n",
        ),
        (
            "long 31\ncard s0 basic p\nopen c0 s0\nhw c0 s0 RW_INTERLEAVED U8 1 8000 2 2\nprepare c0 s0\nsw c0 s0 2 1 16 0 16\nwritei c0 s0 n 01020304\nmove s0 3\nirq s0\nmove s0 3\nirq s0\n",
            0,
            "1 ok -\n2 ok CLOSED\n3 ok OPEN\n4 ok SETUP\n5 ok PREPARED\n6 ok PREPARED\n7 frames 4 RUNNING\n8 moved 3 010203 RUNNING\n9 ok RUNNING\n10 moved 3 048080 RUNNING\n11 ok RUNNING\nend s0 RUNNING hw 6 appl 4 moved 6\n",
        ),
        // A card with an indirect buffer.
        (
            "card s0 indirect p\nopen c0 s0\nhw c0 s0 RW_INTERLEAVED U8 1 8000 2 2\nprepare c0 s0\nwritei c0 s0 n 01020304\nmove s0 3\nirq s0\nstatus c0 s0\n",
            0,
            "1 ok CLOSED\n2 ok OPEN\n3 ok SETUP\n4 ok PREPARED\n5 frames 4 RUNNING\n6 moved 3 010203 RUNNING\n7 ok RUNNING\n8 ptrs hw 3 appl 4 avail 3 RUNNING\nend s0 RUNNING hw 3 appl 4 moved 3\n",
        ),
        // Lines with a fault, and lines of other commands.
        ("card s0 basic p\nopen c0\n", 2, "1 ok CLOSED\n"),
        ("card s0 basic p\n\n", 2, "1 ok CLOSED\n"),
        ("space basic 8 4 2 2 1 200000 1 65536 2 32 4 65536\n", 2, ""),
    ] {
        let ran = run(&rt, rt.alloc(), &script("", lines))?;
        assert_eq!(rt; ran.status, status);
        assert_eq!(rt; ran.out.as_slice(), told.as_bytes());
        assert!(rt; ran.file.is_none());
    }
    Ok(())
}

// Each script with its transcript, and why it ended.
#[test]
fn a_script_has_a_version(rt: HostRuntime) -> Result<(), Fail> {
    for (word, lines, transcript, fault) in [
        (
            "run",
            "version 2\n# four frames\n\ncard s0 basic p\n",
            "1 ok -\n4 ok CLOSED\nend s0 CLOSED hw 0 appl 0 moved 0\n",
            "",
        ),
        ("run", "version 1\n\n", "1 ok -\n", "bad line 2: word at 0"),
        ("run", "version 3\n", "", "bad line 1: number at 8"),
        ("run", "version 0\n", "", "bad line 1: number at 8"),
        ("run", "version 02\n", "", "bad line 1: number at 8"),
        ("run", "version\n", "", "bad line 1: short"),
        ("run", "# no version\n", "", "bad line 1: word at 0"),
        (
            "run",
            "long 31\nversion 2\n",
            "1 ok -\n",
            "bad line 2: word at 0",
        ),
        (
            "run",
            "version 2\n\nversion 3\n",
            "1 ok -\n",
            "bad line 3: word at 0",
        ),
        (
            "run",
            "version 2\n #\n",
            "1 ok -\n",
            "bad line 2: word at 0",
        ),
        ("refine", "version 2\n", "", "bad line 1: word at 0"),
        ("refine", "\n", "", "bad line 1: word at 0"),
        // Forms of other programs.
        ("run", "carry s0\n", "", "bad line 1: short"),
        ("run", "wire s0 s1\n", "", "bad line 1: word at 0"),
        ("run", "beat s0 1 1\n", "", "bad line 1: word at 0"),
        ("run", "beat s0 x\n", "", "bad line 1: number at 8"),
        ("run", "threads\n", "", "bad line 1: word at 0"),
        ("run", "join\n", "", "bad line 1: word at 0"),
    ] {
        let (out, text) = told(&rt, rt.alloc(), word, lines, NO_FILE)?;
        assert_eq!(rt; out.as_slice(), transcript.as_bytes());
        assert_eq!(rt; text.as_str(), fault);
    }
    Ok(())
}

// The file of one frame of four bytes, of which three are used.
const WIDE: &[u8] =
    b"RIFF\x40\0\0\0WAVEfmt \x28\0\0\0\xfe\xff\x01\0\x40\x1f\0\0\0\x7d\0\0\x04\0\x20\0\x16\0\x18\0\0\0\0\0\x01\0\0\0\0\0\x10\0\x80\0\0\xaa\0\x38\x9b\x71data\x04\0\0\0\0\x01\x02\x03";

#[test]
fn samples_of_three_bytes_in_four_are_saved(rt: HostRuntime) -> Result<(), Fail> {
    let opened =
        "card s0 duplex p\nopen c0 s0\nhw c0 s0 RW_INTERLEAVED S24_LE 1 8000 2 2\nprepare c0 s0\n";
    let lines = "writei c0 s0 n 010203ff\nmove s0 1\nsave s0 out.wav\n";
    let ran = run(&rt, rt.alloc(), &script(opened, lines))?;
    assert_eq!(rt; ran.status, 0);
    let file = ran.file.expect(&rt, "a file");
    assert_eq!(rt; file.as_slice(), WIDE);
    Ok(())
}

/// No file stands beside the script.
pub(crate) const NO_FILE: &[u8] = b"";

// Nine times three frames are played, and the pointers go round the boundary of 16.
#[test]
fn pointers_wrap_at_the_boundary(rt: HostRuntime) -> Result<(), Fail> {
    let alloc = rt.alloc();
    let mut lines = Vec::new(alloc);
    lines.extend_from_slice(OPENED.as_bytes())?;
    lines.extend_from_slice(b"writei c0 s0 n 01020304\n")?;
    for _ in 0..9 {
        lines.extend_from_slice(b"move s0 3\nirq s0\nwritei c0 s0 n 050607\n")?;
    }
    lines.extend_from_slice(b"page c0 s0\n")?;
    let lines = String::from_utf8(lines).expect(&rt, "text");
    let ran = run(&rt, alloc, &script("long 31\n", lines.as_str()))?;
    let told = b"34 ptrs hw 11 appl 15 avail 0 RUNNING\nend s0 RUNNING hw 11 appl 15 moved 27\n";
    assert!(rt; ran.out.ends_with(told));
    Ok(())
}

// The first script, the file that it saves, and each call of the outside that fails in turn. The source gives 64 bytes a
// read, and `told` is the count of lines of the transcript that are written.
#[test]
fn a_status_names_what_failed(rt: HostRuntime) -> Result<(), Fail> {
    let saved = "writei c0 s0 n 01020304\nmove s0 3\nirq s0\nstatus c0 s0\nsave s0 out.wav\n";
    let alloc = rt.alloc();
    let whole = run(&rt, alloc, &script(OPENED, saved))?;
    for (read, write, shelf, status, told, stored) in [
        (0, 0, 0, 0, 10, true),
        (1, 0, 0, 3, 0, false),
        (2, 0, 0, 3, 2, false),
        (3, 0, 0, 3, 7, false),
        (4, 0, 0, 3, 9, true),
        (2, 1, 0, 4, 0, false),
        (0, 1, 0, 4, 0, true),
        (0, 0, 2, 5, 8, false),
        (0, 1, 2, 4, 0, false),
    ] {
        let calls = Calls {
            word: "run",
            before: OPENED,
            script: saved,
            read,
            write,
            shelf,
        };
        let ran = run(&rt, alloc, &calls)?;
        assert_eq!(rt; ran.status, status);
        assert!(rt; ran.stays);
        assert_eq!(rt; ran.file.is_some(), stored);
        if let Some(file) = &ran.file {
            assert_eq!(rt; file.as_slice(), SAVED);
        }
        assert_eq!(rt; ran.out.as_slice(), first_lines(&whole.out, told));
    }
    let lines = first_lines(&whole.out, 8);
    assert!(rt; is_text(lines, OPENED_TOLD, FIRST_TOLD));
    Ok(())
}

// A file that is fed is no WAV file, or the shelf fails at its load.
#[test]
fn a_feed_names_what_failed(rt: HostRuntime) -> Result<(), Fail> {
    let alloc = rt.alloc();
    let opened =
        "card s0 basic c\nopen c0 s0\nhw c0 s0 RW_INTERLEAVED U8 1 8000 2 2\nfeed s0 other.wav\n";
    for (shelf, status) in [(0, 7), (2, 5)] {
        let mut calls = script("", opened);
        calls.shelf = shelf;
        let ran = run(&rt, alloc, &calls)?;
        assert_eq!(rt; ran.status, status);
        assert!(rt; ran.stays);
        assert_eq!(rt;
            ran.out.as_slice(),
            "1 ok CLOSED\n2 ok OPEN\n3 ok SETUP\n".as_bytes()
        );
    }
    Ok(())
}

// Of a transcript of 13,000 bytes the second piece is not written.
#[test]
fn a_transcript_is_written_in_pieces(rt: HostRuntime) -> Result<(), Fail> {
    let alloc = rt.alloc();
    let mut lines = Vec::new(alloc);
    for _ in 0..500 {
        lines.extend_from_slice(b"page c0 s0\n")?;
    }
    let lines = String::from_utf8(lines).expect(&rt, "text");
    let whole = run(&rt, alloc, &script(OPENED, lines.as_str()))?;
    assert_eq!(rt; whole.status, 0);
    for write in 1..5 {
        let mut calls = script(OPENED, lines.as_str());
        calls.write = write;
        let ran = run(&rt, alloc, &calls)?;
        assert_eq!(rt; ran.status, 4);
        assert_eq!(rt; ran.out.len() as u64, 4096 * (write - 1));
        assert!(rt; whole.out.starts_with(&ran.out));
    }
    Ok(())
}

// The write of the second piece fails while lines are still to be read.
#[test]
fn answers_are_written_before_the_script_ends(rt: HostRuntime) -> Result<(), Fail> {
    let alloc = rt.alloc();
    let mut bytes = OPENED.as_bytes().to_vec(alloc)?;
    for _ in 0..1000 {
        bytes.extend_from_slice(b"page c0 s0\n")?;
    }
    let mut words = Vec::new(alloc);
    words.push(String::from_str(alloc, "run")?)?;
    let mut source = MemSource::new(bytes, Vec::new(alloc), 64);
    let mut out = MemSink::new(alloc, [2].to_vec(alloc)?);
    let mut shelf = MemShelf::new(alloc, Vec::new(alloc));
    let mut deck = Deck::new(alloc)?;
    let status = pcm_main(alloc, &words, &mut source, &mut out, &mut shelf, &mut deck);
    assert_eq!(rt; status.number(), 4);
    assert_eq!(rt; out.bytes().len(), 4096);
    assert_eq!(rt; source.read(&mut [0; 64]), Ok(64));
    Ok(())
}

const SPACES: &str =
    "space basic 8 4 2 2 1 200000 1 65536 2 32 4 65536\nspace basic 8 4 3 8 1 200000 1 65536 2 32 4 65536\n";

#[test]
fn a_space_is_cut_to_what_the_model_allows(rt: HostRuntime) -> Result<(), Fail> {
    let box_told = "space basic 8 4 2 2 8000 48000 1 8192 2 32 4 16384\nerr EINVAL 22\n";
    for (word, script, read, write, status, out) in [
        ("refine", SPACES, 0, 0, 0, box_told),
        ("refine", "", 0, 0, 0, ""),
        ("play", SPACES, 1, 1, 1, ""),
        ("refine", "space basic 8\n", 0, 0, 2, ""),
        ("refine", "card s0 basic p\n", 0, 0, 2, ""),
        ("refine", SPACES, 1, 0, 3, ""),
        (
            "refine",
            SPACES,
            2,
            0,
            3,
            "space basic 8 4 2 2 8000 48000 1 8192 2 32 4 16384\n",
        ),
        ("refine", SPACES, 0, 1, 4, ""),
    ] {
        let calls = Calls {
            word,
            before: "",
            script,
            read,
            write,
            shelf: 0,
        };
        let ran = run(&rt, rt.alloc(), &calls)?;
        assert_eq!(rt; ran.status, status);
        assert_eq!(rt; ran.out.as_slice(), out.as_bytes());
    }
    Ok(())
}
