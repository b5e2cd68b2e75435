// The commands with words of their own, over memory: what they write and store, and what they refuse.
use super::*;
use pcm_base::Name;
use pcm_io::{MemShelf, MemSink, MemSource, Shelf};
use pcm_text::fault_text;
use play_record::Deck;
use std::alloc::{AllocError, Global};
use std::process::Abort;
use std::test::Fail;

// Three frames of S16_LE at 8000 Hz, in a file whose sizes say that there are 500.
pub(crate) const CUT: &[u8] =
    b"RIFF\x0c\x04\0\0WAVEfmt \x10\0\0\0\x01\0\x01\0\x40\x1f\0\0\x80\x3e\0\0\x02\0\x10\0data\xe8\x03\0\0\x01\0\x02\0\x03\0";

// The three frames alone.
pub(crate) const THREE: &[u8] =
    b"RIFF\x2a\0\0\0WAVEfmt \x10\0\0\0\x01\0\x01\0\x40\x1f\0\0\x80\x3e\0\0\x02\0\x10\0data\x06\0\0\0\x01\0\x02\0\x03\0";

// Three frames of U8, and five.
pub(crate) const BYTES: &[u8] =
    b"RIFF\x28\0\0\0WAVEfmt \x10\0\0\0\x01\0\x01\0\x40\x1f\0\0\x40\x1f\0\0\x01\0\x08\0data\x03\0\0\0\x01\x02\x03\0";

pub(crate) const FIVE_BYTES: &[u8] =
    b"RIFF\x2a\0\0\0WAVEfmt \x10\0\0\0\x01\0\x01\0\x40\x1f\0\0\x40\x1f\0\0\x01\0\x08\0data\x05\0\0\0\x01\x02\x03\0\0\0";

const FOUR_BYTES: &[u8] =
    b"RIFF\x28\0\0\0WAVEfmt \x10\0\0\0\x01\0\x01\0\x40\x1f\0\0\x40\x1f\0\0\x01\0\x08\0data\x04\0\0\0\x01\x02\x03\x80";

// One frame of 24 valid bits in 32, as the file has it, and twice as many with silence.
const VALID: &[u8] =
    b"RIFF\x40\0\0\0WAVEfmt \x28\0\0\0\xfe\xff\x01\0\x40\x1f\0\0\0\x7d\0\0\x04\0\x20\0\x16\0\x18\0\0\0\0\0\x01\0\0\0\0\0\x10\0\x80\0\0\xaa\0\x38\x9b\x71data\x04\0\0\0\0\x01\x02\x03";

const VALID_TWICE: &[u8] =
    b"RIFF\x44\0\0\0WAVEfmt \x28\0\0\0\xfe\xff\x01\0\x40\x1f\0\0\0\x7d\0\0\x04\0\x20\0\x16\0\x18\0\0\0\0\0\x01\0\0\0\0\0\x10\0\x80\0\0\xaa\0\x38\x9b\x71data\x08\0\0\0\0\x01\x02\x03\0\0\0\0";

pub(crate) const NOTHING: &[u8] = b"";

const RIFX: &[u8] =
    b"RIFX\x0c\x04\0\0WAVEfmt \x10\0\0\0\x01\0\x01\0\x40\x1f\0\0\x80\x3e\0\0\x02\0\x10\0data\xe8\x03\0\0\x01\0\x02\0\x03\0";

const FLOAT: &[u8] =
    b"RIFF\x0c\x04\0\0WAVEfmt \x10\0\0\0\x03\0\x01\0\x40\x1f\0\0\x80\x3e\0\0\x02\0\x10\0data\xe8\x03\0\0\x01\0\x02\0\x03\0";

// What these words came to, over a shelf with the file `in.wav`, where it is not empty: what was written, the file
// `out.wav`, empty where there is none, and the line that tells why it ended.
#[derive(Drop)]
struct Outcome {
    out: Vec<u8>,
    file: Vec<u8>,
    why: String,
}

pub(crate) fn bytes_of(alloc: Global, file: Option<&[u8]>) -> Result<Vec<u8>, AllocError> {
    match file {
        None => Ok(Vec::new(alloc)),
        Some(bytes) => bytes.to_vec(alloc),
    }
}

pub(crate) fn words_of(alloc: Global, text: &str) -> Result<Vec<String>, AllocError> {
    let mut words = Vec::new(alloc);
    for word in text.split(' ') {
        words.push(String::from_str(alloc, word)?)?;
    }
    Ok(words)
}

fn outcome_of(rt: &impl Abort, alloc: Global, words: &str, file: &[u8]) -> Result<Outcome, Fail> {
    let words = words_of(alloc, words)?;
    let mut source = MemSource::new(Vec::new(alloc), Vec::new(alloc), 64);
    let mut out = MemSink::new(alloc, Vec::new(alloc));
    let mut shelf = MemShelf::new(alloc, Vec::new(alloc));
    let input = Name::of(b"in.wav").expect(rt, "a name");
    let output = Name::of(b"out.wav").expect(rt, "a name");
    if !file.is_empty() {
        assert!(rt; shelf.store(&input, file).is_ok());
    }
    let mut deck = Deck::new(alloc)?;
    let status = pcm_main(alloc, &words, &mut source, &mut out, &mut shelf, &mut deck);
    Ok(Outcome {
        out: out.bytes().to_vec(alloc)?,
        file: bytes_of(alloc, shelf.get(&output))?,
        why: fault_text(alloc, &status)?,
    })
}

// What the words write and store, over the file.
fn goes_through(
    rt: &impl Abort,
    alloc: Global,
    words: &str,
    file: &[u8],
    out: &str,
    stored: &[u8],
) -> Result<(), Fail> {
    let outcome = outcome_of(rt, alloc, words, file)?;
    assert_eq!(rt; outcome.why.as_str(), "");
    assert_eq!(rt; outcome.out.as_slice(), out.as_bytes());
    assert_eq!(rt; outcome.file.as_slice(), stored);
    Ok(())
}

// Silence stands up to a whole period.
#[test]
fn a_file_is_played(rt: HostRuntime) -> Result<(), Fail> {
    for (words, file, out, stored) in [
        ("play in.wav out.wav 3 2", CUT, "played 3 stored 3\n", THREE),
        (
            "play in.wav out.wav 4 2",
            BYTES,
            "played 3 stored 4\n",
            FOUR_BYTES,
        ),
        (
            "play in.wav out.wav 2 2",
            VALID,
            "played 1 stored 2\n",
            VALID_TWICE,
        ),
    ] {
        goes_through(&rt, rt.alloc(), words, file, out, stored)?;
    }
    Ok(())
}

// Zero frames stand past the end.
#[test]
fn a_file_is_recorded(rt: HostRuntime) -> Result<(), Fail> {
    for (words, file, out, stored) in [
        ("capture in.wav out.wav 3", CUT, "captured 3\n", THREE),
        (
            "capture in.wav out.wav 5",
            BYTES,
            "captured 5\n",
            FIVE_BYTES,
        ),
        (
            "capture in.wav out.wav 2",
            VALID,
            "captured 2\n",
            VALID_TWICE,
        ),
    ] {
        goes_through(&rt, rt.alloc(), words, file, out, stored)?;
    }
    Ok(())
}

// A file of 44,100 frames of stereo.
pub(crate) fn second_of_stereo(alloc: Global) -> Result<Vec<u8>, AllocError> {
    let mut file =
        b"RIFF\x34\xb1\x02\0WAVEfmt \x10\0\0\0\x01\0\x02\0\x44\xac\0\0\x10\xb1\x02\0\x04\0\x10\0data\x10\xb1\x02\0".to_vec(
            alloc,
        )?;
    for frame in 0..44_100u32 {
        file.extend_from_slice(&(frame * 40_503).to_le_bytes())?;
    }
    Ok(file)
}

// It is played in periods of 1,024.
#[test]
fn a_second_of_stereo_is_played(rt: HostRuntime) -> Result<(), Fail> {
    let alloc = rt.alloc();
    let file = second_of_stereo(alloc)?;
    let outcome = outcome_of(&rt, alloc, "play in.wav out.wav 1024 4", &file)?;
    assert_eq!(rt;
        outcome.out.as_slice(),
        b"played 44100 stored 45056\n".as_slice()
    );
    assert_eq!(rt; outcome.file.len(), 44 + 4 * 45_056);
    assert_eq!(rt; outcome.file.get(44..176_444), file.get(44..));
    Ok(())
}

// Nothing is stored or written.
#[test]
fn refusals_come_in_order(rt: HostRuntime) -> Result<(), Fail> {
    let many = "capture in.wav out.wav 67108865";
    for (words, file, why) in [
        ("play in.wav out.wav 1 2", BYTES, "refused EINVAL 22"),
        ("play in.wav out.wav 4 2", RIFX, "bad wav in.wav: not RIFF"),
        (
            "play in.wav out.wav 4 2",
            FLOAT,
            "bad wav in.wav: not PCM 3",
        ),
        (
            "capture in.wav out.wav 3",
            FLOAT,
            "bad wav in.wav: not PCM 3",
        ),
        ("play in.wav out.wav 4 2", b"", "missing in.wav"),
        ("capture in.wav out.wav 3", b"", "missing in.wav"),
        (many, BYTES, "limit CaptureBytes 67108865"),
        (
            "capture in.wav out.wav 9223372036854775807",
            VALID,
            "limit CaptureBytes 18446744073709551615",
        ),
        ("gen 1001", b"", "limit GenNumber 1001"),
    ] {
        let outcome = outcome_of(&rt, rt.alloc(), words, file)?;
        assert_eq!(rt; outcome.why.as_str(), why);
        assert!(rt; outcome.out.is_empty());
        assert!(rt; outcome.file.is_empty());
    }
    Ok(())
}

#[test]
fn other_words_are_a_wrong_use(rt: HostRuntime) -> Result<(), Fail> {
    for words in [
        "gen",
        "gen ",
        "gen x",
        "gen 01",
        "gen +1",
        "gen 1 1",
        "gen 9223372036854775808",
        "--help",
        "run run",
        "Run",
        "play in.wav out.wav 3",
        "play in.wav out.wav 01 2",
        "play in.wav out.wav 3 2 1",
        "play in.wav .out 3 2",
        "play in.wav Out 3 2",
        "capture in.wav out.wav",
        "capture in.wav out.wav -3",
        "capture in.wav out/wav 3",
    ] {
        let outcome = outcome_of(&rt, rt.alloc(), words, CUT)?;
        assert_eq!(rt; outcome.why.as_str(), "usage");
        assert!(rt; outcome.out.is_empty());
        assert!(rt; outcome.file.is_empty());
    }
    Ok(())
}

#[test]
fn a_generated_script_is_summed_up(rt: HostRuntime) -> Result<(), Fail> {
    let alloc = rt.alloc();
    let none = outcome_of(&rt, alloc, "gen 0", b"")?;
    assert_eq!(rt;
        none.out.as_slice(),
        b"lines 9 frames 0 moved 0 errors 0 wakes 0\n".as_slice()
    );
    let one = outcome_of(&rt, alloc, "gen 1", b"")?;
    assert_eq!(rt; one.why.as_str(), "");
    assert!(rt; one.out.starts_with(b"lines 709 frames "));
    Ok(())
}
