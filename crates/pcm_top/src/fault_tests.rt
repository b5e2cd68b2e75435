// The commands with words of their own, where a call of the outside fails: the status names what failed, a front of the
// line is written, and every file stays but the one that they store.
use super::*;
use crate::sound_tests::{
    BYTES, CUT, FIVE_BYTES, NOTHING, THREE, bytes_of, second_of_stereo, words_of,
};
use pcm_base::Name;
use pcm_io::{MemShelf, MemSource, Shelf, StdSink};
use play_record::Deck;
use std::alloc::Global;
use std::process::Abort;
use std::test::Fail;

const OTHER: &[u8] = b"another file";

// The shelf's first two calls put the files there, its third is the load, and its fourth the store.
const NO_CALL: u64 = 0;

const LOAD: u64 = 3;

const STORE: u64 = 4;

// What words came to: the status, what was written, the file `out.wav`, empty where there is none, and whether the other
// files stay.
#[derive(Drop)]
struct Left {
    status: u8,
    written: Vec<u8>,
    stored: Vec<u8>,
    stay: bool,
}

// The words over the files `in.wav` and `other.wav`, where the output takes so many bytes and the shelf fails at a call.
fn left_by(
    rt: &impl Abort,
    alloc: Global,
    words: &str,
    file: &[u8],
    room: usize,
    failing: u64,
) -> Result<Left, Fail> {
    let words = words_of(alloc, words)?;
    let mut source = MemSource::new(Vec::new(alloc), Vec::new(alloc), 64);
    let mut written = Vec::new(alloc);
    written.resize(room, b'#')?;
    let mut out = StdSink::new(written.as_mut_slice());
    let mut shelf = MemShelf::new(alloc, [failing].to_vec(alloc)?);
    let input = Name::of(b"in.wav").expect(rt, "a name");
    let other = Name::of(b"other.wav").expect(rt, "a name");
    let output = Name::of(b"out.wav").expect(rt, "a name");
    assert!(rt; shelf.store(&input, file).is_ok());
    assert!(rt; shelf.store(&other, OTHER).is_ok());
    let mut deck = Deck::new(alloc)?;
    let status = pcm_main(alloc, &words, &mut source, &mut out, &mut shelf, &mut deck).number();
    let input_stays = shelf.get(&input) == Some(file);
    let other_stays = shelf.get(&other) == Some(OTHER);
    Ok(Left {
        status,
        written,
        stored: bytes_of(alloc, shelf.get(&output))?,
        stay: input_stays && other_stays,
    })
}

// The output takes each count of bytes up to the whole line; what is stored is stored before.
fn is_written_as_far_as_it_can_be(
    rt: &impl Abort,
    alloc: Global,
    words: &str,
    file: &[u8],
    line: &[u8],
    stored: &[u8],
) -> Result<(), Fail> {
    for room in 0..=line.len() {
        let left = left_by(rt, alloc, words, file, room, NO_CALL)?;
        assert_eq!(rt; left.status, if room < line.len() { 4 } else { 0 });
        assert!(rt; line.starts_with(&left.written));
        assert_eq!(rt; left.stored.as_slice(), stored);
        assert!(rt; left.stay);
    }
    Ok(())
}

#[test]
fn a_line_is_written_up_to_a_fault(rt: HostRuntime) -> Result<(), Fail> {
    for (words, file, line, stored) in [
        (
            "play in.wav out.wav 3 2",
            CUT,
            b"played 3 stored 3\n".as_slice(),
            THREE,
        ),
        ("capture in.wav out.wav 3", CUT, b"captured 3\n", THREE),
        (
            "capture in.wav out.wav 5",
            BYTES,
            b"captured 5\n",
            FIVE_BYTES,
        ),
        (
            "gen 0",
            BYTES,
            b"lines 9 frames 0 moved 0 errors 0 wakes 0\n",
            NOTHING,
        ),
    ] {
        is_written_as_far_as_it_can_be(&rt, rt.alloc(), words, file, line, stored)?;
    }
    Ok(())
}

// Nothing is stored, and nothing is written, though the output would take nothing either.
#[test]
fn a_file_that_fails_is_named_first(rt: HostRuntime) -> Result<(), Fail> {
    for (words, failing, status) in [
        ("play in.wav out.wav 3 2", LOAD, 5),
        ("play in.wav out.wav 3 2", STORE, 5),
        ("play none.wav out.wav 3 2", NO_CALL, 6),
        ("play none.wav out.wav 3 2", LOAD, 5),
        ("capture in.wav out.wav 3", LOAD, 5),
        ("capture in.wav out.wav 3", STORE, 5),
        ("capture none.wav out.wav 3", NO_CALL, 6),
        ("capture none.wav out.wav 3", LOAD, 5),
    ] {
        let left = left_by(&rt, rt.alloc(), words, CUT, 0, failing)?;
        assert_eq!(rt; left.status, status);
        assert!(rt; left.stored.is_empty());
        assert!(rt; left.stay);
    }
    Ok(())
}

// A file that is taken in 44 periods.
#[test]
fn a_second_of_stereo_meets_each_fault(rt: HostRuntime) -> Result<(), Fail> {
    let alloc = rt.alloc();
    let file = second_of_stereo(alloc)?;
    let line = b"played 44100 stored 45056\n".as_slice();
    for (room, failing, status, stored) in [
        (26, NO_CALL, 0, 180_268),
        (25, NO_CALL, 4, 180_268),
        (0, NO_CALL, 4, 180_268),
        (0, LOAD, 5, 0),
        (0, STORE, 5, 0),
    ] {
        let words = "play in.wav out.wav 1024 4";
        let left = left_by(&rt, alloc, words, &file, room, failing)?;
        assert_eq!(rt; left.status, status);
        assert!(rt; line.starts_with(&left.written));
        assert_eq!(rt; left.stored.len(), stored);
        assert!(rt; left.stay);
    }
    Ok(())
}
