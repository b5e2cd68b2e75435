// What no clause says: that calls succeed, and what the real ends do.
use super::*;
use pcm_base::{Failed, Name};
use std::alloc::Global;
use std::fs;
use std::fs::File;
use std::test::Fail;

fn numbers(alloc: Global, list: &[u64]) -> Result<Vec<u64>, Fail> {
    Ok(list.to_vec(alloc)?)
}

fn named(name: &[u8]) -> Result<Name, Fail> {
    Ok(Name::of(name).ok_or("no name")?)
}

#[test]
fn a_listed_read_fails_and_loses_nothing(rt: HostRuntime) -> Result<(), Fail> {
    let bytes = b"abcde".to_vec(rt.alloc())?;
    let mut source = MemSource::new(bytes, numbers(rt.alloc(), &[2])?, 2);
    let mut into = [0u8; 4];
    for (want, front) in [
        (Ok(2), b"ab"),
        (Err(Failed), b"ab"),
        (Ok(2), b"cd"),
        (Ok(1), b"ed"),
        (Ok(0), b"ed"),
    ] {
        assert_eq!(rt; source.read(&mut into), want);
        assert_eq!(rt; into[..2], front[..]);
    }
    Ok(())
}

#[test]
fn a_listed_write_fails_and_appends_nothing(rt: HostRuntime) -> Result<(), Fail> {
    let mut sink = MemSink::new(rt.alloc(), numbers(rt.alloc(), &[2])?);
    assert_eq!(rt; write_all(&mut sink, b"abc"), Ok(()));
    assert_eq!(rt; write_all(&mut sink, b"de"), Err(Failed));
    assert_eq!(rt; sink.bytes(), b"abc".as_slice());
    assert_eq!(rt; write_all(&mut sink, b"f"), Ok(()));
    assert_eq!(rt; sink.bytes(), b"abcf".as_slice());
    Ok(())
}

#[test]
fn a_source_is_read_to_its_end_or_one_byte_past_the_limit(rt: HostRuntime) -> Result<(), Fail> {
    for (failing, limit, want) in [
        (9, 10, Ok(b"abcde".as_slice())),
        (9, 5, Ok(b"abcde".as_slice())),
        (9, 3, Ok(b"abcd".as_slice())),
        (9, 0, Ok(b"a".as_slice())),
        (1, 10, Err(ReadEnd::Failed)),
        (3, 10, Err(ReadEnd::Failed)),
        (4, 10, Err(ReadEnd::Failed)),
    ] {
        let bytes = b"abcde".to_vec(rt.alloc())?;
        let mut source = MemSource::new(bytes, numbers(rt.alloc(), &[failing])?, 2);
        let read = read_to_limit(rt.alloc(), &mut source, limit);
        match (&read, want) {
            (Ok(bytes), Ok(want)) => assert_eq!(rt; bytes.as_slice(), want, "limit {limit}"),
            (Err(e), Err(want)) => assert_eq!(rt; *e, want, "failing {failing}"),
            _ => assert!(rt; false, "limit {limit}, failing {failing}"),
        }
    }
    Ok(())
}

#[test]
fn files_in_memory_are_stored_replaced_and_loaded(rt: HostRuntime) -> Result<(), Fail> {
    let mut shelf = MemShelf::new(rt.alloc(), numbers(rt.alloc(), &[2, 6])?);
    let (one, two) = (named(b"one.wav")?, named(b"two.wav")?);
    assert_eq!(rt; shelf.store(&one, b"first"), Ok(()));
    assert_eq!(rt; shelf.store(&two, b"lost"), Err(ShelfError::Failed));
    assert_eq!(rt; shelf.get(&two), None);
    assert_eq!(rt; shelf.store(&two, b"second"), Ok(()));
    assert_eq!(rt; shelf.store(&one, b"third"), Ok(()));
    let loaded = shelf.load(&one)?.ok_or("no file")?;
    assert_eq!(rt; loaded.as_slice(), b"third".as_slice());
    assert_eq!(rt; shelf.load(&one).err(), Some(ShelfError::Failed));
    assert!(rt; shelf.load(&named(b"three.wav")?)?.is_none());
    assert_eq!(rt; shelf.get(&one), Some(b"third".as_slice()));
    assert_eq!(rt; shelf.get(&two), Some(b"second".as_slice()));
    Ok(())
}

#[test]
fn a_real_file_is_written_and_read(rt: HostRuntime) -> Result<(), Fail> {
    let path = "streams.txt";
    let mut sink = StdSink::new(File::create(&rt, path)?);
    assert_eq!(rt; write_all(&mut sink, b"some bytes"), Ok(()));
    let mut source = StdSource::new(File::open(&rt, path)?);
    let bytes = read_to_limit(rt.alloc(), &mut source, 4)?;
    assert_eq!(rt; bytes.as_slice(), b"some ".as_slice());
    let mut unreadable = StdSource::new(File::open(&rt, ".")?);
    assert_eq!(rt; unreadable.read(&mut [0; 4]), Err(Failed));
    fs::remove_file(&rt, path)?;
    Ok(())
}

#[test]
fn a_folder_holds_what_was_stored(rt: HostRuntime) -> Result<(), Fail> {
    let folder = "shelf";
    fs::create_dir_all(&rt, "shelf/folder")?;
    let mut shelf = FolderShelf::new(&rt, rt.alloc(), folder);
    let (one, missing, place) = (named(b"one.wav")?, named(b"none.wav")?, named(b"folder")?);
    let other = named(b"other.wav")?;
    assert_eq!(rt; shelf.store(&other, b"stays"), Ok(()));
    for bytes in [b"a longer first".as_slice(), b"second".as_slice()] {
        assert_eq!(rt; shelf.store(&one, bytes), Ok(()));
        let loaded = shelf.load(&one)?.ok_or("no file")?;
        assert_eq!(rt; loaded.as_slice(), bytes);
    }
    assert!(rt; shelf.load(&missing)?.is_none());
    assert_eq!(rt; shelf.load(&place).err(), Some(ShelfError::Failed));
    assert_eq!(rt; shelf.store(&place, b"bytes"), Err(ShelfError::Failed));
    let kept = shelf.load(&other)?.ok_or("no other file")?;
    assert_eq!(rt; kept.as_slice(), b"stays".as_slice());
    assert!(rt; !fs::exists(&rt, "shelf/.one.wav.part0")?);
    // What ten interrupted stores left is no hindrance, and stays.
    for number in 0..10u8 {
        let left = format!(in rt.alloc(); "shelf/.one.wav.part{number}")?;
        File::create_new(&rt, left.as_str())?;
    }
    assert_eq!(rt; shelf.store(&one, b"third"), Ok(()));
    let loaded = shelf.load(&one)?.ok_or("no file")?;
    assert_eq!(rt; loaded.as_slice(), b"third".as_slice());
    assert!(rt; fs::exists(&rt, "shelf/.one.wav.part9")?);
    assert!(rt; !fs::exists(&rt, "shelf/.one.wav.part10")?);
    fs::remove_dir_all(&rt, folder)?;
    Ok(())
}

// The lines of a source, in its pieces: each is followed by a bar.
fn barred(alloc: Global, text: &[u8], piece: usize, most: usize) -> Result<Vec<u8>, Fail> {
    let mut source = MemSource::new(text.to_vec(alloc)?, numbers(alloc, &[])?, piece.max(1));
    let mut lines = Lines::new(alloc, most);
    let mut out = Vec::new(alloc);
    for _ in 0..u64::MAX {
        if !lines.has_more(&mut source)? {
            break;
        }
        lines.next_line(&mut source)?;
        out.extend_from_slice(lines.line())?;
        out.push(if lines.is_used_up() { b'!' } else { b'|' })?;
    }
    Ok(out)
}

#[test]
fn lines_are_cut_at_their_line_feeds(rt: HostRuntime) -> Result<(), Fail> {
    for (text, most, want) in [
        (b"".as_slice(), 99, b"".as_slice()),
        (b"\n", 99, b"|"),
        (b"ab\n\nc", 99, b"ab||c|"),
        (b"ab\ncde\n", 99, b"ab|cde|"),
        (b"a long line\nab", 99, b"a long line|ab|"),
        (b"ab\ncde\n", 7, b"ab|cde!"),
        (b"ab\ncde\nf", 6, b"ab|cde!"),
        (b"ab\ncde", 5, b"ab|cd!"),
        (b"ab", 0, b""),
    ] {
        for piece in [1, 2, 3, 64] {
            let got = barred(rt.alloc(), text, piece, most)?;
            assert_eq!(rt; got.as_slice(), want, "pieces of {piece}");
        }
    }
    Ok(())
}

#[test]
fn a_failed_read_leaves_what_came_of_a_line(rt: HostRuntime) -> Result<(), Fail> {
    let alloc = rt.alloc();
    let mut source = MemSource::new(b"ab\ncdef\n".to_vec(alloc)?, numbers(alloc, &[1, 4])?, 2);
    let mut lines = Lines::new(alloc, 99);
    assert_eq!(rt; lines.has_more(&mut source), Err(Failed));
    assert_eq!(rt; lines.has_more(&mut source), Ok(true));
    assert_eq!(rt; lines.next_line(&mut source), Ok(()));
    assert_eq!(rt; lines.line(), b"ab".as_slice());
    assert_eq!(rt; lines.next_line(&mut source), Err(ReadEnd::Failed));
    assert_eq!(rt; lines.line(), b"c".as_slice());
    assert_eq!(rt; lines.next_line(&mut source), Ok(()));
    assert_eq!(rt; lines.line(), b"def".as_slice());
    assert_eq!(rt; lines.has_more(&mut source), Ok(false));
    Ok(())
}

#[test]
fn text_is_written_in_whole_pieces(rt: HostRuntime) -> Result<(), Fail> {
    let alloc = rt.alloc();
    for (failing, len, wrote, written, rest) in [
        (9, 4095, Ok(()), 0, 4095),
        (9, 4096, Ok(()), 4096, 0),
        (9, 10_000, Ok(()), 8192, 1808),
        (2, 10_000, Err(Failed), 4096, 10_000),
    ] {
        let mut text = Vec::new(alloc);
        text.resize(len - 1, b'x')?;
        text.push(b'y')?;
        let mut sink = MemSink::new(alloc, numbers(alloc, &[failing])?);
        assert_eq!(rt; write_pieces(&mut sink, &mut text), wrote);
        assert_eq!(rt; sink.bytes().len(), written);
        assert_eq!(rt; text.len(), rest);
        assert!(rt; rest == 0 || text.last() == Some(&b'y'));
    }
    Ok(())
}

#[test]
fn all_of_a_text_is_written_in_pieces(rt: HostRuntime) -> Result<(), Fail> {
    let alloc = rt.alloc();
    for (failing, len, wrote, written) in [
        (9, 0, Ok(()), 0),
        (9, 10_000, Ok(()), 10_000),
        (2, 10_000, Err(Failed), 4096),
        (3, 10_000, Err(Failed), 8192),
    ] {
        let mut text = Vec::new(alloc);
        text.resize(len, b'x')?;
        let mut sink = MemSink::new(alloc, numbers(alloc, &[failing])?);
        assert_eq!(rt; write_rest(&mut sink, &mut text), wrote);
        assert_eq!(rt; sink.bytes().len(), written);
    }
    Ok(())
}

#[test]
fn a_line_is_given_before_the_source_has_ended(rt: HostRuntime) -> Result<(), Fail> {
    let alloc = rt.alloc();
    let mut source = MemSource::new(b"ab\ncd\n".to_vec(alloc)?, numbers(alloc, &[])?, 3);
    let mut lines = Lines::new(alloc, 99);
    assert_eq!(rt; lines.has_more(&mut source), Ok(true));
    assert_eq!(rt; lines.next_line(&mut source), Ok(()));
    assert_eq!(rt; lines.line(), b"ab".as_slice());
    let mut into = [0u8; 4];
    assert_eq!(rt; source.read(&mut into), Ok(3));
    assert_eq!(rt; into[..3], b"cd\n"[..]);
    Ok(())
}
