// One line of every form, cut after each byte. The table is made by tests/lines/cut_lines.py of the repository, from the
// grammar and not from the reader.
use super::*;

// The last piece begins behind the last space.
fn last_piece(bytes: &[u8]) -> usize {
    match bytes.iter().rposition(|b| *b == b' ') {
        Some(space) => space.saturating_add(1),
        None => 0,
    }
}

// `w`, `n` and `l` stand for faults of the last piece, `s` for a missing one, and `.` for a line.
fn fault_of(letter: u8, at: usize) -> Option<LineError> {
    match letter {
        b'w' => Some(LineError::Word(at)),
        b'n' => Some(LineError::Number(at)),
        b'l' => Some(LineError::Long(at)),
        b's' => Some(LineError::Short),
        _ => None,
    }
}

#[test]
fn a_cut_line_has_its_fault_or_is_a_line(rt: HostRuntime) {
    let table = [
        ("long 1023", "wwwwsn...."),
        ("card s0 duplex p", "wwwwswwswwwwwwsw."),
        ("card s1 indirect c", "wwwwswwswwwwwwwwsw."),
        ("open c0 s10", "wwwwswwsww.."),
        ("close c15 s15", "wwwwwswwssww.."),
        (
            "hw c0 s0 RW_INTERLEAVED S24_3LE 2 48000 10 4",
            "wwswwswwswwwwwwwwwwwwwwswwwwwwwsnsnsssssnssn.",
        ),
        ("hwfree c0 s0", "wwswwwswwsww."),
        ("sw c0 s0 2 1 16 0 9", "wwswwswwsnsnsnssnsn."),
        ("prepare c0 s0", "wwwwwwwswwsww."),
        ("start c0 s0", "wwwwwswwsww."),
        ("drop c0 s0", "wwwwswwsww."),
        ("pause c0 s0", "wwwwwswwsww."),
        ("release c0 s0", "wwwwwwwswwsww."),
        ("suspend c0 s0", "wwwwwwwswwsww."),
        ("resume c0 s0", "wwwwwwswwsww."),
        ("xrun c0 s0", "wwwwswwsww."),
        ("drain c0 s0 b", "wwwwwswwswwsw."),
        ("writei c0 s0 n 00ff", "wwwwwwswwswwswsww.w."),
        ("writen c0 s0 b -", "wwwwwwswwswwswsw."),
        ("readi c0 s0 b 80", "wwwwwswwswwswsn.."),
        ("readn c0 s0 n 0", "wwwwwswwswwswsn."),
        ("rewind c0 s0 3", "wwwwwwswwswwsn."),
        ("forward c0 s0 3", "wwwwwwwswwswwsn."),
        ("hwsync c0 s0", "wwswwwswwsww."),
        ("delay c0 s0", "wwwwwswwsww."),
        ("status c0 s0", "wwwwwwswwsww."),
        ("page c0 s0", "wwwwswwsww."),
        ("poll c0 s0", "wwwwswwsww."),
        ("sync c0 s0 7", "wwwwswwswwsn."),
        ("mmap c0 s0", "wwwwswwsww."),
        ("munmap c0 s0", "wwwwwwswwsww."),
        ("store c0 s0 5 0a", "wwwwwswwswwsnsww."),
        ("load c0 s0 5 2", "wwwwswwswwsnsn."),
        ("link c0 s0 s1", "wwwwswwswwsww."),
        ("unlink c0 s0", "wwwwwwswwsww."),
        ("go c3", "wwsww."),
        ("move s0 40", "wwwwswwsn.."),
        ("irq s0", "wwwsww."),
        ("fail s0 1", "wwwwswwsn."),
        ("unplug s0", "wwwwwwsww."),
        ("give s0 7f", "wwwwswwsww."),
        ("feed s0 a.wav", "wwwwswwsw....."),
        ("save s0 a-b", "wwwwswwsw..."),
        (
            "space basic 8 4 2 2 1 20 1 65 2 32 4 65",
            "wwwwwswwwwwsnsnsnsnsnsnssnsnssnsnssnsn..",
        ),
        ("beat s0 4 10", "wwwwswwsnsn.."),
        ("threads", "wwwwwww."),
        ("join", "wwww."),
        ("version 2", "wwwwwwwsn."),
        ("carry s0 s15", "wwwwwswwsww.."),
        ("wire s10 s1", "wwwwswwssww."),
    ];
    for (line, letters) in table {
        assert_eq!(rt; letters.len(), line.len().saturating_add(1), "{line}");
        for (count, letter) in letters.as_bytes().iter().enumerate() {
            let Some(front) = line.as_bytes().get(..count) else {
                break;
            };
            let read = match read_line(rt.alloc(), front) {
                Ok(_) => None,
                Err(e) => Some(e),
            };
            assert_eq!(rt;
                read,
                fault_of(*letter, last_piece(front)),
                "{line}, {count} bytes"
            );
        }
    }
}
