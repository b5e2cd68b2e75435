// What no clause says: that calls succeed, and the answers to plans, worked out by hand.
use crate::{Plan, PlanError, read_plan};
use pcm_base::{Dir, Model};
use pcm_io::MemSource;
use pcm_line::{Line, LineError};
use pcm_text::Which;
use std::alloc::{AllocError, Global};
use std::test::Fail;

fn read(
    alloc: Global,
    text: &[u8],
    failing: &[u64],
    piece: usize,
) -> Result<Result<Plan, PlanError>, AllocError> {
    let failing = failing.to_vec(alloc)?;
    let mut source = MemSource::new(text.to_vec(alloc)?, failing, piece.max(1));
    Ok(read_plan(alloc, &mut source))
}

#[test]
fn a_plan_of_one_client_is_read_whole(rt: HostRuntime) -> Result<(), Fail> {
    let text = b"card s0 basic p
open c0 s0
hw c0 s0 RW_INTERLEAVED U8 1 8000 2 2
threads
prepare c0 s0
writei c0 s0 n 01020304
status c0 s0
drop c0 s0
join
";
    let plan = read(rt.alloc(), text, &[], 7)??;
    assert_eq!(rt; plan.long_max, 2_147_483_647);
    assert_eq!(rt; plan.cards.len(), 1);
    assert!(rt; plan.cards[0] == (Model::Basic, Dir::Playback));
    assert_eq!(rt; plan.setup.len(), 2);
    assert_eq!(rt; plan.clients.len(), 16);
    assert_eq!(rt; plan.clients[0].len(), 4);
    assert_eq!(rt; plan.clients[1].len(), 0);
    assert_eq!(rt; plan.beats.len(), 0);
    assert_eq!(rt; plan.saves.len(), 0);
    Ok(())
}

#[test]
fn each_line_goes_to_its_list(rt: HostRuntime) -> Result<(), Fail> {
    let text = b"long 1023
card s0 duplex p
card s1 studio c
open c2 s0
fail s1 3
feed s1 in.wav
unplug s1
threads
beat s1 4 10
writei c2 s0 b 01
open c15 s1
link c2 s0 s1
beat s0 2 5
join
save s0 a.wav
save s0 b.wav";
    let plan = read(rt.alloc(), text, &[], 4096)??;
    assert_eq!(rt; plan.long_max, 1023);
    assert_eq!(rt; plan.cards.len(), 2);
    assert!(rt; plan.cards[1] == (Model::Studio, Dir::Capture));
    assert_eq!(rt; plan.setup.len(), 4);
    assert_eq!(rt; plan.clients.len(), 16);
    assert_eq!(rt; plan.clients[2].len(), 2);
    assert_eq!(rt; plan.clients[15].len(), 1);
    assert_eq!(rt; plan.beats.len(), 2);
    assert!(rt; matches!(&plan.beats[0], Line::Beat(sub, 4, 10) if sub.0 == 1));
    assert_eq!(rt; plan.saves.len(), 2);
    Ok(())
}

#[test]
fn the_first_line_at_fault_decides(rt: HostRuntime) -> Result<(), Fail> {
    for (text, number, fault) in [
        // A line that is none comes first.
        (b"".as_slice(), 1, LineError::Short),
        (b"\n", 1, LineError::Word(0)),
        (b"# a remark", 1, LineError::Word(0)),
        (b"beat s0 x", 1, LineError::Number(8)),
        (b"card s0 basic p\nopen c0 s0 s0", 2, LineError::Long(11)),
        // LONG_MAX.
        (b"long 14", 1, LineError::Number(5)),
        (b"long 68719476736", 1, LineError::Number(5)),
        (b"long 15\nlong 15", 2, LineError::Word(0)),
        (b"card s0 basic p\nlong 15", 2, LineError::Word(0)),
        // Cards.
        (b"card s1 basic p", 1, LineError::Word(5)),
        (b"card s0 basic p\ncard s0 basic p", 2, LineError::Word(5)),
        (
            b"card s0 basic p\nirq s0\ncard s5 basic p",
            3,
            LineError::Word(0),
        ),
        (b"threads", 1, LineError::Word(0)),
        (
            b"card s0 basic p\nthreads\ncard s1 basic p",
            3,
            LineError::Word(0),
        ),
        // The setup.
        (b"version 2", 1, LineError::Word(0)),
        (b"carry s0 s1", 1, LineError::Word(0)),
        (b"open c0 s0", 1, LineError::Word(8)),
        (b"card s0 basic p\nopen c10 s1", 2, LineError::Word(9)),
        (b"card s0 basic p\nirq s1", 2, LineError::Word(4)),
        (b"card s0 basic p\nfeed s1 a.wav", 2, LineError::Word(5)),
        (b"card s0 basic p\ngo c0", 2, LineError::Word(0)),
        (b"card s0 basic p\nsave s0 a.wav", 2, LineError::Word(0)),
        (b"card s0 basic p\nbeat s0 1 1", 2, LineError::Word(0)),
        (b"card s0 basic p\njoin", 2, LineError::Word(0)),
        (b"card s0 basic p\ndrain c0 s0 b", 2, LineError::Word(12)),
        (
            b"card s0 basic p\nwriten c11 s0 b 00",
            2,
            LineError::Word(14),
        ),
        (b"card s0 basic p\nreadi c0 s1 b 1", 2, LineError::Word(9)),
        (b"card s0 basic p\nlink c0 s0 s1", 2, LineError::Word(11)),
        (b"card s0 basic p\nlink c0 s2 s1", 2, LineError::Word(8)),
        // The workers' part.
        (b"card s0 basic p\nthreads\ngo c0", 3, LineError::Word(0)),
        (
            b"card s0 basic p\nthreads\nunplug s0",
            3,
            LineError::Word(0),
        ),
        (
            b"card s0 basic p\nthreads\nfeed s0 a",
            3,
            LineError::Word(0),
        ),
        (b"card s0 basic p\nthreads\nthreads", 3, LineError::Word(0)),
        (
            b"card s0 basic p\nthreads\nopen c0 s1",
            3,
            LineError::Word(8),
        ),
        (
            b"card s0 basic p\nthreads\nlink c0 s0 s1",
            3,
            LineError::Word(11),
        ),
        (
            b"card s0 basic p\nthreads\nbeat s1 1 1",
            3,
            LineError::Word(5),
        ),
        (
            b"card s0 basic p\nthreads\nbeat s0 1 1\nbeat s0 1 1",
            4,
            LineError::Word(5),
        ),
        (
            b"card s0 basic p\nthreads\nwire s0 s0",
            3,
            LineError::Word(0),
        ),
        // The end.
        (
            b"card s0 basic p\nthreads\njoin\nstatus c0 s0",
            4,
            LineError::Word(0),
        ),
        (
            b"card s0 basic p\nthreads\njoin\njoin",
            4,
            LineError::Word(0),
        ),
        (
            b"card s0 basic p\nthreads\njoin\nsave s1 a",
            4,
            LineError::Word(5),
        ),
        (
            b"card s0 basic p\nthreads\nbeat s0 1 2000000",
            4,
            LineError::Short,
        ),
    ] {
        let want = PlanError::BadLine(number, fault);
        assert_eq!(rt; read(rt.alloc(), text, &[], 5)?.err(), Some(want));
    }
    Ok(())
}

#[test]
fn sixteen_cards_are_the_most(rt: HostRuntime) -> Result<(), Fail> {
    let alloc = rt.alloc();
    let mut text = Vec::new(alloc);
    for card in 0..16u8 {
        let line = format!(in alloc; "card s{card} basic p\n")?;
        text.extend_from_slice(line.as_bytes())?;
    }
    text.extend_from_slice(b"card s15 basic p")?;
    let want = PlanError::BadLine(17, LineError::Word(5));
    assert_eq!(rt; read(alloc, &text, &[], 4096)?.err(), Some(want));
    Ok(())
}

#[test]
fn a_source_that_fails_is_named(rt: HostRuntime) -> Result<(), Fail> {
    let text = b"card s0 basic p\nthreads\njoin\n";
    let failed = read(rt.alloc(), text, &[2], 16)?;
    assert_eq!(rt; failed.err(), Some(PlanError::Read));
    // A line at fault in the first piece is told before the read that would fail.
    let bad = read(rt.alloc(), b"card s1 basic p\nthreads\n", &[2], 16)?;
    assert_eq!(rt; bad.err(), Some(PlanError::BadLine(1, LineError::Word(5))));
    Ok(())
}

#[test]
fn beats_are_summed_behind_the_last_line(rt: HostRuntime) -> Result<(), Fail> {
    let cards = b"card s0 basic p\ncard s1 basic p\ncard s2 basic p\nthreads\n".as_slice();
    for (beats, want) in [
        (b"beat s0 1 1048575\nbeat s1 1 1\njoin".as_slice(), None),
        (b"beat s0 1 1048576\nbeat s1 1 1\njoin", Some(1_048_577)),
        (
            b"beat s0 1 9223372036854775807\nbeat s1 1 9223372036854775807\nbeat s2 1 3\njoin",
            Some(u64::MAX),
        ),
    ] {
        let mut text = cards.to_vec(rt.alloc())?;
        text.extend_from_slice(beats)?;
        let want = want.map(|sum| PlanError::Limit(Which::Beats, sum));
        assert_eq!(rt; read(rt.alloc(), &text, &[], 4096)?.err(), want);
    }
    Ok(())
}

// A plan of so many lines, the last ones at the end, behind which the text stands.
fn long_plan(alloc: Global, lines: usize, text: &[u8]) -> Result<Vec<u8>, AllocError> {
    let mut plan = b"card s0 basic p\nthreads\njoin\n".to_vec(alloc)?;
    for _ in 3..lines {
        plan.extend_from_slice(b"save s0 a\n")?;
    }
    plan.extend_from_slice(text)?;
    Ok(plan)
}

#[test]
fn a_line_past_the_limit_is_told_before_its_fault(rt: HostRuntime) -> Result<(), Fail> {
    let alloc = rt.alloc();
    let plan = long_plan(alloc, 65_536, b"x")?;
    let want = PlanError::Limit(Which::PlanLines, 65_537);
    assert_eq!(rt; read(alloc, &plan, &[], 4096)?.err(), Some(want));
    Ok(())
}

#[test]
fn a_byte_past_the_limit_is_told_before_the_fault_of_its_line(rt: HostRuntime) -> Result<(), Fail> {
    let alloc = rt.alloc();
    let bytes = PlanError::Limit(Which::PlanBytes, 4_194_305);
    let mut plan = long_plan(alloc, 3, b"")?;
    let at = plan.len();
    for (len, want) in [
        (4_194_304, PlanError::BadLine(4, LineError::Word(0))),
        (4_194_305, bytes),
    ] {
        plan.truncate(at);
        plan.resize(len, b'x')?;
        assert_eq!(rt; read(alloc, &plan, &[], 4096)?.err(), Some(want));
    }
    Ok(())
}
