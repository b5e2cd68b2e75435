// Whole runs.
use super::*;
use live_work::{FreeGate, Gate};
use pcm_base::{ClientId, Name};
use pcm_io::{MemShelf, MemSink, MemSource, Shelf};
use pcm_text::Status;
use std::alloc::{AllocError, Global};
use std::process::Abort;
use std::sync::Wait;
use std::sync::atomic::{AtomicU64, Ordering};
use std::test::Fail;
use std::thread::Threads;

// The status of a run of this plan, and what it writes.
fn run<G: Gate + Sync, R: Threads + Wait + Sync>(
    rt: &R,
    alloc: Global,
    text: &[u8],
    shelf: &mut MemShelf,
    gate: &G,
) -> Result<(Status, MemSink), AllocError> {
    let mut plan = MemSource::new(text.to_vec(alloc)?, Vec::new(alloc), 4096);
    let mut out = MemSink::new(alloc, Vec::new(alloc));
    let status = live_main(rt, alloc, &[], &mut plan, &mut out, shelf, gate);
    Ok((status, out))
}

#[test]
fn a_client_plays_and_its_log_is_written(rt: HostRuntime) -> Result<(), Fail> {
    let text = b"card s0 basic p
open c0 s0
hw c0 s0 RW_INTERLEAVED U8 1 8000 2 2
threads
prepare c0 s0
writei c0 s0 n 01020304
status c0 s0
drop c0 s0
join
";
    let written = b"s0 0 open c0 s0 = ok OPEN
s0 1 hw c0 s0 RW_INTERLEAVED U8 1 8000 2 2 = ok SETUP
s0 2 prepare c0 s0 = ok PREPARED + prepare r0 0 yes done
s0 3 writei c0 s0 n 01020304 = frames 4 RUNNING + start r0 1 yes done
s0 4 status c0 s0 = ptrs hw 0 appl 4 avail 0 RUNNING
s0 5 drop c0 s0 = ok SETUP + stop-SETUP r0 2 yes done
end s0 SETUP hw 0 appl 4 moved 0
";
    let mut shelf = MemShelf::new(rt.alloc(), Vec::new(rt.alloc()));
    let (status, out) = run(&rt, rt.alloc(), text, &mut shelf, &FreeGate)?;
    assert_eq!(rt; status.number(), 0);
    assert_eq!(rt; out.bytes(), written.as_slice());
    Ok(())
}

// A WAV file of five frames, of a byte each.
const FIVE: &[u8] =
    b"RIFF\x2a\0\0\0WAVEfmt \x10\0\0\0\x01\0\x01\0\x40\x1f\0\0\x40\x1f\0\0\x01\0\x08\0data\x05\0\0\0\x01\x02\x03\x04\x05\0";

// The same of two.
const TWO: &[u8] =
    b"RIFF\x26\0\0\0WAVEfmt \x10\0\0\0\x01\0\x01\0\x40\x1f\0\0\x40\x1f\0\0\x01\0\x08\0data\x02\0\0\0\x01\x02";

fn name_of<R: Abort>(rt: &R, text: &[u8]) -> Name {
    Name::of(text).expect(rt, "it is a name")
}

#[test]
fn a_file_is_fed_and_another_saved(rt: HostRuntime) -> Result<(), Fail> {
    let text = b"card s0 basic c
card s1 basic p
feed s0 in.wav
open c0 s0
feed s0 in.wav
hw c0 s0 RW_INTERLEAVED U8 1 8000 2 2
feed s0 in.wav
open c1 s1
hw c1 s1 RW_INTERLEAVED U8 1 8000 2 2
feed s1 in.wav
threads
prepare c0 s0
prepare c1 s1
readi c0 s0 b 3
writei c1 s1 b 010203040506
beat s1 2 1
beat s0 3 1
join
save s1 out.wav
save s0 no.wav
";
    let written = b"s0 0 open c0 s0 = ok OPEN
s0 1 hw c0 s0 RW_INTERLEAVED U8 1 8000 2 2 = ok SETUP
s0 2 give s0 0102030405 = ok SETUP
s0 3 prepare c0 s0 = ok PREPARED + prepare r0 0 yes done
s0 4 readi c0 s0 b 3 - = asleep RUNNING + start r0 1 yes done
s0 5 move s0 3 = moved 3 RUNNING
s0 6 irq s0 = ok RUNNING
s0 7 go c0 010203 = frames 3 010203 RUNNING
s1 0 open c1 s1 = ok OPEN
s1 1 hw c1 s1 RW_INTERLEAVED U8 1 8000 2 2 = ok SETUP
s1 2 prepare c1 s1 = ok PREPARED + prepare r1 0 yes done
s1 3 writei c1 s1 b 01020304 = asleep RUNNING + start r1 1 yes done
s1 4 move s1 2 = moved 2 0102 RUNNING
s1 5 irq s1 = ok RUNNING
s1 6 go c1 0506 = frames 6 RUNNING
end s0 RUNNING hw 3 appl 3 moved 3
end s1 RUNNING hw 2 appl 6 moved 2
";
    let mut shelf = MemShelf::new(rt.alloc(), Vec::new(rt.alloc()));
    assert!(rt; shelf.store(&name_of(&rt, b"in.wav"), FIVE).is_ok());
    let (status, out) = run(&rt, rt.alloc(), text, &mut shelf, &FreeGate)?;
    assert_eq!(rt; status.number(), 0);
    assert_eq!(rt; out.bytes(), written.as_slice());
    assert_eq!(rt; shelf.get(&name_of(&rt, b"out.wav")), Some(TWO));
    assert!(rt; shelf.get(&name_of(&rt, b"no.wav")).is_none());
    Ok(())
}

// It holds the first call of client 0 until a call of client 1 was answered, and the second of client 1 until one of client 0
// was, but neither for ever.
#[derive(Drop)]
struct Held {
    first: AtomicU64,
    second: AtomicU64,
    gave_up: AtomicU64,
}

impl Held {
    fn wait_for(&self, answered: &AtomicU64) {
        for _ in 0..1_000_000_000u64 {
            if answered.load(Ordering::SeqCst) == 1 {
                return;
            }
        }
        self.gave_up.store(1, Ordering::SeqCst);
    }
}

impl Gate for Held {
    fn pass(&self, client: ClientId, nth: u64) {
        match (client.0, nth) {
            (0, 1) => self.wait_for(&self.second),
            (0, 2) => self.first.store(1, Ordering::SeqCst),
            (1, 2) => {
                self.second.store(1, Ordering::SeqCst);
                self.wait_for(&self.first);
            }
            _ => {}
        }
    }
}

#[test]
fn two_clients_work_at_the_same_time(rt: HostRuntime) -> Result<(), Fail> {
    let text = b"card s0 basic p
card s1 basic p
threads
open c0 s0
status c0 s0
open c1 s1
status c1 s1
join
";
    let gate = Held {
        first: AtomicU64::new(0),
        second: AtomicU64::new(0),
        gave_up: AtomicU64::new(0),
    };
    let mut shelf = MemShelf::new(rt.alloc(), Vec::new(rt.alloc()));
    let (status, _out) = run(&rt, rt.alloc(), text, &mut shelf, &gate)?;
    assert_eq!(rt; status.number(), 0);
    assert_eq!(rt; gate.first.load(Ordering::SeqCst), 1);
    assert_eq!(rt; gate.second.load(Ordering::SeqCst), 1);
    assert_eq!(rt; gate.gave_up.load(Ordering::SeqCst), 0);
    Ok(())
}

// Each client writes into a full buffer that only the other one starts.
#[test]
fn each_of_two_clients_waits_for_the_other(rt: HostRuntime) -> Result<(), Fail> {
    let text = b"card s0 basic p
card s1 basic p
card s2 basic p
open c0 s0
hw c0 s0 RW_INTERLEAVED U8 1 8000 2 2
sw c0 s0 1 5 1048576 0 0
prepare c0 s0
writei c0 s0 n 01020304
open c1 s1
hw c1 s1 RW_INTERLEAVED U8 1 8000 2 2
sw c1 s1 1 5 1048576 0 0
prepare c1 s1
writei c1 s1 n 01020304
open c1 s2
hw c1 s2 RW_INTERLEAVED U8 1 8000 2 2
sw c1 s2 1 5 1048576 0 0
prepare c1 s2
writei c1 s2 n 01020304
link c0 s0 s1
threads
writei c0 s0 b 05
start c0 s2
start c1 s1
writei c1 s2 b 06
beat s0 1 1
beat s2 1 1
join
";
    let end = b"
end s0 RUNNING hw 1 appl 5 moved 1
end s1 RUNNING hw 0 appl 4 moved 0
end s2 RUNNING hw 1 appl 5 moved 1
";
    let mut shelf = MemShelf::new(rt.alloc(), Vec::new(rt.alloc()));
    let (status, out) = run(&rt, rt.alloc(), text, &mut shelf, &FreeGate)?;
    assert_eq!(rt; status.number(), 0);
    assert!(rt; out.bytes().ends_with(end.as_slice()));
    Ok(())
}

// The number of the status of a run of this plan, which writes nothing.
fn ends<R: Threads + Wait + Sync>(rt: &R, alloc: Global, text: &[u8]) -> Result<u8, AllocError> {
    let mut shelf = MemShelf::new(alloc, Vec::new(alloc));
    let (status, out) = run(rt, alloc, text, &mut shelf, &FreeGate)?;
    if out.bytes().is_empty() {
        Ok(status.number())
    } else {
        Ok(255)
    }
}

#[test]
fn a_run_that_does_not_begin_writes_nothing(rt: HostRuntime) -> Result<(), Fail> {
    assert_eq!(rt; ends(&rt, rt.alloc(), b"card s0 basic p\nthreads\n")?, 2);
    assert_eq!(rt;
        ends(
            &rt,
            rt.alloc(),
            b"card s0 basic c\nopen c0 s0\nfeed s0 in.wav\nhw c0 s0 RW_INTERLEAVED U8 1 8000 2 2\nthreads\njoin\n"
        )?,
        255
    );
    assert_eq!(rt;
        ends(
            &rt,
            rt.alloc(),
            b"card s0 basic c\nopen c0 s0\nhw c0 s0 RW_INTERLEAVED U8 1 8000 2 2\nfeed s0 in.wav\nthreads\njoin\n"
        )?,
        6
    );
    Ok(())
}

// Holds the second call of client 0 until client 1 has come to its first, and then so long that this one sleeps in its write.
#[derive(Drop)]
struct Slow {
    came: AtomicU64,
    turns: AtomicU64,
}

impl Slow {
    fn wait_for_other(&self) {
        for _ in 0..1_000_000_000u64 {
            if self.came.load(Ordering::SeqCst) == 1 {
                return;
            }
        }
    }

    fn wait_long(&self) {
        for turn in 0..100_000_000u64 {
            self.turns.store(turn, Ordering::SeqCst);
        }
    }
}

impl Gate for Slow {
    fn pass(&self, client: ClientId, nth: u64) {
        if client.0 == 1 {
            self.came.store(1, Ordering::SeqCst);
        } else if nth == 2 {
            self.wait_for_other();
            self.wait_long();
        }
    }
}

// Whether a line of the text ends so.
fn ends_a_line(text: &[u8], part: &[u8]) -> bool {
    for end in 0..text.len() {
        if text[end] == b'\n' && text[..end].ends_with(part) {
            return true;
        }
    }
    false
}

#[test]
fn a_linked_start_wakes_a_writer_by_its_card_alone(rt: HostRuntime) -> Result<(), Fail> {
    let text = b"card s0 basic p
card s1 basic p
open c0 s0
hw c0 s0 RW_INTERLEAVED U8 1 8000 2 2
sw c0 s0 2 5 1048576 0 0
prepare c0 s0
writei c0 s0 n 01020304
open c1 s1
hw c1 s1 RW_INTERLEAVED U8 1 8000 2 2
sw c1 s1 2 5 1048576 0 0
prepare c1 s1
writei c1 s1 n 01020304
threads
writei c1 s1 b 0506
link c0 s0 s1
start c0 s0
beat s0 1 1
beat s1 1 4
join
";
    let gate = Slow {
        came: AtomicU64::new(0),
        turns: AtomicU64::new(0),
    };
    let mut shelf = MemShelf::new(rt.alloc(), Vec::new(rt.alloc()));
    let (status, out) = run(&rt, rt.alloc(), text, &mut shelf, &gate)?;
    assert_eq!(rt; status.number(), 0);
    let written = out.bytes();
    assert!(rt; ends_a_line(written, b" writei c1 s1 b - = asleep PREPARED"));
    assert!(rt; ends_a_line(written, b" start c0 s0 = ok RUNNING + start r16 0 yes done"));
    assert!(rt; ends_a_line(written, b" joint start r16 0 yes done"));
    assert!(rt; ends_a_line(written, b" go c1 0506 = frames 2 RUNNING"));
    assert!(rt; !ends_a_line(written, b" go c1 = asleep PREPARED"));
    assert!(rt; !ends_a_line(written, b" go c1 = asleep RUNNING"));
    Ok(())
}
