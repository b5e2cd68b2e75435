// Runs whose reads, writes, loads and stores fail in turn.
use super::*;
use live_work::FreeGate;
use pcm_base::Name;
use pcm_io::{MemShelf, MemSink, MemSource, Shelf};
use std::alloc::{AllocError, Global};
use std::process::Abort;
use std::sync::Wait;
use std::test::Fail;
use std::thread::Threads;

const PLAN: &[u8] = b"card s0 basic c
card s1 basic p
open c0 s0
hw c0 s0 RW_INTERLEAVED U8 1 8000 2 2
feed s0 in.wav
open c1 s1
hw c1 s1 RW_INTERLEAVED U8 1 8000 2 2
threads
prepare c1 s1
join
save s1 out.wav
";

// A WAV file of one frame of one byte.
const ONE: &[u8] =
    b"RIFF\x26\0\0\0WAVEfmt \x10\0\0\0\x01\0\x01\0\x40\x1f\0\0\x40\x1f\0\0\x01\0\x08\0data\x01\0\0\0\x07\0";

// The number of the status of a run of the plan, of which the read, the write, and the load or store of these numbers fail, none
// where the number is 0, and how many bytes it writes. The file that is fed is stored before, as the first of the shelf's calls.
fn ended<R: Threads + Wait + Sync + Abort>(
    rt: &R,
    alloc: Global,
    read: u64,
    write: u64,
    file: u64,
) -> Result<(u8, usize), AllocError> {
    let mut plan = MemSource::new(PLAN.to_vec(alloc)?, vec![in alloc; read; 1]?, 4096);
    let mut out = MemSink::new(alloc, vec![in alloc; write; 1]?);
    let mut shelf = MemShelf::new(alloc, vec![in alloc; file; 1]?);
    let name = Name::of(b"in.wav").expect(rt, "it is a name");
    assert!(rt; shelf.store(&name, ONE).is_ok());
    let status = live_main(rt, alloc, &[], &mut plan, &mut out, &mut shelf, &FreeGate);
    Ok((status.number(), out.bytes().len()))
}

#[test]
fn each_read_write_load_and_store_fails_in_turn(rt: HostRuntime) -> Result<(), Fail> {
    let alloc = rt.alloc();
    let (status, whole) = ended(&rt, alloc, 0, 0, 0)?;
    assert_eq!(rt; status, 0);
    assert!(rt; whole > 0);
    assert_eq!(rt; ended(&rt, alloc, 1, 0, 0)?, (3, 0));
    assert_eq!(rt; ended(&rt, alloc, 2, 0, 0)?, (3, 0));
    assert_eq!(rt; ended(&rt, alloc, 3, 0, 0)?, (0, whole));
    assert_eq!(rt; ended(&rt, alloc, 0, 1, 0)?, (4, 0));
    assert_eq!(rt; ended(&rt, alloc, 0, 2, 0)?, (0, whole));
    assert_eq!(rt; ended(&rt, alloc, 0, 0, 2)?, (5, 0));
    assert_eq!(rt; ended(&rt, alloc, 0, 0, 3)?, (5, whole));
    assert_eq!(rt; ended(&rt, alloc, 0, 0, 4)?, (0, whole));
    Ok(())
}
