// What the workers of a run share beside their floor.
ghost use Rattle.std.specs.Prelude.{◌≡◌, ◌+◌, ◌≤◌, IfOk, vec_len};

use crossbeam_utils::sync::{Parker, Unparker};
use std::alloc::{AllocError, Global};
use std::sync::OnceLock;
use std::sync::atomic::{AtomicU64, Ordering};

/// Why a run stopped before its end.
#[derive(Clone, Copy, Debug, PartialEq, Eq)]
pub enum Stop {
    /// A log takes no more entries.
    LogFull,
    /// There was no memory.
    Memory,
}

/// What the workers of a run share: whether they are to stop, how many clients have not ended, and a signal for each of the 16
/// clients. This project's own.
#[derive(Drop)]
pub struct Crew {
    stop: OnceLock<Stop>,
    clients: AtomicU64,
    signals: Vec<Unparker>,
}

impl Crew {
    /// A crew with so many clients, of which none has ended, and where each of the 16 clients sleeps.
    pub fn new(alloc: Global, clients: u64) -> Result<(Crew, Vec<Parker>), AllocError>
        ensures { IfOk result (λ made. vec_len made.1 ≡ 16) }
    {
        let mut signals = Vec::new(alloc);
        let mut parkers = Vec::new(alloc);
        for _ in 0..16u8 {
            let parker = Parker::new(alloc)?;
            signals.push(parker.unparker().clone()?)?;
            parkers.push(parker)?;
        }
        let crew = Crew {
            stop: OnceLock::new(),
            clients: AtomicU64::new(clients),
            signals,
        };
        Ok((crew, parkers))
    }

    /// Why the workers are to stop; none where they are to go on.
    pub fn stopped(&self) -> Option<Stop> {
        self.stop.get().copied()
    }

    /// The workers are to stop, and those that sleep are woken. The first reason is the one that is told.
    pub fn stop(&self, why: Stop) -> Stop {
        let _first = self.stop.try_set(why).is_ok();
        self.wake(u16::MAX);
        self.stopped().unwrap_or(why)
    }

    /// Wakes these clients, client i being bit i.
    pub fn wake(&self, woken: u16) {
        let mut rest = woken;
        for signal in &self.signals {
            if rest & 1 == 1 {
                signal.unpark();
            }
            rest >>= 1;
        }
    }

    /// One of its clients has ended.
    pub fn leave(&self) {
        self.clients.fetch_sub(1, Ordering::SeqCst);
    }

    /// Whether all its clients have ended.
    pub fn has_left(&self) -> bool {
        self.clients.load(Ordering::SeqCst) == 0
    }
}
