// What stands before the calls of clients.
use pcm_base::ClientId;

/// It is passed before each call of a client's worker, and so can hold one back. This project's own.
pub trait Gate {
    /// The client comes to its call of this number: its worker's calls are counted from 1, those that carry a call on too.
    fn pass(&self, client: ClientId, nth: u64);
}

/// A gate that holds nobody back. This project's own.
#[derive(Clone, Copy, Debug, PartialEq, Eq)]
pub struct FreeGate;

impl Gate for FreeGate {
    fn pass(&self, _client: ClientId, _nth: u64) {}
}
