// Who calls, and on what.

/// The number of a substream, 0 to 15. This project's own.
#[derive(Clone, Copy, Debug, PartialEq, Eq)]
pub struct SubId(pub u8);

/// The number of a client, 0 to 15. This project's own.
#[derive(Clone, Copy, Debug, PartialEq, Eq)]
pub struct ClientId(pub u8);
