//! What a client that keeps up with the card can rely on, and what the layers above need of calls in progress and of a
//! transfer's bytes. Each function here is a law: it does nothing, and its contract is the law. This project's own.

ghost use Rattle.pcm_stream.specs.Buffer.{FramesAreCounted};
ghost use Rattle.pcm_stream.specs.KeepingUp.{Ahead, Behind};
ghost use Rattle.pcm_stream.specs.MembersStand.{CallsFitBySetup, MembersFitBySetup};

/// A card takes at a position before the client's what the client has last put there.
pub fn ahead()
    ensures { Ahead }
{}

/// A read that is at most a buffer behind the card reads what the card has put at each position.
pub fn behind()
    ensures { Behind }
{}

/// A stream that keeps its direction and its set-up keeps what fits it.
pub fn fitting()
    ensures calls { CallsFitBySetup }
    ensures members { MembersFitBySetup }
{}

/// How many frames a transfer's bytes hold.
pub fn frames()
    ensures { FramesAreCounted }
{}
