//! Laws over rooms. Each function here is such a law: it does nothing, and its contract is the law.

ghost use Rattle.room_book.specs.Laws.{ComingIn, EntriesFollow, GoingOut, LinkRepliesAgree, LogOfMember, OneLogChanges, SameStreamsFit, TurnsKeep, WakesKeep};

use pcm_laws::step;

/// An event of a member, but an unlink that is done, keeps what fits in its room.
pub fn turns()
    ensures { TurnsKeep }
{
    step::steps();
    step::marks();
}

/// Members that come into a room and go out, and logs that go on.
pub fn moves()
    ensures entries { EntriesFollow }
    ensures coming { ComingIn }
    ensures going { GoingOut }
    ensures log { LogOfMember }
    ensures change { OneLogChanges }
    ensures streams { SameStreamsFit }
{}

/// Wake checks, and what a link replies.
pub fn links()
    ensures wakes { WakesKeep }
    ensures replies { LinkRepliesAgree }
{}
