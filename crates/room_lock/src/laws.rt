//! Laws over the acts of one event and the reply of an unlink. Each function here is such a law: it does nothing, and its contract is the law.

ghost use Rattle.room_lock.specs.Between.{EventActsFollow, MarksShow};
ghost use Rattle.room_lock.specs.Staying.{UnlinkRepliesAgree};
ghost use Rattle.room_lock.specs.Turning.{RecordsFit};

use pcm_laws::step;
use room_book::laws::turns;

/// Which acts of one event may follow each other, and what the members show between them.
pub fn acts()
    ensures follow { EventActsFollow }
    ensures marks { MarksShow }
{
    step::acts();
    step::runs();
}

/// What an event of a member leaves in its room fits there.
pub fn records()
    ensures { RecordsFit }
{
    acts();
    step::steps();
    turns();
}

/// What an unlink replies.
pub fn unlinks()
    ensures { UnlinkRepliesAgree }
{}
