//! The wake check at the end of a step (the wait loop of pcm_lib.c).

ghost use Rattle.pcm_laws.specs.Waiting.{AsleepMayWait, StepsKeepDistinctClients, StepsLeaveWaiting, WakeLeavesWaiting, WokenMayNotWait};

/// Whom the check leaves asleep on one stream, and whom it marks awake, where its calls in progress are of distinct clients.
pub fn checks()
    ensures asleep { AsleepMayWait }
    ensures woken { WokenMayNotWait }
{}

/// After the check, and so after every step, each client left asleep has a call that may wait. A step is entered by a client with no call in progress on the stream, or goes on with it.
pub fn steps()
    ensures clients { StepsKeepDistinctClients }
    ensures wake { WakeLeavesWaiting }
    ensures step { StepsLeaveWaiting }
{}
