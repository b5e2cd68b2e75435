//! Laws over the groups of a world (`snd_pcm_link` of `pcm_native.c`; that one wake check ends each step is this project's own).

ghost use Rattle.pcm_world.specs.Laws.{ChecksBeforeWakeNobody, NamedStreamIsStepped, OtherGroupsStay, OtherStreamsKeepCalls};

/// What a step of one group, a link and an unlink leave as it was.
pub fn groups()
    ensures nobody { ChecksBeforeWakeNobody }
    ensures others { OtherGroupsStay }
{}

/// Who waits after a step of a group.
pub fn steps()
    ensures named { NamedStreamIsStepped }
    ensures others { OtherStreamsKeepCalls }
{}
