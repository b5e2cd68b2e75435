//! The step of a group (`snd_pcm_action_group` of pcm_native.c), and the steps of its members of which it is made. The replay of a member's part is this project's own.

ghost use Rattle.pcm_laws.specs.Steps.{ActsLeaveTheRest, EventsMakeFewActs, MarksLeaveStreams, NamedMemberPlaysOwn, OtherMembersJoin, PutsOwnStream, RunsDecompose, StepsKeepNumbers, StepsMakeFewActs, VotesDecideSteps};

/// What an act leaves of each member, whatever its votes and outcome: set-up, counts, the frames at the card and the calls in progress.
pub fn acts()
    ensures { ActsLeaveTheRest }
{}

/// The run of a program on one member: that member plays the program with its joints, and every other member joins.
pub fn runs()
    ensures { RunsDecompose }
{}

/// The program of an event makes at most three acts, as a blocking drain of a paused group does: release, drain and watch.
pub fn events()
    ensures { EventsMakeFewActs }
{}

/// What a step leaves as it was.
pub fn marks()
    ensures own_stream { PutsOwnStream }
    ensures numbers { StepsKeepNumbers }
    ensures streams { MarksLeaveStreams }
{}

/// A step with its marks and wake check: its acts, the part of the named member and that of each other.
pub fn steps()
    ensures few { StepsMakeFewActs }
    ensures decided { VotesDecideSteps }
    ensures own { NamedMemberPlaysOwn }
    ensures others { OtherMembersJoin }
{}
