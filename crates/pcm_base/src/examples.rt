// Worked examples, which hold by computation.
ghost use Rattle.pcm_base.specs.Examples.{Shows, first_transfer, the_pointers_wrap, a_late_movement, a_blocking_writer, an_underrun, old_frames_come_again, silence_ahead, errors_by_state, a_failed_linked_start, a_refused_linked_start, link_errors, a_linked_drain, a_capture_drain, a_card_that_cannot_pause, a_pause, pointer_calls, mapped_frames, planar_frames, a_woken_reader, big_endian_stereo, delay_and_poll, an_unplugged_card, an_unplugged_member, unplugged_when_open};

/// What the model's definitions say of whole scripts: each line shows what stands beside it in `specs/Examples.antt`.
/// It is a law: it does nothing.
pub fn worked_examples()
    ensures first_transfer { Shows first_transfer }
    ensures the_pointers_wrap { Shows the_pointers_wrap }
    ensures a_late_movement { Shows a_late_movement }
    ensures a_blocking_writer { Shows a_blocking_writer }
    ensures an_underrun { Shows an_underrun }
    ensures old_frames_come_again { Shows old_frames_come_again }
    ensures silence_ahead { Shows silence_ahead }
    ensures errors_by_state { Shows errors_by_state }
    ensures a_failed_linked_start { Shows a_failed_linked_start }
    ensures a_refused_linked_start { Shows a_refused_linked_start }
    ensures link_errors { Shows link_errors }
    ensures a_linked_drain { Shows a_linked_drain }
    ensures a_capture_drain { Shows a_capture_drain }
    ensures a_card_that_cannot_pause { Shows a_card_that_cannot_pause }
    ensures a_pause { Shows a_pause }
    ensures pointer_calls { Shows pointer_calls }
    ensures mapped_frames { Shows mapped_frames }
    ensures planar_frames { Shows planar_frames }
    ensures a_woken_reader { Shows a_woken_reader }
    ensures big_endian_stereo { Shows big_endian_stereo }
    ensures delay_and_poll { Shows delay_and_poll }
    ensures an_unplugged_card { Shows an_unplugged_card }
    ensures an_unplugged_member { Shows an_unplugged_member }
    ensures unplugged_when_open { Shows unplugged_when_open }
{}
