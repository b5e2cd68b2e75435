// Which of a table of software parameters a buffer of 4 frames takes.
use super::*;

const SHAPE: Shape = Shape {
    frame_bytes: 1,
    channels: 1,
    period: 2,
    periods: 2,
    buffer: 4,
    boundary: 16,
};

fn with(avail_min: u64, silence_threshold: u64, silence_size: u64) -> SwParams {
    SwParams {
        avail_min,
        start_threshold: 1,
        stop_threshold: 4,
        silence_threshold,
        silence_size,
    }
}

#[test]
fn silence_ends_by_a_threshold_or_not_at_all(rt: HostRuntime) {
    let max = u64::MAX;
    for (avail_min, threshold, size, taken) in [
        (2, 0, 0, true),
        (0, 0, 0, false),
        (max, 4, 4, true),
        (1, 4, 3, true),
        (1, 3, 4, false),
        (1, 5, 4, false),
        (1, 15, 15, false),
        (1, 0, 15, false),
        (1, 0, 16, true),
        (1, 1, 16, false),
        (1, 0, max, true),
        (1, max, max, false),
    ] {
        let got = check_sw(&SHAPE, &with(avail_min, threshold, size));
        let want = if taken { Ok(()) } else { Err(Errno::Einval) };
        assert_eq!(rt; got, want, "at {avail_min} {threshold} {size}");
    }
}
