// Where silence goes in a buffer of 4 frames.
use super::*;

const SHAPE: Shape = Shape {
    frame_bytes: 1,
    channels: 1,
    period: 2,
    periods: 2,
    buffer: 4,
    boundary: 16,
};

fn with(silence_threshold: u64, silence_size: u64) -> SwParams {
    SwParams {
        avail_min: 2,
        start_threshold: 1,
        stop_threshold: 16,
        silence_threshold,
        silence_size,
    }
}

#[test]
fn silence_follows_what_is_queued_and_filled(rt: HostRuntime) {
    let max = u64::MAX;
    for (threshold, size, queued, filled, want) in [
        // no silence size, or no threshold
        (0, 0, 0, 0, None),
        (4, 0, 0, 0, None),
        // without end
        (0, 16, 1, 0, Some((1, 3))),
        (0, max, 0, 0, Some((0, 4))),
        (0, 16, 1, 4, None),
        // below the threshold
        (3, 2, 1, 0, Some((1, 2))),
        (3, 2, 1, 2, Some((2, 1))),
        (3, 2, 2, 3, None),
        (4, 1, 4, 0, None),
    ] {
        assert!(rt; queued <= 4 && filled <= 4);
        let got = plan(&SHAPE, &with(threshold, size), queued, filled);
        assert_eq!(rt; got, want, "at {threshold} {size} {queued} {filled}");
    }
}
