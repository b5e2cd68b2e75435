use super::*;
use pcm_base::boundary_of;

#[test]
fn pointers_wrap_at_the_boundary(rt: HostRuntime) {
    assert_eq!(rt; boundary_of(4, 31), 16);
    let shape = Shape {
        frame_bytes: 2,
        channels: 2,
        period: 2,
        periods: 2,
        buffer: 4,
        boundary: 16,
    };
    assert_eq!(rt; add(&shape, 14, 3), 1);
    assert_eq!(rt;
        add(&shape, 7, 4),
        11,
        "past two buffers and below the boundary"
    );
    assert_eq!(rt; back(&shape, 1, 3), 14);
    assert_eq!(rt; avail_play(&shape, 0, 0), 4);
    assert_eq!(rt; avail_play(&shape, 14, 1), 1);
    assert_eq!(rt;
        avail_play(&shape, 3, 1),
        6,
        "more than the buffer after an underrun"
    );
    assert_eq!(rt; avail_capture(&shape, 1, 14), 3);
}
