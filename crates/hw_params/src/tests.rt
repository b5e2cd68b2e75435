// Boxes and sizes from worked examples, and a table of boxes that a search over every configuration gave.
use super::*;
use pcm_base::{Access, CardModel, Config, Errno, Format, Shape, Space, Span};

const MAX: u64 = u64::MAX;

const BASIC: CardModel = CardModel {
    accesses: 27,
    formats: 6,
    channels: Span { least: 1, most: 2 },
    rate: Span {
        least: 8_000,
        most: 48_000,
    },
    wide_rate: 48_000,
    period: Span {
        least: 1,
        most: 8_192,
    },
    buffer_bytes: 65_536,
    can_pause: true,
    can_resume: true,
};

const STUDIO: CardModel = CardModel {
    accesses: 27,
    formats: 0x1_0000_0444,
    channels: Span { least: 1, most: 8 },
    rate: Span {
        least: 44_100,
        most: 192_000,
    },
    wide_rate: 96_000,
    period: Span {
        least: 16,
        most: 8_192,
    },
    buffer_bytes: 1_048_576,
    can_pause: true,
    can_resume: true,
};

// buffers of a hundred bytes
const TINY: CardModel = CardModel {
    accesses: 27,
    formats: 0x1_0000_0C4F,
    channels: Span { least: 1, most: 8 },
    rate: Span { least: 1, most: 4 },
    wide_rate: 2,
    period: Span { least: 0, most: 9 },
    buffer_bytes: 100,
    can_pause: false,
    can_resume: false,
};

// masks with bits that are no access and no format
const STRAY: CardModel = CardModel {
    accesses: MAX,
    formats: MAX,
    channels: Span { least: 2, most: 5 },
    rate: Span { least: 3, most: 7 },
    wide_rate: 5,
    period: Span { least: 0, most: 40 },
    buffer_bytes: 333,
    can_pause: false,
    can_resume: false,
};

fn span(least: u64, most: u64) -> Span {
    Span { least, most }
}

/// A space from the numbers of its line.
fn space_of(line: [u64; 12]) -> Space {
    let [accesses, formats, c0, c1, r0, r1, p0, p1, q0, q1, b0, b1] = line;
    Space {
        accesses,
        formats,
        channels: span(c0, c1),
        rate: span(r0, r1),
        period: span(p0, p1),
        periods: span(q0, q1),
        buffer: span(b0, b1),
    }
}

type Row = (CardModel, [u64; 12], Option<[u64; 12]>);

const BOXES: [Row; 36] = [
    (
        BASIC,
        [
            2452055640, 4294970447, 2, 4, 47998, 48000, 8189, 8189, 3, 9, 8190, 38190,
        ],
        Some([24, 2, 2, 2, 47998, 48000, 8189, 8189, 3, 4, 24567, 32756]),
    ),
    (
        BASIC,
        [MAX, MAX, 2, MAX, 47998, 48002, 4096, 4098, 2, 4, 600, 30600],
        Some([27, 6, 2, 2, 47998, 48000, 4096, 4098, 2, 4, 8192, 16392]),
    ),
    (
        BASIC,
        [
            27, 4999456884, 1, 5, 47998, 48003, 8189, 8192, 3, 9, 600, 30600,
        ],
        Some([27, 4, 1, 1, 47998, 48000, 8189, 8192, 3, 3, 24567, 24576]),
    ),
    (
        BASIC,
        [MAX, MAX, 0, 8, 47998, 48003, 8189, 8197, 2, 4, 4, 30004],
        Some([27, 6, 1, 2, 47998, 48000, 8189, 8192, 2, 3, 16378, 24576]),
    ),
    (
        BASIC,
        [
            8246102226, 4294970447, 0, 6, 47998, 48002, 8189, 8194, 3, 9, 16384, 46384,
        ],
        Some([18, 6, 1, 2, 47998, 48000, 8189, 8192, 3, 5, 24567, 40960]),
    ),
    (
        BASIC,
        [27, MAX, 2, 5, 47998, 48002, 4096, 4099, 7, 7, 600, 30600],
        Some([27, 2, 2, 2, 47998, 48000, 4096, 4099, 7, 7, 28672, 28693]),
    ),
    (
        BASIC,
        [
            1425136447, 5303653943, 1, 7, 47998, 48001, 8189, 8196, 7, 7, 32760, 62760,
        ],
        Some([27, 2, 1, 1, 47998, 48000, 8189, 8192, 7, 7, 57323, 57344]),
    ),
    (
        BASIC,
        [7578774174, MAX, 6, 6, 47998, 48003, 1, 2, 7, 7, 8190, 38190],
        None,
    ),
    (
        BASIC,
        [
            4555540491, 5624720843, 5, 8, 47998, 48003, 1021, 1023, 2, 4, 8190, 8190,
        ],
        None,
    ),
    (
        STRAY,
        [MAX, 444688428, 1, 7, 0, 5, 9, 36, 0, 13, 32, 44],
        Some([27, 2060, 2, 5, 3, 5, 9, 22, 2, 4, 32, 44]),
    ),
    (
        STRAY,
        [27, 6367947445, 1, 8, 3, 3, 12, 30, 5, 21, 51, 95],
        Some([27, 5, 2, 5, 3, 3, 12, 19, 5, 7, 60, 95]),
    ),
    (
        STRAY,
        [27, MAX, 4, MAX, 5, 6, 4, 32, 12, 14, 37, 113],
        Some([27, 3, 4, 5, 5, 5, 4, 6, 12, 14, 48, 78]),
    ),
    (
        STRAY,
        [27, MAX, 0, 5, 0, 7, 11, 32, 0, 6, 0, 44],
        Some([27, 4294970447, 2, 5, 3, 7, 11, 22, 2, 4, 22, 44]),
    ),
    (
        STRAY,
        [27, 4294970447, 3, MAX, 5, 6, 3, 41, 28, 33, 0, 115],
        Some([27, 3, 3, 3, 5, 5, 3, 3, 28, 32, 84, 96]),
    ),
    (
        STRAY,
        [MAX, MAX, 0, 8, 3, 6, 2, 10, 8, 23, 0, MAX],
        Some([27, 4294970447, 2, 5, 3, 6, 2, 10, 8, 23, 16, 162]),
    ),
    (
        STRAY,
        [27, 6573492555, 1, MAX, 3, 4, 1, 6, 1, 16, 30, 89],
        Some([27, 4294969419, 2, 5, 3, 4, 2, 6, 5, 16, 30, 84]),
    ),
    (STRAY, [MAX, MAX, 5, 6, 3, 7, 21, 28, 7, 32, 0, 119], None),
    (
        STRAY,
        [MAX, 4294970447, 4, 2, 5, 5, 28, 32, 0, MAX, 64, 70],
        None,
    ),
    (
        STUDIO,
        [
            8573306900, MAX, 6, 8, 95999, 96000, 4096, 4100, 7, 7, 16384, 46384,
        ],
        Some([
            16, 4294968388, 6, 8, 95999, 96000, 4096, 4100, 7, 7, 28672, 28700,
        ]),
    ),
    (
        STUDIO,
        [
            MAX, 4225089266, 2, 4, 95999, 96000, 4096, 4096, 3, 9, 16384, 16484,
        ],
        Some([27, 1088, 2, 4, 95999, 96000, 4096, 4096, 4, 4, 16384, 16384]),
    ),
    (
        STUDIO,
        [
            MAX, 485747851, 3, 7, 96000, 96002, 1021, 1030, 7, 7, 5003, 35003,
        ],
        Some([27, 1024, 3, 7, 96000, 96000, 1021, 1030, 7, 7, 7147, 7210]),
    ),
    (
        STUDIO,
        [
            1805049646, 4294970447, 1, 2, 95999, 96001, 97, 105, 3, 9, 600, 30600,
        ],
        Some([10, 4294968388, 1, 2, 95999, 96001, 97, 105, 6, 9, 600, 945]),
    ),
    (
        STUDIO,
        [
            692570760, MAX, 2, 8, 95999, 95999, 8189, 8195, 3, 9, 5003, 35003,
        ],
        Some([
            8, 4294968388, 2, 8, 95999, 95999, 8189, 8192, 3, 4, 24567, 32768,
        ]),
    ),
    (
        STUDIO,
        [27, MAX, 2, 8, 95999, 96001, 97, 101, 2, 4, 4, 30004],
        Some([27, 4294968388, 2, 8, 95999, 96001, 97, 101, 2, 4, 194, 404]),
    ),
    (
        STUDIO,
        [MAX, 2567795400, 0, 5, 96000, 96001, 97, 106, 3, 9, 600, 700],
        Some([27, 64, 1, 5, 96000, 96001, 97, 106, 6, 7, 600, 700]),
    ),
    (
        STUDIO,
        [27, MAX, 7, MAX, 96001, 96001, 97, 103, 7, 7, 32760, 32860],
        None,
    ),
    (
        STUDIO,
        [27, MAX, 3, 8, 96001, 96000, 16, 16, 2, 4, 16384, 46384],
        None,
    ),
    (
        TINY,
        [3855609338, 6800431198, 0, 7, 0, 4, 0, 7, 3, 20, 61, 100],
        Some([26, 2, 1, 1, 1, 4, 4, 7, 9, 20, 63, 100]),
    ),
    (
        TINY,
        [27, 4294970447, 2, 7, 0, 4, 0, 10, 8, 29, 50, 113],
        Some([27, 3, 2, 2, 1, 4, 2, 5, 10, 25, 50, 50]),
    ),
    (
        TINY,
        [27, 5285971417, 0, 8, 0, 3, 2, 5, 8, MAX, 12, 86],
        Some([27, 4294968393, 1, 6, 1, 3, 2, 5, 8, 32, 16, 85]),
    ),
    (
        TINY,
        [MAX, 3294969054, 4, 5, 1, 3, 4, 7, 4, MAX, 16, 46],
        Some([27, 2, 4, 5, 1, 2, 4, 6, 4, 6, 16, 25]),
    ),
    (
        TINY,
        [MAX, MAX, 0, 7, 3, 3, 1, 9, 3, MAX, 36, 81],
        Some([27, 15, 1, 2, 3, 3, 2, 9, 4, 32, 36, 81]),
    ),
    (
        TINY,
        [MAX, MAX, 1, 7, 1, 2, 2, 10, 8, 10, 32, 38],
        Some([27, 4294967311, 1, 3, 1, 2, 4, 4, 8, 9, 32, 36]),
    ),
    (
        TINY,
        [4459189650, 4294970447, 1, 6, 1, 3, 1, MAX, 5, 9, 36, 85],
        Some([18, 15, 1, 2, 1, 3, 4, 9, 5, 9, 36, 81]),
    ),
    (
        TINY,
        [MAX, 4294970447, 2, 6, 1, 2, 6, 8, 3, MAX, 71, MAX],
        None,
    ),
    (
        TINY,
        [MAX, 4294970447, 2, 3, 1, 4, 0, 4, 8, 20, 86, MAX],
        None,
    ),
];

#[test]
fn the_boxes_are_those_of_a_search(rt: HostRuntime) {
    for (model, asked, want) in BOXES {
        assert!(rt; 1 <= model.channels.least && model.channels.most <= 8);
        let want = want.map(space_of).ok_or(Errno::Einval);
        assert_eq!(rt; refine(&model, &space_of(asked)), want, "at {asked:?}");
    }
}

#[test]
fn the_box_of_basic_in_two_channels(rt: HostRuntime) {
    let asked = space_of([8, 4, 2, 2, 1, 200_000, 1, 65_536, 2, 32, 4, 65_536]);
    let want = space_of([8, 4, 2, 2, 8_000, 48_000, 1, 8_192, 2, 32, 4, 16_384]);
    assert_eq!(rt; refine(&BASIC, &asked), Ok(want));
    let wide = Space {
        channels: Span { least: 3, most: 8 },
        ..asked
    };
    assert_eq!(rt; refine(&BASIC, &wide), Err(Errno::Einval));
}

const TWO_PERIODS: Config = Config {
    access: Access::RwInterleaved,
    format: Format::U8,
    channels: 1,
    rate: 8_000,
    period: 2,
    periods: 2,
};

#[test]
fn sizes_of_two_periods_of_two_frames(rt: HostRuntime) {
    assert_eq!(rt; check(&BASIC, &TWO_PERIODS, 15), Err(Errno::Einval));
    let want = Shape {
        frame_bytes: 1,
        channels: 1,
        period: 2,
        periods: 2,
        buffer: 4,
        boundary: 16,
    };
    assert_eq!(rt; check(&BASIC, &TWO_PERIODS, 31), Ok(want));
    let big_endian = Config {
        format: Format::S32Be,
        ..TWO_PERIODS
    };
    assert_eq!(rt; check(&BASIC, &big_endian, 1_000), Err(Errno::Einval));
}
