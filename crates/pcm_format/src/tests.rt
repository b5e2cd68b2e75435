use super::*;
use pcm_base::Format;
use std::test::Fail;

const FORMATS: [Format; 8] = [
    Format::S8,
    Format::U8,
    Format::S16Le,
    Format::S16Be,
    Format::S24Le,
    Format::S32Le,
    Format::S32Be,
    Format::S24Le3,
];

#[test]
fn u8_alone_has_another_silence(rt: HostRuntime) {
    for f in FORMATS {
        let want = if f == Format::U8 { 0x80 } else { 0 };
        assert_eq!(rt; silence_of(f), want, "{f:?}");
    }
}

#[test]
fn least_and_greatest_samples(rt: HostRuntime) {
    assert_eq!(rt; get_sample(Format::S8, &[0x80]), -128);
    assert_eq!(rt; get_sample(Format::U8, &[0xff]), 255);
    assert_eq!(rt; get_sample(Format::S16Le, &[0x00, 0x80]), -32_768);
    assert_eq!(rt; get_sample(Format::S16Be, &[0x7f, 0xff]), 32_767);
    assert_eq!(rt;
        get_sample(Format::S24Le, &[0x00, 0x00, 0x80, 0x7f]),
        -8_388_608
    );
    assert_eq!(rt; get_sample(Format::S24Le3, &[0xff, 0xff, 0x7f]), 8_388_607);
    assert_eq!(rt;
        get_sample(Format::S32Le, &[0x00, 0x00, 0x00, 0x80]),
        -2_147_483_648
    );
    assert_eq!(rt;
        get_sample(Format::S32Be, &[0x7f, 0xff, 0xff, 0xff]),
        2_147_483_647
    );
}

#[test]
fn the_bytes_of_minus_two(rt: HostRuntime) {
    let mut one = [0x55; 1];
    put_sample(Format::S8, -2, &mut one);
    assert_eq!(rt; one, [0xfe]);
    let mut two = [0x55; 2];
    put_sample(Format::S16Be, -2, &mut two);
    assert_eq!(rt; two, [0xff, 0xfe]);
    let mut three = [0x55; 3];
    put_sample(Format::S24Le3, -2, &mut three);
    assert_eq!(rt; three, [0xfe, 0xff, 0xff]);
    let mut four = [0x55; 4];
    put_sample(Format::S24Le, -2, &mut four);
    assert_eq!(rt; four, [0xfe, 0xff, 0xff, 0x00]);
}
