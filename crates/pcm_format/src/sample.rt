// A sample's value from its bytes, and its bytes from its value.
ghost use Rattle.std.specs.Prelude.{◌≡◌, length, take};
ghost use Rattle.pcm_base.specs.declared.format.Format.TheVariants.{S24Le, S24Le3};
ghost use Rattle.pcm_base.specs.Numbers.{sample_bytes};
ghost use Rattle.pcm_format.specs.Samples.{FitsSample, bytes_of_sample, sample_of};

use byteorder::{BigEndian, ByteOrder, LittleEndian};
use pcm_base::Format;

/// The value of one sample, whose bytes these are: signed, but for U8, whose values are 0 to 255 as they are stored.
/// The fourth byte of S24_LE is not read.
pub fn get_sample(f: Format, bytes: &[u8]) -> i32
    requires { length bytes.now ≡ sample_bytes f }
    ensures value { result ≡ sample_of f bytes.now }
    ensures fits { FitsSample f result }
    // An S24_LE sample is the S24_3LE sample of its first three bytes.
    ensures unused { f ≡ S24Le → result ≡ sample_of S24Le3 (take 3 bytes.now) }
{
    match f {
        Format::S8 => i32::from(bytes[0].cast_signed()),
        Format::U8 => i32::from(bytes[0]),
        Format::S16Le => i32::from(LittleEndian::read_i16(bytes)),
        Format::S16Be => i32::from(BigEndian::read_i16(bytes)),
        Format::S24Le | Format::S24Le3 => LittleEndian::read_i24(bytes),
        Format::S32Le => LittleEndian::read_i32(bytes),
        Format::S32Be => BigEndian::read_i32(bytes),
    }
}

/// Writes one sample. The fourth byte of S24_LE becomes 0.
pub fn put_sample(f: Format, value: i32, out: &mut [u8])
    requires width { length out.old ≡ sample_bytes f }
    requires fits { FitsSample f value }
    ensures bytes { out.new ≡ bytes_of_sample f value }
    // A sample that was put is the sample that is got.
    ensures again { sample_of f out.new ≡ value }
{
    match f {
        Format::S8 => out[0] = (value as i8).cast_unsigned(),
        Format::U8 => out[0] = value as u8,
        Format::S16Le => LittleEndian::write_i16(out, value as i16),
        Format::S16Be => BigEndian::write_i16(out, value as i16),
        Format::S24Le => {
            LittleEndian::write_i24(out, value);
            out[3] = 0;
        }
        Format::S32Le => LittleEndian::write_i32(out, value),
        Format::S32Be => BigEndian::write_i32(out, value),
        Format::S24Le3 => LittleEndian::write_i24(out, value),
    }
}
