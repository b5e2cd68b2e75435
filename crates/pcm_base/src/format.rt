// Sample formats, and how frames are reached.
ghost use Rattle.std.specs.Prelude.{◌≡◌};
ghost use Rattle.pcm_base.specs.Numbers.{format_number, access_number, sample_bytes};

/// A sample format (`SNDRV_PCM_FORMAT_*`). The set of eight is this project's own.
#[derive(Clone, Copy, Debug, PartialEq, Eq)]
pub enum Format {
    S8,
    U8,
    S16Le,
    S16Be,
    /// Four bytes, of which the low three are used.
    S24Le,
    S32Le,
    S32Be,
    /// Three bytes.
    S24Le3,
}

impl Format {
    /// The format's number in `asound.h`, and its bit in a mask of formats.
    pub fn number(self) -> u32
        ensures { result ≡ format_number self }
    {
        match self {
            Format::S8 => 0,
            Format::U8 => 1,
            Format::S16Le => 2,
            Format::S16Be => 3,
            Format::S24Le => 6,
            Format::S32Le => 10,
            Format::S32Be => 11,
            Format::S24Le3 => 32,
        }
    }
}

/// The bytes of one sample (`snd_pcm_format_physical_width` of `pcm_misc.c`, in bytes).
pub fn width_of(format: Format) -> u32
    ensures { result ≡ sample_bytes format }
{
    match format {
        Format::S8 | Format::U8 => 1,
        Format::S16Le | Format::S16Be => 2,
        Format::S24Le3 => 3,
        Format::S24Le | Format::S32Le | Format::S32Be => 4,
    }
}

/// How a client reaches the buffer (`SNDRV_PCM_ACCESS_*`, without the complex one).
#[derive(Clone, Copy, Debug, PartialEq, Eq)]
pub enum Access {
    MmapInterleaved,
    MmapNoninterleaved,
    RwInterleaved,
    RwNoninterleaved,
}

impl Access {
    /// The access's number in `asound.h`, and its bit in a mask of accesses.
    pub fn number(self) -> u32
        ensures { result ≡ access_number self }
    {
        match self {
            Access::MmapInterleaved => 0,
            Access::MmapNoninterleaved => 1,
            Access::RwInterleaved => 3,
            Access::RwNoninterleaved => 4,
        }
    }
}
