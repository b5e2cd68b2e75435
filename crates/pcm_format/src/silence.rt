// The byte of silence.
ghost use Rattle.std.specs.Prelude.{◌≡◌};
ghost use Rattle.pcm_base.specs.declared.config.Config.{Config};
ghost use Rattle.pcm_base.specs.model.Update.{silence_byte};
ghost use Rattle.pcm_format.specs.Samples.{silence_of_format};

use crate::table::Table;
use pcm_base::Format;

macro_rules! table {
    ($($byte:literal),*) => {
        Table { bytes: [$($byte),*] }
    };
}

/// The byte of every silent sample: 0x80 for U8, else 0 (`snd_pcm_format_silence_64` of `pcm_misc.c`).
pub fn silence_of(f: Format) -> u8
    ensures value { result ≡ silence_of_format f }
    // It is what a stream of this format is filled with.
    ensures configured { (c : Config) → c.format ≡ f → silence_byte (Some c) ≡ result }
{
    // by the order of the formats: S8, U8, S16_LE, S16_BE, S24_LE, S32_LE, S32_BE, S24_3LE
    let silent: Table<8> = table![0, 0x80, 0, 0, 0, 0, 0, 0];
    silent.at(f as usize)
}
