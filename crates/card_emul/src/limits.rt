// What each named card model can do.
ghost use Rattle.std.specs.Prelude.{◌≡◌};
ghost use Rattle.pcm_base.specs.CardFacts.{HasChannels};
ghost use Rattle.card_emul.specs.Limits.{limits_of};

use pcm_base::{CardModel, Model, Span};

// A mask has the bit of each access's or format's number.
const EVERY_ACCESS: u64 = 0b1_1011;

const BASIC_FORMATS: u64 = 0b110;

const STUDIO_FORMATS: u64 = 0x1_0000_0444;

const EVERY_FORMAT: u64 = 0x1_0000_0c4f;

const BASIC: CardModel = CardModel {
    accesses: EVERY_ACCESS,
    formats: BASIC_FORMATS,
    channels: Span { least: 1, most: 2 },
    rate: Span {
        least: 8000,
        most: 48000,
    },
    wide_rate: 48000,
    period: Span {
        least: 1,
        most: 8192,
    },
    buffer_bytes: 65536,
    can_pause: true,
    can_resume: true,
};

const DUPLEX: CardModel = CardModel {
    accesses: EVERY_ACCESS,
    formats: EVERY_FORMAT,
    channels: Span { least: 1, most: 8 },
    rate: Span {
        least: 4000,
        most: 192000,
    },
    wide_rate: 192000,
    period: Span {
        least: 1,
        most: 32768,
    },
    buffer_bytes: 2097152,
    can_pause: true,
    can_resume: true,
};

const STUDIO: CardModel = CardModel {
    accesses: EVERY_ACCESS,
    formats: STUDIO_FORMATS,
    channels: Span { least: 1, most: 8 },
    rate: Span {
        least: 44100,
        most: 192000,
    },
    wide_rate: 96000,
    period: Span {
        least: 16,
        most: 8192,
    },
    buffer_bytes: 1048576,
    can_pause: true,
    can_resume: true,
};

/// The limits of a named card model, the same for both directions: rates in Hz, a period in frames, `buffer_bytes` in
/// bytes. This project's own, in the form of `struct snd_pcm_hardware`.
pub fn model_of(m: Model) -> CardModel
    ensures table { result ≡ limits_of m }
    ensures channels { HasChannels result }
{
    match m {
        Model::Basic => BASIC,
        Model::Duplex => DUPLEX,
        Model::Studio => STUDIO,
        Model::NoPause => CardModel {
            can_pause: false,
            ..BASIC
        },
        Model::NoResume => CardModel {
            can_resume: false,
            ..BASIC
        },
        Model::Indirect => BASIC,
    }
}
