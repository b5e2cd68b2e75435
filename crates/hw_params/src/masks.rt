// Masks of accesses and formats.
ghost use Rattle.std.specs.Prelude.{◌≡◌, ◌≤◌, ◌<◌, ◌↔◌, IsTrue, IfSome, IfNone};
ghost use Rattle.pcm_base.specs.Numbers.{access_number, format_number, sample_bytes};
ghost use Rattle.pcm_base.specs.declared.format.Access.{Access};
ghost use Rattle.pcm_base.specs.declared.format.Format.{Format};
ghost use Rattle.hw_params.specs.Hull.{HasBit};
ghost use Rattle.hw_params.specs.Masks.{IsNarrowestOf, AreAccessesOf, AreFormatsOf};

use pcm_base::{Access, Format, width_of};

/// The bytes of a sample.
pub fn width(format: Format) -> u64
    ensures is { result ≡ sample_bytes format }
    ensures least { 1 ≤ result }
    ensures most { result ≤ 4 }
{
    u64::from(width_of(format))
}

/// Whether bit `number` is set.
pub fn has(mask: u64, number: u32) -> bool
    requires { number < 64 }
    ensures { IsTrue result ↔ HasBit mask number }
{
    (mask >> number) & 1 == 1
}

/// Whether the mask has the access.
pub fn has_access(mask: u64, access: Access) -> bool
    ensures { IsTrue result ↔ HasBit mask (access_number access) }
{
    has(mask, access.number())
}

/// Whether the mask has the format.
pub fn has_format(mask: u64, format: Format) -> bool
    ensures { IsTrue result ↔ HasBit mask (format_number format) }
{
    has(mask, format.number())
}

/// Some access of the mask.
pub fn some_access(mask: u64) -> Option<Access>
    ensures some { IfSome result (λ a. HasBit mask (access_number a)) }
    ensures none { IfNone result ((a : Access) → HasBit mask (access_number a) → ⊥) }
{
    if has(mask, 0) {
        Some(Access::MmapInterleaved)
    } else if has(mask, 1) {
        Some(Access::MmapNoninterleaved)
    } else if has(mask, 3) {
        Some(Access::RwInterleaved)
    } else if has(mask, 4) {
        Some(Access::RwNoninterleaved)
    } else {
        None
    }
}

/// A format of the mask with the least width.
pub fn narrowest(mask: u64) -> Option<Format>
    ensures some { IfSome result (λ f. HasBit mask (format_number f)) }
    ensures none { IfNone result ((f : Format) → HasBit mask (format_number f) → ⊥) }
    ensures least { IfSome result (λ f. IsNarrowestOf mask f) }
{
    if has(mask, 0) {
        Some(Format::S8)
    } else if has(mask, 1) {
        Some(Format::U8)
    } else if has(mask, 2) {
        Some(Format::S16Le)
    } else if has(mask, 3) {
        Some(Format::S16Be)
    } else if has(mask, 32) {
        Some(Format::S24Le3)
    } else if has(mask, 6) {
        Some(Format::S24Le)
    } else if has(mask, 10) {
        Some(Format::S32Le)
    } else if has(mask, 11) {
        Some(Format::S32Be)
    } else {
        None
    }
}

/// The bits of a mask that are accesses.
pub fn accesses_in(mask: u64) -> u64
    ensures { AreAccessesOf mask result }
{
    mask & 0b11011
}

/// The bits of a mask that are formats of at most this width.
pub fn formats_in(mask: u64, width: u64) -> u64
    ensures { AreFormatsOf mask width result }
{
    match width {
        0 => 0,
        1 => mask & 0x3,
        2 => mask & 0xF,
        3 => mask & 0x1_0000_000F,
        _ => mask & 0x1_0000_0C4F,
    }
}
