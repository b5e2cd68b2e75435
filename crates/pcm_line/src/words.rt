// The one word of each value that is a word.
ghost use Rattle.std.specs.Prelude.{◌≡◌};
ghost use Rattle.pcm_line.specs.Kinds;
ghost use Rattle.pcm_line.specs.Spelling;

use pcm_base::{Access, Call, Dir, Format, Layout, Mode, Model};

pub(crate) fn mode_text(mode: Mode) -> &'static [u8]
    ensures { result.now ≡ Kinds.mode_text mode }
{
    match mode {
        Mode::Block => b"b",
        Mode::NonBlock => b"n",
    }
}

pub(crate) fn dir_text(dir: Dir) -> &'static [u8]
    ensures { result.now ≡ Kinds.dir_text dir }
{
    match dir {
        Dir::Playback => b"p",
        Dir::Capture => b"c",
    }
}

pub(crate) fn model_text(model: Model) -> &'static [u8]
    ensures { result.now ≡ Kinds.model_text model }
{
    match model {
        Model::Basic => b"basic",
        Model::Duplex => b"duplex",
        Model::Studio => b"studio",
        Model::NoPause => b"nopause",
        Model::NoResume => b"noresume",
        Model::Indirect => b"indirect",
    }
}

pub(crate) fn access_text(access: Access) -> &'static [u8]
    ensures { result.now ≡ Kinds.access_text access }
{
    match access {
        Access::MmapInterleaved => b"MMAP_INTERLEAVED",
        Access::MmapNoninterleaved => b"MMAP_NONINTERLEAVED",
        Access::RwInterleaved => b"RW_INTERLEAVED",
        Access::RwNoninterleaved => b"RW_NONINTERLEAVED",
    }
}

pub(crate) fn format_text(format: Format) -> &'static [u8]
    ensures { result.now ≡ Kinds.format_text format }
{
    match format {
        Format::S8 => b"S8",
        Format::U8 => b"U8",
        Format::S16Le => b"S16_LE",
        Format::S16Be => b"S16_BE",
        Format::S24Le => b"S24_LE",
        Format::S32Le => b"S32_LE",
        Format::S32Be => b"S32_BE",
        Format::S24Le3 => b"S24_3LE",
    }
}

fn write_word(layout: Layout) -> &'static [u8]
    ensures { result.now ≡ Spelling.write_word layout }
{
    match layout {
        Layout::Interleaved => b"writei",
        Layout::Planar => b"writen",
    }
}

fn read_word(layout: Layout) -> &'static [u8]
    ensures { result.now ≡ Spelling.read_word layout }
{
    match layout {
        Layout::Interleaved => b"readi",
        Layout::Planar => b"readn",
    }
}

/// The keyword of a call's line.
pub(crate) fn call_word(call: Call) -> &'static [u8]
    ensures { result.now ≡ Spelling.call_word call }
{
    match call {
        Call::Status => b"status",
        Call::Hwsync => b"hwsync",
        Call::Delay => b"delay",
        Call::PageNow => b"page",
        Call::Poll => b"poll",
        Call::Prepare => b"prepare",
        Call::Start => b"start",
        Call::DropNow => b"drop",
        Call::Xrun => b"xrun",
        Call::PausePush => b"pause",
        Call::PauseRelease => b"release",
        Call::Suspend => b"suspend",
        Call::Resume => b"resume",
        Call::Unlink => b"unlink",
        Call::Map => b"mmap",
        Call::Unmap => b"munmap",
        Call::OpenSub => b"open",
        Call::CloseSub => b"close",
        Call::HwFree => b"hwfree",
        Call::Rewind(_) => b"rewind",
        Call::Forward(_) => b"forward",
        Call::SyncPtr(_) => b"sync",
        Call::HwParams(_) => b"hw",
        Call::SwParams(_) => b"sw",
        Call::Drain(_) => b"drain",
        Call::Write(layout, _) => write_word(layout),
        Call::Read(layout, _, _) => read_word(layout),
        Call::Store(_) => b"store",
        Call::Load(_, _) => b"load",
        Call::Link(_) => b"link",
        Call::Go => b"go",
        Call::MoveBy(_) => b"move",
        Call::Irq => b"irq",
        Call::FailAt(_) => b"fail",
        Call::Give => b"give",
        Call::Unplug => b"unplug",
    }
}
