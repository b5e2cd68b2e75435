// The first pieces of lines.
ghost use Rattle.std.specs.Prelude.{◌≡◌, drop};
ghost use Rattle.pcm_line.specs.Tables.{entry_for, keyword_for, four_letters, words_of_four, other_words_of_four, words_of_five, words_of_six, words_of_seven, short_words};

/// The first piece of a line, which decides its form. Each is printed as its name in small letters. This project's own.
#[derive(Clone, Copy, Debug, PartialEq, Eq)]
pub enum Keyword {
    /// An interleaved write.
    Writei,
    /// Lets a card move frames.
    Move,
    /// A card's interrupt.
    Irq,
    /// Asks for the state and the pointers after an update.
    Status,
    /// An interleaved read.
    Readi,
    /// A planar write.
    Writen,
    /// A planar read.
    Readn,
    /// Writes frames through the mapped buffer.
    Store,
    /// Reads frames through the mapped buffer.
    Load,
    /// Takes the application pointer back.
    Rewind,
    /// Takes the application pointer ahead.
    Forward,
    /// Exchanges pointers with the kernel.
    Sync,
    /// Updates the hardware pointer.
    Hwsync,
    /// Asks for the delay.
    Delay,
    /// Reads the mapped status page.
    Page,
    /// Asks whether a transfer could go on.
    Poll,
    /// Makes a stream ready to start.
    Prepare,
    /// Starts a stream.
    Start,
    /// Stops a stream at once.
    Drop,
    /// Plays what is left, then stops.
    Drain,
    /// Forces an underrun or overrun.
    Xrun,
    /// Pauses a stream.
    Pause,
    /// Ends a pause.
    Release,
    /// Suspends a stream.
    Suspend,
    /// Ends a suspension.
    Resume,
    /// Goes on with a client's call in progress.
    Go,
    /// Links two streams.
    Link,
    /// Takes a stream out of its group.
    Unlink,
    /// Maps the buffer.
    Mmap,
    /// Unmaps the buffer.
    Munmap,
    /// Opens a substream.
    Open,
    /// Closes a substream.
    Close,
    /// Sets the hardware parameters.
    Hw,
    /// Gives the hardware parameters back.
    Hwfree,
    /// Sets the software parameters.
    Sw,
    /// Sets the LONG_MAX of the session.
    Long,
    /// Declares a substream.
    Card,
    /// Plans a trigger of a card to fail.
    Fail,
    /// Takes a card away.
    Unplug,
    /// Gives a card the frames that it will capture.
    Give,
    /// Gives a card the frames of a file.
    Feed,
    /// Stores the frames that a card took as a file.
    Save,
    /// Refines a space of configurations.
    Space,
    /// In a live plan: how often a card moves frames.
    Beat,
    /// In a live plan: the workers start.
    Threads,
    /// In a live plan: the workers have ended.
    Join,
    /// Tells the version of the script's language.
    Version,
    /// Gives a capture card what a playback card took.
    Carry,
    /// In a live plan: a cable from a playback card to a capture card.
    Wire,
}

fn rarer_word_of_four(piece: &[u8]) -> Option<Keyword>
    ensures { result ≡ entry_for piece.now (drop 2 words_of_four) }
{
    if piece == b"poll".as_slice() {
        Some(Keyword::Poll)
    } else if piece == b"sync".as_slice() {
        Some(Keyword::Sync)
    } else if piece == b"load".as_slice() {
        Some(Keyword::Load)
    } else if piece == b"drop".as_slice() {
        Some(Keyword::Drop)
    } else if piece == b"xrun".as_slice() {
        Some(Keyword::Xrun)
    } else if piece == b"give".as_slice() {
        Some(Keyword::Give)
    } else if piece == b"link".as_slice() {
        Some(Keyword::Link)
    } else {
        None
    }
}

fn word_of_four(piece: &[u8]) -> Option<Keyword>
    ensures { result ≡ entry_for piece.now words_of_four }
{
    match piece {
        b"move" => Some(Keyword::Move),
        b"page" => Some(Keyword::Page),
        _ => rarer_word_of_four(piece),
    }
}

fn other_word_of_four(piece: &[u8]) -> Option<Keyword>
    ensures { result ≡ entry_for piece.now other_words_of_four }
{
    if piece == b"mmap".as_slice() {
        Some(Keyword::Mmap)
    } else if piece == b"open".as_slice() {
        Some(Keyword::Open)
    } else if piece == b"long".as_slice() {
        Some(Keyword::Long)
    } else if piece == b"card".as_slice() {
        Some(Keyword::Card)
    } else if piece == b"fail".as_slice() {
        Some(Keyword::Fail)
    } else if piece == b"feed".as_slice() {
        Some(Keyword::Feed)
    } else if piece == b"save".as_slice() {
        Some(Keyword::Save)
    } else if piece == b"beat".as_slice() {
        Some(Keyword::Beat)
    } else if piece == b"wire".as_slice() {
        Some(Keyword::Wire)
    } else if piece == b"join".as_slice() {
        Some(Keyword::Join)
    } else {
        None
    }
}

fn word_of_six(piece: &[u8]) -> Option<Keyword>
    ensures { result ≡ entry_for piece.now words_of_six }
{
    if piece == b"writei".as_slice() {
        Some(Keyword::Writei)
    } else if piece == b"status".as_slice() {
        Some(Keyword::Status)
    } else if piece == b"writen".as_slice() {
        Some(Keyword::Writen)
    } else if piece == b"hwsync".as_slice() {
        Some(Keyword::Hwsync)
    } else if piece == b"rewind".as_slice() {
        Some(Keyword::Rewind)
    } else if piece == b"resume".as_slice() {
        Some(Keyword::Resume)
    } else if piece == b"unlink".as_slice() {
        Some(Keyword::Unlink)
    } else if piece == b"munmap".as_slice() {
        Some(Keyword::Munmap)
    } else if piece == b"hwfree".as_slice() {
        Some(Keyword::Hwfree)
    } else if piece == b"unplug".as_slice() {
        Some(Keyword::Unplug)
    } else {
        None
    }
}

fn short_word(piece: &[u8]) -> Option<Keyword>
    ensures { result ≡ entry_for piece.now short_words }
{
    if piece == b"irq".as_slice() {
        Some(Keyword::Irq)
    } else if piece == b"go".as_slice() {
        Some(Keyword::Go)
    } else if piece == b"hw".as_slice() {
        Some(Keyword::Hw)
    } else if piece == b"sw".as_slice() {
        Some(Keyword::Sw)
    } else {
        None
    }
}

fn word_of_five(piece: &[u8]) -> Option<Keyword>
    ensures { result ≡ entry_for piece.now words_of_five }
{
    if piece == b"readi".as_slice() {
        Some(Keyword::Readi)
    } else if piece == b"space".as_slice() {
        Some(Keyword::Space)
    } else if piece == b"readn".as_slice() {
        Some(Keyword::Readn)
    } else if piece == b"store".as_slice() {
        Some(Keyword::Store)
    } else if piece == b"delay".as_slice() {
        Some(Keyword::Delay)
    } else if piece == b"start".as_slice() {
        Some(Keyword::Start)
    } else if piece == b"drain".as_slice() {
        Some(Keyword::Drain)
    } else if piece == b"pause".as_slice() {
        Some(Keyword::Pause)
    } else if piece == b"close".as_slice() {
        Some(Keyword::Close)
    } else if piece == b"carry".as_slice() {
        Some(Keyword::Carry)
    } else {
        None
    }
}

fn word_of_seven(piece: &[u8]) -> Option<Keyword>
    ensures { result ≡ entry_for piece.now words_of_seven }
{
    if piece == b"prepare".as_slice() {
        Some(Keyword::Prepare)
    } else if piece == b"forward".as_slice() {
        Some(Keyword::Forward)
    } else if piece == b"release".as_slice() {
        Some(Keyword::Release)
    } else if piece == b"suspend".as_slice() {
        Some(Keyword::Suspend)
    } else if piece == b"threads".as_slice() {
        Some(Keyword::Threads)
    } else if piece == b"version".as_slice() {
        Some(Keyword::Version)
    } else {
        None
    }
}

fn any_word_of_four(piece: &[u8]) -> Option<Keyword>
    ensures { result ≡ four_letters piece.now }
{
    if let Some(keyword) = word_of_four(piece) {
        return Some(keyword);
    }
    other_word_of_four(piece)
}

/// The keyword that these bytes are: those of its length alone are tried, the frequent ones first.
pub(crate) fn keyword_of(piece: &[u8]) -> Option<Keyword>
    ensures { result ≡ keyword_for piece.now }
{
    if piece.len() == 4 {
        any_word_of_four(piece)
    } else if piece.len() == 6 {
        word_of_six(piece)
    } else if piece.len() < 4 {
        short_word(piece)
    } else if piece.len() == 5 {
        word_of_five(piece)
    } else {
        word_of_seven(piece)
    }
}
