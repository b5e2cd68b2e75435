// What is gathered of a card.
use card_emul::AnyCard;
use floor_rule::Entry;
use pcm_base::SubId;
use pcm_stream::Substream;

/// The log of a substream.
#[derive(Drop)]
pub struct Log {
    pub sub: SubId,
    pub entries: Vec<Entry>,
}

/// The log of a substream, and the stream to which it plays.
#[derive(Drop)]
pub struct Gathered {
    pub log: Log,
    pub stream: Substream<AnyCard>,
}
