// A floor at rest is gathered.
ghost use Rattle.std.specs.Prelude.{◌≡◌, ◌≤◌, ◌<◌, ◌++◌, [], ℕ, length, vec_len, vec_capacity};
ghost use Rattle.floor_rule.specs.Rule.{Among, Distinct};
ghost use Rattle.floor_rule.specs.Steps.{AllBelow};
ghost use Rattle.live_gather.specs.Gathered.{IsGatheredFrom};
ghost use Rattle.live_gather.specs.Ordered.{HasAll, IsOneOf};
ghost use Rattle.live_gather.specs.Pieces.{numbers_of};
ghost use Rattle.live_gather.specs.Told.{Each};

use crate::gathered::Gathered;
use crate::ordering::put_in_order;
use crate::piece::Piece;
use crate::telling::{find_causes, meet_all};
use floor_rule::{Maker, SharedWords, laws};
use room_parts::{FloorName, Pass};

// The maker takes the seats of the recs in, and calls the roll: no number is there twice, and each is that of a card. As many
// as the cards, each of them is there.
fn take_in<N: FloorName>(
    words: &SharedWords,
    mut maker: Maker,
    mut pieces: Vec<Piece<N>>,
    all: &mut Vec<Gathered>,
)
    requires table { words.now.table ≡ N.table }
    requires maker { (maker.table ≡ N.table) × (maker.knows.recs ≡ length N.cards) × (maker.knows.roll ≡ []) }
    requires count { length pieces.items ≡ length N.cards }
    requires room { (vec_len all.old ≡ 0) × (length N.cards ≤ vec_capacity all.old) }
    ensures apart { Distinct (numbers_of pieces.items) }
    ensures below { AllBelow (length N.cards) (numbers_of pieces.items) }
    ensures every { (j : ℕ) → j < length N.cards → Among j (numbers_of pieces.items) }
    ensures size { length all.new.items ≡ length N.cards }
    ensures whole { HasAll (length N.cards) all.new.items }
    ensures gathered { Each (IsOneOf N.cards N.long_max pieces.items) all.new.items }
{
    laws::rolls();
    while let Some(piece) = pieces.pop() {
        let (gathered, seat) = piece.into_gathered();
        maker.take_rec(words, seat);
        all.push_reserved(gathered);
    }
    maker.call_roll(words);
}

/// What is left of a floor when all its calls are over: its words, the maker of its seats, which has taken none in, a piece for
/// each of its cards, and the passes of its clients and of its cards. `all` is empty, with room for one entry a card, and is
/// given back with them, in the order of the cards. It takes no memory and waits for nobody.
pub fn gather<N: FloorName>(
    words: &SharedWords,
    maker: Maker,
    mut pieces: Vec<Piece<N>>,
    clients: Vec<Pass<N>>,
    cards: Vec<Pass<N>>,
    mut all: Vec<Gathered>,
) -> Vec<Gathered>
    requires table { words.now.table ≡ N.table }
    requires maker { (maker.table ≡ N.table) × (maker.knows.recs ≡ length N.cards) × (maker.knows.roll ≡ []) }
    requires count { length pieces.items ≡ length N.cards }
    requires room { (vec_len all ≡ 0) × (length N.cards ≤ vec_capacity all) }
    ensures { IsGatheredFrom N.cards N.long_max pieces.items (clients.items ++ cards.items) result.items }
{
    laws::lists();
    laws::entries();
    meet_all(&mut pieces, words, clients);
    meet_all(&mut pieces, words, cards);
    find_causes(&mut pieces, words);
    take_in(words, maker, pieces, &mut all);
    put_in_order(&mut all);
    all
}
