// The name of a floor.
use std::marker::Brand;

/// Names the shared words of one floor, its cards and its LONG_MAX, so that values behind different locks are known to
/// belong to it.
pub trait FloorName {
    ghost use Rattle.std.specs.Prelude.{ℕ, List};
    ghost use Rattle.atomic_table.specs.Seated.{TableId};
    ghost use Rattle.pcm_base.specs.declared.config.CardModel.{CardModel};
    ghost use Rattle.pcm_base.specs.declared.state.Dir.{Dir};

    ghost table: { TableId };

    ghost cards: { List (CardModel × Dir) };

    ghost long_max: { ℕ };
}

impl FloorName for Brand {
    ghost use Rattle.std.specs.Prelude.{[]};
    ghost use Rattle.room_parts.specs.Names.{no_table};

    ghost table = { no_table };

    ghost cards = { [] };

    ghost long_max = { 0 };
}
