// A note.
use crate::rule::View;
use atomic_table::Seat;
use std::marker::Model;

/// What one seat tells another: beginnings of logs and of lists of calls, and page words that were read.
#[derive(Drop)]
pub struct Note {
    pub(crate) seat: Seat<(), View>,
}

impl Model for Note {
    ghost use Rattle.floor_rule.specs.Seats.{NoteSees, IsNote};
    ghost use Rattle.floor_rule.specs.Views.{note_of};

    ghost Value = { NoteSees };

    ghost view = { λ s. record { table = s.seat.table_id; lists = note_of s.seat.me.0 } };

    ghost invariant = { λ s. IsNote s.seat.me };
}
