// A floor is what workers call.
use crate::calls::{Calls, Links};
use floor_rule::Glance;
use live_floor::Floor;
use pcm_base::{Event, SubId};
use room_lock::Answer;
use room_parts::{FloorName, Pass};
use std::sync::Wait;
use std::sync::ledger::Ledger;

impl<N: FloorName + Ledger> Calls<N> for Floor<N> {
    fn call<R: Wait>(&self, rt: &R, pass: &mut Pass<N>, event: &Event, io: &mut [u8]) -> Answer {
        Floor::call(self, rt, pass, event, io)
    }

    fn page(&self, pass: &mut Pass<N>, sub: SubId) -> Glance {
        Floor::page(self, pass, sub)
    }
}

impl<N: FloorName + Ledger> Links<N> for Floor<N> {
    #[tactic(auto, using(crate::proofs::OnFloor::by_link))]
    fn link<R: Wait>(&self, rt: &R, pass: &mut Pass<N>, first: SubId, second: SubId) -> Answer {
        Floor::link(self, rt, pass, first, second)
    }

    #[tactic(auto, using(crate::proofs::OnFloor::by_unlink))]
    fn unlink<R: Wait>(&self, rt: &R, pass: &mut Pass<N>, sub: SubId) -> Answer {
        Floor::unlink(self, rt, pass, sub)
    }
}
