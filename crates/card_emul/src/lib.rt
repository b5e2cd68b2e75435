//! Emulated cards: what each named model can do, and a card in memory that takes and gives frames by a fault plan.
//!
//! It stands on `pcm_base`, whose trait `Card` it implements, and on `indirect_card`, for the model whose frames pass
//! through a hardware buffer. The models, their limits and the fault plan are this project's own; the calls are those of
//! the kernel's `struct snd_pcm_ops`, as a dummy driver (`sound/drivers/dummy.c`) has them.
#![tactic(auto)]

mod any_card;
mod channel;
mod fault_plan;
mod frames_to_give;
mod limits;
#[cfg(test)]
mod tests;

pub use any_card::AnyCard;
pub use limits::model_of;
