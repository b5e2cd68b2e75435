// A line of the command `refine`: a space, answered.
ghost use Rattle.std.specs.Prelude.{◌≡◌, ◌++◌, ℕ, List, OnOk};
ghost use Rattle.pcm_top.specs.Refine.{IsAnswer};

use card_emul::model_of;
use hw_params::refine;
use pcm_base::{Model, Space};
use pcm_line::{Line, push_line};
use std::alloc::AllocError;

/// Puts the answer to a space line behind the text: the space line of the least box that holds every configuration which
/// the card's model leaves, or `err EINVAL 22` where none is left. This project's own.
pub fn push_answer(text: &mut Vec<u8>, model: Model, space: &Space) -> Result<(), AllocError>
    ensures { OnOk result
        ((answer : List ℕ) × IsAnswer model space.now answer × (text.new.items ≡ text.old.items ++ answer)) }
{
    match refine(&model_of(model), space) {
        Ok(least) => {
            push_line(text, &Line::Space(model, least))?;
            text.extend_from_slice(b"\n")
        }
        Err(_) => text.extend_from_slice(b"err EINVAL 22\n"),
    }
}
