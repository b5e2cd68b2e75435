// The line of a substream after the last line of the transcript.
ghost use Rattle.std.specs.Prelude.{◌≡◌, IfOk};
ghost use Rattle.pcm_text.specs.End.{end_line};

use crate::push::push_counted;
use crate::{push_text, state_name};
use pcm_base::{Page, SubId};
use std::alloc::{AllocError, Global};

/// The line of a substream after the last line of the transcript: its state and pointers, and how many frames its card
/// moved since its parameters were set. This project's own.
pub fn end_text(alloc: Global, sub: SubId, page: &Page, moved: u64) -> Result<Vec<u8>, AllocError>
    ensures { IfOk result (λ v. v.items ≡ end_line sub page.now moved) }
{
    let mut text = Vec::new(alloc);
    push_counted(&mut text, b"end s", u64::from(sub.0))?;
    push_text(&mut text, b" ")?;
    push_text(&mut text, state_name(page.state).as_bytes())?;
    push_counted(&mut text, b" hw ", page.hw)?;
    push_counted(&mut text, b" appl ", page.appl)?;
    push_counted(&mut text, b" moved ", moved)?;
    push_text(&mut text, b"\n")?;
    Ok(text)
}
