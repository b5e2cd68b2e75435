// What is told of a limit, and of a configuration that is refused.
use crate::sentence::push_sentence;
use pcm_base::{CardModel, Span};
use pcm_text::{Which, push_number, push_text};
use std::alloc::{AllocError, Global};

/// Puts the limit behind the text: its number, and of what.
pub(crate) fn push_limit(text: &mut Vec<u8>, which: Which) -> Result<(), AllocError> {
    match which {
        Which::ScriptBytes => push_sentence(text, b"a script has at most 67,108,864 bytes"),
        Which::ScriptLines => push_sentence(text, b"a script has at most 1,048,576 lines"),
        Which::TakenBytes => push_sentence(
            text,
            b"a card takes at most 67,108,864 bytes, frames and the silence that fills a period",
        ),
        Which::CaptureBytes => push_sentence(
            text,
            b"at most 67,108,864 bytes are recorded, N times those of a frame",
        ),
        Which::GenNumber => push_sentence(text, b"N is at most 1000"),
        Which::WavBytes => Ok(()),
        Which::PlanBytes | Which::PlanLines | Which::Beats | Which::LogEntries => Ok(()),
    }
}

fn push_span(text: &mut Vec<u8>, before: &str, span: Span, unit: &str) -> Result<(), AllocError> {
    push_text(text, before.as_bytes())?;
    push_number(text, span.least)?;
    push_text(text, b" to ")?;
    push_number(text, span.most)?;
    push_text(text, unit.as_bytes())
}

fn push_allowed(text: &mut Vec<u8>, model: &CardModel) -> Result<(), AllocError> {
    push_span(text, "rates of ", model.rate, " Hz, ")?;
    push_span(
        text,
        "periods of ",
        model.period,
        " frames, 2 to 32 periods, ",
    )?;
    push_text(text, b"buffers of 4 to 65536 frames and at most ")?;
    push_number(text, model.buffer_bytes)?;
    push_text(text, b" bytes")
}

/// Puts behind the text what this model of a card, which refused a configuration, allows.
pub(crate) fn push_refused(
    alloc: Global,
    text: &mut Vec<u8>,
    model: &CardModel,
) -> Result<(), AllocError> {
    push_sentence(text, b"the card's model does not allow this configuration")?;
    let mut allowed = Vec::new(alloc);
    push_text(&mut allowed, b"it allows ")?;
    push_allowed(&mut allowed, model)?;
    push_sentence(text, &allowed)
}
