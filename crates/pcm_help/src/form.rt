// The form of a line, and the keywords of a command.
use crate::command::Command;
use crate::operand::operand_name;
use crate::sentence::push_sentence;
use pcm_line::Keyword;
use pcm_text::push_text;
use std::alloc::{AllocError, Global};

/// Puts the form of the keyword's lines behind the text.
pub(crate) fn push_form(
    alloc: Global,
    text: &mut Vec<u8>,
    keyword: Keyword,
) -> Result<(), AllocError> {
    let mut form = Vec::new(alloc);
    push_text(&mut form, b"form: ")?;
    push_text(&mut form, keyword.text().as_bytes())?;
    for (place, kind) in keyword.kinds().iter().enumerate() {
        push_text(&mut form, b" ")?;
        push_text(&mut form, operand_name(keyword, place, *kind).as_bytes())?;
    }
    push_sentence(text, &form)
}

/// Puts the keywords of the command's lines behind the text.
pub(crate) fn push_keywords(
    alloc: Global,
    text: &mut Vec<u8>,
    command: Command,
) -> Result<(), AllocError> {
    let mut words = Vec::new(alloc);
    push_text(&mut words, b"a line begins with one of:")?;
    for keyword in Keyword::all() {
        if command.has(*keyword) {
            push_text(&mut words, b" ")?;
            push_text(&mut words, keyword.text().as_bytes())?;
        }
    }
    push_sentence(text, &words)
}
