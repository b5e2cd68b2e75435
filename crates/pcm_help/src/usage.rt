// The forms of the commands.
use crate::command::Command;
use crate::sentence::{NAME_FORM, NUMBER_FORM, push_sentence};
use pcm_text::push_text;
use std::alloc::{AllocError, Global};

// The column in which it stands what a command does.
const DOES_AT: usize = 30;

fn push_command(text: &mut Vec<u8>, command: Command) -> Result<(), AllocError> {
    let words = command.words();
    push_text(text, b"  pcm ")?;
    push_text(text, words.as_bytes())?;
    for _ in words.len()..DOES_AT {
        push_text(text, b" ")?;
    }
    push_text(text, command.does().as_bytes())?;
    push_text(text, b"\n")
}

fn push_words(
    alloc: Global,
    text: &mut Vec<u8>,
    before: &str,
    form: &str,
) -> Result<(), AllocError> {
    let mut sentence = Vec::new(alloc);
    push_text(&mut sentence, before.as_bytes())?;
    push_text(&mut sentence, form.as_bytes())?;
    push_sentence(text, &sentence)
}

/// Puts the forms of all commands behind the text, with what each does.
pub(crate) fn push_usage(alloc: Global, text: &mut Vec<u8>) -> Result<(), AllocError> {
    for command in Command::all() {
        push_command(text, *command)?;
    }
    push_words(
        alloc,
        text,
        "IN and OUT are files here, each named by ",
        NAME_FORM,
    )?;
    push_words(alloc, text, "PERIOD, PERIODS and N are each ", NUMBER_FORM)
}
