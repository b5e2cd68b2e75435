// Sentences, as lines of their own.
use pcm_base::Name;
use pcm_text::push_text;
use std::alloc::{AllocError, Global};

/// What a number is.
pub(crate) const NUMBER_FORM: &str = "a number, digits without a leading zero, below 2^63";

/// What the name of a file is.
pub(crate) const NAME_FORM: &str = "1 to 64 of a-z, 0-9, '.', '_' and '-', not beginning with '.'";

/// The most columns of a line.
const COLUMNS: usize = 76;

// One word more behind the text, whose last line has so many columns; how many it has then.
fn push_word(text: &mut Vec<u8>, used: usize, word: &[u8]) -> Result<usize, AllocError> {
    let then = used.saturating_add(word.len()).saturating_add(1);
    if then > COLUMNS {
        push_text(text, b"\n    ")?;
        push_text(text, word)?;
        return Ok(word.len().saturating_add(4));
    }
    push_text(text, b" ")?;
    push_text(text, word)?;
    Ok(then)
}

/// Puts the words behind the text, which have single spaces between them, in lines of their own.
pub(crate) fn push_sentence(text: &mut Vec<u8>, sentence: &[u8]) -> Result<(), AllocError> {
    push_text(text, b" ")?;
    let mut used = 1;
    for word in sentence.split(|b| *b == b' ') {
        used = push_word(text, used, word)?;
    }
    push_text(text, b"\n")
}

/// Puts the words behind the text, as in `a, b or c`.
pub(crate) fn push_choice(text: &mut Vec<u8>, words: &[&str]) -> Result<(), AllocError> {
    for (i, word) in words.iter().enumerate() {
        if i > 0 {
            let last = i == words.len() - 1;
            push_text(text, if last { b" or " } else { b", " })?;
        }
        push_text(text, word.as_bytes())?;
    }
    Ok(())
}

/// Puts what is told of the file of this name behind the text.
pub(crate) fn push_told(
    alloc: Global,
    text: &mut Vec<u8>,
    name: &Name,
    told: &str,
) -> Result<(), AllocError> {
    let mut sentence = Vec::new(alloc);
    push_text(&mut sentence, name.as_slice())?;
    push_text(&mut sentence, told.as_bytes())?;
    push_sentence(text, &sentence)
}
