// The words of a text: what stands between blanks.
ghost use Rattle.std.specs.Prelude.{◌≡◌, ◌++◌, ℕ, List, map, OnOk, IfOk};
ghost use Rattle.xmi_text.specs.Markup.{and_word, words_of};

use crate::markup::is_blank;
use std::alloc::{AllocError, Global};

// Adds a word, where it is one.
fn push_word<'a>(words: &mut Vec<&'a [u8]>, word: &'a [u8]) -> Result<(), AllocError>
    ensures { OnOk result ((ws : List (List ℕ)) → map (λ w. w.now) words.new.items ++ ws
        ≡ map (λ w. w.now) words.old.items ++ and_word word.now ws) }
{
    if word.is_empty() {
        return Ok(());
    }
    words.push(word)?;
    Ok(())
}

/// The words of a text.
pub fn words<'a>(alloc: Global, text: &'a [u8]) -> Result<Vec<&'a [u8]>, AllocError>
    ensures { IfOk result (λ words. map (λ w. w.now) words.items ≡ words_of text.now) }
{
    let mut words = Vec::new(alloc);
    let mut begin = 0;
    for i in 0..text.len() {
        if is_blank(text[i]) {
            push_word(&mut words, &text[begin..i])?;
            begin = i + 1;
        }
    }
    push_word(&mut words, &text[begin..])?;
    Ok(words)
}
