// The words that the program is called with.
ghost use Rattle.std.specs.Prelude.{◌≡◌, List, ℕ, IfOk, MatchOption, IsTrue, All, Any, AllPairs, ◌↔◌, ◌≢◌, map, length, false};
ghost use Rattle.std.specs.List.{list_all};
ghost use Rattle.atl_cli.specs.declared.words.Pair.{Pair as SomePair};
ghost use Rattle.atl_cli.specs.declared.words.Request.{Request as SomeRequest};
ghost use Rattle.atl_cli.specs.Words.{is_plain_word as is_plain_word_of, pair_word, has_equals, SplitsAt, IsPair, IsRequest};

use atl_base::text::Text;
use sqlite_items::Items;
use std::alloc::{AllocError, Global};

/// A name and the path of its file.
#[derive(Debug, Drop)]
pub struct Pair {
    pub name: Text,
    pub path: Text,
}

/// What `transform` is asked to do.
#[derive(Debug, Drop)]
pub struct Request {
    pub module: Text,
    pub pairs: Items<Pair>,
}

// Neither empty nor an option.
fn is_plain_word(word: &Text) -> bool
    ensures { result ≡ is_plain_word_of word.now }
{
    match word.bytes() {
        [] => false,
        [first, ..] => *first != b'-',
    }
}

// Where the first equals sign stands.
fn first_equals(bytes: &[u8]) -> Option<usize>
    ensures { MatchOption result (has_equals bytes.now ≡ false) (λ at. SplitsAt bytes.now at) }
{
    for (at, byte) in bytes.iter().enumerate() {
        if *byte == b'=' {
            return Some(at);
        }
    }
    None
}

// A name and a path around the first equals sign.
fn read_pair(alloc: Global, word: &Text) -> Result<Option<Pair>, AllocError>
    ensures { IfOk result (λ read. MatchOption read ((p : SomePair) → IsPair p → word.now ≡ pair_word p → ⊥) (λ p. IsPair p × (word.now ≡ pair_word p))) }
{
    let bytes = word.bytes();
    let Some(at) = first_equals(bytes) else {
        return Ok(None);
    };
    if at == 0 {
        return Ok(None);
    }
    if at + 1 == bytes.len() {
        return Ok(None);
    }
    Ok(Some(Pair {
        name: word.slice(alloc, 0, at)?,
        path: word.slice(alloc, at + 1, bytes.len())?,
    }))
}

// The pairs that these words are.
fn read_pairs(alloc: Global, words: &[Text]) -> Result<Option<Items<Pair>>, AllocError>
    ensures { IfOk result (λ read. MatchOption read ((ps : List SomePair) → All IsPair ps → words.now ≡ map pair_word ps → ⊥) (λ ps. All IsPair ps × (words.now ≡ map pair_word ps))) }
{
    let mut pairs = Items::new(alloc);
    for word in words {
        let Some(pair) = read_pair(alloc, word)? else {
            return Ok(None);
        };
        pairs.push(pair)?;
    }
    Ok(Some(pairs))
}

// Whether another pair has this name.
fn has_name(pairs: &[Pair], name: &Text) -> bool
    ensures { IsTrue result ↔ Any (λ p. p.name ≡ name.now) pairs.now }
{
    pairs.iter().any(|p| p.name == *name)
}

fn names_differ(pairs: &[Pair]) -> bool
    ensures { IsTrue result ↔ AllPairs (λ p q. p.name ≢ q.name) pairs.now }
{
    for (at, pair) in pairs.iter().enumerate() {
        if has_name(&pairs[..at], &pair.name) {
            return false;
        }
    }
    true
}

// Whether every word is neither empty nor an option.
fn are_plain(words: &[Text]) -> bool
    ensures { result ≡ list_all is_plain_word_of words.now }
{
    words.iter().all(is_plain_word)
}

/// The request that the words make, where they are of the form.
pub fn read_words(alloc: Global, words: &[Text]) -> Result<Option<Request>, AllocError>
    ensures { IfOk result (λ read. MatchOption read ((r : SomeRequest) → IsRequest words.now r → ⊥) (λ r. IsRequest words.now r)) }
{
    if words.len() != 6 {
        return Ok(None);
    }
    if words[0].as_str() != "transform" || !are_plain(words) {
        return Ok(None);
    }
    let Some(pairs) = read_pairs(alloc, &words[2..])? else {
        return Ok(None);
    };
    if !names_differ(pairs.as_slice()) {
        return Ok(None);
    }
    Ok(Some(Request {
        module: words[1].copy(alloc)?,
        pairs,
    }))
}

#[cfg(test)]
mod tests;
