// The tokens before the first thing in a text that is refused.
ghost use Rattle.std.specs.Prelude.{◌≡◌, ◌≤◌, IfOk, false, length, take};
ghost use Rattle.std.specs.Str.{chars};
ghost use Rattle.atl_tree.specs.Front.{before_fault, cut_tokens as cut_tokens_of};

use crate::judge::{begins_arrow, fault, leads_name};
use crate::lex::mark_length;
use crate::scan::scan;
use crate::token::Token;
use atl_base::text::Text;
use sqlite_items::Items;
use std::alloc::{AllocError, Global};

/// The tokens that a text begins with, up to where it can't be cut into pieces; some of them may be refused. A text has at
/// most 4,294,967,294 bytes.
pub fn cut_tokens(alloc: Global, text: &Text) -> Result<Items<Token>, AllocError>
    requires { length text.now ≤ 4294967294 }
    ensures { IfOk result (λ ts. ts ≡ cut_tokens_of (chars text.now)) }
{
    let scanned = scan(alloc, text, mark_length(text.as_str()))?;
    Ok(scanned.list)
}

/// How many tokens stand before the first that is refused.
pub fn sound_length(tokens: &[Token]) -> usize
    ensures within { result ≤ length tokens.now }
    ensures sound { take result tokens.now ≡ before_fault false tokens.now }
{
    let mut led = false;
    for i in 0..tokens.len() {
        let named = led || begins_arrow(&tokens[i + 1..]);
        if fault(&tokens[i], named).is_some() {
            return i;
        }
        led = leads_name(&tokens[i]);
    }
    tokens.len()
}
