// The module of one rule, read from the tokens of its text.
ghost use Rattle.std.specs.Prelude.{◌≡◌, ◌≢◌, ◌≤◌, ◌<◌, ◌↔◌, ◌&&◌, ◌++◌, [], IfOk, MatchOption, IsTrue, AllPairs, length, map, false, slice_index_or};
ghost use Rattle.std.specs.List.{list_all};
ghost use Rattle.std.specs.Str.{chars};
ghost use Rattle.atl_tree.specs.declared.token.Tokens.{Tokens as SomeTokens};
ghost use Rattle.atl_tree.specs.Tokens.{HasTokens};
ghost use Rattle.atl_cli.specs.declared.one_rule.OneRule.{OneRule as SomeOneRule};
ghost use Rattle.atl_cli.specs.OneRule.{IsOneRule, IsModule, is_name as is_name_of, is_reserved as is_reserved_of, header_words, rule_words, spelled, header_names, rule_names, made_of, models_differ_in, names_fit_in, HasNames};

use crate::plain::{is_name, is_reserved};
use atl_base::text::{Text, TextRefusal};
use atl_tree::lex::tokens;
use atl_tree::token::{LexRefusal, Token, Tokens};
use std::alloc::{AllocError, Global};

/// A module of one rule: `module M; create T : B from S : A; rule R { from s : A!C to t : B!D (f <- s.g) }`.
#[derive(Debug, Drop)]
pub struct OneRule {
    /// `M`
    pub module: Text,
    /// `T`
    pub target: Text,
    /// `B`
    pub target_metamodel: Text,
    /// `S`
    pub source: Text,
    /// `A`
    pub source_metamodel: Text,
    /// `R`
    pub rule: Text,
    /// `s`
    pub matched: Text,
    /// `C`
    pub class: Text,
    /// `t`
    pub made: Text,
    /// `D`
    pub made_class: Text,
    /// `f`
    pub feature: Text,
    /// `g`
    pub read: Text,
}

// The tokens of the text, where it has them.
fn read_tokens(alloc: Global, text: &Text) -> Result<Option<Tokens>, AllocError>
    requires { length text.now ≤ 4294967294 }
    ensures { IfOk result (λ read. MatchOption read ((ts : SomeTokens) → HasTokens (chars text.now) ts → ⊥) (λ ts. HasTokens (chars text.now) ts)) }
{
    match tokens(alloc, text) {
        Ok(read) => Ok(Some(read)),
        Err(LexRefusal::Memory) => Err(AllocError),
        Err(LexRefusal::BadByte(_)) => Ok(None),
        Err(LexRefusal::OpenText(_)) => Ok(None),
        Err(LexRefusal::WideNumber(_)) => Ok(None),
        Err(LexRefusal::RealNumber(_)) => Ok(None),
    }
}

// The text of a token.
fn copy_at(alloc: Global, tokens: &[Token], at: usize) -> Result<Text, AllocError>
    requires { at < length tokens.now }
    ensures { IfOk result (λ t. t ≡ slice_index_or (map (λ t. t.text) tokens.now) at []) }
{
    tokens[at].text.copy(alloc)
}

// What the tokens before the rule name.
#[derive(Debug, Drop)]
struct Header {
    module: Text,
    target: Text,
    target_metamodel: Text,
    source: Text,
    source_metamodel: Text,
}

fn copy_header(alloc: Global, tokens: &[Token]) -> Result<Header, AllocError>
    requires { length tokens.now ≡ 35 }
    ensures module { IfOk result (λ h. h.module ≡ slice_index_or (map (λ t. t.text) tokens.now) 1 []) }
    ensures target { IfOk result (λ h. h.target ≡ slice_index_or (map (λ t. t.text) tokens.now) 4 []) }
    ensures target_metamodel { IfOk result (λ h. h.target_metamodel ≡ slice_index_or (map (λ t. t.text) tokens.now) 6 []) }
    ensures source { IfOk result (λ h. h.source ≡ slice_index_or (map (λ t. t.text) tokens.now) 8 []) }
    ensures source_metamodel { IfOk result (λ h. h.source_metamodel ≡ slice_index_or (map (λ t. t.text) tokens.now) 10 []) }
{
    Ok(Header {
        module: copy_at(alloc, tokens, 1)?,
        target: copy_at(alloc, tokens, 4)?,
        target_metamodel: copy_at(alloc, tokens, 6)?,
        source: copy_at(alloc, tokens, 8)?,
        source_metamodel: copy_at(alloc, tokens, 10)?,
    })
}

// What the tokens name, whether or not they are of the form.
fn copy_names(alloc: Global, tokens: &[Token]) -> Result<OneRule, AllocError>
    requires { length tokens.now ≡ 35 }
    ensures { IfOk result (λ m. m ≡ made_of (map (λ t. t.text) tokens.now)) }
{
    let Header {
        module,
        target,
        target_metamodel,
        source,
        source_metamodel,
    } = copy_header(alloc, tokens)?;
    Ok(OneRule {
        module,
        target,
        target_metamodel,
        source,
        source_metamodel,
        rule: copy_at(alloc, tokens, 13)?,
        matched: copy_at(alloc, tokens, 16)?,
        class: copy_at(alloc, tokens, 20)?,
        made: copy_at(alloc, tokens, 22)?,
        made_class: copy_at(alloc, tokens, 26)?,
        feature: copy_at(alloc, tokens, 28)?,
        read: copy_at(alloc, tokens, 32)?,
    })
}

// Whether the tokens have these texts.
fn are_words(tokens: &[Token], words: &[&str]) -> bool
    ensures { IsTrue result ↔ (map (λ t. t.text) tokens.now ≡ map (λ w. w.now) words.now) }
{
    if tokens.len() != words.len() {
        return false;
    }
    for (at, token) in tokens.iter().enumerate() {
        if token.text.as_str() != words[at] {
            return false;
        }
    }
    true
}

fn is_header(tokens: &[Token], rule: &OneRule) -> bool
    ensures { IsTrue result ↔ (map (λ t. t.text) tokens.now ≡ header_words rule.now) }
{
    are_words(
        tokens,
        &[
            "module",
            rule.module.as_str(),
            ";",
            "create",
            rule.target.as_str(),
            ":",
            rule.target_metamodel.as_str(),
            "from",
            rule.source.as_str(),
            ":",
            rule.source_metamodel.as_str(),
            ";",
        ],
    )
}

fn is_rule(tokens: &[Token], rule: &OneRule) -> bool
    ensures { IsTrue result ↔ (map (λ t. t.text) tokens.now ≡ rule_words rule.now) }
{
    are_words(
        tokens,
        &[
            "rule",
            rule.rule.as_str(),
            "{",
            "from",
            rule.matched.as_str(),
            ":",
            rule.source_metamodel.as_str(),
            "!",
            rule.class.as_str(),
            "to",
            rule.made.as_str(),
            ":",
            rule.target_metamodel.as_str(),
            "!",
            rule.made_class.as_str(),
            "(",
            rule.feature.as_str(),
            "<-",
            rule.matched.as_str(),
            ".",
            rule.read.as_str(),
            ")",
            "}",
        ],
    )
}

fn are_header_names(rule: &OneRule) -> bool
    ensures { result ≡ list_all is_name_of (header_names rule.now) }
{
    is_name(&rule.module)
        && is_name(&rule.target)
        && is_name(&rule.target_metamodel)
        && is_name(&rule.source)
        && is_name(&rule.source_metamodel)
}

fn are_rule_names(rule: &OneRule) -> bool
    ensures { result ≡ list_all is_name_of (rule_names rule.now) }
{
    is_name(&rule.rule)
        && is_name(&rule.matched)
        && is_name(&rule.class)
        && is_name(&rule.made)
        && is_name(&rule.made_class)
        && is_name(&rule.feature)
        && is_name(&rule.read)
}

// Whether the tokens are those of a module of the form that names this.
fn is_spelled(tokens: &[Token], rule: &OneRule) -> bool
    requires { length tokens.now ≡ 35 }
    ensures { IsTrue result ↔ (map (λ t. t.text) tokens.now ≡ spelled rule.now) }
{
    if !is_header(&tokens[..12], rule) {
        return false;
    }
    is_rule(&tokens[12..], rule)
}

fn models_differ(rule: &OneRule) -> bool
    ensures { result ≡ models_differ_in rule.now }
{
    rule.target != rule.target_metamodel
        && rule.target != rule.source
        && rule.target != rule.source_metamodel
        && rule.target_metamodel != rule.source
        && rule.target_metamodel != rule.source_metamodel
        && rule.source != rule.source_metamodel
}

fn names_fit(rule: &OneRule) -> bool
    ensures { result ≡ names_fit_in rule.now }
{
    are_header_names(rule)
        && are_rule_names(rule)
        && models_differ(rule)
        && !is_reserved(&rule.source_metamodel)
        && !is_reserved(&rule.target_metamodel)
        && rule.made != rule.matched
}

// The module that the tokens are.
fn read_rule(alloc: Global, tokens: &[Token]) -> Result<Option<OneRule>, AllocError>
    ensures { IfOk result (λ read. MatchOption read ((m : SomeOneRule) → map (λ t. t.text) tokens.now ≡ spelled m → HasNames m → ⊥) (λ m. (map (λ t. t.text) tokens.now ≡ spelled m) × HasNames m)) }
{
    if tokens.len() != 35 {
        return Ok(None);
    }
    let rule = copy_names(alloc, tokens)?;
    if !is_spelled(tokens, &rule) {
        return Ok(None);
    }
    if !names_fit(&rule) {
        return Ok(None);
    }
    Ok(Some(rule))
}

/// The module that the text is, where it is of the form. A text has at most 4,294,967,294 bytes.
pub fn read_one_rule(alloc: Global, text: &Text) -> Result<Option<OneRule>, AllocError>
    requires { length text.now ≤ 4294967294 }
    ensures { IfOk result (λ read. MatchOption read ((m : SomeOneRule) → IsOneRule text.now m → ⊥) (λ m. IsOneRule text.now m)) }
{
    let Some(tokens) = read_tokens(alloc, text)? else {
        return Ok(None);
    };
    read_rule(alloc, tokens.list.as_slice())
}

/// The module that the bytes are, where they are a text of the form: at most 4,294,967,294 of them.
pub fn read_module(alloc: Global, bytes: &[u8]) -> Result<Option<OneRule>, AllocError>
    requires { length bytes.now ≤ 4294967294 }
    ensures { IfOk result (λ read. MatchOption read ((m : SomeOneRule) → IsModule bytes.now m → ⊥) (λ m. IsModule bytes.now m)) }
{
    match Text::from_bytes(alloc, bytes) {
        Ok(text) => read_one_rule(alloc, &text),
        Err(TextRefusal::BadByte(_)) => Ok(None),
        Err(TextRefusal::Memory) => Err(AllocError),
    }
}

#[cfg(test)]
mod tests;
