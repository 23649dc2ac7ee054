// Text, which contracts see as its bytes.
ghost use Rattle.std.specs.Prelude.{◌≡◌, ◌++◌, ◌≤◌, [], IfOk, OnErr, OnOk, MatchResult, slice_range, IsTrue, encode_utf8};
ghost use Rattle.std.specs.Str.{IsCharBoundary};
ghost use Rattle.atl_base.specs.XmlText.{IsXmlText, IsFirstOffence, is_xml_character, is_ascii_text};
ghost use Rattle.std.specs.List.{list_all};
ghost use Rattle.atl_base.specs.Refusal.{Refuses};

use crate::xml_text::{first_outside, utf8_front};
use std::alloc::{AllocError, Global};
use std::marker::Model;

/// Why bytes are no text.
#[derive(Clone, Copy, Debug, PartialEq, Eq)]
pub enum TextRefusal {
    /// The position, from 0, of the first byte of a broken UTF-8 sequence or of a character outside XML text.
    BadByte(usize),
    /// Memory was refused.
    Memory,
}

impl From<AllocError> for TextRefusal {
    ghost use Rattle.std.specs.Prelude.{◌≡◌};
    ghost use Rattle.atl_base.specs.declared.text.TextRefusal.TheVariants.{Memory};

    ghost from_gives = { λ _ e. e ≡ Memory };

    fn from(_e: AllocError) -> TextRefusal {
        TextRefusal::Memory
    }
}

/// A text: UTF-8, of characters that XML 1.0 allows (section 2.2). Contracts see it as its bytes.
#[derive(Debug, Drop)]
pub struct Text {
    inner: String,
}

impl Model for Text {
    ghost use Rattle.std.specs.Prelude.{ℕ, List};
    ghost use Rattle.atl_base.specs.XmlText.{IsXmlText};

    ghost Value = { List ℕ };

    ghost view = { λ t. t.inner.bytes.items };

    ghost invariant = { λ t. IsXmlText t.inner.bytes.items };
}

impl Text {
    /// An empty text, which takes no memory.
    pub fn new(alloc: Global) -> Text
        ensures { result ≡ [] }
    {
        Text {
            inner: String::new(alloc),
        }
    }

    /// The text of these bytes.
    pub fn from_bytes(alloc: Global, bytes: &[u8]) -> Result<Text, TextRefusal>
        ensures ok { IfOk result (λ t. (t ≡ bytes.now) × IsXmlText bytes.now) }
        ensures refused { Refuses result (IsFirstOffence bytes.now) }
    {
        let front = utf8_front(bytes);
        if let Some(at) = first_outside(front) {
            return Err(TextRefusal::BadByte(at));
        }
        if front.len() < bytes.len() {
            return Err(TextRefusal::BadByte(front.len()));
        }
        Ok(Text {
            inner: String::from_str(alloc, front)?,
        })
    }

    /// The text of a literal.
    pub fn from_ascii(alloc: Global, literal: &str) -> Result<Text, AllocError>
        requires { IsTrue (list_all is_ascii_text literal.now) }
        ensures { IfOk result (λ t. t ≡ literal.now) }
    {
        let mut text = Text::new(alloc);
        text.push_ascii(literal)?;
        Ok(text)
    }

    pub fn as_str(&self) -> &str
        ensures text { result.now ≡ self.now }
        ensures xml { IsXmlText self.now }
    {
        self.inner.as_str()
    }

    /// The bytes in UTF-8.
    pub fn bytes(&self) -> &[u8]
        ensures bytes { result.now ≡ self.now }
        ensures xml { IsXmlText self.now }
    {
        self.inner.as_bytes()
    }

    /// The same text again.
    pub fn copy(&self, alloc: Global) -> Result<Text, AllocError>
        ensures { IfOk result (λ t. t ≡ self.now) }
    {
        Ok(Text {
            inner: String::from_str(alloc, self.inner.as_str())?,
        })
    }

    /// The part from the byte `begin` to before the byte `end`, where characters begin.
    pub fn slice(&self, alloc: Global, begin: usize, end: usize) -> Result<Text, AllocError>
        requires order { begin ≤ end }
        requires begins { IsCharBoundary self.now begin }
        requires ends { IsCharBoundary self.now end }
        ensures { IfOk result (λ t. t ≡ slice_range self.now begin end) }
    {
        Ok(Text {
            inner: String::from_str(alloc, &self.inner.as_str()[begin..end])?,
        })
    }

    /// Adds a text at the end. After an `Err` the text is as before.
    pub fn push_text(&mut self, more: &Text) -> Result<(), AllocError>
        ensures ok { OnOk result (self.new ≡ self.old ++ more.now) }
        ensures err { OnErr result (self.new ≡ self.old) }
    {
        let more = more.as_str();
        self.inner.push_str(more)
    }

    /// Adds a literal at the end. After an `Err` the text is as before.
    pub fn push_ascii(&mut self, more: &str) -> Result<(), AllocError>
        requires { IsTrue (list_all is_ascii_text more.now) }
        ensures ok { OnOk result (self.new ≡ self.old ++ more.now) }
        ensures err { OnErr result (self.new ≡ self.old) }
    {
        self.inner.push_str(more)
    }

    /// Adds a character at the end. After an `Err` the text is as before.
    pub fn push_char(&mut self, c: char) -> Result<(), AllocError>
        requires { IsTrue (is_xml_character c) }
        ensures ok { OnOk result (self.new ≡ self.old ++ encode_utf8 c) }
        ensures err { OnErr result (self.new ≡ self.old) }
    {
        self.inner.push(c)
    }
}

impl PartialEq for Text {
    ghost use Rattle.std.specs.Cmp.{partial_equiv_from_equiv};
    ghost use Rattle.std.specs.Str.{bytes_eq};
    ghost use Rattle.std.specs.Cmp.Lexicographic.{nat_list_eq_equiv};

    ghost eq = { bytes_eq };

    ghost laws = { partial_equiv_from_equiv nat_list_eq_equiv };

    fn eq(&self, other: &Text) -> bool {
        self.as_str() == other.as_str()
    }
}

impl Eq for Text {
    ghost use Rattle.std.specs.Cmp.Lexicographic.{nat_list_eq_equiv};

    ghost laws = { nat_list_eq_equiv };
}

#[cfg(test)]
mod tests;
