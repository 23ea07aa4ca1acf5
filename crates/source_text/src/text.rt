//! A text that is a view of shared bytes.
ghost use Rattle.std.specs.Prelude.{◌≡◌, length, drop, IfOk, Some, MatchResult, IsUtf8, string_bytes};
ghost use Rattle.std.specs.Str.{IsCharBoundary};
ghost use Rattle.source_text.specs.module_text.ModuleText.{without_mark as unmarked};

use crate::module_text::has_mark;
use base::SharedBytes;
use std::alloc::{AllocError, Global};
use std::marker::Model;
use std::str::Utf8Error;
use std::{fmt, str};

/// The text of a source: bytes that it shares with its copies, and with whoever gave them. Contracts see it as the
/// bytes of its characters.
#[derive(Drop)]
pub struct SourceText {
    bytes: SharedBytes,
    // The text is the bytes from this offset on.
    start: usize,
}

impl Model for SourceText {
    ghost use Rattle.std.specs.Prelude.{ℕ, ◌≤◌, List, length, drop, IsUtf8};

    ghost Value = { List ℕ };

    ghost view = { λ t. drop t.start t.bytes };

    ghost invariant = { λ t. (t.start ≤ length t.bytes) × IsUtf8 (drop t.start t.bytes) };
}

impl SourceText {
    /// The text that the bytes are, which are shared, or why they are none.
    pub fn from_utf8(bytes: SharedBytes) -> Result<SourceText, Utf8Error>
        ensures { MatchResult result (λ t. (t ≡ bytes) × IsUtf8 bytes) (λ _. ¬ IsUtf8 bytes) }
    {
        match str::from_utf8(bytes.as_slice()) {
            Ok(_) => Ok(SourceText { bytes, start: 0 }),
            Err(error) => Err(error),
        }
    }

    pub fn from_str(alloc: Global, text: &str) -> Result<SourceText, AllocError>
        ensures { IfOk result (λ t. t ≡ text.now) }
    {
        Ok(SourceText {
            bytes: SharedBytes::from_slice(alloc, text.as_bytes())?,
            start: 0,
        })
    }

    /// Shares a text without a copy of its bytes.
    pub fn from_string(text: String) -> Result<SourceText, AllocError>
        ensures { IfOk result (λ t. t ≡ string_bytes text) }
    {
        Ok(SourceText {
            bytes: SharedBytes::from_vec(text.into_bytes())?,
            start: 0,
        })
    }

    /// The text less one byte order mark at its front: a view of the same bytes.
    #[tactic(auto, unfolding(crate::specs::module_text::ModuleText::without_mark))]
    pub fn without_mark(self) -> SourceText
        ensures { result ≡ unmarked self }
    {
        if has_mark(self.as_str()) {
            self.behind(3)
        } else {
            self
        }
    }

    // The text after `count` bytes.
    fn behind(self, count: usize) -> SourceText
        requires { IsCharBoundary self count }
        ensures { result ≡ drop count self }
    {
        let rest = self.len() - count;
        let bytes = self.bytes;
        SourceText {
            start: bytes.len() - rest,
            bytes,
        }
    }

    pub fn as_str(&self) -> &str
        ensures { result.now ≡ self.now }
    {
        unsafe { str::from_utf8_unchecked(&self.bytes.as_slice()[self.start..]) }
    }

    pub fn len(&self) -> usize
        ensures { result ≡ length self.now }
    {
        self.bytes.len() - self.start
    }

    /// One more reference to the same text.
    pub fn copy(&self) -> Result<SourceText, AllocError>
        ensures { IfOk result (λ t. t ≡ self.now) }
    {
        Ok(SourceText {
            bytes: self.bytes.copy()?,
            start: self.start,
        })
    }
}

impl fmt::Display for SourceText {
    ghost output = { λ t. Some t };

    fn fmt<W: fmt::Write>(&self, f: &mut fmt::Formatter<W>) -> fmt::Result {
        fmt::Display::fmt(&self.as_str(), f)
    }
}

impl fmt::Debug for SourceText {
    fn fmt<W: fmt::Write>(&self, f: &mut fmt::Formatter<W>) -> fmt::Result {
        fmt::Debug::fmt(&self.as_str(), f)
    }
}
