//! A text for people.

ghost use Rattle.std.specs.Prelude.{◌≡◌, [], None, Some, IfErr, IfOk, IfSome, string_bytes};
ghost use Rattle.std.specs.Char.{encode_utf8};
ghost use Rattle.page_text.specs.Page.{TakesPiece};

use ocpp_scalars::{Instant, push_instant};
use std::alloc::{AllocError, Global};
use std::fmt;
use std::fmt::Write;
use std::marker::Model;

/// A text that is being written. After a failed allocation it takes nothing more, and `finish`
/// returns the error.
// A `?` behind each piece would say the same, but a page has hundreds, and each costs the prover
// what it costs a reader: a way out, with all that has to be dropped there.
#[derive(Drop)]
pub struct Page {
    text: String,
    /// Whether an allocation failed.
    is_short: bool,
}

impl Model for Page {
    ghost use Rattle.std.specs.Prelude.{ℕ, List, Option, string_bytes};
    ghost use Rattle.page_text.specs.Page.{page_of};

    ghost Value = { Option (List ℕ) };

    ghost view = { λ page. page_of page.is_short (string_bytes page.text) };
}

impl Page {
    /// An empty page.
    pub fn new(alloc: Global) -> Page
        ensures { result ≡ Some [] }
    {
        Page {
            text: String::new(alloc),
            is_short: false,
        }
    }

    /// The allocator of the text.
    pub fn allocator(&self) -> Global {
        *self.text.allocator()
    }

    /// Appends a piece.
    pub fn push_str(&mut self, piece: &str)
        ensures { TakesPiece self.old piece.now self.new }
    {
        if !self.is_short {
            self.is_short = self.text.push_str(piece).is_err();
        }
    }

    /// Appends a character.
    pub fn push(&mut self, piece: char)
        ensures { TakesPiece self.old (encode_utf8 piece) self.new }
    {
        if !self.is_short {
            self.is_short = self.text.push(piece).is_err();
        }
    }

    /// Appends a formatted piece. It is what `write!` calls, so `write!(page, "{name}")` has no
    /// result to check.
    pub fn write_fmt<D: fmt::Display + Drop>(&mut self, piece: D)
        ensures { IfSome (D.output piece) (λ bytes. TakesPiece self.old bytes self.new) }
    {
        if !self.is_short {
            self.is_short = self.text.write_fmt(piece).is_err();
        }
    }

    /// Appends a text that was made elsewhere. A failed allocation there counts as one of the page.
    pub fn push_made(&mut self, made: Result<String, AllocError>)
        ensures text { IfOk made (λ piece. TakesPiece self.old (string_bytes piece) self.new) }
        ensures short { IfErr made (λ error. self.new ≡ None) }
    {
        match made {
            Ok(piece) => self.push_str(piece.as_str()),
            Err(AllocError) => self.fail(),
        }
    }

    /// Appends an instant (RFC 3339).
    pub fn push_instant(&mut self, instant: Instant) {
        if !self.is_short {
            self.is_short = push_instant(&mut self.text, instant).is_err();
        }
    }

    /// An allocation for the page failed elsewhere.
    pub fn fail(&mut self)
        ensures { self.new ≡ None }
    {
        self.is_short = true;
    }

    /// Returns the whole text, unless an allocation failed.
    pub fn finish(self) -> Result<String, AllocError>
        ensures whole { IfOk result (λ text. self ≡ Some (string_bytes text)) }
        ensures short { IfErr result (λ error. self ≡ None) }
    {
        let Page { text, is_short } = self;
        if is_short { Err(AllocError) } else { Ok(text) }
    }
}
