//! A text of JSON (RFC 8259).

use json::{Reader, Scratch, Token, Writer, is_number};
use ocpp_scalars::{Instant, push_instant, push_tenths};
use std::alloc::{AllocError, Global};

/// A text of JSON that is being written. The library's writer sets the commas. After a failed
/// allocation `finish` returns the error.
#[derive(Drop)]
pub struct JsonPage {
    alloc: Global,
    out: Writer,
    /// Whether an allocation failed.
    is_short: bool,
}

impl JsonPage {
    /// An empty text.
    pub fn new(alloc: Global) -> JsonPage {
        JsonPage {
            alloc,
            out: Writer::new(Vec::new(alloc)),
            is_short: false,
        }
    }

    /// The allocator of the text.
    pub fn allocator(&self) -> Global {
        self.alloc
    }

    /// Begins an object that is an element of an array, or the whole text.
    pub fn begin_object(&mut self) {
        let written = self.out.begin_object();
        self.keep(written);
    }

    /// Begins an object that is the value of a field.
    pub fn object(&mut self, key: &str) {
        self.key(key);
        self.begin_object();
    }

    /// Ends an object.
    pub fn end_object(&mut self) {
        let written = self.out.end_object();
        self.keep(written);
    }

    /// Begins an array that is the value of a field.
    pub fn array(&mut self, key: &str) {
        self.key(key);
        let written = self.out.begin_array();
        self.keep(written);
    }

    /// Ends an array.
    pub fn end_array(&mut self) {
        let written = self.out.end_array();
        self.keep(written);
    }

    /// Appends a field with a string.
    pub fn text(&mut self, key: &str, text: &str) {
        self.key(key);
        self.string(text);
    }

    /// Appends a field with a whole number.
    pub fn number(&mut self, key: &str, number: u64) {
        self.key(key);
        let written = self.out.u64(number);
        self.keep(written);
    }

    /// Appends a field with a whole number that may be negative.
    pub fn integer(&mut self, key: &str, number: i32) {
        self.key(key);
        let written = self.out.i64(i64::from(number));
        self.keep(written);
    }

    /// Appends a field with tenths as a number of one decimal.
    pub fn tenths(&mut self, key: &str, tenths: u32) {
        self.key(key);
        let mut text = String::new(self.alloc);
        let pushed = push_tenths(&mut text, tenths);
        self.keep(pushed);
        // It always is a number. The writer demands the test, since no clause connects its numbers
        // with those of `push_tenths`.
        let written = if is_number(text.as_str()) {
            self.out.number(text.as_str())
        } else {
            self.out.string(text.as_str())
        };
        self.keep(written);
    }

    /// Appends a field with a truth value.
    pub fn flag(&mut self, key: &str, flag: bool) {
        self.key(key);
        let written = self.out.boolean(flag);
        self.keep(written);
    }

    /// Appends a field with null.
    pub fn null(&mut self, key: &str) {
        self.key(key);
        let written = self.out.null();
        self.keep(written);
    }

    /// Appends a field with an instant as a string (RFC 3339), or null if there is none.
    pub fn instant(&mut self, key: &str, instant: Option<Instant>) {
        let Some(instant) = instant else {
            return self.null(key);
        };
        self.key(key);
        let mut text = String::new(self.alloc);
        let pushed = push_instant(&mut text, instant);
        self.keep(pushed);
        self.string(text.as_str());
    }

    /// Appends a field whose value was made elsewhere, as a text of JSON.
    pub fn made(&mut self, key: &str, made: Result<String, AllocError>) {
        self.key(key);
        self.made_fields(made);
    }

    /// Appends fields that were made elsewhere, as `fields` does.
    pub fn made_fields(&mut self, made: Result<String, AllocError>) {
        match made {
            Ok(text) => self.fields(text.as_str()),
            Err(AllocError) => self.fail(),
        }
    }

    /// Appends the fields of a text of JSON, with commas between them and without braces.
    pub fn fields(&mut self, text: &str) {
        let copied = self.copy_tokens(text);
        self.keep(copied);
    }

    /// An allocation for the text failed elsewhere.
    pub fn fail(&mut self) {
        self.is_short = true;
    }

    /// Returns the whole text, unless an allocation failed.
    pub fn finish(self) -> Result<String, AllocError> {
        if self.is_short {
            return Err(AllocError);
        }
        // The writer's bytes are UTF-8, so none is replaced.
        String::from_utf8_lossy(self.alloc, self.out.into_inner().as_slice())
    }

    /// Returns the whole text with a line feed, unless an allocation failed.
    pub fn finish_line(self) -> Result<String, AllocError> {
        let mut text = self.finish()?;
        text.push('\n')?;
        Ok(text)
    }

    /// Appends the key of a field to a JSON text that is written piece by piece, for `explain
    /// --json`, `show --json` and the status port's JSON.
    fn key(&mut self, key: &str) {
        let written = self.out.key(key);
        self.keep(written);
    }

    /// Appends a string value to a JSON text that is written piece by piece, for `explain --json`,
    /// `show --json` and the status port's JSON.
    fn string(&mut self, text: &str) {
        let written = self.out.string(text);
        self.keep(written);
    }

    /// Keeps whether a piece of a JSON text (of `explain --json`, `show --json` or the status port)
    /// was written. If not, `finish` reports a failed allocation.
    fn keep(&mut self, written: Result<(), AllocError>) {
        self.is_short = self.is_short || written.is_err();
    }

    /// Copies the values and fields of a JSON text token by token into the one being written piece
    /// by piece for `show --json`. The writer takes no raw text.
    fn copy_tokens(&mut self, text: &str) -> Result<(), AllocError> {
        let mut scratch = Scratch::new(self.alloc);
        let mut reader = Reader::new(text, &mut scratch)?;
        // Bounds the loop: each token has at least one byte.
        for _ in 0..text.len() {
            match reader.next() {
                None | Some(Token::Bad) => break,
                Some(token) => self.out.token(token)?,
            }
        }
        Ok(())
    }
}
