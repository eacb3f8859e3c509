//! Lines of words, read one after another or looked up by their keys. No function returns an error:
//! a word that can't be read is noted, or is `None`. So reading many words takes no more proof than
//! reading one.

use ocpp_scalars::Instant;
use profile::Named;

/// 2025-01-01T00:00:00Z, a Wednesday.
pub const MIDNIGHT: u64 = 1_735_689_600;

/// Returns the instant a number of seconds after midnight of 2025-01-01, for test data in words.
pub(crate) fn instant_of(second: u64) -> Option<Instant> {
    Instant::try_new(MIDNIGHT.saturating_add(second))
}

/// The rest of a line.
#[derive(Clone, Copy)]
pub struct Words<'a> {
    rest: &'a str,
}

impl<'a> Words<'a> {
    pub fn of(line: &'a str) -> Words<'a> {
        Words { rest: line }
    }

    /// Returns the next word, or an empty one if none is left.
    pub fn word(&mut self) -> &'a str {
        let (word, rest) = self.rest.split_once(' ').unwrap_or((self.rest, ""));
        self.rest = rest;
        word
    }

    /// Returns all remaining words.
    pub fn rest(&self) -> &'a str {
        self.rest
    }

    pub fn long(&mut self) -> Option<u64> {
        self.word().parse::<u64>().ok()
    }

    pub fn number(&mut self) -> Option<u32> {
        self.word().parse::<u32>().ok()
    }

    pub fn whole(&mut self) -> Option<i32> {
        self.word().parse::<i32>().ok()
    }

    /// Reads the instant a number of seconds after midnight.
    pub fn instant(&mut self) -> Option<Instant> {
        instant_of(self.long()?)
    }
}

/// Words such as `id=1 level=3`, in any order.
#[derive(Clone, Copy)]
pub(crate) struct KeyedWords<'a> {
    words: &'a str,
    is_read: bool,
}

impl<'a> KeyedWords<'a> {
    /// Makes the reader of a test's words such as `id=1 level=3`, before any is looked up.
    pub(crate) fn of(words: &'a str) -> KeyedWords<'a> {
        KeyedWords {
            words,
            is_read: true,
        }
    }

    /// Returns whether each value looked up so far in a test's words such as `id=1 level=3` could
    /// be read or is absent.
    pub(crate) fn is_read(&self) -> bool {
        self.is_read
    }

    /// Returns the text after a key such as `level=`, in the first of a test's words that begins
    /// with the key.
    pub(crate) fn value(&self, key: &str) -> Option<&'a str> {
        for word in self.words.split(' ') {
            if let Some(value) = word.strip_prefix(key) {
                return Some(value);
            }
        }
        None
    }

    /// Notes whether a value in a test's words such as `id=1 level=3` could be read, and returns
    /// it.
    fn noted<T: Copy>(&mut self, read: Option<T>) -> Option<T> {
        // An unreadable value and an absent one are both `None`: this flag distinguishes them.
        self.is_read = self.is_read && read.is_some();
        read
    }

    /// Reads the unsigned number after a key such as `level=` in words of test data, if the key is
    /// there.
    pub(crate) fn number(&mut self, key: &str) -> Option<u32> {
        let read = self.value(key)?.parse::<u32>().ok();
        self.noted(read)
    }

    /// Reads the signed number after a key such as `id=` in words of test data, if the key is
    /// there.
    pub(crate) fn whole(&mut self, key: &str) -> Option<i32> {
        let read = self.value(key)?.parse::<i32>().ok();
        self.noted(read)
    }

    /// Reads the instant after a key such as `start=` in words of test data, in seconds after
    /// midnight, if the key is there.
    pub(crate) fn instant(&mut self, key: &str) -> Option<Instant> {
        let mut value = Words::of(self.value(key)?);
        self.noted(value.instant())
    }

    /// Reads the value after a key such as `purpose=` in words of test data by its name, if the key
    /// is there.
    pub(crate) fn name<T: Named + Copy>(&mut self, key: &str) -> Option<T> {
        let read = T::named(self.value(key)?);
        self.noted(read)
    }
}
