//! The name of an action.
ghost use Rattle.std.specs.Prelude.{◌≡◌};

use std::marker::Model;

/// The name of a CALL's action, its escapes resolved (OCPP-J 1.6, section 4.2.1).
#[derive(Drop)]
pub struct ActionName<'a> {
    text: &'a str,
}

impl<'a> Model for ActionName<'a> {
    ghost use Rattle.std.specs.Prelude.{List, ℕ};

    ghost Value = { List ℕ };

    ghost view = { λ name. name.text.now };
}

impl<'a> ActionName<'a> {
    /// Creates the name with this text.
    pub fn new(text: &'a str) -> ActionName<'a>
        ensures { result ≡ text.now }
    {
        Self { text }
    }

    /// Returns the name's text.
    pub fn as_str(&self) -> &'a str
        ensures { result.now ≡ self.now }
    {
        self.text
    }
}
