//! The role of a key's user.

ghost use Rattle.std.specs.Prelude.{◌≡◌};
ghost use Rattle.site_keys.specs.KeyFile.{role_word};

/// The role of a key's user.
#[derive(Clone, Copy, PartialEq, Eq)]
pub enum Role {
    /// A charge point, which may connect only as itself.
    Point,
    /// An operator.
    Operator,
}

impl Role {
    /// Returns the first word of the key file's lines for users of this role.
    pub(crate) fn word(self) -> &'static str
        ensures { result.now ≡ role_word self }
    {
        match self {
            Role::Point => "point",
            Role::Operator => "operator",
        }
    }
}
