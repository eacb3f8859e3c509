//! Names of users.

ghost use Rattle.std.specs.Prelude.{◌≡◌};
ghost use Rattle.std.specs.List.{list_all};
ghost use Rattle.std.specs.Option.{option_copied};
ghost use Rattle.site_keys.specs.Bytes.{text_in};
ghost use Rattle.site_keys.specs.KeyFile.{is_name, is_name_byte};

/// Returns the bytes of a user's name, in a key file or an Authorization header, as a text, if they
/// are UTF-8.
pub(crate) fn text_in(bytes: &[u8]) -> Option<&str>
    ensures { option_copied result ≡ text_in bytes.entry.now }
{
    match std::str::from_utf8(bytes) {
        Ok(text) => Some(text),
        Err(_) => None,
    }
}

/// Returns whether a text can be the name of a user in the key file.
#[tactic(auto, unfolding(crate::specs::KeyFile::is_name))]
pub(crate) fn is_name(name: &str) -> bool
    ensures { result ≡ is_name name.now }
{
    !name.is_empty() && has_name_bytes(name.as_bytes())
}

/// Returns whether the name of a user in the key file can have each of these bytes.
fn has_name_bytes(name: &[u8]) -> bool
    ensures { result ≡ list_all is_name_byte name.now }
{
    name.iter().all(|b| is_name_byte(*b))
}

/// Returns whether the name of a user in the key file can have this byte.
fn is_name_byte(byte: u8) -> bool
    ensures { result ≡ is_name_byte byte }
{
    // A space would end the name in its line, a colon in a header (RFC 7617, 2).
    byte > b' ' && byte != b':' && byte != 0x7f
}
