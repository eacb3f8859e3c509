//! New keys: the digits for the station or the operator, and the line of the file.

ghost use Rattle.std.specs.Prelude.{◌≡◌, ◌↔◌, false, Err, IfOk};
ghost use Rattle.std.specs.String.{string_bytes};
ghost use Rattle.hex.specs.Hex.{encode_lower};
ghost use Rattle.site_keys.specs.declared.new_key.NewKeyFault.TheVariants.{Name};
ghost use Rattle.site_keys.specs.KeyFile.{is_name};
ghost use Rattle.site_keys.specs.NewKey.{key_line, new_key};

use crate::digest::salted_digest;
use crate::name::is_name;
use crate::role::Role;
use std::alloc::{AllocError, Global};
use thiserror::Error;

/// The texts of a new key.
#[derive(Drop)]
pub struct KeyText {
    /// The line of the file, without its line feed.
    pub line: String,
    /// The 40 hex digits of the key, for the station or the operator. They are a secret.
    pub digits: String,
}

/// The reason why a key can't be written.
#[derive(Clone, Copy, Debug, PartialEq, Eq, Error)]
pub enum NewKeyFault {
    /// The name is empty, or has a blank, a colon or a control character.
    #[error("the name is empty, or has a blank, a colon or a control character")]
    Name,
    /// Memory ran out.
    #[error("OutOfMemory")]
    OutOfMemory,
}

impl From<AllocError> for NewKeyFault {
    ghost use Rattle.site_keys.specs.declared.new_key.NewKeyFault.TheVariants.{OutOfMemory};

    ghost from_gives = { λ _ fault. fault ≡ OutOfMemory };

    fn from(_error: AllocError) -> NewKeyFault {
        NewKeyFault::OutOfMemory
    }
}

/// Writes a key of a user. The caller draws a new random salt and key for each line. The law
/// `written_keys_open` says which headers the line admits.
pub fn write_key(
    alloc: Global,
    role: Role,
    name: &str,
    salt: &[u8; 16],
    key: &[u8; 20],
) -> Result<KeyText, NewKeyFault>
    ensures line { IfOk result (λ text. string_bytes text.line
        ≡ key_line (new_key role name.now salt.now key.now)) }
    ensures digits { IfOk result (λ text. string_bytes text.digits ≡ encode_lower key.now) }
    ensures name { (result ≡ Err Name) ↔ (is_name name.now ≡ false) }
{
    if !is_name(name) {
        return Err(NewKeyFault::Name);
    }
    let digits = hex::encode(alloc, key.as_slice())?;
    let salt_digits = hex::encode(alloc, salt.as_slice())?;
    let digest_digits = hex::encode(alloc, salted_digest(salt, key.as_slice()).as_slice())?;
    let word = role.word();
    let line = format!(in alloc; "{word} {name} {salt_digits} {digest_digits}")?;
    Ok(KeyText { line, digits })
}
