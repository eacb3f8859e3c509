//! The keys of a site, and the reading of their file.

ghost use Rattle.std.specs.Prelude.{ℕ, ◌≡◌, ◌↔◌, List, Ok, IfOk, IfErr};
ghost use Rattle.std.specs.Option.{option_copied};
ghost use Rattle.site_keys.specs.declared.admission.Admission.TheVariants.{Forbidden, Unauthorized};
ghost use Rattle.site_keys.specs.Admission.{IsAdmittedAs, IsForbidden, IsUnauthorized, IsAdmitted};
ghost use Rattle.site_keys.specs.Key.{KeyState};
ghost use Rattle.site_keys.specs.KeyFile.{AreKeysOf};
ghost use Rattle.site_keys.specs.KeysFault.{Gives, IsFaultOf};
ghost use Rattle.site_keys.specs.ByCases.KeyFile.{Adds, items_of, keys_in, numbered_line};

use crate::admission::{Admission, decide};
use crate::bytes::{cut, without_return};
use crate::key::Key;
use crate::key_line::{KeyLine, read_line};
use crate::keys_fault::KeysFault;
use crate::role::Role;
use std::alloc::{AllocError, Global};
use std::marker::Model;

/// The keys of a site, in the order of their file.
#[derive(Drop)]
pub struct Keys {
    keys: Vec<Key>,
}

impl Model for Keys {
    ghost use Rattle.std.specs.Prelude.{List};
    ghost use Rattle.site_keys.specs.Key.{KeyState};

    ghost Value = { List KeyState };

    ghost view = { λ k. k.keys.items };
}

impl Keys {
    /// Reads the keys of a file. The fault has the number of the first line that isn't a key, a
    /// comment or empty.
    pub fn read(alloc: Global, bytes: &[u8]) -> Result<Keys, KeysFault>
        ensures read { IfOk result (AreKeysOf bytes.now) }
        ensures only { (keys : List KeyState) → AreKeysOf bytes.now keys → Gives result (Ok keys) }
        ensures fault { IfErr result (IsFaultOf bytes.now) }
    {
        let keys = read_keys(alloc, bytes)?;
        Ok(Keys { keys })
    }

    /// Decides whether a client with this `Authorization` header is admitted: a point only if its
    /// user is the identity of the path, an operator whatever the identity.
    ///
    /// Compares each byte of a digest, and computes a digest for an unknown user as well. The time
    /// may still reveal something: this is neither proved nor claimed.
    pub fn admit(
        &self,
        alloc: Global,
        role: Role,
        identity: &str,
        authorization: Option<&[u8]>,
    ) -> Result<Admission, AllocError>
        ensures admitted { IfOk result (λ admission. (user : List ℕ) → IsAdmittedAs admission user
            ↔ IsAdmitted self.now role identity.now (option_copied authorization.entry) user) }
        ensures forbidden { IfOk result (λ admission. (admission ≡ Forbidden)
            ↔ IsForbidden self.now role identity.now (option_copied authorization.entry)) }
        ensures unauthorized { IfOk result (λ admission. (admission ≡ Unauthorized)
            ↔ IsUnauthorized self.now role (option_copied authorization.entry)) }
    {
        match authorization {
            Some(header) => decide(alloc, self.keys.as_slice(), role, identity, header),
            None => Ok(Admission::Unauthorized),
        }
    }
}

/// Reads the keys of a site from the bytes of its key file.
#[tactic(auto, unfolding(crate::specs::ByCases::KeyFile::keys_in))]
fn read_keys(alloc: Global, bytes: &[u8]) -> Result<Vec<Key>, KeysFault>
    ensures { Gives (items_of result) (keys_in bytes.now) }
{
    let mut keys = Vec::new(alloc);
    let mut number = 1;
    let mut rest = bytes;
    while let Some((line, others)) = cut(rest, b'\n') {
        add_line(alloc, &mut keys, number, line)?;
        number += 1;
        rest = others;
    }
    // The last line may lack its line feed.
    add_line(alloc, &mut keys, number, rest)?;
    Ok(keys)
}

/// Adds the key in a line of the key file to the site's keys, unless the line is empty or a
/// comment.
fn add_line(alloc: Global, keys: &mut Vec<Key>, number: usize, line: &[u8]) -> Result<(), KeysFault>
    ensures { Adds result keys.old.items keys.new.items (numbered_line number line.now) }
{
    match read_line(without_return(line)) {
        Ok(None) => Ok(()),
        Ok(Some(line)) => {
            let key = copied_key(alloc, &line)?;
            keys.push(key)?;
            Ok(())
        }
        Err(fault) => Err(KeysFault::Line { number, fault }),
    }
}

/// Copies the key in a line of the key file, so that it outlives the file's bytes.
fn copied_key(alloc: Global, line: &KeyLine<'_>) -> Result<Key, AllocError>
    ensures { IfOk result (λ key. key ≡ line.now) }
{
    Ok(Key {
        role: line.role,
        user: String::from_str(alloc, line.user)?,
        salt: line.salt,
        digest: line.digest,
    })
}
