//! The job of `central key`.

use command_io::ProgramFault;
use jobs::KeyMaking;
use site_keys::{KeyText, Role, write_key};
use std::alloc::AllocGlobal;
use std::random::RandomSource;

/// Makes a key of random bytes. Prints its line for the key file to standard output. Prints the
/// name and the key itself to standard error, in the form of a `--login` file.
pub fn make_key<R: RandomSource + AllocGlobal + Print + Eprint>(
    rt: &R,
    making: KeyMaking<'_>,
) -> Result<(), ProgramFault> {
    let (mut salt, mut key) = ([0u8; 16], [0u8; 20]);
    if rt.fill_bytes(&mut salt).is_err() || rt.fill_bytes(&mut key).is_err() {
        return Err(ProgramFault::Random);
    }
    let role = if making.is_operator {
        Role::Operator
    } else {
        Role::Point
    };
    let KeyText { digits, line } = write_key(rt.alloc(), role, making.name, &salt, &key)?;
    // The key is shown only here: the file of keys has its salt and digest.
    let _ = eprintln!(rt; "{}:{digits}", making.name);
    match println!(rt; "{line}") {
        Ok(()) => Ok(()),
        Err(_) => Err(ProgramFault::Write),
    }
}
