//! A caller of `site_keys`.

ghost use Rattle.std.specs.Prelude.{IfOk, IsTrue, Some};
ghost use Rattle.site_keys.specs.declared.role.Role.TheVariants.{Point};
ghost use Rattle.site_keys.specs.Admission.{IsAdmitted};

use site_keys::{Admission, Keys, Role, write_key};
use std::alloc::{AllocError, Global};
use std::test::Fail;

/// In an example of `site_keys`: returns whether the keys admit a point as itself by this HTTP
/// Basic header.
fn may_come(alloc: Global, keys: &Keys, identity: &str, header: &[u8]) -> Result<bool, AllocError>
    ensures { IfOk result (λ may. IsTrue may
        → IsAdmitted keys.now Point identity.now (Some header.now) identity.now) }
{
    match keys.admit(alloc, Role::Point, identity, Some(header))? {
        Admission::Admitted(user) => Ok(user.as_str() == identity),
        Admission::Unauthorized | Admission::Forbidden => Ok(false),
    }
}

/// Shows in an example of `site_keys` that the threads of a server can share the keys.
fn share<T: Send + Sync>(shared: &T) -> &T {
    shared
}

/// Checks that a point connects with the key that the key file has for it, and can't connect as
/// another point.
#[test]
fn a_point_gets_a_key(rt: HostRuntime) -> Result<(), Fail> {
    let alloc = rt.alloc();
    let text = write_key(alloc, Role::Point, "CP1", &[7; 16], &[0; 20])?;
    let keys = Keys::read(alloc, text.line.as_bytes())?;
    let header = b"Basic Q1AxOjAwMDAwMDAwMDAwMDAwMDAwMDAwMDAwMDAwMDAwMDAwMDAwMDAwMDA=";
    assert!(rt; may_come(alloc, share(&keys), "CP1", header)?);
    assert!(rt; !may_come(alloc, &keys, "CP2", header)?);
    Ok(())
}
