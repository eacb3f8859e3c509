//! A caller of `ocpp_scalars`.

use ocpp_scalars::{read_instant, read_tenths, write_instant, write_tenths};
use std::test::Fail;

/// Checks that an instant and a limit in OCPP's texts are read, and written as this system does.
#[test]
fn scalars_are_read_and_written(rt: HostRuntime) -> Result<(), Fail> {
    let alloc = rt.alloc();
    let instant = read_instant("2025-01-01T01:00:00.5+01:00")
        .ok()
        .ok_or("no instant")?;
    assert_eq!(rt;
        write_instant(alloc, instant)?.as_str(),
        "2025-01-01T00:00:00Z"
    );
    let tenths = read_tenths("1.6E1").ok().ok_or("no tenths")?;
    assert_eq!(rt; write_tenths(alloc, tenths)?.as_str(), "16.0");
    assert!(rt; read_tenths("8.15").is_err());
    Ok(())
}
