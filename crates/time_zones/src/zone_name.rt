//! The names of zones.

ghost use Rattle.std.specs.Prelude.{◌≡◌, IsTrue};
ghost use Rattle.std.specs.List.{list_all};
ghost use Rattle.time_zones.specs.ZoneName.{is_zone_byte};

/// The maximum length of a zone's name, in bytes.
const MAX_NAME_BYTES: usize = 64;

/// Returns whether a text may name a zone: parts of letters, digits, `_`, `-` and `+`, with a `/`
/// between two of them. So the named file is in the folder of the zones. The files below `right`
/// aren't accepted.
pub fn is_zone_name(name: &str) -> bool
    ensures bytes { IsTrue result → IsTrue (list_all is_zone_byte name.now) }
{
    has_zone_bytes(name.as_bytes()) && has_zone_parts(name)
}

/// Returns whether the name of a time zone for `explain` isn't too long, has no empty part, and
/// isn't below `right`.
fn has_zone_parts(name: &str) -> bool {
    name.len() <= MAX_NAME_BYTES
        // Those files count leap seconds, which this calendar doesn't have.
        && !name.starts_with("right/")
        && name.split('/').all(|part| !part.is_empty())
}

/// Returns whether each byte of the name of a time zone for `explain` is one that such a name may
/// have.
fn has_zone_bytes(name: &[u8]) -> bool
    ensures { result ≡ list_all is_zone_byte name.now }
{
    name.iter().all(|byte| is_zone_byte(*byte))
}

/// Returns whether the name of a time zone for `explain` may have this byte: a letter, a digit,
/// `_`, `-`, `+` or `/`.
fn is_zone_byte(byte: u8) -> bool
    ensures { result ≡ is_zone_byte byte }
{
    matches!(byte, b'A'..=b'Z' | b'a'..=b'z' | b'0'..=b'9' | b'_' | b'-' | b'+' | b'/')
}
