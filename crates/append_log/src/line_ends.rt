//! The length of whole lines.

ghost use Rattle.std.specs.Prelude.{◌≡◌, length};
ghost use Rattle.append_log.specs.Lines.{whole_lines};

/// Returns the number of bytes up to the last line feed, including it.
pub fn whole_length(bytes: &[u8]) -> usize
    ensures { result ≡ length (whole_lines bytes.now) }
{
    let mut end = bytes.len();
    while end > 0 && bytes[end - 1] != b'\n' {
        end -= 1;
    }
    end
}
