//! Splitting of a script into lines.

ghost use Rattle.std.specs.Prelude.{◌≡◌, ◌==◌, ◌<◌, ◌∷◌, ℕ, length};
ghost use Rattle.std.specs.List.{position};
ghost use Rattle.std.specs.Str.Lines.{strip_carriage_return};
ghost use Rattle.replay.specs.Lines.{script_lines};

/// Returns the first line of a text, without its ending, and the text after that ending.
pub fn split_line(text: &[u8]) -> (&[u8], &[u8])
    requires { 0 < length text.now }
    ensures lines { script_lines text.now ≡ result.0.now ∷ script_lines result.1.now }
    ensures shorter { length result.1.now < length text.now }
{
    let Some(end) = line_end(text) else {
        // Without a line feed a carriage return is part of the line, as in Rust's `str::lines`.
        return text.split_at(text.len());
    };
    let (line, rest) = text.split_at(end);
    (without_return(line), rest.split_at(1).1)
}

/// Returns the index of the first line feed in the rest of a script for `replay`.
fn line_end(text: &[u8]) -> Option<usize>
    ensures { result ≡ position (λ b. b == 10) text.now }
{
    text.iter().position(|byte| *byte == b'\n')
}

/// Returns a line of a script for `replay` without the carriage return at its end, if it has one.
fn without_return(line: &[u8]) -> &[u8]
    ensures { result.now ≡ strip_carriage_return line.now }
{
    if line.last() == Some(&b'\r') {
        line.split_at(line.len() - 1).0
    } else {
        line
    }
}
