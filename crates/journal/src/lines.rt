//! Splitting of a text into lines, each with its line feed.

ghost use Rattle.std.specs.Prelude.{◌≡◌, ◌-◌, ◌<◌, ◌≤◌, IfNone, IfSome, drop, length, slice_index};
ghost use Rattle.ocpp_scalars.specs.Ascii.{line_feed};
ghost use Rattle.journal.specs.Line.{HasNoLineFeed};
ghost use Rattle.journal.specs.Lines.{SplitsAtFeed, SplitsAtLastFeed};

/// Returns the first line of a text, without its line feed, and the text after that. Returns `None`
/// if there is no line feed: then the text is a torn line, or empty.
pub fn split_line(text: &[u8]) -> Option<(&[u8], &[u8])>
    ensures split { IfSome result (λ parts. SplitsAtFeed text.now parts.0.now parts.1.now) }
    ensures torn { IfNone result (HasNoLineFeed text.now) }
{
    let end = text.iter().position(|byte| *byte == b'\n')?;
    let (line, rest) = text.split_at(end);
    Some((line, rest.split_at(1).1))
}

/// Returns the whole lines of a text, and the text after its last line feed: a torn line, or
/// nothing.
pub fn whole_lines(text: &[u8]) -> (&[u8], &[u8])
    ensures { SplitsAtLastFeed text.now result.0.now result.1.now }
{
    text.split_at(whole_length(text))
}

/// Returns the length of a journal's whole lines: up to its last line feed, with that.
fn whole_length(text: &[u8]) -> usize
    ensures within { result ≤ length text.now }
    ensures feed { 0 < result → slice_index text.now (result - 1) ≡ line_feed }
    ensures torn { HasNoLineFeed (drop result text.now) }
{
    // From the end, so that only a torn line is searched.
    let mut end = text.len();
    while end > 0 && text[end - 1] != b'\n' {
        end -= 1;
    }
    end
}
