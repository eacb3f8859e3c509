//! One sentence for each fault of a site file. A test compares RUNNING's table with them.

use site_rules::SiteFault;

/// Returns the reason why a site file isn't accepted, in one sentence.
pub fn site_sentence(fault: SiteFault) -> &'static str {
    match fault {
        SiteFault::TooLarge => "the file has more than 16777216 bytes",
        SiteFault::NotUtf8 => "the file isn't UTF-8",
        SiteFault::NotJson => "the file isn't JSON",
        SiteFault::NotAnObject => "the file is JSON, and no object",
        SiteFault::BadUnit => "`unit` isn't \"A\" or \"W\"",
        SiteFault::BadPoints => "`points` isn't a list of 1 to 1000 objects",
        SiteFault::BadId =>
            "a point's `id` isn't 1 to 48 of the characters A-Z, a-z, 0-9, `.`, `_`, `-` and `~`",
        SiteFault::SameId => "an earlier point has the same `id`",
        SiteFault::BadCeiling =>
            "a point's `ceiling` isn't a number from 0 to 100000000.0 with at most one decimal",
        SiteFault::BadConnectors =>
            "a point's `connectors` isn't a list of 1 to 64 numbers from 0 to 100000000.0 with at most one decimal each",
        SiteFault::OutOfMemory => "memory ran out",
    }
}
