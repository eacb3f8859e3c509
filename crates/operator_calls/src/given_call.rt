//! The call of a command-line option.

/// The call of an option.
#[derive(Drop)]
pub struct GivenCall {
    /// The option's name.
    pub name: &'static str,
    /// The JSON text given to the option, if it takes one.
    pub given: Option<String>,
    /// The call's frame.
    pub frame: String,
}

impl GivenCall {
    /// Makes the call of an option with a JSON text.
    pub fn with_json(name: &'static str, given: String, frame: String) -> GivenCall {
        GivenCall {
            name,
            given: Some(given),
            frame,
        }
    }

    /// Makes the call of an option without a JSON text.
    pub fn plain(name: &'static str, frame: String) -> GivenCall {
        GivenCall {
            name,
            given: None,
            frame,
        }
    }
}
