//! Why a text is not a configuration.
use crate::seen::Seen;
use crate::spots::Spot;
use vtl_config::{Place, Rule};

/// An entry of a configuration, or its top level, outside all entries.
#[derive(Debug, Drop)]
pub struct Entry {
    /// The place of the entry in the configuration; `Top` for the top level.
    pub place: Place,
    /// The text that the entry has at the key `barcode`; None if it has no text there.
    pub barcode: Option<String>,
}

/// What is found where a rule of the configuration is broken.
#[derive(Debug, Drop)]
pub enum Found {
    /// The text is not UTF-8: its first invalid bytes begin at this place.
    NoText(Spot),
    /// The text is not TOML: `spot` is where the parser refused it, and `message` is the parser's message.
    NoDocument { spot: Spot, message: String },
    /// The key with this name is present, but it is not allowed at this place.
    OtherKey(String),
    /// The key that the rule names is missing.
    Nothing,
    /// This value breaks the rule.
    Value(Seen),
}

/// Why a text is not a configuration: the rule that is broken, the entry in which it is broken, and what breaks it.
#[derive(Debug, Drop)]
pub struct ConfigReason {
    /// The rule that is broken.
    pub rule: Rule,
    /// The entry in which it is broken.
    pub entry: Entry,
    /// What breaks it.
    pub found: Found,
    /// For the rule `Double`, an earlier entry that has the same value. None for any other rule, or if memory ran out
    /// in the search for that entry.
    pub other: Option<Entry>,
}
