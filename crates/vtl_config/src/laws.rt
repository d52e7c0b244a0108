//! A law of the rules of a configuration, which no code calls.
ghost use Rattle.vtl_config.specs.Laws.{NothingIsBroken};

/// A TOML table that is a configuration breaks no rule at any place. So a table that is accepted could not have been
/// refused.
pub fn a_configuration_breaks_no_rule()
    ensures { NothingIsBroken }
{}
