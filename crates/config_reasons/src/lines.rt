//! The lines that explain a refused configuration.
ghost use Rattle.std.specs.Prelude.{◌≡◌, ◌++◌, OnOk};
ghost use Rattle.config_reasons.specs.Texts.{config_lines};

use crate::reasons::ConfigReason;
use crate::texts::{AllowedText, RefusedText, WhereText, rule_fix};
use explanations::Explanation;
use std::alloc::{AllocError, Global};

impl ConfigReason {
    /// Adds four lines to `lines`: what is refused, where, what is allowed, and what to do. `file` is the name of the
    /// configuration's file. Returns an error if memory runs out; then only the first few of these lines, or none, may
    /// have been added.
    pub fn add_to(
        &self,
        alloc: Global,
        file: &str,
        lines: &mut Explanation,
    ) -> Result<(), AllocError>
        ensures { OnOk result (lines.new ≡ lines.old ++ config_lines file.now self.now) }
    {
        let refused = RefusedText(self);
        let place = WhereText { file, reason: self };
        let allowed = AllowedText(self);
        let refused = format!(in alloc; "{refused}")?;
        let place = format!(in alloc; "{place}")?;
        let allowed = format!(in alloc; "{allowed}")?;
        lines.add(alloc, refused.as_str())?;
        lines.add(alloc, place.as_str())?;
        lines.add(alloc, allowed.as_str())?;
        lines.add(alloc, rule_fix(self.rule))
    }
}
