//! Laws of the limits and of the layout of a file, which no code calls.
ghost use Rattle.vtl_base.specs.Layout.{LayoutInNumbers};
ghost use Rattle.vtl_base.specs.Limits.{LimitsInNumbers};

/// Each limit of the library equals the number that `LimitsInNumbers` states for it.
pub fn limits_in_numbers()
    ensures { LimitsInNumbers }
{}

/// Each number and mark of the layout of a file equals what `LayoutInNumbers` states for it.
pub fn layout_in_numbers()
    ensures { LayoutInNumbers }
{}
