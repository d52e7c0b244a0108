//! Laws of persistent reservations. Each is a function that does nothing, and its contract is the law.
ghost use Rattle.pr_core.specs.Laws.{EachOrderEnds, EmptyKeepsRules, NoOrderEndsTwice, OrdersKeepRules, PowerLossIsOnce, PowerLossKeepsRules, SavedAlikeAreLostAlike, SavesAreDueByChange};

/// Each order of each nexus in each state has exactly one answer, one set of conditions for each nexus, and one next
/// state.
pub fn each_order_has_one_end()
    ensures some { EachOrderEnds }
    ensures one { NoOrderEndsTwice }
{}

/// The empty state meets the rules that `Reservations::of` names. From a state that meets them, each order and each
/// loss of power leads to another that meets them.
pub fn rules_are_kept()
    ensures empty { EmptyKeepsRules }
    ensures orders { OrdersKeepRules }
    ensures power_loss { PowerLossKeepsRules }
{}

/// A second loss of power changes nothing more. The saved fields (registrations, reservation and APTPL) alone decide
/// what a loss of power leaves.
pub fn power_loss_is_once()
    ensures once { PowerLossIsOnce }
    ensures alike { SavedAlikeAreLostAlike }
{}

/// Between two states that meet the rules, a save is due exactly where registrations, reservation or APTPL differ.
pub fn saves_are_due_by_change()
    ensures { SavesAreDueByChange }
{}
