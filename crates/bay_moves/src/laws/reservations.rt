//! What a loss of power leaves of reservations.
ghost use Rattle.bay_moves.specs.Bays.{HoldersShowOrders};
ghost use Rattle.bay_moves.specs.Reservations.{HoldingGives, HoldingGoesOn, OrdersStand, ReservationsOutlive, SwitchedOnHolds};

use pr_core::laws::{power_loss_is_once, rules_are_kept, saves_are_due_by_change};
use tape_buffer::Buffered;
use tape_disk::Disk;
use volume_core::Medium;

/// A drive over a store of reservations, on an honest disk, answers any commands and takes any flusher's turns and
/// media. It is stopped at any moment, even inside the last call. Opening the store then finds what a loss of power
/// leaves of one of these states:
/// - the reservations before that call;
/// - the state that the call's order makes, if that state is held after the call or its save failed in the call;
/// - a state whose save failed earlier.
///
/// After a stop between two calls, opening the store finds what a loss of power leaves of the reservations that the
/// drive holds, or of a state whose save failed. All this holds from the moment the drive is switched on. After an
/// order with the reply GOOD, the drive holds a state that the order makes, and only an order changes the reservations.
pub fn reservations_outlive_each_stop<M: Medium, D: Disk>()
    ensures begins { SwitchedOnHolds M.state M.below D.state }
    ensures gives { HoldingGives M.state M.below D.state }
    ensures goes_on { HoldingGoesOn M.state M.below D.state }
    ensures outlive { ReservationsOutlive M.state M.below D.state }
    ensures stand { OrdersStand M.state M.below D.state }
{
    power_loss_is_once();
    rules_are_kept();
    saves_are_due_by_change();
}

/// A drive whose reservations agree with its store (`IsHolding`), whoever has it: over an honest disk, what a crash may
/// leave of the store gives what a loss of power leaves of all orders that led to the reservations.
pub fn stores_show_orders<D: Disk>()
    ensures { HoldersShowOrders D.state }
{
    reservations_outlive_each_stop::<Buffered<D>, D>();
}
