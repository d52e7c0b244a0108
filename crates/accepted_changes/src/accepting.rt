//! The trait of accepting types.
ghost use Rattle.accepted_changes.specs.Core.{Rules};
ghost use Rattle.accepted_changes.specs.Device.{Device, IsDevice};

/// The rules and the device of a type that accepts items, changes of a cartridge for example, and stores them. The
/// trait has no methods. A type implements it once, if the type's contracts name the steps that it makes; the laws
/// (`laws`) then hold for the type.
pub trait Accepting {
    /// The rules of the type: what an item is, which item may follow those accepted, which items can be read from an
    /// image (what a crash leaves of the device), and which items may go into a new base.
    ghost rules: { Rules };

    /// The device that the items are stored on.
    ghost device: { Device rules.Image };

    ghost is_device: { IsDevice device };
}
