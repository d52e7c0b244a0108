//! The data of READ POSITION.
ghost use Rattle.std.specs.Prelude.{◌≡◌, true};
ghost use Rattle.volume_core.specs.Medium.{volume_of};
ghost use Rattle.positioning.specs.Motion.{IsOnTape};
ghost use Rattle.positioning.specs.Report.{is_near_end, report_of};

use crate::positions::Pos;
use volume_core::{Catalog, is_in_early_zone};

/// Whether `pos` is near the end of its partition: whether the objects before it use so many bytes that they reach into
/// the last sixteenth of the capacity (SSC-4, EOP and early warning; the zone own). The medium must be awake.
pub fn is_near_end<C: Catalog>(catalog: &C, pos: Pos) -> bool
    requires { (C.state catalog.now).awake ≡ true }
    ensures { result ≡ is_near_end (volume_of (C.state catalog.now)) pos }
{
    let used = catalog.used(pos.part, pos.obj);
    is_in_early_zone(catalog.capacity(pos.part), used)
}

/// The 20 bytes of READ POSITION's short form for the position `pos`, where nothing is pending (SSC-4). The medium must
/// be awake, and `pos` must be on its tape.
pub fn report<C: Catalog>(catalog: &C, pos: Pos) -> [u8; 20]
    requires awake { (C.state catalog.now).awake ≡ true }
    requires on_tape { IsOnTape (volume_of (C.state catalog.now)) pos }
    ensures { result ≡ report_of (volume_of (C.state catalog.now)) pos }
{
    let beginning = if pos.obj == 0 { 0x80 } else { 0 };
    let near_end = if is_near_end(catalog, pos) { 0x40 } else { 0 };
    let flags = beginning + near_end;
    let [a, b, c, d] = pos.obj.to_be_bytes();
    [
        flags, pos.part, 0, 0, a, b, c, d, a, b, c, d, 0, 0, 0, 0, 0, 0, 0, 0,
    ]
}
