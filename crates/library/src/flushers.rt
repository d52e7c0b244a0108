//! A flusher: the thread that stores what is pending in a drive.
use crate::libraries::Library;
use ledgers::Parties;
use split_bay::Rings;
use std::sync::Wait;
use std::sync::atomic::Ordering;
use tape_disk::Disk;
use volume_core::Turn;
use vtl_base::DriveNo;

/// The gate of a flusher. The flusher asks it before each turn, and informs it as the turn begins and after the turn
/// has ended.
pub trait Gate {
    /// Returns whether the flusher is to take another turn; after false it ends. Called while no lock is held.
    fn before_turn(&self) -> bool;

    /// Called as a turn begins, while the lock of the disk's half of the drive is held.
    fn in_turn(&self);

    /// Called after a turn, with what the turn did, while no lock is held.
    fn after_turn(&self, turn: Turn);
}

impl<D: Disk + Drop, B: Parties + Rings, H: Parties> Library<D, B, H> {
    /// Stores what is pending in the drive `drive`, turn by turn, until the library is closed or `gate.before_turn`
    /// returns false. A turn that stored something is followed by the next one. After any other turn the flusher waits
    /// until a command has accepted a change, or the library is closed. If the drive is not configured, the call does
    /// nothing.
    pub fn flusher<R: Wait, G: Gate>(&self, rt: &R, drive: DriveNo, gate: &G) {
        let Some(bay) = &self.bays[drive.place()] else {
            return;
        };
        for _ in rt.forever() {
            if self.closed.load(Ordering::SeqCst) || !gate.before_turn() {
                break;
            }
            let (turn, count) = bay.take_turn(rt, gate);
            gate.after_turn(turn);
            match turn {
                Turn::Stored(_) => {}
                Turn::Idle | Turn::Device => bay.wait(rt, count, &self.closed),
            }
        }
    }
}
