//! A disk over another one, whose calls fail where a test wants them to.
ghost use Rattle.std.specs.Prelude.{◌≡◌, ◌+◌, ◌-◌, ◌≤◌, ◌^◌, min, length, OnOk, OnErr, Result, slice_range};
ghost use Rattle.tape_disk.specs.Disk.{Elapses, Passes, Same, Writes, Cuts, Syncs, ReadAt, WriteAt, CutAt, SyncAll};
ghost use Rattle.vtl_base.specs.declared.faults.DevFault.{DevFault};
ghost use Rattle.tape_disk.specs.Faults.{CalledBelow, CalledOnce};

use crate::disk::Disk;
use crate::failures::Failures;
use vtl_base::DevFault;

/// A disk over another one. It counts each of its calls that fails, here or in the disk below.
#[derive(Drop)]
pub(crate) struct Failing<D> {
    pub(crate) disk: D,
    pub(crate) failures: Failures,
}

impl<D: Disk> Failing<D> {
    ghost use Rattle.tape_disk.specs.Inner.Failing.{failing_state};

    pub(crate) fn new(disk: D) -> Failing<D>
        ensures disk { result.disk ≡ disk }
        ensures failures { result.failures.count.value ≡ 0 }
    {
        Failing {
            disk,
            failures: Failures::none(),
        }
    }

    // Fails a call. To move the clock of the disk below on, 0 bytes are read from it.
    fn refuse(&mut self) -> DevFault
        ensures below { (answer : Result Unit DevFault) ×
            CalledOnce D.state D.effect (ReadAt 0 0) answer self.old.disk self.new.disk }
        ensures time { (D.state self.old.disk).honest →
            Elapses (D.state self.old.disk) (D.state self.new.disk) }
        ensures same { (D.state self.old.disk).honest →
            Same (D.state self.old.disk) (D.state self.new.disk) }
        ensures count { self.new.failures.count.value ≡ self.old.failures.count.value + 1 }
        ensures reported { result.failures ≡ min self.new.failures.count.value (2 ^ 64 - 1) }
    {
        let _ = self.disk.read_at(0, &mut []);
        self.failures.rise()
    }

    pub(crate) fn read_at(
        &mut self,
        passes: bool,
        at: u64,
        buffer: &mut [u8],
    ) -> Result<(), DevFault>
        requires { (D.state self.old.disk).honest →
            at + length buffer.old ≤ length (D.state self.old.disk).seen }
        ensures passes { Passes (failing_state D.state self.old) (failing_state D.state self.new) result }
        ensures time { (D.state self.old.disk).honest →
            Elapses (failing_state D.state self.old) (failing_state D.state self.new) }
        ensures same { (D.state self.old.disk).honest →
            Same (failing_state D.state self.old) (failing_state D.state self.new) }
        ensures bytes { (D.state self.old.disk).honest → OnOk result
            (buffer.new ≡ slice_range (D.state self.old.disk).seen at (at + length buffer.old)) }
        ensures once { OnErr result
            (self.new.failures.count.value ≡ self.old.failures.count.value + 1) }
        ensures below { CalledBelow D.state D.effect passes (ReadAt at (length buffer.old)) result
            self.old.disk self.new.disk }
    {
        if !passes {
            return Err(self.refuse());
        }
        match self.disk.read_at(at, buffer) {
            Ok(()) => Ok(()),
            Err(_) => Err(self.failures.rise()),
        }
    }

    pub(crate) fn write_at(&mut self, passes: bool, at: u64, bytes: &[u8]) -> Result<(), DevFault>
        requires { (D.state self.old.disk).honest → at ≤ length (D.state self.old.disk).seen }
        ensures passes { Passes (failing_state D.state self.old) (failing_state D.state self.new) result }
        ensures time { (D.state self.old.disk).honest →
            Elapses (failing_state D.state self.old) (failing_state D.state self.new) }
        ensures writes { (D.state self.old.disk).honest →
            Writes at bytes.now result (failing_state D.state self.old) (failing_state D.state self.new) }
        ensures once { OnErr result
            (self.new.failures.count.value ≡ self.old.failures.count.value + 1) }
        ensures below { CalledBelow D.state D.effect passes (WriteAt at bytes.now) result
            self.old.disk self.new.disk }
    {
        if !passes {
            return Err(self.refuse());
        }
        match self.disk.write_at(at, bytes) {
            Ok(()) => Ok(()),
            Err(_) => Err(self.failures.rise()),
        }
    }

    pub(crate) fn cut(&mut self, passes: bool, len: u64) -> Result<(), DevFault>
        requires { (D.state self.old.disk).honest → len ≤ length (D.state self.old.disk).seen }
        ensures passes { Passes (failing_state D.state self.old) (failing_state D.state self.new) result }
        ensures time { (D.state self.old.disk).honest →
            Elapses (failing_state D.state self.old) (failing_state D.state self.new) }
        ensures cuts { (D.state self.old.disk).honest →
            Cuts len result (failing_state D.state self.old) (failing_state D.state self.new) }
        ensures once { OnErr result
            (self.new.failures.count.value ≡ self.old.failures.count.value + 1) }
        ensures below { CalledBelow D.state D.effect passes (CutAt len) result
            self.old.disk self.new.disk }
    {
        if !passes {
            return Err(self.refuse());
        }
        match self.disk.cut(len) {
            Ok(()) => Ok(()),
            Err(_) => Err(self.failures.rise()),
        }
    }

    pub(crate) fn sync(&mut self, passes: bool) -> Result<(), DevFault>
        ensures passes { Passes (failing_state D.state self.old) (failing_state D.state self.new) result }
        ensures time { (D.state self.old.disk).honest →
            Elapses (failing_state D.state self.old) (failing_state D.state self.new) }
        ensures syncs { (D.state self.old.disk).honest →
            Syncs result (failing_state D.state self.old) (failing_state D.state self.new) }
        ensures once { OnErr result
            (self.new.failures.count.value ≡ self.old.failures.count.value + 1) }
        ensures below { CalledBelow D.state D.effect passes SyncAll result
            self.old.disk self.new.disk }
    {
        if !passes {
            return Err(self.refuse());
        }
        match self.disk.sync() {
            Ok(()) => Ok(()),
            Err(_) => Err(self.failures.rise()),
        }
    }
}
