//! A disk whose writes are reported.
use tape_disk::Disk;
use vtl_base::DevFault;

/// A receiver of reports on writes.
pub trait Progress {
    /// Reports that this many bytes were written.
    fn written(&self, bytes: u64);
}

/// A disk that passes each call on to the disk below it, and reports each write that did not fail.
#[derive(Drop)]
pub struct Watched<'a, D, P> {
    /// The disk below.
    pub disk: D,
    /// Where the writes to the disk are reported.
    pub progress: &'a P,
}

impl<'a, D: Disk, P: Progress> Disk for Watched<'a, D, P> {
    ghost state = { λ watched. D.state watched.disk };

    ghost effect = { λ call result old new. D.effect call result old.disk new.disk };

    ghost is_disk = { λ watched honest. D.is_disk watched.disk honest };

    fn len(&self) -> u64 {
        self.disk.len()
    }

    fn read_at(&mut self, at: u64, buffer: &mut [u8]) -> Result<(), DevFault> {
        self.disk.read_at(at, buffer)
    }

    fn write_at(&mut self, at: u64, bytes: &[u8]) -> Result<(), DevFault> {
        match self.disk.write_at(at, bytes) {
            Ok(()) => {
                self.progress.written(bytes.len() as u64);
                Ok(())
            }
            Err(fault) => Err(fault),
        }
    }

    fn cut(&mut self, len: u64) -> Result<(), DevFault> {
        self.disk.cut(len)
    }

    fn sync(&mut self) -> Result<(), DevFault> {
        self.disk.sync()
    }
}
