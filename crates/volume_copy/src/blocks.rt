//! The reader of a volume's blocks.
ghost use Rattle.std.specs.Prelude.{◌≡◌, ℕ, List, OnOk, IfErr, length};
ghost use Rattle.vtl_base.specs.declared.faults.DevFault.{DevFault};

use vtl_base::DevFault;

/// A reader of blocks, each of which lies at a place on a disk.
pub trait ReadsBlocks {
    // This block lies at this place.
    ghost lies: { Self → List ℕ → ℕ → Type 0 };

    // It reads what lies at a place.
    ghost honest: { Self → Type 0 };

    // The first reader reads, and is then the second.
    ghost reads: { Self → Self → Type 0 };

    // A device below the first reader fails, and it is then the second.
    ghost fails: { Self → DevFault → Self → Type 0 };

    /// Reads the block that lies at `place`, and that is as long as `block`, into `block`. Only an honest reader
    /// promises which bytes `block` then has: those of the block of this length that lies there. The error is a fault
    /// of a device below the reader.
    fn read(&mut self, place: u64, block: &mut [u8]) -> Result<(), DevFault>
        ensures reads { OnOk result (reads self.old self.new) }
        ensures bytes { honest self.old → (there : List ℕ) → lies self.old there place →
            length there ≡ length block.old → OnOk result (block.new ≡ there) }
        ensures err { IfErr result (λ fault. fails self.old fault self.new) };

    /// Where no call is made, nothing is read.
    ghost reads_nothing: { (a : Self) → reads a a };

    /// Two runs of reads, one after the other, are one run of reads.
    ghost reads_on: { (a b c : Self) → reads a b → reads b c → reads a c };

    /// Reads and then a failure are a failure, as seen from before the reads.
    ghost fails_on: { (a b c : Self) (fault : DevFault) → reads a b → fails b fault c → fails a fault c };

    /// Reads leave blocks where they lie.
    ghost lies_on: { (a b : Self) (block : List ℕ) (place : ℕ) → reads a b → lies a block place →
        lies b block place };

    /// An honest reader stays honest.
    ghost honest_on: { (a b : Self) → reads a b → honest a → honest b };
}
