//! Laws of a cartridge's contents. Each is a function that does nothing, and its contract is the
//! law.
ghost use Rattle.std.specs.Prelude.{◌≡◌, ℕ};
ghost use Rattle.volume_core.specs.Volume.{after};
ghost use Rattle.tape_disk.specs.TwoDisks.{Images};
ghost use Rattle.cartridge.specs.Contents.{Contents, GivesContents, IsAnswered, IsBadFrameAt, IsDamagedPairAt, IsNoCartridge, changes_since, start_of, volume_made};

/// A pair of images, the bytes that a crash may leave on the two disks, gives the contents of at most one cartridge.
/// Where it gives contents, one of its sides counts, is not damaged and has no bad frame. No pair has its first bad
/// frame at two places.
pub fn a_pair_gives_one_volume()
    ensures contents { (images : Images) (a b : Contents) →
        GivesContents a images → GivesContents b images → a ≡ b }
    ensures ours { (images : Images) (contents : Contents) →
        GivesContents contents images → IsNoCartridge images → ⊥ }
    ensures whole { (images : Images) (contents : Contents) (at : ℕ) →
        GivesContents contents images → IsDamagedPairAt images at → ⊥ }
    ensures bad { (images : Images) (contents : Contents) (at : ℕ) →
        GivesContents contents images → IsBadFrameAt images at → ⊥ }
    ensures one_place { (images : Images) (a b : ℕ) →
        IsBadFrameAt images a → IsBadFrameAt images b → a ≡ b }
{}

/// A pair of images has at most one of three causes to be refused: no side counts, the side that counts is damaged, or
/// that side has a bad frame. The side that counts is damaged at one place at most.
pub fn a_refusal_has_one_cause()
    ensures none_damaged { (images : Images) (at : ℕ) →
        IsNoCartridge images → IsDamagedPairAt images at → ⊥ }
    ensures none_bad { (images : Images) (at : ℕ) → IsNoCartridge images → IsBadFrameAt images at → ⊥ }
    ensures damaged_bad { (images : Images) (a b : ℕ) →
        IsDamagedPairAt images a → IsBadFrameAt images b → ⊥ }
    ensures one_place { (images : Images) (a b : ℕ) →
        IsDamagedPairAt images a → IsDamagedPairAt images b → a ≡ b }
{}

/// Each pair of images gives contents or has a cause to be refused: no side counts, the side that counts is damaged at
/// some place, or it has its first bad frame at some place.
pub fn each_pair_is_answered()
    ensures { (images : Images) → IsAnswered images }
{}

/// The changes since the cartridge was made or last reclaimed make its volume out of the volume that it had then.
pub fn a_volume_is_made_since()
    ensures { (contents : Contents) → volume_made contents
        ≡ after (start_of contents).volume (changes_since contents) }
{}
