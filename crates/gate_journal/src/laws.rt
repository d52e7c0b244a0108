//! Laws of a side's definitions. Each is a function that does nothing, and its contract is the law.
ghost use Rattle.std.specs.Prelude.{◌≡◌, ◌↔◌, ℕ, List, Some};
ghost use Rattle.gate_journal.specs.Side.{Front, StandsFor, IsNotOurs, IsDamagedAt, IsDecided};
ghost use Rattle.gate_journal.specs.SideOn.{side_on};
ghost use Rattle.gate_journal.specs.declared.frame.TheConstants.{AROUND};
ghost use Rattle.gate_journal.specs.declared.gathering.TheConstants.{LONG};
ghost use Rattle.gate_journal.specs.declared.pieces.TheConstants.{JUMP_BYTES, PIECE_BYTES};

/// Each image (bytes that a crash may leave on a disk) stands for a side, is not a side of this library, or is damaged
/// at some place.
pub fn each_image_is_decided()
    ensures { (image : List ℕ) → IsDecided image }
{}

/// At most one of three holds of an image: it stands for a side, it is not a side of this library, or it is damaged. An
/// image stands for at most one side, and is damaged at one place at most.
pub fn no_image_is_decided_twice()
    ensures one_side { (image : List ℕ) (f g : Front) (bs cs : List (List ℕ)) →
        StandsFor f bs image → StandsFor g cs image → (f ≡ g) × (bs ≡ cs) }
    ensures one_place { (image : List ℕ) (a b : ℕ) →
        IsDamagedAt image a → IsDamagedAt image b → a ≡ b }
    ensures sound { (image : List ℕ) (f : Front) (bs : List (List ℕ)) (at : ℕ) →
        StandsFor f bs image → IsDamagedAt image at → ⊥ }
    ensures ours { (image : List ℕ) (f : Front) (bs : List (List ℕ)) →
        StandsFor f bs image → IsNotOurs image → ⊥ }
    ensures ours_damaged { (image : List ℕ) (at : ℕ) → IsDamagedAt image at → IsNotOurs image → ⊥ }
{}

/// The function `side_on` returns the side that an image stands for, and returns a side only where the image stands for
/// that side.
pub fn the_side_on_an_image()
    ensures { (image : List ℕ) (f : Front) (bs : List (List ℕ)) →
        (side_on image ≡ Some (f, bs)) ↔ StandsFor f bs image }
{}

/// The values of this crate's constants for lengths. In all 5 bytes stand around a body. A part of 16,384 bytes behind
/// its head is long. The longest piece of a body has 65,536 bytes, and the longest piece after bytes that were passed
/// over has 4,096.
pub fn the_lengths()
    ensures around { AROUND ≡ 5 }
    ensures long { LONG ≡ 16384 }
    ensures piece { PIECE_BYTES ≡ 65536 }
    ensures jump { JUMP_BYTES ≡ 4096 }
{}
