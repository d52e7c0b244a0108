//! Laws of pairs of images: the bytes that a crash may leave of each of a cartridge's two disks. Each law is a function
//! that does nothing, and its contract is the law.
ghost use Rattle.std.specs.Prelude.{◌≡◌, ◌⊎◌, ◌∷◌, ℕ, List, None, drop};
ghost use Rattle.tape_disk.specs.Disk.{Smeared};
ghost use Rattle.gate_journal.specs.Heads.{Head};
ghost use Rattle.gate_journal.specs.Side.{Front, IsDamagedAt, OPEN, StandsFor};
ghost use Rattle.gate_journal.specs.declared.header.SideKind.{SideKind};
ghost use Rattle.cartridge_sides.specs.declared.which.Which.{Which};
ghost use Rattle.cartridge_sides.specs.Pairs.{SideCounts, IsPairDamagedAt, IsDecidedPair, IsNoPair, IsOpenSide, PairStandsFor};
ghost use Rattle.cartridge_sides.specs.Passes.{HasWritten, IsCopy, IsShutPair, SidesStandFor, TakesOver, first_image, second_image, spell_copy};
ghost use Rattle.cartridge_sides.specs.Roles.{MayCountBeside, front_with};
ghost use Rattle.vtl_base.specs.declared.layout.TheConstants.{PAIR_GATE};

/// Each pair of images stands for a head and frames, is not ours (none of its sides counts), or is damaged at some
/// place.
pub fn each_pair_is_decided()
    ensures { (first second : List ℕ) → IsDecidedPair first second }
{}

/// No pair of images is more than one of these three: a pair that stands for a head and frames, one that is not ours
/// (none of its sides counts), and a damaged one. A pair stands for the head and frames of one side at most, and is
/// damaged at one place at most.
pub fn no_pair_is_decided_twice()
    ensures one_thing { (first second : List ℕ) (w v : Which) (h k : Head) (bs cs : List (List ℕ)) →
        PairStandsFor w h bs first second → PairStandsFor v k cs first second → (w ≡ v) × ((h ≡ k) × (bs ≡ cs)) }
    ensures one_place { (first second : List ℕ) (a b : ℕ) →
        IsPairDamagedAt first second a → IsPairDamagedAt first second b → a ≡ b }
    ensures sound { (first second : List ℕ) (w : Which) (h : Head) (bs : List (List ℕ)) (at : ℕ) →
        PairStandsFor w h bs first second → IsPairDamagedAt first second at → ⊥ }
    ensures ours { (first second : List ℕ) (w : Which) (h : Head) (bs : List (List ℕ)) →
        PairStandsFor w h bs first second → IsNoPair first second → ⊥ }
    ensures ours_damaged { (first second : List ℕ) (at : ℕ) →
        IsPairDamagedAt first second at → IsNoPair first second → ⊥ }
{}

/// Let the pair gate be open, and let the side that does not count hold a copy, with its gate closed. Once that gate is
/// opened, the pair stands for the copy, whose epoch is greater by one than that of the side that counted before. The
/// copy has as many frames as its base.
pub fn an_opened_copy()
    ensures { (which : Which) (h : Head) (bodies copies : List (List ℕ)) (counts spare : List ℕ) →
        SidesStandFor which h bodies counts spare → (IsShutPair (first_image which counts spare) → ⊥) →
        IsCopy h copies → HasWritten (spell_copy h copies) spare →
        TakesOver which h copies counts (OPEN ∷ drop 1 spare) }
{}

/// The reason why the pair gate is opened only where it is closed. If an open pair gate is written again, a stop before
/// the sync may leave it closed. Then the first side counts if it is open and not a copy, whichever side counted
/// before; if it is an open copy, no side counts.
pub fn an_open_pair_gate_written_again()
    ensures older { (k : Head) (s first second : List ℕ) → IsOpenSide OPEN k s first → k.copied ≡ None →
        (one : List ℕ) × Smeared PAIR_GATE 1 first one × SideCounts Which.First k s one second }
    ensures nothing { (k : Head) (s first second : List ℕ) →
        IsOpenSide OPEN k s first → (k.copied ≡ None → ⊥) →
        (one : List ℕ) × Smeared PAIR_GATE 1 first one × IsNoPair one second }
{}

/// The reason why the side that does not count is closed only where it is open. If that side holds a copy whose gate is
/// closed, and the gate is written again, a stop before the sync may leave the gate open. Then the copy counts, without
/// the frames that were added to the other side since.
pub fn a_closed_side_closed_again()
    ensures { (which : Which) (h : Head) (bodies copies : List (List ℕ)) (counts spare : List ℕ) →
        SidesStandFor which h bodies counts spare → (IsShutPair (first_image which counts spare) → ⊥) →
        IsCopy h copies → HasWritten (spell_copy h copies) spare →
        (image : List ℕ) × Smeared 0 1 spare image × TakesOver which h copies counts image }
{}

/// A side of a cartridge and its pair stand for the same. Where a side stands for a head and frames, and may count
/// beside the other image, the pair stands for these. Where the pair stands for a head and frames, so does the side
/// that counts, and it may count beside the other image. Where a side that may count beside the other image is damaged,
/// the pair is damaged at the same place.
pub fn a_side_of_a_pair()
    ensures stands { (which : Which) (front : Front) (bodies : List (List ℕ)) (counts spare : List ℕ) →
        front.head.heading.kind ≡ SideKind.Cartridge → StandsFor front bodies counts →
        MayCountBeside which front.pair front.head spare →
        SidesStandFor which front.head bodies counts spare }
    ensures counts { (which : Which) (head : Head) (bodies : List (List ℕ)) (counts spare : List ℕ) →
        SidesStandFor which head bodies counts spare →
        (pair : ℕ) × (head.heading.kind ≡ SideKind.Cartridge)
        × StandsFor (front_with head pair) bodies counts × MayCountBeside which pair head spare }
    ensures damaged { (which : Which) (counts spare : List ℕ) (at : ℕ) (damage : IsDamagedAt counts at) →
        damage.0.head.heading.kind ≡ SideKind.Cartridge →
        MayCountBeside which damage.0.pair damage.0.head spare →
        IsPairDamagedAt (first_image which counts spare) (second_image which counts spare) at }
{}
