//! Laws of a store's contents. Each is a function that does nothing, and its contract is the law.
ghost use Rattle.std.specs.Prelude.{◌≡◌, ◌≤◌, ◌+◌, ℕ, List, length};
ghost use Rattle.gate_journal.specs.declared.header.SideKind.TheVariants.{Store};
ghost use Rattle.gate_journal.specs.Side.{Heading, IsDamagedOf};
ghost use Rattle.pr_core.specs.declared.states.PrState.{PrState};
ghost use Rattle.pr_core.specs.Keepers.{state_frame_size};
ghost use Rattle.pr_core.specs.Saves.{AreSavedAlike};
ghost use Rattle.aptpl_store.specs.Contents.{AreAllSavedAlike, GivesStates, IsStoreAnswered, IsBadStateAt, IsNoStore, OpensAs};
ghost use Rattle.aptpl_store.specs.Spelling.{SpellsState};
ghost use Rattle.vtl_base.specs.declared.layout.TheConstants.{FRAME_HEAD, STATE_BYTES};

/// Bytes spell at most one state, apart from its generation, which is not saved. A state has at most one spelling, of
/// at most 580 bytes, and its frame takes 5 bytes more.
pub fn bytes_spell_one_state()
    ensures one_state { (body : List ℕ) (one other : PrState) →
        SpellsState one body → SpellsState other body → AreSavedAlike one other }
    ensures one_spelling { (state : PrState) (one other : List ℕ) →
        SpellsState state one → SpellsState state other → one ≡ other }
    ensures short { (state : PrState) (body : List ℕ) → SpellsState state body → length body ≤ STATE_BYTES }
    ensures frame { (state : PrState) (body : List ℕ) →
        SpellsState state body → length body + FRAME_HEAD ≡ state_frame_size state }
{}

/// An image, the bytes that a crash may leave on the disk, gives the states of at most one store, apart from their
/// generations. It opens as at most one state. An image that gives states is a store's side, is not damaged and has no
/// bad frame. No image has its first bad frame at two places.
pub fn an_image_gives_one_store()
    ensures states { (image : List ℕ) (h k : Heading) (states others : List PrState) →
        GivesStates h states image → GivesStates k others image →
        (h ≡ k) × AreAllSavedAlike states others }
    ensures opens { (image : List ℕ) (h k : Heading) (one other : PrState) →
        OpensAs h one image → OpensAs k other image → (h ≡ k) × (one ≡ other) }
    ensures ours { (image : List ℕ) (h : Heading) (states : List PrState) →
        GivesStates h states image → IsNoStore image → ⊥ }
    ensures whole { (image : List ℕ) (h : Heading) (states : List PrState) (at : ℕ) →
        GivesStates h states image → IsDamagedOf Store image at → ⊥ }
    ensures bad { (image : List ℕ) (h : Heading) (states : List PrState) (at : ℕ) →
        GivesStates h states image → IsBadStateAt image at → ⊥ }
    ensures one_place { (image : List ℕ) (a b : ℕ) →
        IsBadStateAt image a → IsBadStateAt image b → a ≡ b }
{}

/// An image is refused for at most one of three causes: it is not a store's, it is damaged, or it has a bad frame. An
/// image is damaged at one place at most.
pub fn a_refusal_has_one_cause()
    ensures none_damaged { (image : List ℕ) (at : ℕ) →
        IsNoStore image → IsDamagedOf Store image at → ⊥ }
    ensures none_bad { (image : List ℕ) (at : ℕ) → IsNoStore image → IsBadStateAt image at → ⊥ }
    ensures damaged_bad { (image : List ℕ) (a b : ℕ) →
        IsDamagedOf Store image a → IsBadStateAt image b → ⊥ }
    ensures one_place { (image : List ℕ) (a b : ℕ) →
        IsDamagedOf Store image a → IsDamagedOf Store image b → a ≡ b }
{}

/// Each image gives states, or is refused for one of three causes: it is not a store's, it is a store's that is damaged
/// at some place, or it has its first bad frame at some place.
pub fn each_image_is_answered()
    ensures { (image : List ℕ) → IsStoreAnswered image }
{}
