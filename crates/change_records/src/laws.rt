//! Laws of the definitions. Each is a function that does nothing, and its contract is the law.
ghost use Rattle.std.specs.Prelude.{◌≡◌, ◌⊎◌, ◌↔◌, ◌++◌, ℕ, List, Some, None, length};
ghost use Rattle.volume_core.specs.declared.changes.Change.{Change};
ghost use Rattle.volume_core.specs.Volume.{Part, IsVolume, refusal_of};
ghost use Rattle.change_records.specs.Records.{IsBadAt, IsRecord, Spells, SpellsAll, record_of, size_of, spell_change};
ghost use Rattle.change_records.specs.ChangesOn.{changes_on};

/// A change has at most one spelling.
pub fn a_change_has_one_spelling()
    ensures { (a b : List ℕ) (change : Change) → Spells a change → Spells b change → a ≡ b }
{}

/// The size of a change's record is the length of the change's spelling.
pub fn the_size_of_a_record()
    ensures { (change : Change) → size_of (record_of change) ≡ length (spell_change change) }
{}

/// No spelling of a change is a proper prefix of the spelling of another change. Where bytes begin with the spellings
/// of two changes, the two changes are the same, and the same bytes follow their spellings.
pub fn no_spelling_begins_another()
    ensures { (a b x y : List ℕ) (change other : Change) → Spells a change → Spells b other →
        a ++ x ≡ b ++ y → (change ≡ other) × (a ≡ b) × (x ≡ y) }
{}

/// Bytes spell at most one list of changes, and have a bad record at no more than one place. Bytes that spell a list
/// have no bad record.
pub fn bytes_spell_at_most_one_list()
    ensures one_list { (bytes : List ℕ) (changes others : List Change) →
        SpellsAll bytes changes → SpellsAll bytes others → changes ≡ others }
    ensures one_place { (bytes : List ℕ) (a b : ℕ) → IsBadAt bytes a → IsBadAt bytes b → a ≡ b }
    ensures sound { (bytes : List ℕ) (changes : List Change) (at : ℕ) →
        SpellsAll bytes changes → IsBadAt bytes at → ⊥ }
{}

/// `changes_on` of bytes is the list of changes that they spell. Where they spell no list, `changes_on` is None, and
/// the bytes have a bad record at some place.
pub fn the_changes_on_bytes()
    ensures spelled { (bytes : List ℕ) (changes : List Change) →
        (changes_on bytes ≡ Some changes) ↔ SpellsAll bytes changes }
    ensures bad { (bytes : List ℕ) → changes_on bytes ≡ None → (at : ℕ) × IsBadAt bytes at }
{}

/// A change that a volume does not refuse has a spelling.
pub fn what_applies_has_a_spelling()
    ensures { (volume : List Part) (change : Change) → IsVolume volume →
        refusal_of volume change ≡ None → IsRecord change }
{}
