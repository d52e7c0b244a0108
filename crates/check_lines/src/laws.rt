//! Laws of the lines that `vtl check` prints of two files.
ghost use Rattle.std.specs.Prelude.{◌≡◌, ℕ, List};
ghost use Rattle.tape_disk.specs.TwoDisks.{Images};
ghost use Rattle.check_lines.specs.SideText.{SideText};

/// For any bytes of two files, there is exactly one text that `vtl check` prints for them.
pub fn each_pair_has_one_text()
    ensures some { (images : Images) → (text : List ℕ) × SideText images text }
    ensures one { (images : Images) (a b : List ℕ) → SideText images a → SideText images b → a ≡ b }
{
    cartridge::laws::a_pair_gives_one_volume();
    cartridge::laws::a_refusal_has_one_cause();
    cartridge::laws::each_pair_is_answered();
    aptpl_store::laws::an_image_gives_one_store();
    aptpl_store::laws::a_refusal_has_one_cause();
    aptpl_store::laws::each_image_is_answered();
}
