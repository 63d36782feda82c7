//! What is proved of the texts of kernels in general. Each law is the contract of a function that does nothing, for provers to call or cite.

ghost use Rattle.std.specs.Prelude.{◌≡◌, ◌≤◌, ◌^◌, length, Ok};
ghost use Rattle.c_unit.specs.declared.unit.CUnit.{CUnit};
ghost use Rattle.c_text.specs.declared.read.ReadUnit.{ReadUnit};
ghost use Rattle.c_text.specs.Layout.{canonical};
ghost use Rattle.c_text.specs.Units.{reading};
ghost use Rattle.c_text.specs.Lawful.{MeetsRules};
ghost use Rattle.c_text.specs.Spelling.{Spells};

/// The canonical text of a unit that meets the rules spells it, and is read as it unless the text is too long. The canonical text is the one that is printed.
pub fn round_trip()
    ensures spelled { (u : CUnit) → MeetsRules u → Spells (canonical u) u }
    ensures read { (u : CUnit) → MeetsRules u → length (canonical u) ≤ 2 ^ 28 → (r : ReadUnit) × (reading (canonical u) ≡ Ok r) × (r.unit ≡ u) }
{}
