//! Laws of the definitions that the other clauses cite.

ghost use lib.Utf8.{encode};
ghost use Rattle.std.specs.Prelude.{◌≡◌, ◌<◌, ◌≤◌, ℕ, length, sum_by};
ghost use Rattle.utf16_doc.specs.declared.encoding.Encoding.TheVariants.{Utf8, Utf16};
ghost use Rattle.utf16_doc.specs.Units.{units_of};
ghost use Rattle.utf16_doc.specs.Cuts.{OffsetsByLines, RunsAreLongest, RunsEndCharacters};

/// A position's offset is the one by any cut of the text into lines, and a run is the longest of whole characters.
pub fn law_of_offsets()
    ensures lines { OffsetsByLines }
    ensures runs { RunsAreLongest }
    ensures characters { RunsEndCharacters }
{}

/// A character has as many units as bytes in UTF-8, and in UTF-16 two from U+10000 on and else one.
pub fn law_of_units()
    ensures bytes { (c : ℕ) → sum_by (units_of Utf8) (encode c) ≡ length (encode c) }
    ensures one { (c : ℕ) → c < 65536 → sum_by (units_of Utf16) (encode c) ≡ 1 }
    ensures two { (c : ℕ) → 65536 ≤ c → sum_by (units_of Utf16) (encode c) ≡ 2 }
{}
