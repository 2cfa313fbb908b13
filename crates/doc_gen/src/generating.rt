//! Lemmas about sums of numerals, each proved by computation.
ghost use Rattle.std.specs.Prelude.{◌≡◌, ◌+◌, ◌*◌, ◌^◌, ◌<◌, ◌≤◌, ◌++◌, length, IfOk, OnOk, string_bytes};
ghost use Rattle.doc_gen.specs.declared.generating.TheConstants.{GENERATED_LIMIT};
ghost use Rattle.doc_gen.specs.Generated.{sum_lemma, lemma, generated};

use base_core::{NoMem, Text};
use std::alloc::{AllocError, Global};

/// How many lemmas a generated document may have.
pub const GENERATED_LIMIT: u32 = 2000;

/// A lemma and its proof, each on a line.
fn add_sum(text: &mut String, number: u32, left: u32, right: u32) -> Result<(), AllocError>
    requires { left + right < 2 ^ 32 }
    ensures { OnOk result (string_bytes text.new ≡ string_bytes text.old ++ sum_lemma number left right) }
{
    let sum = left + right;
    write!(
        text,
        "Lemma g{number} : plus {left} {right} = {sum}.\nProof. reflexivity. Qed.\n"
    )
}

fn add_lemma(text: &mut String, number: u32) -> Result<(), AllocError>
    ensures { OnOk result (string_bytes text.new ≡ string_bytes text.old ++ lemma number) }
{
    add_sum(text, number, number % 7, number % 5)
}

/// The text of so many lemmas.
pub fn generate(alloc: Global, count: u32) -> Result<Text, NoMem>
    requires { count ≤ GENERATED_LIMIT }
    ensures text { IfOk result (λ text. text ≡ generated count) }
    ensures short { IfOk result (λ text. length text ≤ 64 * count) }
{
    let mut text = String::new(alloc);
    for number in 0..count {
        add_lemma(&mut text, number)?;
    }
    Text::from_string(alloc, text)
}
