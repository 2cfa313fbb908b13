//! The prelude: what is declared before a document's first sentence.
ghost use Rattle.std.specs.Prelude.{◌≡◌, ◌^◌, ◌<◌, length};
ghost use Rattle.cic_prover.specs.Prelude.{prelude};

/// The text of the prelude.
#[tactic(auto, unfolding(crate::specs::Prelude::prelude))]
pub fn prelude() -> &'static str
    ensures text { result.now ≡ prelude }
    ensures short { length result.now < 2 ^ 32 }
{
    "Inductive False : Prop := .
Inductive True : Prop := I : True.
Inductive and (A B : Prop) : Prop := conj : A -> B -> and A B.
Inductive or (A B : Prop) : Prop := or_introl : A -> or A B | or_intror : B -> or A B.
Definition not (A : Prop) : Prop := A -> False.
Inductive eq (A : Type) (x : A) : A -> Prop := eq_refl : eq A x x.
Inductive ex (A : Type) (P : A -> Prop) : Prop := ex_intro : forall x : A, P x -> ex A P.
Inductive bool : Set := true : bool | false : bool.
Inductive nat : Set := O : nat | S : nat -> nat.
Definition plus (n m : nat) : nat := nat_rec (fun _ : nat => nat) m (fun _ r : nat => S r) n.
"
}
