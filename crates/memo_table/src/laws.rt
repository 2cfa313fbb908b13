//! What the numbers of a table stand for, from call to call.
ghost use Rattle.memo_table.specs.Laws.{NewFits, TouchedFits, TrimmedFits, KeptFits, NumberStands, NumberIsHeld};
ghost use Rattle.memo_table.specs.Laws.{PlainNumber, PlainTouched, PlainEntered, PlainTrimmed};
ghost use Rattle.memo_table.specs.Laws.{StateStands, EntryStands, ExtendedStays, ExtendedStands};

use prover_iface::Prover;

/// Each call keeps that the numbers of a table stand for sentences, and those that were given for the same ones.
pub fn law_of_calls<P: Prover>()
    ensures new { NewFits P.meaning P.means }
    ensures look { TouchedFits P.meaning P.means }
    ensures keep { KeptFits P.meaning P.means }
    ensures trim { TrimmedFits P.meaning P.means }
{}

/// What is found is what the prover makes of the sentences that the number stands for.
pub fn law_of_entries<P: Prover>()
    ensures number { NumberStands P.meaning P.means }
    ensures held { NumberIsHeld P.State }
    ensures state { StateStands P.meaning P.means }
    ensures entry { EntryStands P.meaning P.means }
{}

/// A number stands for what it was first entered for.
pub fn law_of_numbers()
    ensures stays { ExtendedStays }
    ensures stands { ExtendedStands }
{}

/// What is held, and in which order, is told by numbers and keys, whatever came of the sentences.
pub fn law_of_plain_entries<P: Prover>()
    ensures number { PlainNumber P.State }
    ensures touched { PlainTouched P.State }
    ensures entered { PlainEntered P.State }
    ensures trimmed { PlainTrimmed P.State }
{}
