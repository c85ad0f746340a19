//! A law of the results: the function does nothing, and its contract is the law.

ghost use Rattle.std.specs.Prelude.{◌≡◌, ℕ, List, Ok, Err};
ghost use Rattle.rpkibasic.specs.Fault.{text_of};
ghost use Rattle.rpkibasic.specs.Run.{IsDue};
ghost use Rattle.rpkibasic.specs.declared.command.Command.{Command};
ghost use Rattle.rpkibasic.specs.declared.command.Command.TheVariants.{Uri};
ghost use Rattle.rpkibasic.specs.declared.fault.Fault.{Fault};

/// One result is due to an input: one text and no fault, or one fault and no text. The number of an error of DER alone
/// is left open.
pub fn one_answer_is_due()
    ensures texts { (command : Command) (input s t : List ℕ)
        → IsDue command input (Ok s) → IsDue command input (Ok t) → s ≡ t }
    ensures apart { (command : Command) (input s : List ℕ) (e : Fault)
        → IsDue command input (Ok s) → IsDue command input (Err e) → ⊥ }
    ensures faults { (command : Command) (input : List ℕ) (e f : Fault)
        → IsDue command input (Err e) → IsDue command input (Err f) → text_of e ≡ text_of f }
    ensures uris { (input : List ℕ) (e f : Fault) → IsDue Uri input (Err e) → IsDue Uri input (Err f) → e ≡ f }
{}
