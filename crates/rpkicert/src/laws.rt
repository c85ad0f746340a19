//! Laws of what is printed: each function does nothing, and its contract is the law.

ghost use Rattle.std.specs.Prelude.{ℕ, Bool, List, Option};
ghost use Rattle.rpki_fields.specs.declared.rendering.Form.{Form};
ghost use Rattle.rpki_fields.specs.AtMostOne.{AtMostOne};
ghost use Rattle.rpki_fields.specs.declared.object.Object.{Object};
ghost use Rattle.rpki_cert.specs.Cert.{TbsParts};
ghost use Rattle.rpkicert.specs.Chosen.{IsChosen};
ghost use Rattle.rpkicert.specs.declared.choice.Choice.{Choice};
ghost use Rattle.rpkicert.specs.declared.signature.Signature.{Signature};
ghost use Rattle.rpkicert.specs.Outcome.{IsObject, OutcomeParts, IsFoundAlone};
ghost use Rattle.rpkicert.specs.Moment.{Clock};
ghost use Rattle.rpkicert.specs.Request.{Asked};
ghost use Rattle.rpkicert.specs.Requirements.{TermParts};
ghost use Rattle.rpkicert.specs.Output.{IsTextOf, HasOneGoodAnswer, HasOneGoodText};
ghost use Rattle.rpkicert.specs.Run.{Holds};
ghost use Rattle.rpkicert.specs.Under.{Lists, IsKnownUnder, RunsAlikeUnder};

/// Octets are one object at most. With the name of a file it has one text in each form.
pub fn one_text()
    ensures object { (octets : List ℕ) → AtMostOne (IsObject octets) }
    ensures text { (form : Form) (signature : Signature) (name octets : List ℕ) (x : Object)
        → AtMostOne (IsTextOf form signature name octets x) }
{}

/// Where an object is found in a file, and holds, nothing else is found; and where it is shown, nothing else is seen;
/// unless allocation fails. Where all certificates in a file are shown, they are shown alike each time that all are.
pub fn one_answer()
    ensures found { (terms : TermParts) (source : Option (List ℕ)) (found : OutcomeParts)
        → IsFoundAlone terms source found }
    ensures seen { (check : Bool) (form : Form) (terms : TermParts) (name : List ℕ) (source : Option (List ℕ))
        → HasOneGoodAnswer check form terms name source }
    ensures file { (check : Bool) (form : Form) (terms : TermParts) (name : List ℕ) (source : Option (List ℕ))
        → HasOneGoodText check form terms name source }
{}

/// Where a run of what is asked for ends with the status 0, each run of it that does writes the same.
pub fn one_output()
    ensures { (lists : Lists) (holds : Holds) (clock : Clock) (a : Asked) → IsKnownUnder lists holds clock a
        → RunsAlikeUnder lists holds clock a }
{}

/// Of a certificate one profile at most is chosen.
pub fn one_profile()
    ensures { (choice : Choice) (t : TbsParts) → AtMostOne (IsChosen choice t) }
{}
