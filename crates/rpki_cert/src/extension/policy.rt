//! Certificate policies (RFC 5280 4.2.1.4, RFC 6487 4.8.9).

ghost use Rattle.std.specs.Prelude.{false, IfSome, IfNone};
ghost use Rattle.rpki_der.specs.Cursor.{left};
ghost use Rattle.rpki_der.specs.Reading.{Reads};
ghost use Rattle.rpki_der.specs.FirstFault.{ReadsParts};
ghost use Rattle.rpki_der.specs.Format.{TakesAll};
ghost use Rattle.rpki_der.specs.TagName.{ia5_string};
ghost use Rattle.rpki_der.specs.Values.{IsLeafFault};
ghost use Rattle.rpki_cert.specs.ExtensionContent.{IsPolicyName, SpellsPolicyName, IsAnyIa5, SpellsStatement};
ghost use Rattle.rpki_cert.specs.ExtensionContent.{AreQualifierParts, SpellsQualifier, SpellsQualifiers};
ghost use Rattle.rpki_cert.specs.ExtensionContent.{ArePolicyParts, SpellsPolicy, SpellsPolicies};
ghost use Rattle.rpki_cert.specs.ExtensionContent.{optional_qualifiers, policies_content, policy_value, policy_name};
ghost use Rattle.rpki_cert.specs.ExtensionContent.{policy_parts, qualifier_value, qualifier_parts, qualifiers_value};

use rpki::der::{Constructed, DecodeError, Tag};
use rpki_x509::skip_primitive;

/// What is done where a certificate claims resources that its issuer's hasn't, as its policy says (RFC 8360 4).
#[derive(Clone, Copy, Debug, PartialEq, Eq)]
pub enum Overclaim {
    /// The certificate is rejected: `id-cp-ipAddr-asNumber` (RFC 6484 1.2).
    Refuse,
    /// The resources that both have remain: `id-cp-ipAddr-asNumber-v2` (RFC 8360 4.2.1).
    Trim,
}

/// The contents of the qualifier's object identifier `id-qt-cps`, 1.3.6.1.5.5.7.2.1 (RFC 5280 4.2.1.4).
const STATEMENT_NAME: &[u8] = &[43, 6, 1, 5, 5, 7, 2, 1];

/// The policy that these contents of an object identifier name.
fn overclaim_of(contents: &[u8]) -> Option<Overclaim>
    ensures some { IfSome result (λ p. IsPolicyName p contents.now) }
    ensures none { IfNone result ((p : Overclaim) → IsPolicyName p contents.now → ⊥) }
{
    match contents {
        [43, 6, 1, 5, 5, 7, 14, 2] => Some(Overclaim::Refuse),
        [43, 6, 1, 5, 5, 7, 14, 3] => Some(Overclaim::Trim),
        _ => None,
    }
}

/// Moves past an IA5String.
fn skip_statement(cons: &mut Constructed<'_>) -> Result<(), DecodeError>
    ensures { Reads (λ _. tt) SpellsStatement (IsLeafFault ia5_string false IsAnyIa5) (left cons.old) (left cons.new)
        result }
{
    let mut after = *cons;
    let contents = after.take_primitive_if(Tag::IA5_STRING)?;
    if !contents.is_ascii() {
        return Err(DecodeError::content("malformed IA5String"));
    }
    *cons = after;
    Ok(())
}

/// Moves past a qualifier: a pointer to a statement of practices (RFC 7318 2).
fn skip_qualifier(cons: &mut Constructed<'_>) -> Result<(), DecodeError>
    ensures { Reads (λ _. (tt, tt)) SpellsQualifier qualifier_value.fault (left cons.old) (left cons.new) result }
{
    cons.in_sequence(
        |contents|
            ensures { ReadsParts (λ _. (tt, tt)) AreQualifierParts qualifier_parts.fault (left contents.old)
                (left contents.new) result }
        {
            skip_primitive(contents, Tag::OID, STATEMENT_NAME)?;
            skip_statement(contents)?;
            Ok(())
        },
    )
}

/// Moves past a SEQUENCE of exactly one qualifier.
fn skip_one_qualifier(cons: &mut Constructed<'_>) -> Result<(), DecodeError>
    ensures { Reads (λ _. (tt, tt)) SpellsQualifiers qualifiers_value.fault (left cons.old) (left cons.new) result }
{
    cons.in_sequence(|contents| skip_qualifier(contents))
}

/// Moves past the qualifiers, which may be left out.
fn skip_qualifiers(contents: &mut Constructed<'_>) -> Result<(), DecodeError>
    ensures { TakesAll (λ _. tt) optional_qualifiers (left contents.old) (left contents.new) result }
{
    if contents.is_empty() {
        return Ok(());
    }
    skip_one_qualifier(contents)
}

impl Overclaim {
    /// The object identifier of a policy.
    fn take_name(cons: &mut Constructed<'_>) -> Result<Overclaim, DecodeError>
        ensures { Reads (λ p. p) SpellsPolicyName policy_name.fault (left cons.old) (left cons.new) result }
    {
        let mut after = *cons;
        let contents = after.take_primitive_if(Tag::OID)?;
        match overclaim_of(contents) {
            Some(overclaim) => {
                *cons = after;
                Ok(overclaim)
            }
            None => Err(DecodeError::content("unknown certificate policy")),
        }
    }

    /// A policy, perhaps with one qualifier.
    fn take_policy(cons: &mut Constructed<'_>) -> Result<Overclaim, DecodeError>
        ensures { Reads (λ p. (p, tt)) SpellsPolicy policy_value.fault (left cons.old) (left cons.new) result }
    {
        cons.in_sequence(
            |contents|
                ensures { ReadsParts (λ p. (p, tt)) ArePolicyParts policy_parts.fault (left contents.old)
                    (left contents.new) result }
            {
                let overclaim = Overclaim::take_name(contents)?;
                skip_qualifiers(contents)?;
                Ok(overclaim)
            },
        )
    }

    /// Certificate policies: a SEQUENCE of exactly one, that of the RPKI, whose one qualifier may be left out
    /// (RFC 6487 4.8.9, RFC 7318 2). Allocates nothing.
    ///
    /// The errors are those of the values from the left, `Content` for another policy or qualifier, and `Trailing` for
    /// what follows.
    pub fn take_from(cons: &mut Constructed<'_>) -> Result<Overclaim, DecodeError>
        ensures { Reads (λ p. p) SpellsPolicies policies_content.fault (left cons.old) (left cons.new) result }
    {
        cons.in_sequence(|contents| Overclaim::take_policy(contents))
    }
}
