//! The octets of extensions (RFC 6487 4.8).

ghost use Rattle.std.specs.Prelude.{Bool, true, false, List, ℕ};
ghost use Rattle.rpki_der.specs.Cursor.{left};
ghost use Rattle.rpki_der.specs.Reading.{Reads};
ghost use Rattle.rpki_der.specs.Format.{Format, Takes};
ghost use Rattle.rpki_der.specs.declared.error.DecodeError.TheVariants.{OutOfMemory};
ghost use Rattle.rpki_cert.specs.ExtensionContent.{SpellsConstraints, constraints_content};
ghost use Rattle.rpki_x509.specs.Authority.{authority_content};
ghost use Rattle.rpki_cert.specs.ExtensionContent.{policies_content, subject_content, usage_content};
ghost use Rattle.rpki_cert.specs.ContentLaws.{constraints-never, authority-never, subject-never, usage-never};
ghost use Rattle.rpki_cert.specs.ContentLaws.{policies-never};

use crate::extension::key_usage::KeyUsage;
use crate::extension::policy::Overclaim;
use rpki::crypto::KeyIdentifier;
use rpki::der::{Constructed, DecodeError, Tag};
use rpki_x509::{skip_primitive, take_authority};

/// What the octets of an extension are: one value, and nothing else.
///
/// An implementation proves the law that no error of its reader is an allocation failure.
pub trait ExtensionContent {
    /// The value.
    type Value: Drop;

    /// Whether the extension has to be critical.
    const CRITICAL: bool;

    /// Whether the extension has to be critical.
    ghost CRITICAL: { Bool };

    /// The octets of the value, and the error of octets that no value begins.
    ghost content: { Format Self.Value };

    /// Reads the value. Allocates nothing.
    fn take_from(cons: &mut Constructed<'_>) -> Result<Self::Value, DecodeError>
        ensures { Takes (λ v. v) content (left cons.old) (left cons.new) result };

    /// No error is an allocation failure.
    ghost no_memory: { (s : List ℕ) → content.fault s OutOfMemory → ⊥ };
}

/// Moves past the basic constraints of a certification authority: a SEQUENCE of TRUE (RFC 6487 4.8.1).
fn skip_constraints(cons: &mut Constructed<'_>) -> Result<(), DecodeError>
    ensures { Reads (λ _. tt) SpellsConstraints constraints_content.fault (left cons.old) (left cons.new) result }
{
    cons.in_sequence(|contents| skip_primitive(contents, Tag::BOOLEAN, &[0xff]))
}

/// The basic constraints of a certification authority (RFC 6487 4.8.1).
pub struct ConstraintsContent;

impl ExtensionContent for ConstraintsContent {
    type Value = ();

    const CRITICAL: bool = true;

    ghost CRITICAL = { true };

    ghost content = { constraints_content };

    fn take_from(cons: &mut Constructed<'_>) -> Result<(), DecodeError> {
        skip_constraints(cons)
    }

    ghost no_memory = { constraints-never };
}

/// The identifier of the subject's key (RFC 6487 4.8.2).
pub struct SubjectContent;

impl ExtensionContent for SubjectContent {
    type Value = KeyIdentifier;

    const CRITICAL: bool = false;

    ghost CRITICAL = { false };

    ghost content = { subject_content };

    fn take_from(cons: &mut Constructed<'_>) -> Result<KeyIdentifier, DecodeError> {
        KeyIdentifier::take_from(cons)
    }

    ghost no_memory = { subject-never };
}

/// The identifier of the issuer's key (RFC 6487 4.8.3).
pub struct AuthorityContent;

impl ExtensionContent for AuthorityContent {
    type Value = KeyIdentifier;

    const CRITICAL: bool = false;

    ghost CRITICAL = { false };

    ghost content = { authority_content };

    fn take_from(cons: &mut Constructed<'_>) -> Result<KeyIdentifier, DecodeError> {
        take_authority(cons)
    }

    ghost no_memory = { authority-never };
}

/// What the subject's key may be used for (RFC 6487 4.8.4).
pub struct UsageContent;

impl ExtensionContent for UsageContent {
    type Value = KeyUsage;

    const CRITICAL: bool = true;

    ghost CRITICAL = { true };

    ghost content = { usage_content };

    fn take_from(cons: &mut Constructed<'_>) -> Result<KeyUsage, DecodeError> {
        KeyUsage::take_from(cons)
    }

    ghost no_memory = { usage-never };
}

/// The policy (RFC 6487 4.8.9, RFC 8360 4.2.1).
pub struct PoliciesContent;

impl ExtensionContent for PoliciesContent {
    type Value = Overclaim;

    const CRITICAL: bool = true;

    ghost CRITICAL = { true };

    ghost content = { policies_content };

    fn take_from(cons: &mut Constructed<'_>) -> Result<Overclaim, DecodeError> {
        Overclaim::take_from(cons)
    }

    ghost no_memory = { policies-never };
}
