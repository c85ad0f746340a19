//! Laws of the definitions.

ghost use Rattle.std.specs.Prelude.{◌≡◌, ◌↔◌, IsTrue};
ghost use Rattle.rpki_cert.specs.declared.extension.key_usage.KeyUsage.{KeyUsage as Usage};
ghost use Rattle.rpki_cert.specs.declared.extension.kind.ExtensionKind.{ExtensionKind as KindOfExtension};
ghost use Rattle.rpki_cert.specs.declared.extension.known_part.KnownPart.{KnownPart as WrongExtension};
ghost use Rattle.rpki_cert.specs.declared.extension.policy.Overclaim.{Overclaim as Policy};
ghost use Rattle.rpki_cert.specs.declared.profile.CheckError.{CheckError as FailedCheck};
ghost use Rattle.rpki_cert.specs.declared.profile.Profile.{Profile as HeldProfile};
ghost use Rattle.rpki_cert.specs.declared.profile.rule.CertRule.{CertRule as BrokenRule};
ghost use Rattle.rpki_cert.specs.declared.read.cert_error.CertError.{CertError as WrongCert};
ghost use Rattle.rpki_cert.specs.declared.read.cert_part.CertPart.{CertPart as WrongPart};

use crate::extension::key_usage::KeyUsage;
use crate::extension::kind::ExtensionKind;
use crate::extension::known_part::KnownPart;
use crate::extension::policy::Overclaim;
use crate::profile::rule::CertRule;
use crate::profile::{CheckError, Profile};
use crate::read::cert_error::CertError;
use crate::read::cert_part::CertPart;
use rpki::der::DecodeError;

/// What extensions say, and their kinds, are equal exactly where they are one.
pub fn equal_extensions_are_one()
    ensures usage { (x y : Usage) → IsTrue (⟦<KeyUsage as PartialEq>⟧.eq x y) ↔ (x ≡ y) }
    ensures policy { (x y : Policy) → IsTrue (⟦<Overclaim as PartialEq>⟧.eq x y) ↔ (x ≡ y) }
    ensures kind { (x y : KindOfExtension) → IsTrue (⟦<ExtensionKind as PartialEq>⟧.eq x y) ↔ (x ≡ y) }
{}

/// Malformed parts are equal exactly where they are one.
pub fn equal_parts_are_one()
    ensures part { (p q : WrongPart) → IsTrue (⟦<CertPart as PartialEq>⟧.eq p q) ↔ (p ≡ q) }
    ensures extension { (p q : WrongExtension) → IsTrue (⟦<KnownPart as PartialEq>⟧.eq p q) ↔ (p ≡ q) }
{}

/// Errors of certificates are equal exactly where their parts are one and the errors of these are equal.
pub fn equal_errors_have_equal_parts()
    ensures { (p q : WrongCert) → IsTrue (⟦<CertError as PartialEq>⟧.eq p q)
        ↔ ((p.part ≡ q.part) × IsTrue (⟦<DecodeError as PartialEq>⟧.eq p.error q.error)) }
{}

/// Profiles, their rules, and what a check says, are equal exactly where they are one.
pub fn equal_profiles_are_one()
    ensures profile { (p q : HeldProfile) → IsTrue (⟦<Profile as PartialEq>⟧.eq p q) ↔ (p ≡ q) }
    ensures rule { (p q : BrokenRule) → IsTrue (⟦<CertRule as PartialEq>⟧.eq p q) ↔ (p ≡ q) }
    ensures check { (p q : FailedCheck) → IsTrue (⟦<CheckError as PartialEq>⟧.eq p q) ↔ (p ≡ q) }
{}
