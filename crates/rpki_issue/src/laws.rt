//! Laws of the definitions.

ghost use Rattle.std.specs.Prelude.{◌≡◌, ◌↔◌, true, IsTrue};
ghost use Rattle.rpki_cert.specs.Profile.{HasProfile};
ghost use Rattle.rpki_issue.specs.declared.kind.CertExtensions.{CertExtensions};
ghost use Rattle.rpki_cert.specs.Cert.{AreExtensions};
ghost use Rattle.rpki_issue.specs.Extensions.{extensions_of, extensions_listed, profile_of, AreUris, CanHold};
ghost use Rattle.rpki_issue.specs.Tbs.{Issued, IsShortTbs, normal_tbs};
ghost use Rattle.rpki_issue.specs.Issuing.{CanIssue, AreKeys};
ghost use Rattle.rpki_issue.specs.declared.error.IssueError.{IssueError as Refused};
ghost use Rattle.rpki_issue.specs.declared.error.IssueError.TheVariants.{OutOfMemory};
ghost use Rattle.rpki_issue.specs.Signing.{IsPlanRefusal};
ghost use Rattle.rpki_issue.specs.declared.locator_written.LocatorWriteError.{LocatorWriteError as Unwritten};

use crate::error::IssueError;
use crate::locator_written::LocatorWriteError;

/// A certificate of values that can be issued has the profile of its kind, names checked too (RFC 6487 4, RFC 8209 3.1,
/// RFC 8630 2.3, RFC 9323 2).
pub fn issued_have_their_profile()
    ensures { (x : Issued) (e : CertExtensions) → CanIssue x e
        → HasProfile (profile_of e.kind) true (normal_tbs x (extensions_of e)) }
{}

/// The extensions that are written of it are read as these, each identifier once.
pub fn issued_extensions_are_read_back()
    ensures { (e : CertExtensions) → AreKeys e → AreUris e → CanHold e
        → AreExtensions (extensions_of e) (extensions_listed (extensions_of e)) }
{}

/// Refusals are equal exactly where they are one.
pub fn equal_refusals_are_one()
    ensures { (p q : Refused) → IsTrue (⟦<IssueError as PartialEq>⟧.eq p q) ↔ (p ≡ q) }
{}

/// The same of what is refused of a locator.
pub fn equal_refusals_of_locators_are_one()
    ensures { (p q : Unwritten) → IsTrue (⟦<LocatorWriteError as PartialEq>⟧.eq p q) ↔ (p ≡ q) }
{}

/// Nothing of it is refused but if allocation fails, where a length announces it: so it is what can be issued.
pub fn what_can_be_issued_is_not_refused()
    ensures { (x : Issued) (e : CertExtensions) (w : Refused) → CanIssue x e
        → IsShortTbs x (extensions_listed (extensions_of e)) → IsPlanRefusal x e w → w ≡ OutOfMemory }
{}
