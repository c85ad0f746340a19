//! Revocation lists (RFC 5280 6.3.3, RFC 6487 5).

ghost use Rattle.std.specs.Prelude.{IfOk, IfErr};
ghost use Rattle.rpki.specs.Checkers.{checkers_of};
ghost use Rattle.rpki_crl.specs.Crl.{crl};
ghost use Rattle.rpki_issue.specs.SignedList.{IsIssuedList};
ghost use Rattle.rpki_valid.specs.declared.staleness.Staleness.TheVariants.{Refused};
ghost use Rattle.rpki_valid.specs.CrlIssued.{IsIssuedBy};
ghost use Rattle.rpki_valid.specs.Verified.{verified_by};
ghost use Rattle.rpki_checked.specs.Checked.{AreOnly};
ghost use Rattle.rpki_checked.specs.Authorities.{IsNoList, IsListRefusal};

use crate::error::CheckError;
use crate::read::read_list;
use bytes::Bytes;
use rpki::der::Captured;
use rpki::repository::error::ValidationError;
use rpki::repository::x509::Time;
use rpki_crl::Crl;
use rpki_issue::UnsignedCrl;
use rpki_rsa::PreparingProvider;
use rpki_valid::{ResourceCert, Staleness};
use std::alloc::Global;

/// The list that the octets are, if it counts at the moment.
fn verify<P: PreparingProvider>(
    alloc: Global,
    authority: &ResourceCert<'_, P>,
    at: Time,
    octets: &Captured,
) -> Result<Crl, ValidationError>
    ensures one { IfOk result (λ v. AreOnly crl.spells octets.now v) }
    ensures valid { IfOk result (λ v. IsIssuedBy Refused (verified_by P.Provider authority.now) at v) }
    ensures err { IfErr result (λ e. IsNoList (verified_by P.Provider authority.now) at octets.now e) }
{
    let list = match read_list(alloc, octets) {
        Ok(list) => list,
        Err(e) => return Err(e),
    };
    match authority.crl(&list, Staleness::Refused, at) {
        Ok(_) => {}
        Err(e) => return Err(e),
    }
    Ok(list)
}

/// The revocation list with this signature of what is to be signed, as [UnsignedCrl::signed] makes it with the
/// authority's key, if it counts at the moment, as [ResourceCert::crl] says, and isn't stale; and what it is read as.
///
/// The errors are `Refused` with what that step refuses; then `Invalid` with that of [ResourceCert::crl], or
/// `OutOfMemory` if allocation fails.
pub fn issue_list<P: PreparingProvider>(
    alloc: Global,
    authority: &ResourceCert<'_, P>,
    at: Time,
    unsigned: UnsignedCrl,
    signature: Bytes,
) -> Result<(Captured, Crl), CheckError>
    ensures made { IfOk result (λ r. IsIssuedList (checkers_of P.Provider authority.now.provider)
        authority.now.cert.tbs.key unsigned signature r.0) }
    // The octets are the list.
    ensures one { IfOk result (λ r. AreOnly crl.spells r.0 r.1) }
    ensures valid { IfOk result (λ r. IsIssuedBy Refused (verified_by P.Provider authority.now) at r.1) }
    ensures err { IfErr result (λ e. IsListRefusal (verified_by P.Provider authority.now) at unsigned signature e) }
{
    let key = authority.cert().tbs().subject_public_key_info();
    let made = match unsigned.signed(alloc, authority.provider(), key, signature) {
        Ok(made) => made,
        Err(e) => return Err(CheckError::Refused(e)),
    };
    match verify(alloc, authority, at, &made) {
        Ok(found) => Ok((made, found)),
        Err(e) => Err(CheckError::Invalid(e)),
    }
}
