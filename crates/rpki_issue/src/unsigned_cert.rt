//! A certificate in two steps: what is to be signed, and then its signature (RFC 5280 4.1, RFC 6487 4).

ghost use Rattle.std.specs.Prelude.{◌≡◌, true, IfOk, IfErr};
ghost use Rattle.rpki.specs.Checkers.{checkers_of};
ghost use Rattle.rpki_cert.specs.Cert.{TbsParts, SpellsTbs};
ghost use Rattle.rpki_issue.specs.Tbs.{issued_of};
ghost use Rattle.rpki_issue.specs.Signing.{IsProfileRefusal, IsReadAs, IsToSign, IsPlanRefusal};
ghost use Rattle.rpki_issue.specs.Signing.{IsSigningRefusal, IsIssuedCert};

use crate::error::IssueError;
use crate::kind::CertExtensions;
use crate::listed::write_extensions;
use crate::signing::sign;
use crate::tbs::TbsCertBuilder;
use crate::uris::are_uris;
use crate::written::write_tbs;
use bytes::Bytes;
use rpki::crypto::{Provider, PublicKey};
use rpki::der::Captured;
use rpki_cert::{Profile, TbsCert};
use std::alloc::Global;
use std::marker::Model;

/// A certificate that is to be signed: its octets, and what is read of them.
#[derive(Drop)]
pub struct UnsignedCert {
    octets: Captured,
    tbs: TbsCert,
}

impl Model for UnsignedCert {
    ghost use Rattle.std.specs.Prelude.{◌≡◌, true};
    ghost use Rattle.rpki_cert.specs.Cert.{SpellsTbs};
    ghost use Rattle.rpki_issue.specs.Signing.{ToSign};

    ghost Value = { ToSign };

    ghost view = { λ x. record { octets = x.octets; tbs = x.tbs } };

    ghost invariant = { λ x. SpellsTbs x.tbs x.octets × (x.tbs.algorithm ≡ true) };
}

/// What one value is read as, if it has the profile. Requires that a TBSCertificate with parameters of the algorithm is
/// there.
///
/// The errors are `Rule` with the first rule that is broken, and `OutOfMemory` if allocation fails.
fn read_again(alloc: Global, octets: Captured, profile: Profile) -> Result<UnsignedCert, IssueError>
    requires { (t : TbsParts) × SpellsTbs t octets × (t.algorithm ≡ true) }
    ensures ok { IfOk result (λ u. (t : TbsParts) → SpellsTbs t octets → IsReadAs profile octets u t) }
    ensures err { IfErr result (λ e. (t : TbsParts) → SpellsTbs t octets → IsProfileRefusal profile t e) }
{
    let mut cons = octets.cursor();
    match TbsCert::take_from(alloc, &mut cons) {
        Ok(tbs) => match tbs.test(profile, true) {
            Ok(()) => Ok(UnsignedCert { octets, tbs }),
            Err(rule) => Err(IssueError::Rule(rule)),
        },
        // a certificate is there, so that allocation failed
        Err(_) => Err(IssueError::OutOfMemory),
    }
}

impl TbsCertBuilder<'_> {
    /// What is to be signed of the certificate of this kind, if it has the kind's profile: the first of two steps. It
    /// is read again, as a validator reads it, and inspected.
    ///
    /// The errors are `Uri` for a URI of 3,080 octets or more; `Resources` for resources that no extension says;
    /// `TooLong` for 2^31 octets of resources or 2^32 of all; `Rule` with the first rule of the profile that the
    /// certificate breaks, names checked too; and `OutOfMemory` if allocation fails.
    pub fn to_sign(
        &self,
        alloc: Global,
        said: &CertExtensions<'_>,
    ) -> Result<UnsignedCert, IssueError>
        ensures ok { IfOk result (λ u. IsToSign (issued_of self.now) said.now u) }
        ensures err { IfErr result (λ e. IsPlanRefusal (issued_of self.now) said.now e) }
    {
        if !are_uris(said) {
            return Err(IssueError::Uri);
        }
        let listed = match write_extensions(alloc, said) {
            Ok(listed) => listed,
            Err(e) => return Err(e),
        };
        let octets = match write_tbs(alloc, self, &listed) {
            Ok(octets) => octets,
            Err(e) => return Err(e),
        };
        match read_again(alloc, octets, said.kind.profile()) {
            Ok(made) => Ok(made),
            Err(e) => Err(e),
        }
    }
}

impl UnsignedCert {
    /// What the issuer's key signs.
    pub fn message(&self) -> &[u8]
        ensures { result.now ≡ self.now.octets }
    {
        self.octets.as_slice()
    }

    /// What the message is read as.
    pub fn tbs(&self) -> &TbsCert
        ensures { result.now ≡ self.now.tbs }
    {
        &self.tbs
    }

    /// The certificate with this signature of the message: the second of two steps. The signature is verified by the
    /// issuer's key, as the provider does, whoever made it.
    ///
    /// The errors are `BadSignature` if the key or the provider says no, `TooLong` for 2^32 octets or more, and
    /// `OutOfMemory` if allocation fails.
    pub fn signed<P: Provider>(
        self,
        alloc: Global,
        provider: &P,
        key: &PublicKey,
        signature: Bytes,
    ) -> Result<Captured, IssueError>
        // The octets are read as the certificate that was to be signed.
        ensures ok { IfOk result (λ c. IsIssuedCert (checkers_of P.Provider provider.now) key.now self signature c) }
        ensures err { IfErr result (λ e. IsSigningRefusal (checkers_of P.Provider provider.now) key.now self.octets
            signature e) }
    {
        sign(alloc, self.octets, provider, key, signature)
    }
}
