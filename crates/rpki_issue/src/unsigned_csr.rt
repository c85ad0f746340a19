//! A request in two steps: what is to be signed, and then its signature (RFC 2986 4, RFC 6487 6).

ghost use Rattle.std.specs.Prelude.{◌≡◌, IfOk, IfErr};
ghost use Rattle.rpki.specs.Checkers.{checkers_of};
ghost use Rattle.rpki_issue.specs.Requests.{IsRequestToSign, IsRequestPlanRefused, IsMadeRequest};
ghost use Rattle.rpki_issue.specs.Signing.{IsSigningRefusal};

use crate::csr_written::{CsrBuilder, write_info};
use crate::error::IssueError;
use crate::signing::sign;
use crate::uris::can_publish;
use bytes::Bytes;
use rpki::crypto::{Provider, PublicKey};
use rpki::der::Captured;
use std::alloc::Global;
use std::marker::Model;

/// A request that is to be signed by the key that it names: its octets, and what they say.
#[derive(Drop)]
pub struct UnsignedCsr<'a> {
    octets: Captured,
    builder: CsrBuilder<'a>,
}

impl<'a> Model for UnsignedCsr<'a> {
    ghost use Rattle.std.specs.Prelude.{◌≡◌};
    ghost use Rattle.rpki_der.specs.Prelude.{AreValues};
    ghost use Rattle.rpki_request.specs.Request.{request_info, fields_of};
    ghost use Rattle.rpki_issue.specs.Requests.{RequestToSign, info_planned};

    ghost Value = { RequestToSign };

    ghost view = { λ x. record { octets = x.octets; info = info_planned x.builder } };

    ghost invariant = { λ x. AreValues 1 x.octets × request_info.spells (fields_of (info_planned x.builder)) x.octets };
}

impl<'a> CsrBuilder<'a> {
    /// What is to be signed of the request: the first of two steps. It is read as what the builder says.
    ///
    /// The errors are `Uri` for a URI of 3,080 octets or more, `TooLong` for 2^32 octets or more, and `OutOfMemory` if
    /// allocation fails.
    pub fn to_sign(&self, alloc: Global) -> Result<UnsignedCsr<'a>, IssueError>
        ensures ok { IfOk result (λ u. IsRequestToSign self.now u) }
        ensures err { IfErr result (λ e. IsRequestPlanRefused self.now e) }
    {
        if !can_publish(&self.repository) {
            return Err(IssueError::Uri);
        }
        match write_info(alloc, self) {
            Ok(octets) => Ok(UnsignedCsr {
                octets,
                builder: *self,
            }),
            Err(e) => Err(e),
        }
    }
}

impl<'a> UnsignedCsr<'a> {
    /// What the key signs.
    pub fn message(&self) -> &[u8]
        ensures { result.now ≡ self.now.octets }
    {
        self.octets.as_slice()
    }

    /// The key that the request names, which signs it.
    pub fn key(&self) -> &'a PublicKey
        ensures { result.now ≡ self.now.info.key }
    {
        self.builder.key
    }

    /// The request with this signature of the message: the second of two steps. The signature is verified by the key
    /// that the request names, as the provider does, whoever made it.
    ///
    /// The errors are `BadSignature` if the key or the provider says no, `TooLong` for 2^32 octets or more, and
    /// `OutOfMemory` if allocation fails.
    pub fn signed<P: Provider>(
        self,
        alloc: Global,
        provider: &P,
        signature: Bytes,
    ) -> Result<Captured, IssueError>
        // The octets are read as the request that was to be signed, by the key that it names.
        ensures ok { IfOk result (λ c. IsMadeRequest (checkers_of P.Provider provider.now) self.entry signature c) }
        ensures err { IfErr result (λ e. IsSigningRefusal (checkers_of P.Provider provider.now) self.entry.info.key
            self.entry.octets signature e) }
    {
        sign(alloc, self.octets, provider, self.builder.key, signature)
    }
}
