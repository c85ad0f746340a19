//! Requests for the certificates of authorities (RFC 2986 4.2, RFC 6487 6).

ghost use Rattle.std.specs.Prelude.{◌≡◌, ◌↔◌, Some, None, IfSome, IfNone, IsOk};
ghost use Rattle.rpki_der.specs.Prelude.{left, Takes, TakesWhole, CanShare};
ghost use Rattle.rpki.specs.Checkers.{checkers_of};
ghost use Rattle.rpki_request.specs.Request.{request, IsOwnSignature};

use crate::info::RequestInfo;
use bytes::Bytes;
use rpki::crypto::{Provider, PublicKey, SignatureVerificationError};
use rpki::der::{Constructed, DecodeError, Keep, Shared};
use rpki::repository::x509::{NameOctets, SignedData};
use rpki::uri::{Https, Rsync};
use rpki_cert::KeyUsage;
use rpki_x509::take_signed;
use std::alloc::Global;
use std::marker::Model;

/// A request: the signed octets as they came, the signature, and what the signed octets are.
#[derive(Drop)]
pub struct Csr {
    signed_data: SignedData,
    info: RequestInfo,
}

impl Model for Csr {
    ghost use Rattle.rpki_request.specs.Request.{RequestParts, request_parts, info_of};

    ghost Value = { RequestParts };

    ghost view = { λ x. request_parts x.signed_data (info_of x.info) };
}

impl Csr {
    /// A request: signed data whose signed value is a [RequestInfo](crate::RequestInfo). No bit of the signature is
    /// unused. An allocator copies what is kept, and [Shared](rpki::der::Shared) shares it; requires that `keep` can
    /// keep parts of the rest.
    ///
    /// The errors are those of signed data; `Content` with the text `signature has unused bits`; those of
    /// [RequestInfo::take_from](crate::RequestInfo::take_from) for what is signed; and `OutOfMemory` if allocation
    /// fails. An error leaves the cursor where it was.
    pub fn take_from<K: Keep>(keep: K, cons: &mut Constructed<'_>) -> Result<Csr, DecodeError>
        requires { K.holds keep (left cons.old) }
        ensures { Takes (λ x. x) request (left cons.old) (left cons.new) result }
    {
        let mut after = *cons;
        let signed_data = take_signed(keep, &mut after)?;
        let data = signed_data.data();
        let mut signed = data.cursor();
        let info = RequestInfo::take_from(data.shared(keep.allocator()), &mut signed)?;
        signed.finish()?;
        *cons = after;
        Ok(Csr { signed_data, info })
    }

    /// A request, and nothing else. It shares the octets.
    ///
    /// The errors are those of [Csr::take_from]; then `Trailing` if something follows the request.
    pub fn decode(alloc: Global, bytes: Bytes) -> Result<Csr, DecodeError>
        ensures { TakesWhole (λ x. x) request bytes result }
    {
        Constructed::new(&bytes).whole_with(
            Shared::new(alloc, &bytes),
            |cons, keep|
                requires { CanShare keep (left cons.old) }
            { Csr::take_from(keep, cons) },
        )
    }

    /// The signed data: the signed octets as they came, and the signature.
    pub fn signed_data(&self) -> &SignedData
        ensures { result.now ≡ self.now.signed }
    {
        &self.signed_data
    }

    /// The subject; None where the issuer is to name it.
    pub fn subject(&self) -> Option<&NameOctets>
        ensures some { IfSome result (λ n. self.now.info.subject ≡ Some n.now) }
        ensures none { IfNone result (self.now.info.subject ≡ None) }
    {
        self.info.subject.as_ref()
    }

    /// The subject's key.
    pub fn public_key(&self) -> &PublicKey
        ensures { result.now ≡ self.now.info.key }
    {
        &self.info.key
    }

    /// The use of the key, where it is asked for: that of an authority.
    pub fn key_usage(&self) -> Option<KeyUsage>
        ensures { result ≡ self.now.info.asked.usage }
    {
        self.info.asked.key_usage
    }

    /// The folder of the objects of the authority (RFC 6487 4.8.8.1).
    pub fn ca_repository(&self) -> &Rsync
        ensures { result.now ≡ self.now.info.asked.repository.base }
    {
        &self.info.asked.ca_repository
    }

    /// The manifest of the authority (RFC 6487 4.8.8.1).
    pub fn rpki_manifest(&self) -> &Rsync
        ensures { result.now ≡ self.now.info.asked.repository.manifest }
    {
        &self.info.asked.rpki_manifest
    }

    /// Where changes of the repository are told, if the request says so (RFC 8182 3.2).
    pub fn rpki_notify(&self) -> Option<&Https>
        ensures some { IfSome result (λ u. self.now.info.asked.repository.notification ≡ Some u.now) }
        ensures none { IfNone result (self.now.info.asked.repository.notification ≡ None) }
    {
        self.info.asked.rpki_notify.as_ref()
    }

    /// Checks that the key that the request names has signed it, as the provider says: who asks has the private key
    /// (RFC 2986 3).
    ///
    /// Returns an error if the key is of another format than the algorithm's, or if the provider says no.
    pub fn verify_signature<P: Provider>(
        &self,
        provider: &P,
    ) -> Result<(), SignatureVerificationError>
        ensures { IsOk result ↔ IsOwnSignature (checkers_of P.Provider provider.now) self.now }
    {
        self.signed_data.verify_signature(provider, &self.info.key)
    }
}
