//! Both steps at once, by a signer: it holds the keys, and what it returns is verified.

ghost use Rattle.std.specs.Prelude.{IfOk, IfErr};
ghost use Rattle.rpki.specs.Checkers.{checkers_of};
ghost use Rattle.rpki_issue.specs.Signers.{IsSignedCert, IsSignedList, IsSignedObject, IsSignerRefusal};
ghost use Rattle.rpki_issue.specs.Signers.{IsObjectSignerRefusal};
ghost use Rattle.rpki_issue.specs.Requests.{IsSignedRequest, IsRequestSignerRefusal};

use crate::error::IssueError;
use crate::unsigned_cert::UnsignedCert;
use crate::unsigned_crl::UnsignedCrl;
use crate::unsigned_csr::UnsignedCsr;
use crate::unsigned_object::UnsignedObject;
use bytes::Bytes;
use rpki::crypto::{Provider, PublicKey};
use rpki::der::Captured;
use std::alloc::Global;

/// Who holds a private key, as a hardware module. It is believed nothing.
pub trait Signer {
    /// Why it returns no signature.
    type Error;

    /// The signature of the message by RSA with SHA-256, as PKCS #1 v1.5 has it (RFC 7935 2).
    ///
    /// The error is the signer's own.
    fn sign(&mut self, message: &[u8]) -> Result<Bytes, Self::Error>;
}

/// Why nothing is issued by a signer.
#[derive(Debug, Drop)]
pub enum SigningError<E> {
    /// There is no signature, as the signer says.
    Signer(E),
    /// What the second step refuses.
    Refused(IssueError),
}

impl UnsignedCert {
    /// The certificate, with a signature by the signer: [UnsignedCert::signed] of what it returns.
    ///
    /// The errors are the signer's, and those of [UnsignedCert::signed].
    pub fn signed_with<S: Signer, P: Provider>(
        self,
        alloc: Global,
        provider: &P,
        key: &PublicKey,
        signer: &mut S,
    ) -> Result<Captured, SigningError<S::Error>>
        ensures ok { IfOk result (λ c. IsSignedCert (checkers_of P.Provider provider.now) key.now self c) }
        ensures err { IfErr result (λ e. IsSignerRefusal (checkers_of P.Provider provider.now) key.now self.octets e) }
    {
        match signer.sign(self.message()) {
            Ok(signature) => match self.signed(alloc, provider, key, signature) {
                Ok(made) => Ok(made),
                Err(e) => Err(SigningError::Refused(e)),
            },
            Err(e) => Err(SigningError::Signer(e)),
        }
    }
}

impl UnsignedCrl {
    /// The list, with a signature by the signer: [UnsignedCrl::signed] of what it returns.
    ///
    /// The errors are the signer's, and those of [UnsignedCrl::signed].
    pub fn signed_with<S: Signer, P: Provider>(
        self,
        alloc: Global,
        provider: &P,
        key: &PublicKey,
        signer: &mut S,
    ) -> Result<Captured, SigningError<S::Error>>
        ensures ok { IfOk result (λ c. IsSignedList (checkers_of P.Provider provider.now) key.now self c) }
        ensures err { IfErr result (λ e. IsSignerRefusal (checkers_of P.Provider provider.now) key.now self.octets e) }
    {
        match signer.sign(self.message()) {
            Ok(signature) => match self.signed(alloc, provider, key, signature) {
                Ok(made) => Ok(made),
                Err(e) => Err(SigningError::Refused(e)),
            },
            Err(e) => Err(SigningError::Signer(e)),
        }
    }
}

impl<'a> UnsignedObject<'a> {
    /// The object, with a signature by the signer: [UnsignedObject::signed] of what it returns.
    ///
    /// The errors are the signer's, and those of [UnsignedObject::signed].
    pub fn signed_with<S: Signer, P: Provider>(
        self,
        alloc: Global,
        provider: &P,
        certificate: &Captured,
        signer: &mut S,
    ) -> Result<Captured, SigningError<S::Error>>
        ensures ok { IfOk result (λ c. IsSignedObject (checkers_of P.Provider provider.now) self.entry certificate.now
            c) }
        ensures err { IfErr result (λ e. IsObjectSignerRefusal (checkers_of P.Provider provider.now) self.entry
            certificate.now e) }
    {
        match signer.sign(self.message()) {
            Ok(signature) => match self.signed(alloc, provider, certificate, signature) {
                Ok(made) => Ok(made),
                Err(e) => Err(SigningError::Refused(e)),
            },
            Err(e) => Err(SigningError::Signer(e)),
        }
    }
}

impl<'a> UnsignedCsr<'a> {
    /// The request, with a signature by the signer: [UnsignedCsr::signed] of what it returns.
    ///
    /// The errors are the signer's, and those of [UnsignedCsr::signed].
    pub fn signed_with<S: Signer, P: Provider>(
        self,
        alloc: Global,
        provider: &P,
        signer: &mut S,
    ) -> Result<Captured, SigningError<S::Error>>
        ensures ok { IfOk result (λ c. IsSignedRequest (checkers_of P.Provider provider.now) self.entry c) }
        ensures err { IfErr result (λ e. IsRequestSignerRefusal (checkers_of P.Provider provider.now) self.entry e) }
    {
        match signer.sign(self.message()) {
            Ok(signature) => match self.signed(alloc, provider, signature) {
                Ok(made) => Ok(made),
                Err(e) => Err(SigningError::Refused(e)),
            },
            Err(e) => Err(SigningError::Signer(e)),
        }
    }
}
