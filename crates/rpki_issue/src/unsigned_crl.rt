//! A revocation list in two steps: what is to be signed, and then its signature (RFC 5280 5.1, RFC 6487 5).

ghost use Rattle.std.specs.Prelude.{◌≡◌, ◌↔◌, IsTrue, IfOk, IfErr};
ghost use Rattle.rpki.specs.Checkers.{checkers_of};
ghost use Rattle.rpki_crl.specs.Crl.{list_of};
ghost use Rattle.rpki_issue.specs.Signing.{IsSigningRefusal};
ghost use Rattle.rpki_issue.specs.SignedList.{IsListOrdered, IsListToSign, IsListPlanRefused, IsIssuedList};

use crate::crl_written::write_list;
use crate::doubled::are_once;
use crate::error::IssueError;
use crate::signing::sign;
use bytes::Bytes;
use rpki::crypto::{Provider, PublicKey};
use rpki::der::Captured;
use rpki_crl::TbsCertList;
use std::alloc::Global;
use std::marker::Model;

/// A revocation list that is to be signed: its octets, and what it says.
#[derive(Drop)]
pub struct UnsignedCrl {
    octets: Captured,
    list: TbsCertList,
}

impl Model for UnsignedCrl {
    ghost use Rattle.std.specs.Prelude.{◌≡◌};
    ghost use Rattle.rpki_crl.specs.Crl.{list_of};
    ghost use Rattle.rpki_crl.specs.EncodedCrl.{list_octets, IsListReadBack};
    ghost use Rattle.rpki_issue.specs.SignedList.{ListToSign};

    ghost Value = { ListToSign };

    ghost view = { λ x. record { octets = x.octets; list = list_of x.list } };

    ghost invariant = { λ x. (x.octets ≡ list_octets (list_of x.list)) × IsListReadBack (list_of x.list) };
}

/// Whether the next list is issued no earlier than this one.
fn is_ordered(list: &TbsCertList) -> bool
    ensures { IsTrue result ↔ IsListOrdered (list_of list.now) }
{
    list.this_update <= list.next_update
}

impl UnsignedCrl {
    /// What is to be signed of the list: the first of two steps. It is read as the list, with parameters of the
    /// algorithm and without parts of a second.
    ///
    /// The errors are `Period` if the next list is to be issued before this one, `Doubled` if two entries have the same
    /// serial number, which n log n steps find for n entries, `TooLong` for 2^32 octets or more, and `OutOfMemory` if
    /// allocation fails.
    pub fn new(alloc: Global, list: TbsCertList) -> Result<UnsignedCrl, IssueError>
        ensures ok { IfOk result (λ u. IsListToSign (list_of list) u) }
        ensures err { IfErr result (λ e. IsListPlanRefused (list_of list) e) }
    {
        if !is_ordered(&list) {
            return Err(IssueError::Period);
        }
        if !are_once(alloc, &list.revoked_certs)? {
            return Err(IssueError::Doubled);
        }
        match write_list(alloc, &list) {
            Ok(octets) => Ok(UnsignedCrl { octets, list }),
            Err(e) => Err(e),
        }
    }

    /// What the issuer's key signs.
    pub fn message(&self) -> &[u8]
        ensures { result.now ≡ self.now.octets }
    {
        self.octets.as_slice()
    }

    /// The list.
    pub fn list(&self) -> &TbsCertList
        ensures { list_of result.now ≡ self.now.list }
    {
        &self.list
    }

    /// The list with this signature of the message: the second of two steps. The signature is verified by the issuer's
    /// key, as the provider does, whoever made it.
    ///
    /// The errors are `BadSignature` if the key or the provider says no, `TooLong` for 2^32 octets or more, and
    /// `OutOfMemory` if allocation fails.
    pub fn signed<P: Provider>(
        self,
        alloc: Global,
        provider: &P,
        key: &PublicKey,
        signature: Bytes,
    ) -> Result<Captured, IssueError>
        // The octets are read as the list that was to be signed.
        ensures ok { IfOk result (λ c. IsIssuedList (checkers_of P.Provider provider.now) key.now self signature c) }
        ensures err { IfErr result (λ e. IsSigningRefusal (checkers_of P.Provider provider.now) key.now self.octets
            signature e) }
    {
        sign(alloc, self.octets, provider, key, signature)
    }
}
