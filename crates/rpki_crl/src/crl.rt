//! Certificate revocation lists (RFC 5280 5, in the profile of RFC 6487 5).

ghost use Rattle.std.specs.Prelude.{◌≡◌, ◌↔◌, ◌<ℤ◌, IfOk, IsTrue};
ghost use Rattle.jiff.specs.Words.{civil_nanos};
ghost use Rattle.rpki_der.specs.Prelude.{left, Takes, TakesWhole, CanShare};
ghost use Rattle.rpki_crl.specs.Crl.{crl, entries_in, listed, is_revoked};
ghost use Rattle.rpki_crl.specs.Serials.{AreSerials};

use crate::crl_entry::CrlEntry;
use crate::tbs_cert_list::TbsCertList;
use bytes::Bytes;
use rpki::crypto::KeyIdentifier;
use rpki::der::{Constructed, DecodeError, Keep, Shared};
use rpki::repository::x509::{NameOctets, Serial, SignedData, Time};
use rpki_x509::take_signed;
use std::alloc::{AllocError, Global};
use std::collections::BTreeSet;
use std::marker::Model;

/// A revocation list: the signed octets as they came, the signature, and what the signed octets are.
#[derive(Drop)]
pub struct Crl {
    signed_data: SignedData,
    tbs: TbsCertList,
    /// The serial numbers of the entries, once they have been asked for.
    serials: Option<BTreeSet<Serial>>,
}

impl Model for Crl {
    ghost use Rattle.std.specs.Prelude.{◌≡◌};
    ghost use Rattle.rpki_crl.specs.Crl.{CrlParts, IsListIn, crl_parts, list_of};
    ghost use Rattle.rpki_crl.specs.Serials.{IsKeptList};

    ghost Value = { CrlParts };

    ghost view = { λ x. crl_parts x.signed_data (list_of x.tbs) };

    ghost invariant = { λ x. IsKeptList (crl_parts x.signed_data (list_of x.tbs)) x.signed_data x.serials };
}

/// Whether an entry has this serial number.
fn has_serial(entries: &[CrlEntry], serial: Serial) -> bool
    ensures { result ≡ is_revoked serial (entries_in entries.now) }
{
    'entries: for entry in entries {
        if entry.user_certificate == serial {
            return true;
        }
    }
    false
}

/// The serial numbers of the entries.
fn serials_of(alloc: Global, entries: &[CrlEntry]) -> Result<BTreeSet<Serial>, AllocError>
    ensures { IfOk result (λ set. AreSerials set (entries_in entries.now)) }
{
    let mut serials = BTreeSet::new(alloc);
    'entries: for entry in entries {
        serials.insert(entry.user_certificate)?;
    }
    Ok(serials)
}

impl Crl {
    /// A revocation list: signed data whose signed value is a [TbsCertList] that names the same algorithm
    /// (RFC 5280 5.1.1.2). No bit of the signature is unused. An allocator copies the signed value and the signature,
    /// and [Shared](rpki::der::Shared) shares them; requires that `keep` can keep parts of the rest.
    ///
    /// The errors are those of signed data; then `Content` with the text `signature has unused bits`; then those of
    /// [TbsCertList::take_from] for what is signed; then `Content` with the text `signature algorithms differ`; and
    /// `OutOfMemory` if allocation fails. An error leaves the cursor where it was.
    pub fn take_from<K: Keep>(keep: K, cons: &mut Constructed<'_>) -> Result<Crl, DecodeError>
        requires { K.holds keep (left cons.old) }
        ensures { Takes (λ x. x) crl (left cons.old) (left cons.new) result }
    {
        let mut after = *cons;
        let signed_data = take_signed(keep, &mut after)?;
        let data = signed_data.data();
        let mut signed = data.cursor();
        let tbs = TbsCertList::take_from(data.shared(keep.allocator()), &mut signed)?;
        signed.finish()?;
        if tbs.signature.has_parameters() != signed_data.signature().algorithm().has_parameters() {
            return Err(DecodeError::content("signature algorithms differ"));
        }
        *cons = after;
        Ok(Crl {
            signed_data,
            tbs,
            serials: None,
        })
    }

    /// A revocation list, and nothing else. It shares the octets.
    ///
    /// The errors are those of [Crl::take_from]; then `Trailing` if something follows the list.
    pub fn decode(alloc: Global, bytes: Bytes) -> Result<Crl, DecodeError>
        ensures { TakesWhole (λ x. x) crl bytes result }
    {
        Constructed::new(&bytes).whole_with(
            Shared::new(alloc, &bytes),
            |cons, keep|
                requires { CanShare keep (left cons.old) }
            { Crl::take_from(keep, cons) },
        )
    }

    /// The signed data: the signed octets as they came, and the signature.
    pub fn signed_data(&self) -> &SignedData
        ensures { result.now ≡ self.now.signed }
    {
        &self.signed_data
    }

    /// The issuer.
    pub fn issuer(&self) -> &NameOctets
        ensures { result.now ≡ self.now.list.issuer }
    {
        &self.tbs.issuer
    }

    /// When the list was issued.
    pub fn this_update(&self) -> Time
        ensures { result ≡ self.now.list.this_update }
    {
        self.tbs.this_update
    }

    /// When the next list is issued at the latest.
    pub fn next_update(&self) -> Time
        ensures { result ≡ self.now.list.next_update }
    {
        self.tbs.next_update
    }

    /// The identifier of the key that signed the list.
    pub fn authority_key_identifier(&self) -> KeyIdentifier
        ensures { result ≡ self.now.list.extensions.authority }
    {
        self.tbs.extensions.authority_key_identifier
    }

    /// The number of the list.
    pub fn crl_number(&self) -> Serial
        ensures { result ≡ self.now.list.extensions.number }
    {
        self.tbs.extensions.crl_number
    }

    /// The certificates that are revoked, in the order of the list; none where it is left out.
    pub fn revoked_certs(&self) -> &[CrlEntry]
        ensures { entries_in result.now ≡ listed self.now.list.revoked }
    {
        match &self.tbs.revoked_certs {
            Some(entries) => entries,
            None => &[],
        }
    }

    /// Keeps the serial numbers of the entries as a set, so that [Crl::contains] takes log n steps for n entries. What
    /// the list says stays as it is.
    ///
    /// The error comes if allocation fails; then nothing is kept.
    pub fn cache_serials(&mut self, alloc: Global) -> Result<(), AllocError>
        ensures { self.new ≡ self.old }
    {
        let serials = serials_of(alloc, self.revoked_certs())?;
        self.serials = Some(serials);
        Ok(())
    }

    /// Whether the list has a certificate of this serial number. Allocates nothing; takes log n steps for n entries
    /// after [Crl::cache_serials], and else a step an entry.
    pub fn contains(&self, serial: Serial) -> bool
        ensures { result ≡ is_revoked serial (listed self.now.list.revoked) }
    {
        match &self.serials {
            Some(serials) => serials.contains(&serial),
            None => has_serial(self.revoked_certs(), serial),
        }
    }

    /// Whether the next list was due before the moment, so that this one may lack certificates that are revoked.
    pub fn is_stale(&self, at: Time) -> bool
        ensures { IsTrue result ↔ (civil_nanos self.now.list.next_update <ℤ civil_nanos at) }
    {
        self.next_update() < at
    }
}
