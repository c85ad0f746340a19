//! What is signed of a revocation list (RFC 5280 5.1.2, RFC 6487 5).
//!
//! ```text
//! TBSCertList ::= SEQUENCE {
//!     version              INTEGER (1),
//!     signature            AlgorithmIdentifier,
//!     issuer               Name,
//!     thisUpdate           Time,
//!     nextUpdate           Time,
//!     revokedCertificates  SEQUENCE OF SEQUENCE { userCertificate, revocationDate } OPTIONAL,
//!     crlExtensions        [0] EXPLICIT SEQUENCE OF Extension }
//! ```

ghost use Rattle.rpki_der.specs.Prelude.{left, sequence, Takes, TakesAll, TakesWhere};
ghost use Rattle.rpki_crl.specs.Crl.{entries_of, each_entry, entries, fields, tbs_cert_list};
ghost use Rattle.rpki_crl.specs.Crl.{fields_in};

use crate::crl_entry::CrlEntry;
use crate::crl_extensions::CrlExtensions;
use rpki::crypto::{RpkiSignatureAlgorithm, SignatureAlgorithm};
use rpki::der::{Constructed, DecodeError, Keep, Tag};
use rpki::repository::x509::{NameOctets, Time};
use std::alloc::Global;

/// What is signed of a revocation list.
#[derive(Drop)]
pub struct TbsCertList {
    /// The algorithm that the signature is said to have.
    pub signature: RpkiSignatureAlgorithm,
    /// The issuer.
    pub issuer: NameOctets,
    /// When the list was issued.
    pub this_update: Time,
    /// When the next list is issued at the latest.
    pub next_update: Time,
    /// The certificates that are revoked, in the order of the list; None where the list is left out.
    pub revoked_certs: Option<Vec<CrlEntry>>,
    /// What the extensions say.
    pub extensions: CrlExtensions,
}

/// The entries that these contents are, in sequence.
fn take_each_entry(
    alloc: Global,
    contents: &mut Constructed<'_>,
) -> Result<Vec<CrlEntry>, DecodeError>
    ensures { TakesAll entries_of each_entry (left contents.old) (left contents.new) result }
{
    contents.take_each(alloc, |rest| CrlEntry::take_from(rest))
}

/// The list of entries, where there is a SEQUENCE.
fn take_opt_entries(
    alloc: Global,
    cons: &mut Constructed<'_>,
) -> Result<Option<Vec<CrlEntry>>, DecodeError>
    ensures { TakesWhere sequence entries_of entries (left cons.old) (left cons.new) result }
{
    if !cons.has_tag(Tag::SEQUENCE) {
        return Ok(None);
    }
    let found = cons.in_sequence(|contents| take_each_entry(alloc, contents))?;
    Ok(Some(found))
}

impl TbsCertList {
    /// Reads what is signed: a SEQUENCE of the parts, and nothing else. A list without entries is taken, although it
    /// should be left out (RFC 5280 5.1.2.6), since authorities write one. An allocator copies what is kept of the
    /// issuer, and [Shared](rpki::der::Shared) shares it; requires that `keep` can keep parts of the rest.
    ///
    /// The errors are those of a SEQUENCE; then that of the first part that could not be read, or `Trailing` if more
    /// follows; `OutOfMemory` if allocation fails. An error leaves the cursor where it was.
    pub fn take_from<K: Keep>(
        keep: K,
        cons: &mut Constructed<'_>,
    ) -> Result<TbsCertList, DecodeError>
        requires { K.holds keep (left cons.old) }
        ensures { Takes fields_in tbs_cert_list (left cons.old) (left cons.new) result }
    {
        cons.in_sequence_with(
            keep,
            |contents, keep|
                requires { K.holds keep (left contents.old) }
                ensures { TakesAll fields_in fields (left contents.old) (left contents.new) result }
            {
                contents.skip_u8_if(1)?;
                let signature = match RpkiSignatureAlgorithm::x509_take_from(contents) {
                    Ok(signature) => signature,
                    Err(e) => return Err(e),
                };
                let issuer = NameOctets::take_from(keep, contents)?;
                let this_update = match Time::take_from(contents) {
                    Ok(time) => time,
                    Err(e) => return Err(e),
                };
                let next_update = match Time::take_from(contents) {
                    Ok(time) => time,
                    Err(e) => return Err(e),
                };
                let revoked_certs = take_opt_entries(keep.allocator(), contents)?;
                let extensions = match CrlExtensions::take_from(keep, contents) {
                    Ok(extensions) => extensions,
                    Err(e) => return Err(e),
                };
                Ok(TbsCertList {
                    signature,
                    issuer,
                    this_update,
                    next_update,
                    revoked_certs,
                    extensions,
                })
            },
        )
    }
}
