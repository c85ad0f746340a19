//! What is signed of a revocation list, read in place without memory (RFC 5280 5.1.2).

ghost use Rattle.std.specs.Prelude.{IfOk, IfErr};
ghost use Rattle.rpki_der.specs.Prelude.{left};
ghost use Rattle.rpki_crl.specs.Crl.{ListParts, fields, fields_of, tbs_cert_list};
ghost use Rattle.rpki_crl.specs.CrlView.{AreFieldsWrong, IsListAt, IsTbsWrong};

use crate::crl_extensions::{CrlExtensions, read_extensions};
use crate::crl_part::CrlPart;
use crate::entries::take_revoked;
use rpki::crypto::{RpkiSignatureAlgorithm, SignatureAlgorithm};
use rpki::der::{Constructed, Section, Tag};
use rpki::repository::x509::Time;
use rpki_parse::Malformed;
use rpki_x509::{inside, take_name};

/// The fields of a TBSCertList.
#[derive(Clone, Copy)]
pub struct TbsCertListView<'a> {
    /// The algorithm that the signature is said to have.
    pub signature: RpkiSignatureAlgorithm,
    /// The issuer.
    pub issuer: Section<'a>,
    /// When the list was issued.
    pub this_update: Time,
    /// When the next list is issued at the latest.
    pub next_update: Time,
    /// The certificates that are revoked, in sequence; none where the list of them is left out.
    pub revoked_certs: Section<'a>,
    /// What the extensions say.
    pub extensions: CrlExtensions,
}

/// The fields, which are the whole rest.
fn read_fields<'a>(contents: Constructed<'a>) -> Result<TbsCertListView<'a>, Malformed<CrlPart>>
    ensures ok { IfOk result (λ v. (t : ListParts) × (h : fields.spells (fields_of t) (left contents.entry))
        × IsListAt t (left contents.entry) h v) }
    ensures err { IfErr result (λ q. AreFieldsWrong (left contents.entry) q) }
{
    let mut rest = contents;
    match rest.skip_u8_if(1) {
        Ok(()) => {}
        Err(e) => return Err(Malformed {
            part: CrlPart::Version,
            error: e,
        }),
    }
    let signature = match RpkiSignatureAlgorithm::x509_take_from(&mut rest) {
        Ok(signature) => signature,
        Err(e) => return Err(Malformed {
            part: CrlPart::TbsAlgorithm,
            error: e,
        }),
    };
    let issuer = match take_name(&mut rest) {
        Ok(issuer) => issuer,
        Err(e) => return Err(Malformed {
            part: CrlPart::Issuer,
            error: e,
        }),
    };
    let this_update = match Time::take_from(&mut rest) {
        Ok(time) => time,
        Err(e) => return Err(Malformed {
            part: CrlPart::ThisUpdate,
            error: e,
        }),
    };
    let next_update = match Time::take_from(&mut rest) {
        Ok(time) => time,
        Err(e) => return Err(Malformed {
            part: CrlPart::NextUpdate,
            error: e,
        }),
    };
    let revoked_certs = match take_revoked(&mut rest) {
        Ok(entries) => entries,
        Err(e) => return Err(Malformed {
            part: CrlPart::RevokedCerts,
            error: e,
        }),
    };
    match read_extensions(rest) {
        Ok(extensions) => Ok(TbsCertListView {
            signature,
            issuer,
            this_update,
            next_update,
            revoked_certs,
            extensions,
        }),
        Err(e) => Err(Malformed {
            part: CrlPart::Extensions,
            error: e,
        }),
    }
}

/// The TBSCertList that these octets are; the sections are in them.
pub(crate) fn read_tbs<'a>(
    signed: Constructed<'a>,
) -> Result<TbsCertListView<'a>, Malformed<CrlPart>>
    ensures ok { IfOk result (λ v. (t : ListParts) × (h : tbs_cert_list.spells (fields_of t) (left signed.entry))
        × IsListAt t h.contents h.spelled v) }
    ensures err { IfErr result (λ q. IsTbsWrong (left signed.entry) q) }
{
    match inside(signed, Tag::SEQUENCE) {
        Ok(contents) => read_fields(contents),
        Err(e) => Err(Malformed {
            part: CrlPart::Tbs,
            error: e,
        }),
    }
}
