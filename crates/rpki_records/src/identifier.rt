//! Object identifiers of the types of contents, by their contents octets (X.690 8.19).

use rpki_der::{ConstOid, Oid};

/// The content type of Ghostbusters records: `id-ct-rpkiGhostbusters`, 1.2.840.113549.1.9.16.1.35 (RFC 6493 5).
pub const CT_RPKI_GHOSTBUSTERS: ConstOid = Oid(&[42, 134, 72, 134, 247, 13, 1, 9, 16, 1, 35]);

/// The content type of signed checklists: `id-ct-signedChecklist`, 1.2.840.113549.1.9.16.1.48 (RFC 9323 3).
pub const CT_SIGNED_CHECKLIST: ConstOid = Oid(&[42, 134, 72, 134, 247, 13, 1, 9, 16, 1, 48]);

/// The content type of trust anchor keys: `id-ct-signedTAL`, 1.2.840.113549.1.9.16.1.50 (RFC 9691 3.1).
pub const CT_SIGNED_TAL: ConstOid = Oid(&[42, 134, 72, 134, 247, 13, 1, 9, 16, 1, 50]);
