//! Object identifiers, by their arcs.

use rpki::oid::*;
use rpki_der::ConstOid;
use std::alloc::{AllocError, Global};
use std::test::Fail;

/// The arcs that these contents octets are (X.690 8.19).
fn arcs_of(alloc: Global, octets: &[u8]) -> Result<Vec<u64>, AllocError> {
    let mut arcs = Vec::new(alloc);
    let mut number: u64 = 0;
    for octet in octets {
        number = number
            .wrapping_mul(128)
            .wrapping_add(u64::from(*octet % 128));
        if *octet < 128 {
            if arcs.is_empty() {
                let first = if number < 80 { number / 40 } else { 2 };
                arcs.push(first)?;
                number = number.wrapping_sub(40 * first);
            }
            arcs.push(number)?;
            number = 0;
        }
    }
    Ok(arcs)
}

/// Whether these contents octets are these arcs.
fn has_arcs(alloc: Global, octets: &[u8], arcs: &[u64]) -> Result<bool, AllocError> {
    Ok(arcs_of(alloc, octets)?.as_slice() == arcs)
}

#[rattlefmt::skip]
const NAMES: &[(&str, ConstOid, &[u64])] = &[
    ("SHA256", SHA256, &[2, 16, 840, 1, 101, 3, 4, 2, 1]),
    ("RSA_ENCRYPTION", RSA_ENCRYPTION, &[1, 2, 840, 113549, 1, 1, 1]),
    ("SHA256_WITH_RSA_ENCRYPTION", SHA256_WITH_RSA_ENCRYPTION, &[1, 2, 840, 113549, 1, 1, 11]),
    ("EC_PUBLIC_KEY", EC_PUBLIC_KEY, &[1, 2, 840, 10045, 2, 1]),
    ("ECDSA_WITH_SHA256", ECDSA_WITH_SHA256, &[1, 2, 840, 10045, 4, 3, 2]),
    ("SECP256R1", SECP256R1, &[1, 2, 840, 10045, 3, 1, 7]),
    ("SIGNED_DATA", SIGNED_DATA, &[1, 2, 840, 113549, 1, 7, 2]),
    ("CONTENT_TYPE", CONTENT_TYPE, &[1, 2, 840, 113549, 1, 9, 3]),
    ("PROTOCOL_CONTENT_TYPE", PROTOCOL_CONTENT_TYPE, &[1, 2, 840, 113549, 1, 9, 16, 1, 28]),
    ("MESSAGE_DIGEST", MESSAGE_DIGEST, &[1, 2, 840, 113549, 1, 9, 4]),
    ("SIGNING_TIME", SIGNING_TIME, &[1, 2, 840, 113549, 1, 9, 5]),
    ("AA_BINARY_SIGNING_TIME", AA_BINARY_SIGNING_TIME, &[1, 2, 840, 113549, 1, 9, 16, 2, 46]),
    ("AD_CA_ISSUERS", AD_CA_ISSUERS, &[1, 3, 6, 1, 5, 5, 7, 48, 2]),
    ("AD_CA_REPOSITORY", AD_CA_REPOSITORY, &[1, 3, 6, 1, 5, 5, 7, 48, 5]),
    ("AD_RPKI_MANIFEST", AD_RPKI_MANIFEST, &[1, 3, 6, 1, 5, 5, 7, 48, 10]),
    ("AD_RPKI_NOTIFY", AD_RPKI_NOTIFY, &[1, 3, 6, 1, 5, 5, 7, 48, 13]),
    ("AD_SIGNED_OBJECT", AD_SIGNED_OBJECT, &[1, 3, 6, 1, 5, 5, 7, 48, 11]),
    ("AT_COMMON_NAME", AT_COMMON_NAME, &[2, 5, 4, 3]),
    ("AT_SERIAL_NUMBER", AT_SERIAL_NUMBER, &[2, 5, 4, 5]),
    ("AT_ORGANIZATION_NAME", AT_ORGANIZATION_NAME, &[2, 5, 4, 10]),
    ("CE_AUTHORITY_KEY_IDENTIFIER", CE_AUTHORITY_KEY_IDENTIFIER, &[2, 5, 29, 35]),
    ("CE_BASIC_CONSTRAINTS", CE_BASIC_CONSTRAINTS, &[2, 5, 29, 19]),
    ("CE_CERTIFICATE_POLICIES", CE_CERTIFICATE_POLICIES, &[2, 5, 29, 32]),
    ("CE_CRL_DISTRIBUTION_POINTS", CE_CRL_DISTRIBUTION_POINTS, &[2, 5, 29, 31]),
    ("CE_CRL_NUMBER", CE_CRL_NUMBER, &[2, 5, 29, 20]),
    ("CE_EXTENDED_KEY_USAGE", CE_EXTENDED_KEY_USAGE, &[2, 5, 29, 37]),
    ("CE_KEY_USAGE", CE_KEY_USAGE, &[2, 5, 29, 15]),
    ("CE_SUBJECT_KEY_IDENTIFIER", CE_SUBJECT_KEY_IDENTIFIER, &[2, 5, 29, 14]),
    ("CP_IPADDR_ASNUMBER", CP_IPADDR_ASNUMBER, &[1, 3, 6, 1, 5, 5, 7, 14, 2]),
    ("CP_IPADDR_ASNUMBER_V2", CP_IPADDR_ASNUMBER_V2, &[1, 3, 6, 1, 5, 5, 7, 14, 3]),
    ("CT_RPKI_MANIFEST", CT_RPKI_MANIFEST, &[1, 2, 840, 113549, 1, 9, 16, 1, 26]),
    ("CT_RESOURCE_SIGNED_CHECKLIST", CT_RESOURCE_SIGNED_CHECKLIST, &[1, 2, 840, 113549, 1, 9, 16, 1, 48]),
    ("CT_RESOURCE_TAGGED_ATTESTATION", CT_RESOURCE_TAGGED_ATTESTATION, &[1, 2, 840, 113549, 1, 9, 16, 1, 36]),
    ("CT_ASPA", CT_ASPA, &[1, 2, 840, 113549, 1, 9, 16, 1, 49]),
    ("KP_BGPSEC_ROUTER", KP_BGPSEC_ROUTER, &[1, 3, 6, 1, 5, 5, 7, 3, 30]),
    ("PE_AUTHORITY_INFO_ACCESS", PE_AUTHORITY_INFO_ACCESS, &[1, 3, 6, 1, 5, 5, 7, 1, 1]),
    ("PE_IP_ADDR_BLOCK", PE_IP_ADDR_BLOCK, &[1, 3, 6, 1, 5, 5, 7, 1, 7]),
    ("PE_IP_ADDR_BLOCK_V2", PE_IP_ADDR_BLOCK_V2, &[1, 3, 6, 1, 5, 5, 7, 1, 28]),
    ("PE_AUTONOMOUS_SYS_IDS", PE_AUTONOMOUS_SYS_IDS, &[1, 3, 6, 1, 5, 5, 7, 1, 8]),
    ("PE_AUTONOMOUS_SYS_IDS_V2", PE_AUTONOMOUS_SYS_IDS_V2, &[1, 3, 6, 1, 5, 5, 7, 1, 29]),
    ("PE_SUBJECT_INFO_ACCESS", PE_SUBJECT_INFO_ACCESS, &[1, 3, 6, 1, 5, 5, 7, 1, 11]),
    ("ROUTE_ORIGIN_AUTHZ", ROUTE_ORIGIN_AUTHZ, &[1, 2, 840, 113549, 1, 9, 16, 1, 24]),
    ("EXTENSION_REQUEST", EXTENSION_REQUEST, &[1, 2, 840, 113549, 1, 9, 14]),
];

#[test]
fn identifiers_have_arcs(rt: HostRuntime) -> Result<(), Fail> {
    for (name, identifier, arcs) in NAMES {
        assert!(rt; has_arcs(rt.alloc(), identifier.0, arcs)?, "{name}");
    }
    Ok(())
}
