//! The texts of reasons, those too that no walk of the tests beside this meets.

use rpki::der::DecodeError;
use rpki_validation::Reason;
use std::test::Fail;

#[test]
fn reasons_have_their_texts(rt: HostRuntime) -> Result<(), Fail> {
    let rows = [
        (
            Reason::MissingAnchor,
            "RFC 8630 3: no trust anchor was fetched",
        ),
        (
            Reason::NoRepository,
            "RFC 6487 4.8.8.1: no repository is named",
        ),
        (Reason::NoManifest, "RFC 6487 4.8.8.1: no manifest is named"),
        (Reason::Missing, "RFC 9286 6.2: no manifest"),
        (Reason::NoList, "RFC 6481 2.2: not one revocation list"),
        (Reason::LongUri, "the URI of a file is too long"),
        (
            Reason::Malformed(DecodeError::Truncated),
            "malformed: truncated value",
        ),
    ];
    for (reason, text) in &rows {
        let seen = format!(in rt.alloc(); "{reason}")?;
        assert_eq!(rt; seen.as_str(), *text, "{text}");
    }
    Ok(())
}
