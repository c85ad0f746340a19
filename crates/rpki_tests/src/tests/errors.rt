//! Texts and comparisons of errors.

use rpki::crypto::SignatureVerificationError;
use rpki::repository::error::*;
use rpki_der::{ContentError, DecodeError};
use rpki_time::ValidityPeriodError;
use std::alloc::Global;
use std::fmt::Display;

const NAME: &str = "invalid name";

/// Whether this is the text of the value.
fn is_shown<T: Display>(alloc: Global, value: &T, text: &str) -> bool {
    match format!(in alloc; "{value}") {
        Ok(shown) => shown.as_str() == text,
        Err(_) => false,
    }
}

#[test]
fn inspections_are_contents(rt: HostRuntime) {
    let content = ContentError::from_static(NAME);
    let inspection = InspectionError::from(content);
    assert_eq!(rt; ContentError::from(inspection), content);
}

/// The five ways to one text.
#[test]
fn texts_are_passed_on(rt: HostRuntime) {
    let content = ContentError::from_static(NAME);
    let inspection = InspectionError::from(content);
    let verification = VerificationError::from(content);
    assert!(rt; is_shown(rt.alloc(), &inspection, NAME), "inspection");
    assert!(rt; is_shown(rt.alloc(), &verification, NAME), "verification");
    let decoded = DecodeError::Content(content);
    for (name, error) in [
        ("inspected", ValidationError::from(inspection)),
        ("verified", ValidationError::from(verification)),
        ("decoded", ValidationError::from(decoded)),
    ] {
        assert!(rt; is_shown(rt.alloc(), &error, NAME), "validation, {name}");
    }
}

#[test]
fn allocation_failures_are_told_apart(rt: HostRuntime) {
    let memory = ValidationError::from(DecodeError::OutOfMemory);
    assert!(rt; memory.is_out_of_memory(), "out of memory");
    let content = ContentError::from_static("out of memory");
    for other in [
        ValidationError::from(DecodeError::Truncated),
        ValidationError::from(DecodeError::Content(content)),
        ValidationError::from(InspectionError::from(content)),
        ValidationError::from(VerificationError::from(content)),
    ] {
        assert!(rt; !other.is_out_of_memory(), "{other}");
    }
}

#[test]
fn texts_of_objects_that_fail_verification(rt: HostRuntime) {
    let signature = VerificationError::from(SignatureVerificationError);
    let early = VerificationError::from(ValidityPeriodError::TooNew);
    let late = VerificationError::from(ValidityPeriodError::TooOld);
    for (error, text) in [
        (signature, "signature verification failed"),
        (early, "certificate is not yet valid"),
        (late, "certificate has expired"),
    ] {
        assert!(rt; is_shown(rt.alloc(), &error, text), "{text}");
    }
}

/// Texts, and whether errors of the same kind with these texts are equal.
#[rattlefmt::skip]
const PAIRS: &[(&str, &str, &str, bool)] = &[
    ("invalid name twice", NAME, NAME, true),
    ("invalid and missing name", NAME, "missing common name", false),
    ("missing and invalid name", "missing common name", NAME, false),
    ("missing name twice", "missing common name", "missing common name", true),
];

/// Equal where the kind and the text are.
#[test]
fn errors_are_compared(rt: HostRuntime) {
    for (name, first, second, same) in PAIRS {
        let one = ContentError::from_static(first);
        let other = ContentError::from_static(second);
        let found = InspectionError::from(one) == InspectionError::from(other);
        assert_eq!(rt; found, *same, "inspections: {name}");
        let found = VerificationError::from(one) == VerificationError::from(other);
        assert_eq!(rt; found, *same, "verifications: {name}");
    }
}

#[test]
fn validations_are_compared(rt: HostRuntime) {
    for (name, first, second, same) in PAIRS {
        let one = InspectionError::from(ContentError::from_static(first));
        let one = ValidationError::from(one);
        let other = ContentError::from_static(second);
        let inspected = ValidationError::from(InspectionError::from(other));
        assert_eq!(rt; one == inspected, *same, "inside: {name}");
        let verified = ValidationError::from(VerificationError::from(other));
        assert!(rt; one != verified, "kinds: {name}");
    }
}
