//! The first value that is given.

use rpki::repository::x509::*;

/// An option, what an operation gives, and what the option is then.
const CASES: &[(&str, Option<u8>, Option<u8>, Option<u8>)] = &[
    ("none, and none", None, None, None),
    ("none, and a value", None, Some(1), Some(1)),
    ("a value, and none", Some(1), None, Some(1)),
    ("two values", Some(1), Some(2), Some(1)),
];

/// What an operation that gives this returns, and what the option is then.
fn updated(before: Option<u8>, given: Result<Option<u8>, u8>) -> (Result<(), u8>, Option<u8>) {
    let mut option = before;
    let answer = update_first(&mut option, || given);
    (answer, option)
}

#[test]
fn the_first_value_is_kept(rt: HostRuntime) {
    for (name, before, given, expected) in CASES {
        let found = updated(*before, Ok(*given));
        assert_eq!(rt; found, (Ok(()), *expected), "{name}");
    }
}

#[test]
fn a_refusal_is_passed_on(rt: HostRuntime) {
    assert_eq!(rt; updated(None, Err(7)), (Err(7), None), "none");
    assert_eq!(rt; updated(Some(1), Err(7)), (Err(7), Some(1)), "a value");
}
