//! Names, and whether they are strict.

use super::{joined, run_over};
use std::alloc::{AllocError, Global};
use std::test::Fail;

/// A common name and an organization name, as attributes.
const COMMON_NAME_ATTRIBUTE: &[u8] = &[0x30, 0x08, 0x06, 0x03, 0x55, 0x04, 0x03, 0x13, 0x01, 0x41];

const ORGANIZATION_ATTRIBUTE: &[u8] = &[0x30, 0x08, 0x06, 0x03, 0x55, 0x04, 0x0a, 0x13, 0x01, 0x42];

/// The same two, each in a SET of its own.
const COMMON_NAME: &[u8] = &[
    0x31, 0x0a, 0x30, 0x08, 0x06, 0x03, 0x55, 0x04, 0x03, 0x13, 0x01, 0x41,
];

const ORGANIZATION: &[u8] = &[
    0x31, 0x0a, 0x30, 0x08, 0x06, 0x03, 0x55, 0x04, 0x0a, 0x13, 0x01, 0x42,
];

/// The organization name as a UTF8String.
const ORGANIZATION_IN_UTF8: &[u8] = &[
    0x31, 0x0a, 0x30, 0x08, 0x06, 0x03, 0x55, 0x04, 0x0a, 0x0c, 0x01, 0x42,
];

/// An input of `name`, in parts, and what is to be seen.
struct Inspected {
    name: &'static str,
    input: &'static [&'static [u8]],
    status: u8,
    output: &'static [u8],
    faults: &'static [u8],
}

const INSPECTED: &[Inspected] = &[
    Inspected {
        name: "an organization name and a common name",
        input: &[&[0x30, 0x18], ORGANIZATION, COMMON_NAME],
        status: 0,
        output: b"rpki yes\nrouter yes\n",
        faults: b"",
    },
    Inspected {
        name: "the same two in one SET",
        input: &[
            &[0x30, 0x16, 0x31, 0x14],
            ORGANIZATION_ATTRIBUTE,
            COMMON_NAME_ATTRIBUTE,
        ],
        status: 0,
        output: b"rpki yes\nrouter yes\n",
        faults: b"",
    },
    Inspected {
        name: "an organization name",
        input: &[&[0x30, 0x0c], ORGANIZATION],
        status: 0,
        output: b"rpki no\nrouter no\n",
        faults: b"",
    },
    Inspected {
        name: "two organization names and a common name",
        input: &[&[0x30, 0x24], ORGANIZATION, ORGANIZATION, COMMON_NAME],
        status: 0,
        output: b"rpki no\nrouter no\n",
        faults: b"",
    },
    Inspected {
        name: "an organization name that routers alone may have",
        input: &[&[0x30, 0x18], ORGANIZATION_IN_UTF8, COMMON_NAME],
        status: 0,
        output: b"rpki no\nrouter yes\n",
        faults: b"",
    },
    Inspected {
        name: "a common name",
        input: &[&[0x30, 0x0c], COMMON_NAME],
        status: 0,
        output: b"rpki yes\nrouter yes\n",
        faults: b"",
    },
    Inspected {
        name: "a name and an octet after it",
        input: &[&[0x30, 0x0c], COMMON_NAME, &[0x00]],
        status: 1,
        output: b"",
        faults: b"refused 6\n",
    },
    Inspected {
        name: "two names",
        input: &[&[0x30, 0x0c], COMMON_NAME, &[0x30, 0x0c], COMMON_NAME],
        status: 1,
        output: b"",
        faults: b"refused 6\n",
    },
    Inspected {
        name: "nothing",
        input: &[],
        status: 1,
        output: b"",
        faults: b"refused 1\n",
    },
    Inspected {
        name: "a beginning of a name",
        input: &[&[0x30, 0x0c, 0x31, 0x0a]],
        status: 1,
        output: b"",
        faults: b"refused 1\n",
    },
    Inspected {
        name: "no value",
        input: &[&[0x00, 0x00]],
        status: 1,
        output: b"",
        faults: b"refused 2\n",
    },
    Inspected {
        name: "a length in two octets where one would do",
        input: &[&[0x30, 0x81, 0x00]],
        status: 1,
        output: b"",
        faults: b"refused 3\n",
    },
    Inspected {
        name: "a SET",
        input: &[&[0x31, 0x00]],
        status: 1,
        output: b"",
        faults: b"refused 4\n",
    },
    Inspected {
        name: "an empty name",
        input: &[&[0x30, 0x00]],
        status: 1,
        output: b"",
        faults: b"refused 5\n",
    },
];

fn inspected_rows() -> &'static [Inspected] {
    INSPECTED
}

/// Whether the run over the input is seen as the row says.
fn is_seen(alloc: Global, row: &Inspected) -> Result<bool, AllocError> {
    let input = joined(alloc, row.input)?;
    let seen = run_over(alloc, &["name"], input.as_slice())?;
    Ok(seen.is(row.status, row.output, row.faults))
}

#[test]
fn names_are_inspected(rt: HostRuntime) -> Result<(), Fail> {
    for row in inspected_rows() {
        assert!(rt; is_seen(rt.alloc(), row)?, "{}", row.name);
    }
    Ok(())
}
