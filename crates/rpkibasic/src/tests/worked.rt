//! Worked runs.

use super::{
    CRITICAL, FALSE_LEFT_OUT, FALSE_SPELLED, RSA_WITH_PARAMETERS, RSA_WITHOUT_PARAMETERS,
    USAGE_LINE, WITH_PARAMETERS, WITHOUT_PARAMETERS, joined, run_over,
};
use std::alloc::{AllocError, Global};
use std::test::Fail;

/// A run, and what is to be seen of it.
struct Case {
    name: &'static str,
    words: &'static [&'static str],
    input: &'static [&'static [u8]],
    status: u8,
    output: &'static [&'static [u8]],
    faults: &'static [u8],
}

/// Whether the run is seen as the case says.
fn is_seen(alloc: Global, case: &Case) -> Result<bool, AllocError> {
    let input = joined(alloc, case.input)?;
    let output = joined(alloc, case.output)?;
    let seen = run_over(alloc, case.words, input.as_slice())?;
    Ok(seen.is(case.status, output.as_slice(), case.faults))
}

/// The name of the first of the runs that is not seen as its case says.
fn wrong_run(alloc: Global, cases: &[Case]) -> Result<Option<&'static str>, AllocError> {
    for case in cases {
        if !is_seen(alloc, case)? {
            return Ok(Some(case.name));
        }
    }
    Ok(None)
}

const AGAIN: &[Case] = &[
    Case {
        name: "signed data",
        words: &["again"],
        input: &[
            &[0x30, 0x15, 0x30, 0x00],
            WITH_PARAMETERS,
            &[0x03, 0x02, 0x00, 0xaa],
        ],
        status: 0,
        output: &[
            &[0x30, 0x15, 0x30, 0x00],
            WITH_PARAMETERS,
            &[0x03, 0x02, 0x00, 0xaa],
        ],
        faults: b"",
    },
    Case {
        name: "an octet after signed data",
        words: &["again"],
        input: &[
            &[0x30, 0x15, 0x30, 0x00],
            WITH_PARAMETERS,
            &[0x03, 0x02, 0x00, 0xaa, 0x00],
        ],
        status: 1,
        output: &[],
        faults: b"refused 6\n",
    },
    Case {
        name: "an algorithm without parameters",
        words: &["again"],
        input: &[
            &[0x30, 0x13, 0x30, 0x00],
            WITHOUT_PARAMETERS,
            &[0x03, 0x02, 0x00, 0xaa],
        ],
        status: 0,
        output: &[
            &[0x30, 0x15, 0x30, 0x00],
            WITH_PARAMETERS,
            &[0x03, 0x02, 0x00, 0xaa],
        ],
        faults: b"",
    },
    Case {
        name: "one unused bit",
        words: &["again"],
        input: &[
            &[0x30, 0x15, 0x30, 0x00],
            WITH_PARAMETERS,
            &[0x03, 0x02, 0x01, 0xaa],
        ],
        status: 0,
        output: &[
            &[0x30, 0x15, 0x30, 0x00],
            WITH_PARAMETERS,
            &[0x03, 0x02, 0x00, 0xaa],
        ],
        faults: b"",
    },
    Case {
        name: "unused bits that are not zero",
        words: &["again"],
        input: &[
            &[0x30, 0x15, 0x30, 0x00],
            WITH_PARAMETERS,
            &[0x03, 0x02, 0x02, 0xaa],
        ],
        status: 1,
        output: &[],
        faults: b"refused 5\n",
    },
    Case {
        name: "a value that passes the end of the one around it",
        words: &["again"],
        input: &[
            &[0x30, 0x17, 0x30, 0x02, 0x04, 0x05],
            WITH_PARAMETERS,
            &[0x03, 0x02, 0x00, 0xaa],
        ],
        status: 1,
        output: &[],
        faults: b"refused 1\n",
    },
    Case {
        name: "signed data with an empty INTEGER",
        words: &["again"],
        input: &[
            &[0x30, 0x17, 0x30, 0x02, 0x02, 0x00],
            WITH_PARAMETERS,
            &[0x03, 0x02, 0x00, 0xaa],
        ],
        status: 0,
        output: &[
            &[0x30, 0x17, 0x30, 0x02, 0x02, 0x00],
            WITH_PARAMETERS,
            &[0x03, 0x02, 0x00, 0xaa],
        ],
        faults: b"",
    },
    Case {
        name: "no tag",
        words: &["again"],
        input: &[&[0x00, 0x00]],
        status: 1,
        output: &[],
        faults: b"refused 2\n",
    },
    Case {
        name: "a SET",
        words: &["again"],
        input: &[&[0x31, 0x00]],
        status: 1,
        output: &[],
        faults: b"refused 4\n",
    },
    Case {
        name: "a length in two octets where one would do",
        words: &["again"],
        input: &[&[0x30, 0x81, 0x00]],
        status: 1,
        output: &[],
        faults: b"refused 3\n",
    },
];

fn again_rows() -> &'static [Case] {
    AGAIN
}

#[test]
fn signed_data_is_written_again(rt: HostRuntime) -> Result<(), Fail> {
    assert_eq!(rt; wrong_run(rt.alloc(), again_rows())?, None);
    Ok(())
}

const DATA: &[Case] = &[
    Case {
        name: "what is signed",
        words: &["data"],
        input: &[
            &[0x30, 0x15, 0x30, 0x00],
            WITH_PARAMETERS,
            &[0x03, 0x02, 0x00, 0xaa],
        ],
        status: 0,
        output: &[&[0x30, 0x00]],
        faults: b"",
    },
    Case {
        name: "what is signed, with an empty INTEGER",
        words: &["data"],
        input: &[
            &[0x30, 0x17, 0x30, 0x02, 0x02, 0x00],
            WITH_PARAMETERS,
            &[0x03, 0x02, 0x00, 0xaa],
        ],
        status: 0,
        output: &[&[0x30, 0x02, 0x02, 0x00]],
        faults: b"",
    },
    Case {
        name: "an octet after signed data",
        words: &["data"],
        input: &[
            &[0x30, 0x15, 0x30, 0x00],
            WITH_PARAMETERS,
            &[0x03, 0x02, 0x00, 0xaa, 0x00],
        ],
        status: 1,
        output: &[],
        faults: b"refused 6\n",
    },
    Case {
        name: "nothing",
        words: &["data"],
        input: &[],
        status: 1,
        output: &[],
        faults: b"refused 1\n",
    },
];

fn data_rows() -> &'static [Case] {
    DATA
}

#[test]
fn what_is_signed_is_written(rt: HostRuntime) -> Result<(), Fail> {
    assert_eq!(rt; wrong_run(rt.alloc(), data_rows())?, None);
    Ok(())
}

const KEY: &[Case] = &[
    Case {
        name: "nothing",
        words: &["key"],
        input: &[],
        status: 1,
        output: &[],
        faults: b"refused 1\n",
    },
    Case {
        name: "an RSA key",
        words: &["key"],
        input: &[
            &[0x30, 0x15],
            RSA_WITH_PARAMETERS,
            &[0x03, 0x04, 0x00, 0x61, 0x62, 0x63],
        ],
        status: 0,
        output: &[b"A9993E364706816ABA3E25717850C26C9CD0D89D\n"],
        faults: b"",
    },
    Case {
        name: "an octet after a key",
        words: &["key"],
        input: &[
            &[0x30, 0x15],
            RSA_WITH_PARAMETERS,
            &[0x03, 0x04, 0x00, 0x61, 0x62, 0x63, 0x00],
        ],
        status: 1,
        output: &[],
        faults: b"refused 6\n",
    },
    Case {
        name: "a SET",
        words: &["key"],
        input: &[&[0x31, 0x00]],
        status: 1,
        output: &[],
        faults: b"refused 4\n",
    },
    Case {
        name: "a length in two octets where one would do",
        words: &["key"],
        input: &[&[0x30, 0x81, 0x00]],
        status: 1,
        output: &[],
        faults: b"refused 3\n",
    },
    Case {
        name: "an RSA key without bits",
        words: &["key"],
        input: &[&[0x30, 0x12], RSA_WITH_PARAMETERS, &[0x03, 0x01, 0x00]],
        status: 0,
        output: &[b"DA39A3EE5E6B4B0D3255BFEF95601890AFD80709\n"],
        faults: b"",
    },
    Case {
        name: "an RSA key without parameters and bits",
        words: &["key"],
        input: &[&[0x30, 0x10], RSA_WITHOUT_PARAMETERS, &[0x03, 0x01, 0x00]],
        status: 0,
        output: &[b"DA39A3EE5E6B4B0D3255BFEF95601890AFD80709\n"],
        faults: b"",
    },
];

fn key_rows() -> &'static [Case] {
    KEY
}

#[test]
fn keys_are_identified(rt: HostRuntime) -> Result<(), Fail> {
    assert_eq!(rt; wrong_run(rt.alloc(), key_rows())?, None);
    Ok(())
}

const URI: &[Case] = &[
    Case {
        name: "nothing",
        words: &["uri"],
        input: &[],
        status: 1,
        output: &[],
        faults: b"refused 4\n",
    },
    Case {
        name: "an rsync URI and a line feed",
        words: &["uri"],
        input: &[b"rSync://hOst/module/foo/bar\n"],
        status: 0,
        output: &[b"scheme rsync\nauthority host\nmodule module\npath foo/bar\n"],
        faults: b"",
    },
    Case {
        name: "an rsync URI without a path",
        words: &["uri"],
        input: &[b"rsync://host/module/"],
        status: 0,
        output: &[b"scheme rsync\nauthority host\nmodule module\npath \n"],
        faults: b"",
    },
    Case {
        name: "an rsync URI without an authority",
        words: &["uri"],
        input: &[b"rsync:///module/foo"],
        status: 1,
        output: &[],
        faults: b"refused 6\n",
    },
    Case {
        name: "an rsync URI without a slash after its module",
        words: &["uri"],
        input: &[b"rsync://host/module"],
        status: 1,
        output: &[],
        faults: b"refused 2\n",
    },
    Case {
        name: "a segment of two dots",
        words: &["uri"],
        input: &[b"rsync://host/module/foo/bar/.."],
        status: 1,
        output: &[],
        faults: b"refused 5\n",
    },
    Case {
        name: "an https URI",
        words: &["uri"],
        input: &[b"https://example.com/some"],
        status: 0,
        output: &[b"scheme https\nauthority example.com\npath /some\n"],
        faults: b"",
    },
    Case {
        name: "an https URI without a path, and a line feed",
        words: &["uri"],
        input: &[b"https://HOST\n"],
        status: 0,
        output: &[b"scheme https\nauthority host\npath \n"],
        faults: b"",
    },
    Case {
        name: "an https URI in upper case, and a line feed",
        words: &["uri"],
        input: &[b"HTTPS://Example.COM\n"],
        status: 0,
        output: &[b"scheme https\nauthority example.com\npath \n"],
        faults: b"",
    },
    Case {
        name: "two line feeds",
        words: &["uri"],
        input: &[b"rsync://host/module/a\n\n"],
        status: 1,
        output: &[],
        faults: b"refused 1\n",
    },
    Case {
        name: "another scheme",
        words: &["uri"],
        input: &[b"http://example.com/"],
        status: 1,
        output: &[],
        faults: b"refused 4\n",
    },
];

fn uri_rows() -> &'static [Case] {
    URI
}

#[test]
fn uris_are_shown(rt: HostRuntime) -> Result<(), Fail> {
    assert_eq!(rt; wrong_run(rt.alloc(), uri_rows())?, None);
    Ok(())
}

const EXT: &[Case] = &[
    Case {
        name: "a FALSE that DER leaves out",
        words: &["ext"],
        input: &[FALSE_SPELLED],
        status: 0,
        output: &[FALSE_LEFT_OUT],
        faults: b"",
    },
    Case {
        name: "a critical extension",
        words: &["ext"],
        input: &[CRITICAL],
        status: 0,
        output: &[CRITICAL],
        faults: b"",
    },
    Case {
        name: "an extension without octets",
        words: &["ext"],
        input: &[b"\x30\x07\x06\x03\x55\x1d\x0e\x04\x00"],
        status: 0,
        output: &[b"\x30\x07\x06\x03\x55\x1d\x0e\x04\x00"],
        faults: b"",
    },
    Case {
        name: "two extensions",
        words: &["ext"],
        input: &[FALSE_SPELLED, CRITICAL],
        status: 0,
        output: &[FALSE_LEFT_OUT, CRITICAL],
        faults: b"",
    },
    Case {
        name: "no extension",
        words: &["ext"],
        input: &[],
        status: 0,
        output: &[],
        faults: b"",
    },
    Case {
        name: "a BOOLEAN of 1",
        words: &["ext"],
        input: &[&[
            0x30, 0x0c, 0x06, 0x03, 0x55, 0x1d, 0x13, 0x01, 0x01, 0x01, 0x04, 0x02, 0x30, 0x00,
        ]],
        status: 1,
        output: &[],
        faults: b"refused 5\n",
    },
    Case {
        name: "an extension, and then octets that are none",
        words: &["ext"],
        input: &[CRITICAL, &[0x30, 0x05, 0x06, 0x03, 0x55, 0x1d, 0x13]],
        status: 1,
        output: &[],
        faults: b"refused 1\n",
    },
    Case {
        name: "an identifier alone",
        words: &["ext"],
        input: &[&[0x30, 0x05, 0x06, 0x03, 0x55, 0x1d, 0x13]],
        status: 1,
        output: &[],
        faults: b"refused 1\n",
    },
    Case {
        name: "a NULL after the parts of an extension",
        words: &["ext"],
        input: &[&[
            0x30, 0x0b, 0x06, 0x03, 0x55, 0x1d, 0x13, 0x04, 0x02, 0x30, 0x00, 0x05, 0x00,
        ]],
        status: 1,
        output: &[],
        faults: b"refused 6\n",
    },
    Case {
        name: "a SET",
        words: &["ext"],
        input: &[&[0x31, 0x00]],
        status: 1,
        output: &[],
        faults: b"refused 4\n",
    },
];

fn ext_rows() -> &'static [Case] {
    EXT
}

#[test]
fn extensions_are_written(rt: HostRuntime) -> Result<(), Fail> {
    assert_eq!(rt; wrong_run(rt.alloc(), ext_rows())?, None);
    Ok(())
}

const WORDS: &[Case] = &[
    Case {
        name: "no words",
        words: &[],
        input: &[&[0x30]],
        status: 0,
        output: &[USAGE_LINE],
        faults: b"",
    },
    Case {
        name: "another word",
        words: &["x"],
        input: &[],
        status: 2,
        output: &[],
        faults: USAGE_LINE,
    },
    Case {
        name: "two words",
        words: &["again", "again"],
        input: &[],
        status: 2,
        output: &[],
        faults: USAGE_LINE,
    },
    Case {
        name: "an empty word",
        words: &[""],
        input: &[],
        status: 2,
        output: &[],
        faults: USAGE_LINE,
    },
    Case {
        name: "a word with a capital letter",
        words: &["Again"],
        input: &[],
        status: 2,
        output: &[],
        faults: USAGE_LINE,
    },
];

fn words_rows() -> &'static [Case] {
    WORDS
}

#[test]
fn other_words_write_the_usage(rt: HostRuntime) -> Result<(), Fail> {
    assert_eq!(rt; wrong_run(rt.alloc(), words_rows())?, None);
    Ok(())
}
