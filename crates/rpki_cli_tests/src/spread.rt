//! Words with the files in a folder in place of the folder.

use rpki_cli::spread::{Folders, spread};
use std::alloc::{AllocError, Global};
use std::test::Fail;

/// Folders in memory: each name of a file, and the folder that it is in.
#[derive(Drop)]
struct Shelf<'a> {
    files: &'a [(&'a str, &'a str)],
}

impl Folders for Shelf<'_> {
    ghost use Rattle.std.specs.Prelude.{None};

    ghost listed = { λ _. None };

    fn files_in(
        &self,
        alloc: Global,
        ending: &str,
        folder: &str,
    ) -> Result<Vec<String>, AllocError> {
        let mut files = Vec::new(alloc);
        for (at, name) in self.files {
            if *at == folder && name.ends_with(ending) {
                files.push(format!(in alloc; "{folder}/{name}")?)?;
            }
        }
        Ok(files)
    }
}

/// What a folder has: locators, and something else; and one with nothing that is asked for.
const FILES: &[(&str, &str)] = &[
    ("tals", "afrinic.tal"),
    ("tals", "README"),
    ("tals", "ripe.tal"),
    ("cache", "ta.cer"),
    ("-x", "hidden.tal"),
];

/// Words, and what becomes of them, with a space between.
const ROWS: &[(&str, &str)] = &[
    ("", ""),
    ("tals", "tals"),
    ("--tal tals", "--tal tals/afrinic.tal tals/ripe.tal"),
    (
        "--tal a.tal tals b.tal",
        "--tal a.tal tals/afrinic.tal tals/ripe.tal b.tal",
    ),
    (
        "--tal tals --cache tals",
        "--tal tals/afrinic.tal tals/ripe.tal --cache tals",
    ),
    (
        "--cache tals --tal tals",
        "--cache tals --tal tals/afrinic.tal tals/ripe.tal",
    ),
    ("--tal cache", "--tal cache"),
    ("--tal=tals", "--tal=tals"),
    ("--tal -x", "--tal -x"),
    (
        "--tal tals --tal tals",
        "--tal tals/afrinic.tal tals/ripe.tal --tal tals/afrinic.tal tals/ripe.tal",
    ),
    ("--tals tals", "--tals tals"),
    ("--tal - tals", "--tal - tals/afrinic.tal tals/ripe.tal"),
];

/// The words of a text, which a space ends each.
fn words_of(alloc: Global, text: &str) -> Result<Vec<String>, AllocError> {
    let mut words = Vec::new(alloc);
    for word in text.split(' ') {
        if !word.is_empty() {
            words.push(String::from_str(alloc, word)?)?;
        }
    }
    Ok(words)
}

/// The words of a text that are spread, in a text.
fn spread_text(alloc: Global, text: &str) -> Result<String, AllocError> {
    let words = words_of(alloc, text)?;
    let shelf = Shelf { files: FILES };
    let all = spread(alloc, &shelf, ".tal", "--tal", words.as_slice())?;
    let mut shown = String::new(alloc);
    for word in all.iter() {
        if !shown.is_empty() {
            shown.push_str(" ")?;
        }
        shown.push_str(word.as_str())?;
    }
    Ok(shown)
}

#[test]
fn folders_are_spread(rt: HostRuntime) -> Result<(), Fail> {
    for (text, wanted) in ROWS {
        let shown = spread_text(rt.alloc(), text)?;
        assert_eq!(rt; shown.as_str(), *wanted, "{text}");
    }
    Ok(())
}
