// Prints the plans of the sample listings in `data`, one after the other.
#![tactic(auto)]

use std::io::{Cursor, Write};
use std::rt::Files;
use std::{fs, io, str};

// The files of the samples, in the order in which they are printed.
const SAMPLES: [&str; 7] = [
    "ring.listing",
    "tree.listing",
    "ring-with-tails.listing",
    "two-rings.listing",
    "limits.listing",
    "out-of-service.listing",
    "components.listing",
];

// As much of an error's text as is laid here.
const TEXT: usize = 300;

// The system's words in the text of an error, without the number that `io::Error` puts after them.
fn words(text: &str) -> &str {
    text.split_once(" (os error ")
        .map_or(text, |(words, _)| words)
}

// A line on standard error: the file that could not be opened, and why.
fn tell_failure(rt: &impl Eprint, path: &str, error: io::Error) -> io::Result<()> {
    let mut text = Cursor::new([0u8; TEXT]);
    let _ = write!(text, "{error}");
    let n = (text.position() as usize).min(TEXT);
    let bytes = text.into_inner();
    match str::from_utf8(&bytes[..n]) {
        Ok(text) => eprintln!(rt; "{path}: {}", words(text)),
        Err(_) => eprintln!(rt; "{path}"),
    }
}

fn print_sample(rt: &(impl Files + Print + Eprint), path: &str) -> io::Result<()> {
    match fs::open(rt, path) {
        Ok(mut file) => printing::print_file(&mut file, &mut io::writer(rt)),
        Err(error) => tell_failure(rt, path, error),
    }
}

fn main(rt: HostRuntime) -> io::Result<()> {
    for path in SAMPLES {
        print_sample(&rt, path)?;
    }
    Ok(())
}
