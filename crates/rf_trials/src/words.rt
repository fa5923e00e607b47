//! Words by their grammars.
use crate::hold::{Broken, hold, told};
use rf_base::{Decimal, FileName, Khz, Name, read_decimal, read_number};
use std::test::Fail;

fn is_name(word: &[u8]) -> bool {
    Name::read(word).is_some()
}

fn names() -> Result<(), Broken> {
    let long = [b'a'; 33];
    hold(&[
        (is_name(b"m1"), "a letter and a digit"),
        (is_name(b"a,\"b\""), "a comma and quotation marks"),
        (!is_name(b"a;b"), "a semicolon"),
        (!is_name(b"a=b"), "an equals sign"),
        (!is_name(b""), "no byte"),
        (is_name(&long[..32]), "32 bytes"),
        (!is_name(&long), "33 bytes"),
    ])
}

fn is_text_of(word: &[u8], text: &str) -> bool {
    match FileName::read(word) {
        Some(name) => name.text() == text,
        None => false,
    }
}

fn file_names() -> Result<(), Broken> {
    hold(&[
        (
            is_text_of(b"scans/hall;1.csv", "scans/hall;1.csv"),
            "a file of a folder",
        ),
        (FileName::read(b"a b").is_none(), "a blank in a file name"),
        (Khz::new(0).is_none(), "no kilohertz"),
        (Khz::new(10_000_001).is_none(), "more than ten gigahertz"),
    ])
}

fn numbers() -> Result<(), Broken> {
    hold(&[
        (read_number(b"0") == Some(0), "nought"),
        (
            read_number(b"999999999") == Some(999_999_999),
            "nine digits",
        ),
        (read_number(b"1234567890").is_none(), "ten digits"),
        (read_number(b"01").is_none(), "a nought in front"),
        (read_number(b"+1").is_none(), "a sign"),
    ])
}

fn is_decimal(word: &[u8], billionths: i64) -> bool {
    read_decimal(word) == Some(Decimal(billionths))
}

fn decimals() -> Result<(), Broken> {
    hold(&[
        (is_decimal(b"-80", -80_000_000_000), "a whole decimal"),
        (
            is_decimal(b"+500.0125", 500_012_500_000),
            "a plus sign and a point",
        ),
        (is_decimal(b"-0.0000000019", -1), "digits past the ninth"),
        (read_decimal(b"5e2").is_none(), "an exponent"),
        (read_decimal(b"1.").is_none(), "a point at the end"),
    ])
}

fn all() -> Result<(), Broken> {
    names()?;
    file_names()?;
    numbers()?;
    decimals()
}

#[test]
fn words_are_read_by_their_grammars(_rt: HostRuntime) -> Result<(), Fail> {
    told(all())
}
