//! Shows that the clusters and the words that a caret goes over are those of Unicode's own break tests.
//!
//! Standard input holds a case a line: `c` for clusters or `w` for words, and the scalar values of a text in hexadecimal, a
//! space before each. A case comes out as the offsets, in UTF-16 code units, where calls stop that go over the text: from its
//! start to its end by `cluster_after` or `word_after`, then `|`, then back to its start by `cluster_before` or `word_before`.
//!
//! The stored cases are those of `GraphemeBreakTest.txt` (602) and `WordBreakTest.txt` (1,823) of Unicode 15.0, in their
//! order, from Debian's package `unicode-data`, here in another form. They are data of Unicode's: © 2022 Unicode®, Inc.; for
//! terms of use, see <https://www.unicode.org/terms_of_use.html>.
//!
//! The stored output is made of the marks in these files alone, and not of what the program writes. Clusters stop at each
//! mark of a break. So do words, but pieces of white space alone (of the property `White_Space`) are passed over together
//! with the piece that comes next on the way.
//!
//! The tables behind the calls are those of Unicode 18.0, where U+2701 isn't a pictograph (of the property
//! `Extended_Pictographic`) any more, and so may part from a joiner before it. Three cases are left out for that:
//!
//! - `c 2701 200D 2701`, where GB11 saw no break before the last character,
//! - `w 2701 200D 2701` and `w 0061 200D 2701`, where WB3c saw none.
//!
//! So there are 601 cases of clusters and 1,821 of words. None has an Indic conjunct, which 15.0 didn't hold together yet.
#![tactic(auto)]

mod stops;

use anyhow::{Context, Result};
use std::alloc::Global;
use std::io::{Read, Write};
use stops::{Unit, stops};

fn main(rt: HostRuntime) -> Result<()> {
    let mut input = Vec::new(rt.alloc());
    rt.stdin().read_to_end(&mut input)?;
    tell_all(rt.alloc(), str::from_utf8(&input)?, &mut rt.stdout())
}

/// Tells where each case is stopped in.
fn tell_all<W: Write>(alloc: Global, cases: &str, out: &mut W) -> Result<()> {
    for case in cases.lines() {
        let (sign, codes) = case.split_once(' ').context("no code points")?;
        let unit = Unit::of(sign)?;
        let text = text_of(alloc, codes)?;
        let told = stops(alloc, unit, text.as_str())?;
        out.write_all(told.as_bytes())?;
        out.write_all(b"\n")?;
    }
    Ok(())
}

/// The text of these code points.
fn text_of(alloc: Global, codes: &str) -> Result<String> {
    let mut text = String::new(alloc);
    for code in codes.split(' ') {
        let number = u32::from_str_radix(code, 16)?;
        text.push(char::from_u32(number).context("no scalar value")?)?;
    }
    Ok(text)
}
