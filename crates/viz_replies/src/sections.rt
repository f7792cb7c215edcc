//! The sections of a generated page.
ghost use Rattle.std.specs.Prelude.{◌≡◌, ◌==◌, ◌<◌, ◌++◌, [], codes, if◌then◌else◌, OnOk};
ghost use Rattle.viz_replies.specs.Generated.{class_of, number_after, section, sections_text, word_count, words};

use itoa::Buffer;
use std::alloc::AllocError;

const MULTIPLIER: u64 = 6_364_136_223_846_793_005;

const INCREMENT: u64 = 1_442_695_040_888_963_407;

/// The number after this one.
fn number_after(number: u64) -> u64
    ensures { result ≡ number_after number }
{
    number.wrapping_mul(MULTIPLIER).wrapping_add(INCREMENT)
}

/// The number of a section's class, from 0 to 3.
fn class_of(number: u64) -> u64
    ensures { result ≡ class_of number }
{
    (number >> 33) % 4
}

/// How many words a section has, from 1 to 5.
fn word_count(number: u64) -> u64
    ensures { result ≡ word_count number }
{
    1 + (number >> 33) / 4 % 5
}

/// So many words, with spaces between them.
#[tactic(auto, using(crate::proofs::Joins::one_word))]
fn push_words(out: &mut Vec<u8>, count: u64) -> Result<(), AllocError>
    requires { 0 < count }
    ensures { OnOk result (out.new.items ≡ out.old.items ++ words count) }
{
    out.extend_from_slice(b"aaaa")?;
    for _ in 1..count {
        out.extend_from_slice(b" aaaa")?;
    }
    Ok(())
}

/// The section of a number.
fn push_section(out: &mut Vec<u8>, number: u64) -> Result<(), AllocError>
    ensures { OnOk result (out.new.items ≡ out.old.items ++ section number) }
{
    let mut buffer = Buffer::new();
    out.extend_from_slice(br#"{"tag":"div","attrs":{"class":"c"#)?;
    out.extend_from_slice(buffer.format(class_of(number)).as_bytes())?;
    out.extend_from_slice(br#""},"children":[""#)?;
    push_words(out, word_count(number))?;
    out.extend_from_slice(br#""]}"#)?;
    Ok(())
}

/// A comma, before every section but the first.
fn push_comma(out: &mut Vec<u8>, before: u32) -> Result<(), AllocError>
    ensures { OnOk result (out.new.items
        ≡ out.old.items ++ (if before == 0 then [] else codes ",")) }
{
    if before == 0 {
        Ok(())
    } else {
        out.extend_from_slice(b",")
    }
}

/// The sections that a seed tells, with commas between them.
pub fn push_sections(out: &mut Vec<u8>, seed: u64, count: u32) -> Result<(), AllocError>
    ensures { OnOk result (out.new.items ≡ out.old.items ++ sections_text seed count) }
{
    let mut number = seed;
    for before in 0..count {
        push_comma(out, before)?;
        number = number_after(number);
        push_section(out, number)?;
    }
    Ok(())
}
