// Examples: each kind of text, and files that are there, empty or missing.
use crate::files::{read_file, read_or_empty};
use crate::text::{Letters, Refused, SideName};
use automaton::fault::Fault;
use automaton::kind::FaultKind;
use automaton::layer::Layer;
use automaton::side::Side;
use std::process::Abort;
use std::test::Fail;
use std::{fmt, fs};

// Whether a value displays as expected.
fn shows<D: fmt::Display + Drop>(
    rt: &(impl Abort + AllocGlobal),
    shown: D,
    expected: &str,
) -> Result<(), Fail> {
    let text = shown.to_string(rt.alloc())?;
    assert_eq!(rt; text.as_str(), expected);
    Ok(())
}

#[test]
fn sides(rt: HostRuntime) -> Result<(), Fail> {
    shows(&rt, SideName(Side::Neither), "neither")?;
    shows(&rt, SideName(Side::First), "first")?;
    shows(&rt, SideName(Side::Second), "second")?;
    shows(&rt, SideName(Side::Pair), "pair")
}

// Every letter, in order.
const ALL: [u8; 16] = [0, 1, 2, 3, 4, 5, 6, 7, 8, 9, 10, 11, 12, 13, 14, 15];

#[test]
fn words(rt: HostRuntime) -> Result<(), Fail> {
    shows(&rt, Letters(&[]), "-")?;
    shows(&rt, Letters(&[1]), "b")?;
    shows(&rt, Letters(&ALL), "abcdefghijklmnop")?;
    shows(&rt, Letters(&[0, 16, 255]), "a??")
}

// A kind with a number of two digits, on a side.
#[test]
fn refusals(rt: HostRuntime) -> Result<(), Fail> {
    let fault = Fault::new(FaultKind::TooManyNfaStates, Layer::Sheet).on(Side::Second);
    shows(&rt, Refused::of(fault)?, "refused second 11\n")?;
    let fault = Fault::new(FaultKind::LettersDiffer, Layer::Combined).on(Side::Pair);
    shows(&rt, Refused::of(fault)?, "refused pair 5\n")?;
    let fault = Fault::new(FaultKind::OutOfMemory, Layer::Sheet);
    assert!(rt; Refused::of(fault).is_err());
    Ok(())
}

// A file that is there, one that is empty, and one that is missing.
#[test]
fn files(rt: HostRuntime) -> Result<(), Fail> {
    fs::write(&rt, "some", &[0x10, 0x02])?;
    fs::write(&rt, "none", &[])?;
    assert!(rt; read_or_empty(&rt, "some")?.as_slice() == [0x10, 0x02].as_slice());
    assert!(rt; read_file(&rt, "none")?.is_some());
    assert!(rt; read_file(&rt, "gone")?.is_none());
    assert!(rt; read_or_empty(&rt, "gone")?.is_empty());
    fs::remove_file(&rt, "some")?;
    fs::remove_file(&rt, "none")?;
    Ok(())
}
