// Examples: whole lines, and which files are read.
use crate::files::print_settlement;
use crate::line::report_settlement;
use std::fs;
use std::process::Abort;
use std::test::Fail;

// The words of a and b with an even number of a, those that end with ba, and all.
const EVEN: [u8; 7] = [0x10, 0x06, 0x00, 0x80, 0x00, 0x00, 0x01];

const TO_BA: [u8; 10] = [0x10, 0x08, 0x00, 0x00, 0x20, 0x08, 0x01, 0x80, 0x00, 0x08];

const ALL: [u8; 5] = [0x10, 0x02, 0x00, 0x00, 0x00];

// No word of a and b; and of a alone all words, and none.
const NONE: [u8; 5] = [0x10, 0x00, 0x00, 0x00, 0x00];

const ALL_OF_A: [u8; 4] = [0x00, 0x02, 0x00, 0x00];

const NONE_OF_A: [u8; 4] = [0x00, 0x00, 0x00, 0x00];

// Whether the line for two sheets is as expected.
fn prints(
    rt: &(impl Abort + AllocGlobal),
    first: &[u8],
    second: &[u8],
    expected: &str,
) -> Result<(), Fail> {
    let line = report_settlement(rt.alloc(), first, second)?;
    assert_eq!(rt; line.as_str(), expected);
    Ok(())
}

#[test]
fn settlements(rt: HostRuntime) -> Result<(), Fail> {
    prints(&rt, &EVEN, &ALL, "differ second a 1\n")?;
    prints(&rt, &EVEN, &EVEN, "same 2\n")?;
    prints(&rt, &ALL_OF_A, &NONE_OF_A, "differ first - 0\n")?;
    prints(&rt, &TO_BA, &NONE, "differ first ba 2\n")
}

#[test]
fn refusals(rt: HostRuntime) -> Result<(), Fail> {
    prints(&rt, &[0x10], &[0x00, 0x02, 0x00], "refused first 1\n")?;
    prints(&rt, &ALL, &[0x00, 0x02, 0x00], "refused second 2\n")?;
    prints(&rt, &[0x00, 0x02, 0x00, 0x81], &ALL, "refused first 3\n")?;
    prints(&rt, &ALL, &[0x00, 0x02, 0x00, 0x01], "refused second 4\n")?;
    prints(&rt, &ALL, &ALL_OF_A, "refused pair 5\n")
}

// What is printed by the files that are there.
fn printed(rt: &HostRuntime) -> Result<String, Fail> {
    Ok(print_settlement(rt)?)
}

// With no file, with the first alone, and with both.
#[test]
fn files(rt: HostRuntime) -> Result<(), Fail> {
    assert_eq!(rt; printed(&rt)?.as_str(), "refused first 1\n");
    fs::write(&rt, "first.rule", &EVEN)?;
    assert_eq!(rt; printed(&rt)?.as_str(), "refused second 1\n");
    fs::write(&rt, "second.rule", &ALL)?;
    assert_eq!(rt; printed(&rt)?.as_str(), "differ second a 1\n");
    fs::remove_file(&rt, "first.rule")?;
    fs::remove_file(&rt, "second.rule")?;
    Ok(())
}
