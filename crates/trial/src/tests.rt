// Examples: whole reports, and which files are read.
use crate::files::print_sale;
use crate::sale::report;
use sheet::nfa::Nfa;
use sheet::opening::SheetRule;
use sheet::table::Table;
use std::fs;
use std::process::Abort;
use std::test::Fail;

// The words with an even number of the letter a.
const EVEN: [u8; 7] = [0x10, 0x06, 0x00, 0x80, 0x00, 0x00, 0x01];

// Whether the report for a sheet and a catalogue is as expected.
fn prints<S: SheetRule + Drop>(
    rt: &(impl Abort + AllocGlobal),
    sheet: &[u8],
    text: &[u8],
    expected: &[u8],
) -> Result<(), Fail> {
    let sheet = Vec::from_slice(rt.alloc(), sheet)?;
    let out = report::<S>(rt.alloc(), sheet, text)?;
    assert!(rt; out.as_slice() == expected);
    Ok(())
}

#[test]
fn sales(rt: HostRuntime) -> Result<(), Fail> {
    prints::<Table>(
        &rt,
        &EVEN,
        b"LOT 17 abba\nLOT 18 ab\nLOT 19 ac\n",
        b"LOT 17 abba kept\nLOT 18 ab dropped\nLOT 19 ac unknown letter at 1\n3 lots: 1 kept, 1 dropped, 1 unknown\n",
    )?;
    prints::<Table>(&rt, &EVEN, b"", b"0 lots: 0 kept, 0 dropped, 0 unknown\n")
}

#[test]
fn refusals(rt: HostRuntime) -> Result<(), Fail> {
    prints::<Table>(&rt, b"", b"LOT 1 a\n", b"refused 1\n")?;
    prints::<Table>(&rt, &[0x00, 0x02, 0x00], b"LOT 1 a\n", b"refused 2\n")?;
    prints::<Table>(
        &rt,
        &EVEN,
        b"LOT 1 b\nLOT 2 a\nLOT 03 a\n",
        b"LOT 1 b kept\nLOT 2 a dropped\nrefused 12 at 20\n2 lots: 1 kept, 1 dropped, 0 unknown\n",
    )
}

#[test]
fn nfa_sales(rt: HostRuntime) -> Result<(), Fail> {
    prints::<Nfa>(
        &rt,
        &[0x01, 0x94],
        b"LOT 1 a\nLOT 2 aa\nLOT 3 b\n",
        b"LOT 1 a kept\nLOT 2 aa dropped\nLOT 3 b unknown letter at 0\n3 lots: 1 kept, 1 dropped, 1 unknown\n",
    )?;
    prints::<Nfa>(&rt, &[0x0a], b"LOT 1 a\n", b"refused 11\n")
}

// What a sale by the files that are there prints.
fn sold(rt: &HostRuntime) -> Result<Vec<u8>, Fail> {
    Ok(print_sale(rt)?)
}

// With no file; then with a nondeterministic automaton; then with a table beside it, which is preferred.
#[test]
fn files(rt: HostRuntime) -> Result<(), Fail> {
    assert!(rt; sold(&rt)?.as_slice() == b"refused 1\n".as_slice());
    fs::write(&rt, "buyer.nfa", &[0x01, 0x94])?;
    fs::write(&rt, "catalogue.txt", "LOT 1 a\nLOT 2 aa\n")?;
    assert!(rt;
        sold(&rt)?.as_slice()
            == b"LOT 1 a kept\nLOT 2 aa dropped\n2 lots: 1 kept, 1 dropped, 0 unknown\n".as_slice(),
    );
    fs::write(&rt, "buyer.rule", &EVEN)?;
    assert!(rt;
        sold(&rt)?.as_slice()
            == b"LOT 1 a dropped\nLOT 2 aa kept\n2 lots: 1 kept, 1 dropped, 0 unknown\n".as_slice(),
    );
    Ok(())
}
