// Examples: catalogues good, faulty at each kind of byte, empty, cut off, and at the greatest length.
use crate::entry::{Entry, Lot};
use crate::listing::list_lots;
use crate::reader::Reader;
use automaton::fault::Fault;
use automaton::kind::FaultKind;
use automaton::layer::Layer;
use std::process::Abort;
use std::test::Fail;

// The place at which a text is refused, after so many lots; none where it is whole.
fn refused_at(
    rt: &(impl Abort + AllocGlobal),
    text: &[u8],
    lots: usize,
) -> Result<Option<usize>, Fail> {
    let listing = list_lots(rt.alloc(), text)?;
    assert_eq!(rt; listing.lots.len(), lots);
    match listing.fault {
        None => Ok(None),
        Some(fault) => {
            assert_eq!(rt; u8::from(fault.kind), 12);
            assert_eq!(rt; u8::from(fault.layer), 6);
            Ok(Some(fault.kind.place()))
        }
    }
}

#[test]
fn whole_catalogues(rt: HostRuntime) -> Result<(), Fail> {
    assert_eq!(rt; refused_at(&rt, b"", 0)?, None);
    assert_eq!(rt; refused_at(&rt, b"LOT 7 a\n", 1)?, None);
    assert_eq!(rt;
        refused_at(&rt, b"LOT 1 abp\nLOT 999999 p\nLOT 10 aa\n", 3)?,
        None
    );
    Ok(())
}

#[test]
fn faulty_lines(rt: HostRuntime) -> Result<(), Fail> {
    assert_eq!(rt; refused_at(&rt, b"LOT 1 a\nlOT 1 a\n", 1)?, Some(8));
    assert_eq!(rt; refused_at(&rt, b"LIT 1 a\n", 0)?, Some(1));
    assert_eq!(rt; refused_at(&rt, b"LO", 0)?, Some(2));
    assert_eq!(rt; refused_at(&rt, b"LOTS", 0)?, Some(3));
    assert_eq!(rt; refused_at(&rt, b"LOT ", 0)?, Some(4));
    assert_eq!(rt; refused_at(&rt, b"LOT 01 a\n", 0)?, Some(4));
    assert_eq!(rt; refused_at(&rt, b"LOT x a\n", 0)?, Some(4));
    assert_eq!(rt; refused_at(&rt, b"LOT 1234567 a\n", 0)?, Some(10));
    assert_eq!(rt; refused_at(&rt, b"LOT 12", 0)?, Some(6));
    assert_eq!(rt; refused_at(&rt, b"LOT 12:a\n", 0)?, Some(6));
    assert_eq!(rt; refused_at(&rt, b"LOT 12 \n", 0)?, Some(7));
    assert_eq!(rt; refused_at(&rt, b"LOT 12 ab", 0)?, Some(9));
    assert_eq!(rt; refused_at(&rt, b"LOT 12 abq\n", 0)?, Some(9));
    assert_eq!(rt; refused_at(&rt, b"LOT 1 a\r\n", 0)?, Some(7));
    assert_eq!(rt; refused_at(&rt, b"LOT 1 a\n\n", 1)?, Some(8));
    Ok(())
}

#[test]
fn the_reader_stays(rt: HostRuntime) -> Result<(), Fail> {
    let mut reader = Reader::new(b"LOT 17 abba\nLOT x");
    let lot = Lot {
        number: 17,
        mark: b"abba",
    };
    assert_eq!(rt; reader.next(), Ok(Entry::Lot(lot)));
    let fault = Fault::new(FaultKind::BadLine { place: 16 }, Layer::Catalogue);
    for _ in 0..2 {
        assert_eq!(rt; reader.next(), Err(fault));
    }
    Ok(())
}

#[test]
fn the_numbers_of_entries(rt: HostRuntime) -> Result<(), Fail> {
    let lot = Lot {
        number: 17,
        mark: b"abba",
    };
    assert_eq!(rt; u8::from(Entry::Lot(lot)), 1);
    assert_eq!(rt; u8::from(Entry::End), 0);
    Ok(())
}

#[test]
fn the_greatest_length(rt: HostRuntime) -> Result<(), Fail> {
    let mut text = Vec::new(rt.alloc());
    for _ in 0..6000 {
        text.extend_from_slice(b"LOT 25 ab\n")?;
    }
    assert_eq!(rt; refused_at(&rt, text.as_slice(), 6000)?, None);
    text.push(b'L')?;
    assert_eq!(rt; refused_at(&rt, text.as_slice(), 0)?, Some(60000));
    Ok(())
}
