use super::{Kind, Line, RecordFault, RecordReader};
use stamps::{CardNo, TxNo, Value};
use std::process::Abort;
use std::test::Fail;

fn line(kind: Kind, transaction: u32, card: u32, writer: u32, first: u64, second: u64) -> Line {
    Line {
        kind,
        transaction: TxNo(transaction),
        card: CardNo(card),
        writer: TxNo(writer),
        value: Value { first, second },
    }
}

// The bytes of a line's fields, good or bad.
fn bytes_of(line: &Line) -> [u8; 32] {
    let mut bytes = [0u8; 32];
    bytes[0..4].copy_from_slice(&line.kind.letters());
    bytes[4..8].copy_from_slice(&line.transaction.0.to_be_bytes());
    bytes[8..12].copy_from_slice(&line.card.0.to_be_bytes());
    bytes[12..16].copy_from_slice(&line.writer.0.to_be_bytes());
    bytes[16..24].copy_from_slice(&line.value.first.to_be_bytes());
    bytes[24..32].copy_from_slice(&line.value.second.to_be_bytes());
    bytes
}

// A good line is written and read back; a bad one is refused for its field both ways, and nothing is written.
fn goes_both_ways(rt: &impl Abort, line: &Line, fault: Option<RecordFault>) {
    let mut out = [7u8; 32];
    let answer = line.encode(&mut out);
    match fault {
        None => {
            assert_eq!(rt; answer, Ok(()));
            assert_eq!(rt; out, bytes_of(line));
            assert_eq!(rt; Line::decode(&out), Ok(*line));
        }
        Some(fault) => {
            assert_eq!(rt; answer, Err(fault));
            assert_eq!(rt; out, [7u8; 32]);
            assert_eq!(rt; Line::decode(&bytes_of(line)), Err(fault));
        }
    }
}

// Every kind, both ends of every range, and every bad field.
#[test]
fn lines_are_written_and_read_back(rt: HostRuntime) {
    let last = 1_000_000;
    let most = u64::MAX;
    let transaction = Some(RecordFault::Transaction);
    let writer = Some(RecordFault::Writer);
    let words = Some(RecordFault::Words);
    let cases = [
        (Kind::Read, 1, 0, 0, 0, 0, None),
        (Kind::Read, last, 255, last, 0, 0, None),
        (Kind::Writ, 1, 0, 1, 0, 0, None),
        (Kind::Writ, last, 255, last, most, most, None),
        (Kind::Done, 1, 0, 0, 0, 0, None),
        (Kind::Gone, last, 0, 0, 0, 0, None),
        (Kind::Read, 0, 256, 0, 0, 0, transaction),
        (Kind::Writ, 0, 0, 0, 0, 0, transaction),
        (Kind::Done, 1_000_001, 0, 0, 0, 0, transaction),
        (Kind::Read, 1, 256, 1_000_001, 0, 0, Some(RecordFault::Card)),
        (Kind::Gone, 1, 1, 0, 0, 0, Some(RecordFault::Card)),
        (Kind::Read, 1, 255, 1_000_001, 1, 0, writer),
        (Kind::Writ, 2, 255, 1, 1, 0, writer),
        (Kind::Done, 1, 0, 1, 1, 0, writer),
        (Kind::Read, 1, 0, 0, 1, 0, words),
        (Kind::Read, 1, 0, 0, 0, 1, words),
        (Kind::Done, 1, 0, 0, 1, 0, words),
        (Kind::Gone, 1, 0, 0, 0, 1, words),
    ];
    for (kind, transaction, card, writer, first, second, fault) in cases {
        let line = line(kind, transaction, card, writer, first, second);
        goes_both_ways(&rt, &line, fault);
    }
}

// One record byte by byte, and what one changed byte makes of it.
#[test]
fn records_are_read_byte_by_byte(rt: HostRuntime) -> Result<(), Fail> {
    let record = [
        b'W', b'R', b'I', b'T', 0, 10, 11, 12, 0, 0, 0, 200, 0, 10, 11, 12, 1, 2, 3, 4, 5, 6, 7, 8,
        17, 18, 19, 20, 21, 22, 23, 24,
    ];
    let read = line(
        Kind::Writ,
        0x0a_0b0c,
        200,
        0x0a_0b0c,
        0x0102_0304_0506_0708,
        0x1112_1314_1516_1718,
    );
    assert_eq!(rt; Line::decode(&record), Ok(read));
    let cases = [
        (0, b'w', RecordFault::Kind),
        (3, b'E', RecordFault::Kind),
        (5, 16, RecordFault::Transaction),
        (10, 1, RecordFault::Card),
        (15, 13, RecordFault::Writer),
    ];
    for (at, byte, fault) in cases {
        let mut other = record;
        if let Some(place) = other.get_mut(at) {
            *place = byte;
        }
        assert_eq!(rt; Line::decode(&other), Err(fault));
        assert_eq!(rt; fault.number(), 22);
    }
    assert_eq!(rt; Line::decode(&record[0..31]), Err(RecordFault::Length));
    assert_eq!(rt; Line::decode(&[b'D'; 33]), Err(RecordFault::Length));
    for size in [0, 31, 33] {
        let mut out = [7u8; 33];
        let part = out.get_mut(0..size).ok_or("the part is there")?;
        assert_eq!(rt; read.encode(part), Err(RecordFault::Length));
        assert_eq!(rt; out, [7u8; 33]);
    }
    assert_eq!(rt; RecordFault::Length.number(), 21);
    Ok(())
}

// Seventy bytes are two records and a rest that is none.
#[test]
fn a_reader_hands_out_whole_records(rt: HostRuntime) -> Result<(), Fail> {
    let mut bytes = [1u8; 70];
    bytes[32] = 2;
    let mut reader = RecordReader::new(&bytes);
    for (place, first) in [(0, 1), (1, 2)] {
        assert_eq!(rt; reader.place(), place);
        let part = reader.next().ok_or("a record is left")?;
        assert_eq!(rt; part.len(), 32);
        assert_eq!(rt; part.first().copied(), Some(first));
    }
    assert_eq!(rt; reader.next().is_none(), true);
    assert_eq!(rt; reader.next().is_none(), true);
    assert_eq!(rt; reader.place(), 2);
    Ok(())
}

#[test]
fn lines_are_shown(rt: HostRuntime) -> Result<(), Fail> {
    let cases = [
        (Kind::Read, 1, 4, 0, 0, 0, "READ 1 card 4 writer 0"),
        (Kind::Writ, 1, 4, 1, 12, 34, "WRIT 1 card 4 words 12 34"),
        (Kind::Done, 1, 0, 0, 0, 0, "DONE 1"),
        (Kind::Gone, 1, 0, 0, 0, 0, "GONE 1"),
    ];
    for (kind, transaction, card, writer, first, second, text) in cases {
        let line = line(kind, transaction, card, writer, first, second);
        assert_eq!(rt; line.to_string(rt.alloc())?.as_str(), text);
    }
    Ok(())
}
