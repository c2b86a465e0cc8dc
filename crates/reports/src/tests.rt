use super::{judge_stream, read_file};
use std::alloc::{AllocError, Global};
use std::test::Fail;

// Puts a record without words behind the file.
fn append(
    file: &mut Vec<u8>,
    letters: &[u8; 4],
    transaction: u32,
    card: u32,
    writer: u32,
) -> Result<(), AllocError> {
    file.extend_from_slice(letters)?;
    file.extend_from_slice(&transaction.to_be_bytes())?;
    file.extend_from_slice(&card.to_be_bytes())?;
    file.extend_from_slice(&writer.to_be_bytes())?;
    file.extend_from_slice(&[0; 16])
}

// 2,048 records: each of 682 transactions reads card 4 from the one before it and writes it, and one more reads it.
fn longest_file(heap: Global) -> Result<Vec<u8>, AllocError> {
    let mut file = Vec::new(heap);
    for writer in 0..682 {
        let transaction = writer + 1;
        append(&mut file, b"READ", transaction, 4, writer)?;
        append(&mut file, b"WRIT", transaction, 4, transaction)?;
        append(&mut file, b"DONE", transaction, 0, 0)?;
    }
    append(&mut file, b"READ", 683, 4, 682)?;
    append(&mut file, b"DONE", 683, 0, 0)?;
    Ok(file)
}

// What program `judge` prints of the file.
fn printed(heap: Global, file: &[u8]) -> Result<Vec<u8>, Fail> {
    let mut output = Vec::new(heap);
    judge_stream(heap, file, &mut output)?;
    Ok(output)
}

// A file is read whole up to one byte more than the largest has, and no further.
#[test]
fn files_are_read(rt: HostRuntime) -> Result<(), Fail> {
    let bytes = [7u8; 65_540];
    for (size, read) in [
        (0, 0),
        (448, 448),
        (65_536, 65_536),
        (65_537, 65_537),
        (65_538, 65_537),
        (65_540, 65_537),
    ] {
        let file = read_file(rt.alloc(), bytes.get(0..size).unwrap_or(&[]))?;
        assert_eq!(rt; file.as_slice(), bytes.get(0..read).unwrap_or(&[]));
    }
    Ok(())
}

// The largest files are judged, and a longer one is not.
#[test]
fn longest_files_are_judged(rt: HostRuntime) -> Result<(), Fail> {
    let mut file = longest_file(rt.alloc())?;
    assert_eq!(rt; file.len(), 65_536);
    assert_eq!(rt;
        printed(rt.alloc(), &file)?.as_slice(),
        b"ACA=Y CONS=Y WCF=Y\n".as_slice()
    );
    file.push(0)?;
    assert_eq!(rt;
        printed(rt.alloc(), &file)?.as_slice(),
        b"REFUSED 20 AT 2048\n".as_slice()
    );
    file.extend_from_slice(&[0; 32])?;
    assert_eq!(rt;
        printed(rt.alloc(), &file)?.as_slice(),
        b"REFUSED 20 AT 2048\n".as_slice()
    );
    Ok(())
}

// Each refusal of a file.
#[test]
fn files_are_refused(rt: HostRuntime) -> Result<(), Fail> {
    let file = longest_file(rt.alloc())?;
    let cut = file.get(0..65_535).unwrap_or(&[]);
    assert_eq!(rt;
        printed(rt.alloc(), cut)?.as_slice(),
        b"REFUSED 21 AT 2047\n".as_slice()
    );
    let bad = [0u8; 65_536];
    assert_eq!(rt;
        printed(rt.alloc(), &bad)?.as_slice(),
        b"REFUSED 22 AT 0\n".as_slice()
    );
    let behind = file.get(96..).unwrap_or(&[]);
    assert_eq!(rt;
        printed(rt.alloc(), behind)?.as_slice(),
        b"REFUSED 23 AT 0\n".as_slice()
    );
    let open = file.get(0..65_504).unwrap_or(&[]);
    assert_eq!(rt;
        printed(rt.alloc(), open)?.as_slice(),
        b"REFUSED 24 AT 2046\n".as_slice()
    );
    Ok(())
}
