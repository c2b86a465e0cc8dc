use super::streams::dump_stream;
use std::alloc::{AllocError, Global};
use std::test::Fail;

// The DONE of transaction 1, and another record of it with these letters.
fn two_records(letters: [u8; 4]) -> [u8; 64] {
    let mut file = [0u8; 64];
    file[0..4].copy_from_slice(b"DONE");
    file[7] = 1;
    file[32..36].copy_from_slice(&letters);
    file[39] = 1;
    file
}

// What the program prints of the file.
fn printed(heap: Global, file: &[u8]) -> Result<Vec<u8>, Fail> {
    let mut output = Vec::new(heap);
    dump_stream(heap, file, &mut output)?;
    Ok(output)
}

// No record, a good one, a bad one behind a good one, and a cut one.
#[test]
fn files_are_dumped(rt: HostRuntime) -> Result<(), Fail> {
    let file = two_records(*b"DOXE");
    let cases = [
        (0, "0 records: 0 READ, 0 WRIT, 0 DONE, 0 GONE\n"),
        (32, "DONE 1\n1 records: 0 READ, 0 WRIT, 1 DONE, 0 GONE\n"),
        (64, "DONE 1\nREFUSED 22 AT 1\n"),
        (63, "REFUSED 21 AT 1\n"),
    ];
    for (size, text) in cases {
        let output = printed(rt.alloc(), file.get(0..size).unwrap_or(&[]))?;
        assert_eq!(rt; output.as_slice(), text.as_bytes());
    }
    Ok(())
}

// This many WRITs with the longest numbers.
fn longest_lines(heap: Global, count: usize) -> Result<Vec<u8>, AllocError> {
    let mut file = Vec::new(heap);
    for _ in 0..count {
        file.extend_from_slice(b"WRIT")?;
        file.extend_from_slice(&1_000_000u32.to_be_bytes())?;
        file.extend_from_slice(&255u32.to_be_bytes())?;
        file.extend_from_slice(&1_000_000u32.to_be_bytes())?;
        file.extend_from_slice(&u64::MAX.to_be_bytes())?;
        file.extend_from_slice(&u64::MAX.to_be_bytes())?;
    }
    Ok(file)
}

// The largest file, one that is longer, and the largest without a good record.
#[test]
fn longest_files_are_dumped(rt: HostRuntime) -> Result<(), Fail> {
    let mut file = longest_lines(rt.alloc(), 2_048)?;
    assert_eq!(rt; file.len(), 65_536);
    let output = printed(rt.alloc(), &file)?;
    let mut text = Vec::new(rt.alloc());
    for _ in 0..2_048 {
        text.extend_from_slice(
            b"WRIT 1000000 card 255 words 18446744073709551615 18446744073709551615\n",
        )?;
    }
    text.extend_from_slice(b"2048 records: 0 READ, 2048 WRIT, 0 DONE, 0 GONE\n")?;
    assert!(rt; output.as_slice() == text.as_slice());
    file.push(0)?;
    let output = printed(rt.alloc(), &file)?;
    assert_eq!(rt; output.as_slice(), b"REFUSED 20 AT 2048\n".as_slice());
    let output = printed(rt.alloc(), &[0u8; 65_536])?;
    assert_eq!(rt; output.as_slice(), b"REFUSED 22 AT 0\n".as_slice());
    Ok(())
}
