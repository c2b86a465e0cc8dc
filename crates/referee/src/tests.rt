use super::opinion::Letters;
use super::second::second_judge;
use records::{Kind, Line, NO_WORDS, RECORD_SIZE};
use stamps::{CardNo, TxNo};
use std::alloc::Global;
use std::test::Fail;

fn line(kind: Kind, transaction: u32, card: u32, writer: u32) -> Line {
    Line {
        kind,
        transaction: TxNo(transaction),
        card: CardNo(card),
        writer: TxNo(writer),
        value: NO_WORDS,
    }
}

fn read(transaction: u32, card: u32, writer: u32) -> Line {
    line(Kind::Read, transaction, card, writer)
}

fn writ(transaction: u32, card: u32) -> Line {
    line(Kind::Writ, transaction, card, transaction)
}

fn done(transaction: u32) -> Line {
    line(Kind::Done, transaction, 0, 0)
}

fn gone(transaction: u32) -> Line {
    line(Kind::Gone, transaction, 0, 0)
}

// An opinion with the number of its refusal.
type Told = Result<Letters, (u32, usize)>;

fn told(heap: Global, file: &[u8], marks: usize) -> Result<Told, Fail> {
    let opinion = second_judge(heap, file, marks)?;
    Ok(
        opinion
            .0
            .map_err(|refusal| (refusal.cause.number(), refusal.place)),
    )
}

fn opinion_of(heap: Global, lines: &[Line]) -> Result<Told, Fail> {
    let mut file = Vec::new(heap);
    for line in lines {
        let mut record = [0u8; RECORD_SIZE];
        line.encode(&mut record)?;
        file.extend_from_slice(&record)?;
    }
    told(heap, file.as_slice(), lines.len())
}

fn given(aca: bool, cons: bool, wcf: bool) -> Told {
    Ok(Letters { aca, cons, wcf })
}

fn refused(number: u32, place: usize) -> Told {
    Err((number, place))
}

// Transaction 4 depends on 1 by two others, and reads card 4, which 1 has overwritten, from this writer.
fn chain(writer: u32) -> [Line; 14] {
    [
        read(1, 4, 0),
        writ(1, 4),
        done(1),
        read(2, 4, 1),
        read(2, 9, 0),
        writ(2, 9),
        done(2),
        read(3, 9, 2),
        read(3, 11, 0),
        writ(3, 11),
        done(3),
        read(4, 11, 3),
        read(4, 4, writer),
        done(4),
    ]
}

#[test]
fn judges_the_examples(rt: HostRuntime) -> Result<(), Fail> {
    let heap = rt.alloc();
    let conflict = [
        read(1, 4, 0),
        writ(1, 4),
        done(1),
        read(2, 4, 0),
        writ(2, 4),
        done(2),
    ];
    let aborted = [
        read(1, 4, 0),
        writ(1, 4),
        gone(1),
        read(2, 4, 1),
        writ(2, 4),
        done(2),
    ];
    assert_eq!(rt; opinion_of(heap, &[])?, given(true, true, true));
    assert_eq!(rt; opinion_of(heap, &chain(0))?, given(true, false, true));
    assert_eq!(rt; opinion_of(heap, &chain(1))?, given(true, true, true));
    assert_eq!(rt; opinion_of(heap, &conflict)?, given(true, true, false));
    assert_eq!(rt; opinion_of(heap, &aborted)?, given(false, true, true));
    Ok(())
}

// Each of two reads what the other has not committed: they depend on themselves, and have read what they overwrote.
#[test]
fn judges_a_circle(rt: HostRuntime) -> Result<(), Fail> {
    let circle = [
        read(1, 4, 0),
        writ(1, 4),
        read(2, 9, 0),
        writ(2, 9),
        read(1, 9, 2),
        read(2, 4, 1),
        done(1),
        gone(2),
    ];
    assert_eq!(rt; opinion_of(rt.alloc(), &circle)?, given(false, false, true));
    Ok(())
}

#[test]
fn refuses_bytes(rt: HostRuntime) -> Result<(), Fail> {
    let heap = rt.alloc();
    let zeros = vec![in heap; 0; 65_537]?;
    assert_eq!(rt; told(heap, zeros.as_slice(), 0)?, refused(20, 2_048));
    assert_eq!(rt; told(heap, &[0; 33], 0)?, refused(21, 1));
    assert_eq!(rt; told(heap, &[0; 32], 0)?, refused(25, 0));
    assert_eq!(rt; told(heap, &[0; 32], 1)?, refused(22, 0));
    Ok(())
}

#[test]
fn refuses_lines(rt: HostRuntime) -> Result<(), Fail> {
    let heap = rt.alloc();
    assert_eq!(rt;
        opinion_of(heap, &[read(1, 4, 0), read(1, 4, 0)])?,
        refused(23, 1)
    );
    assert_eq!(rt; opinion_of(heap, &[writ(1, 4)])?, refused(23, 0));
    assert_eq!(rt; opinion_of(heap, &[done(1), gone(1)])?, refused(23, 1));
    assert_eq!(rt; opinion_of(heap, &[read(1, 4, 1)])?, refused(23, 0));
    assert_eq!(rt; opinion_of(heap, &[read(1, 4, 2)])?, refused(23, 0));
    assert_eq!(rt;
        opinion_of(heap, &[done(3), read(2, 4, 0), read(1, 4, 0)])?,
        refused(24, 1)
    );
    Ok(())
}

#[test]
fn opinions_are_printed(rt: HostRuntime) -> Result<(), Fail> {
    let heap = rt.alloc();
    let judged = second_judge(heap, &[], 0)?;
    let refused = second_judge(heap, &[0; 33], 0)?;
    assert_eq!(rt;
        format!(in heap; "{judged}")?.as_str(),
        "ACA=Y CONS=Y WCF=Y"
    );
    assert_eq!(rt; format!(in heap; "{refused}")?.as_str(), "REFUSED 21 AT 1");
    Ok(())
}
