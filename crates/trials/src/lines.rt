use records::{Kind, Line, NO_WORDS};
use stamps::{CardNo, TxNo, Value};
use std::alloc::AllocError;

// The writer of version 0.
pub const NOBODY: TxNo = TxNo(0);

// The transaction reads the card as the writer wrote it.
pub fn read(transaction: TxNo, card: CardNo, writer: TxNo) -> Line {
    Line {
        kind: Kind::Read,
        transaction,
        card,
        writer,
        value: NO_WORDS,
    }
}

pub fn writ(transaction: TxNo, card: CardNo, value: Value) -> Line {
    Line {
        kind: Kind::Writ,
        transaction,
        card,
        writer: transaction,
        value,
    }
}

pub fn done(transaction: TxNo) -> Line {
    end(Kind::Done, transaction)
}

pub fn gone(transaction: TxNo) -> Line {
    end(Kind::Gone, transaction)
}

fn end(kind: Kind, transaction: TxNo) -> Line {
    Line {
        kind,
        transaction,
        card: CardNo(0),
        writer: NOBODY,
        value: NO_WORDS,
    }
}

// Whether a line of this kind by the transaction on the card is among them.
pub fn told(lines: &[Line], kind: Kind, transaction: TxNo, card: CardNo) -> bool {
    lines.iter().any(|line| line.kind == kind
        && line.transaction == transaction
        && line.card == card)
}

// The place of the transaction's first line.
pub fn first_place(lines: &[Line], transaction: TxNo) -> Option<usize> {
    lines
        .iter()
        .position(|line| line.transaction == transaction)
}

// Who wrote the card's newest version of those that were committed in these first lines; nobody for version 0.
pub fn newest_writer(lines: &[Line], card: CardNo) -> TxNo {
    last_writer(lines, card, |writer| is_done(lines, writer))
}

// Who wrote the card's newest version, of those that others than the reader wrote; nobody for version 0.
pub fn latest_writer(lines: &[Line], card: CardNo, reader: TxNo) -> TxNo {
    last_writer(lines, card, |writer| writer != reader)
}

// The last writer of the card, of those that are asked for.
fn last_writer<F: Fn(TxNo) -> bool>(lines: &[Line], card: CardNo, is_asked: F) -> TxNo
    requires { F.IsAlwaysCallable is_asked }
{
    lines
        .iter()
        .filter(|line| line.kind == Kind::Writ && line.card == card)
        .map(|line| line.transaction)
        .filter(|writer| is_asked(*writer))
        .last()
        .unwrap_or(NOBODY)
}

// Whether the transaction has a DONE.
pub fn is_done(lines: &[Line], transaction: TxNo) -> bool {
    lines.iter().any(|line| line.kind == Kind::Done && line.transaction == transaction)
}

// Writes the line's record behind the bytes.
pub fn append(file: &mut Vec<u8>, line: &Line) -> Result<(), AllocError> {
    file.extend_from_slice(&line.kind.letters())?;
    file.extend_from_slice(&line.transaction.0.to_be_bytes())?;
    file.extend_from_slice(&line.card.0.to_be_bytes())?;
    file.extend_from_slice(&line.writer.0.to_be_bytes())?;
    file.extend_from_slice(&line.value.first.to_be_bytes())?;
    file.extend_from_slice(&line.value.second.to_be_bytes())
}
