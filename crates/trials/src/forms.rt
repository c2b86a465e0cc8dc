use super::lines::{NOBODY, done, read, writ};
use records::Line;
use stamps::{CardNo, TxNo, Value};
use std::alloc::{AllocError, Global};

const CARDS: u32 = 256;

const FIRST_CARD: CardNo = CardNo(0);

const SECOND_CARD: CardNo = CardNo(1);

// Histories of a fixed form, for any number of transactions. A value and no closure, since dice choose among them and lists name them.
#[derive(Clone, Copy)]
pub enum Form {
    // Each transaction reads from the one before; the later ones have the lower numbers.
    Chain,
    // The same, and at its end a transaction that reads and writes what only the first has overwritten.
    BrokenChain,
    // Each transaction reads from the next, and the last from the first.
    Cycle,
    // Writers of one card, independent of one another, and one among them that depends on them all.
    Hub,
    // All read from one writer.
    Readers,
    // Each transaction reads every card, and writes all but the last.
    Wide,
}

impl Form {
    // Those of a few records for each transaction.
    pub const NARROW: [Form; 5] = [
        Form::Chain,
        Form::BrokenChain,
        Form::Cycle,
        Form::Hub,
        Form::Readers,
    ];

    // The form's lines for this many transactions, and one or two more where the form has such.
    pub fn lines(self, heap: Global, count: u32) -> Result<Vec<Line>, AllocError> {
        let mut lines = Vec::new(heap);
        match self {
            Form::Chain => add_links(&mut lines, count)?,
            Form::BrokenChain => add_broken_chain(&mut lines, count)?,
            Form::Cycle => add_cycle(&mut lines, count)?,
            Form::Hub => add_hub(&mut lines, count)?,
            Form::Readers => add_readers(&mut lines, count)?,
            Form::Wide => add_wide(&mut lines, count)?,
        }
        Ok(lines)
    }
}

// A transaction reads the card from another and writes it.
fn add_writer(
    lines: &mut Vec<Line>,
    number: TxNo,
    card: CardNo,
    from: TxNo,
) -> Result<(), AllocError> {
    lines.push(read(number, card, from))?;
    lines.push(writ(number, card, Value::BLANK))?;
    Ok(())
}

// This many transactions, from the highest number down, each of which reads and writes the first card.
fn add_links(lines: &mut Vec<Line>, count: u32) -> Result<(), AllocError> {
    let mut last = NOBODY;
    for link in (1..=count).rev().map(TxNo) {
        add_writer(lines, link, FIRST_CARD, last)?;
        lines.push(done(link))?;
        last = link;
    }
    Ok(())
}

fn add_broken_chain(lines: &mut Vec<Line>, count: u32) -> Result<(), AllocError> {
    let breaker = TxNo(999_999);
    add_writer(lines, TxNo(count), SECOND_CARD, NOBODY)?;
    add_links(lines, count)?;
    lines.push(read(breaker, FIRST_CARD, TxNo(1)))?;
    add_writer(lines, breaker, SECOND_CARD, NOBODY)?;
    lines.push(done(breaker))?;
    Ok(())
}

fn add_cycle(lines: &mut Vec<Line>, count: u32) -> Result<(), AllocError> {
    for number in 0..count {
        add_writer(lines, TxNo(number + 1), CardNo(number % CARDS), NOBODY)?;
    }
    for number in 0..count {
        let next = (number + 1) % count;
        lines.push(read(TxNo(number + 1), CardNo(next % CARDS), TxNo(next + 1)))?;
    }
    for transaction in (1..=count).map(TxNo) {
        lines.push(done(transaction))?;
    }
    Ok(())
}

fn add_hub(lines: &mut Vec<Line>, count: u32) -> Result<(), AllocError> {
    let hub = TxNo(1_000_000);
    lines.push(read(hub, FIRST_CARD, NOBODY))?;
    for spoke in (1..=count).map(TxNo) {
        let card = CardNo(spoke.0 % CARDS);
        add_writer(lines, spoke, FIRST_CARD, NOBODY)?;
        if spoke == TxNo(1) {
            lines.push(writ(hub, FIRST_CARD, Value::BLANK))?;
        }
        add_writer(lines, spoke, card, NOBODY)?;
        lines.push(done(spoke))?;
        lines.push(read(hub, card, spoke))?;
    }
    lines.push(done(hub))?;
    Ok(())
}

fn add_readers(lines: &mut Vec<Line>, count: u32) -> Result<(), AllocError> {
    let writer = TxNo(1_000_000);
    add_writer(lines, writer, FIRST_CARD, NOBODY)?;
    lines.push(done(writer))?;
    for reader in (1..=count).map(TxNo) {
        lines.push(read(reader, FIRST_CARD, writer))?;
        lines.push(done(reader))?;
    }
    Ok(())
}

fn add_wide(lines: &mut Vec<Line>, count: u32) -> Result<(), AllocError> {
    let mut last = NOBODY;
    for transaction in (1..=count).map(TxNo) {
        for card in (0..CARDS - 1).map(CardNo) {
            add_writer(lines, transaction, card, last)?;
        }
        lines.push(read(transaction, CardNo(CARDS - 1), NOBODY))?;
        lines.push(done(transaction))?;
        last = transaction;
    }
    Ok(())
}
