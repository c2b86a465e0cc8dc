use super::dice::Dice;
use super::habits::Habits;
use super::lines::{
    NOBODY, done, first_place, gone, is_done, latest_writer, newest_writer, read, told, writ,
};
use records::{Kind, Line};
use stamps::{CardNo, TxNo, Value};
use std::alloc::{AllocError, Global};
use std::mem;

const TRANSACTION_NUMBERS: u64 = 1_000_000;
// More steps than any history that is asked for takes.
const STEPS: u32 = 20_000;

// A history in the making: transactions are opened, read, write and end, in turns that the dice choose.
// Each line stands where it may.
#[derive(Drop)]
pub struct Script {
    heap: Global,
    dice: Dice,
    habits: Habits,
    lines: Vec<Line>,
    // The transactions without an end so far.
    open: Vec<TxNo>,
    // The number that the next transaction gets, less 1, and the step from one number to the next.
    upcoming: u64,
    stride: u64,
}

impl Script {
    // The lines of a history of this many records.
    pub fn play(
        heap: Global,
        mut dice: Dice,
        habits: Habits,
        records: usize,
    ) -> Result<Vec<Line>, AllocError> {
        let upcoming = dice.throw();
        let stride = dice.pick(&[1, 7, 999_999, 123_457]).unwrap_or(1);
        let mut script = Script {
            heap,
            dice,
            habits,
            lines: Vec::new(heap),
            open: Vec::new(heap),
            upcoming,
            stride,
        };
        for _ in 0..STEPS {
            if script.is_full(records) {
                break;
            }
            script.step()?;
        }
        script.end_all()?;
        script.fill_up(records)?;
        let Script { lines, .. } = script;
        Ok(lines)
    }

    // Whether the ends of the open transactions, and what a step may add, just fit.
    fn is_full(&self, records: usize) -> bool {
        self.lines
            .len()
            .saturating_add(self.open.len())
            .saturating_add(2)
            > records
    }

    fn next_number(&mut self) -> TxNo {
        let number = self.upcoming % TRANSACTION_NUMBERS;
        self.upcoming = number + self.stride % TRANSACTION_NUMBERS;
        TxNo(number as u32 + 1)
    }

    // One of the open transactions does something.
    fn step(&mut self) -> Result<(), AllocError> {
        if self.open.is_empty() || self.open.len() < self.habits.open && self.dice.chance(40) {
            let number = self.next_number();
            self.open.push(number)?;
        }
        let Some(transaction) = self.dice.pick(self.open.as_slice()) else {
            return Ok(());
        };
        match self.dice.below(10) {
            0..=4 => self.read_some(transaction),
            5..=7 => self.write_some(transaction),
            _ => self.end(transaction),
        }
    }

    // The transaction reads a card, unless it has read it.
    fn read_some(&mut self, transaction: TxNo) -> Result<(), AllocError> {
        let card = CardNo(self.dice.below(self.habits.cards));
        if told(self.lines.as_slice(), Kind::Read, transaction, card) {
            return Ok(());
        }
        let writer = self.choose_writer(transaction, card)?;
        self.lines.push(read(transaction, card, writer))?;
        Ok(())
    }

    // Whose version of the card the transaction reads.
    fn choose_writer(&mut self, transaction: TxNo, card: CardNo) -> Result<TxNo, AllocError> {
        let habits = self.habits;
        if self.dice.chance(habits.dirty) {
            self.some_writer(transaction, card, |_, _| true)
        } else if self.dice.chance(habits.latest) {
            Ok(latest_writer(self.lines.as_slice(), card, transaction))
        } else if self.dice.chance(habits.stale) {
            self.some_writer(transaction, card, is_done)
        } else if self.dice.chance(habits.fresh) {
            Ok(newest_writer(self.lines.as_slice(), card))
        } else {
            Ok(newest_writer(self.lines_before(transaction), card))
        }
    }

    // The lines before the transaction's first.
    fn lines_before(&self, transaction: TxNo) -> &[Line] {
        let lines = self.lines.as_slice();
        first_place(lines, transaction)
            .and_then(|place| lines.get(..place))
            .unwrap_or(lines)
    }

    // Another writer of the card, of those that are asked for, or nobody.
    fn some_writer<F: Fn(&[Line], TxNo) -> bool>(
        &mut self,
        reader: TxNo,
        card: CardNo,
        is_asked: F,
    ) -> Result<TxNo, AllocError>
        requires { F.IsAlwaysCallable is_asked }
    {
        let mut writers = vec![in self.heap; NOBODY]?;
        let lines = self.lines.as_slice();
        for line in lines {
            let fits = line.kind == Kind::Writ && line.card == card && line.transaction != reader;
            if fits && is_asked(lines, line.transaction) {
                writers.push(line.transaction)?;
            }
        }
        Ok(self.dice.pick(writers.as_slice()).unwrap_or(NOBODY))
    }

    // The transaction writes a card that it has read, if one is left.
    fn write_some(&mut self, transaction: TxNo) -> Result<(), AllocError> {
        let lines = self.lines.as_slice();
        let cards: Vec<CardNo> = lines
            .iter()
            .filter(|line| line.kind == Kind::Read && line.transaction == transaction)
            .map(|line| line.card)
            .filter(|card| !told(lines, Kind::Writ, transaction, *card))
            .collect(self.heap)?;
        if let Some(card) = self.dice.pick(cards.as_slice()) {
            let value = Value {
                first: self.dice.throw(),
                second: self.dice.throw(),
            };
            self.lines.push(writ(transaction, card, value))?;
        }
        Ok(())
    }

    fn end(&mut self, transaction: TxNo) -> Result<(), AllocError> {
        self.open.retain(|other| *other != transaction);
        self.push_end(transaction)
    }

    fn push_end(&mut self, transaction: TxNo) -> Result<(), AllocError> {
        let habits = self.habits;
        let aborts = self.dice.chance(habits.aborting);
        let commits = self.dice.chance(habits.uncertified) || self.is_certified(transaction);
        if commits && !aborts {
            self.lines.push(done(transaction))?;
        } else {
            self.lines.push(gone(transaction))?;
        }
        Ok(())
    }

    // Whether the transaction read the newest committed version of each card that it wrote.
    fn is_certified(&self, transaction: TxNo) -> bool {
        let lines = self.lines.as_slice();
        lines
            .iter()
            .filter(|line| {
                line.kind == Kind::Read
                    && line.transaction == transaction
                    && told(lines, Kind::Writ, transaction, line.card)
            })
            .all(|line| line.writer == newest_writer(lines, line.card))
    }

    fn end_all(&mut self) -> Result<(), AllocError> {
        let open = mem::replace(&mut self.open, Vec::new(self.heap));
        for transaction in open.into_iter().rev() {
            self.push_end(transaction)?;
        }
        Ok(())
    }

    // Transactions that only commit bring the history to this many records.
    fn fill_up(&mut self, records: usize) -> Result<(), AllocError> {
        for _ in self.lines.len()..records {
            let number = self.next_number();
            self.lines.push(done(number))?;
        }
        Ok(())
    }
}
