use super::matrix::Matrix;
use super::opinion::{Cause, Letters, Opinion, Refusal};
use super::tables::{Tables, Use};
use records::{Line, RECORD_SIZE};
use stamps::{CardNo, TxNo};
use std::alloc::{AllocError, Global};
use std::collections::BTreeMap;

const LARGEST_FILE: usize = 65_536;

// Why no verdict is given: the file is refused, or there is no memory for the tables. `From` is by hand: the derived `#[from]` of an error type wants for each variant a text that nobody prints.
#[derive(Clone, Copy)]
enum Stop {
    Refused(Refusal),
    NoMemory(AllocError),
}

impl From<Refusal> for Stop {
    fn from(refusal: Refusal) -> Stop {
        Stop::Refused(refusal)
    }
}

impl From<AllocError> for Stop {
    fn from(error: AllocError) -> Stop {
        Stop::NoMemory(error)
    }
}

// What is to be said of a file, where the judge is lent this many marks.
pub fn second_judge(heap: Global, file: &[u8], marks: usize) -> Result<Opinion, AllocError> {
    match letters_of(heap, file, marks) {
        Ok(letters) => Ok(Opinion(Ok(letters))),
        Err(Stop::Refused(refusal)) => Ok(Opinion(Err(refusal))),
        Err(Stop::NoMemory(error)) => Err(error),
    }
}

fn letters_of(heap: Global, file: &[u8], marks: usize) -> Result<Letters, Stop> {
    test_size(file.len(), marks)?;
    let mut tables = Tables::new(heap);
    fill(&mut tables, file)?;
    if let Some(place) = tables.first_without_end() {
        return Err(Stop::Refused(Refusal {
            cause: Cause::NoEnd,
            place,
        }));
    }
    let depends = Dependence::of(heap, &tables)?;
    Ok(Letters {
        aca: tables.committed_reads,
        cons: depends.snapshots_are_consistent(),
        wcf: depends.no_writers_conflict(),
    })
}

// What is wrong with the number of a file's bytes, or with the number of marks for it.
fn test_size(bytes: usize, marks: usize) -> Result<(), Refusal> {
    let records = bytes / RECORD_SIZE;
    if bytes > LARGEST_FILE {
        Err(Refusal {
            cause: Cause::TooLong,
            place: LARGEST_FILE / RECORD_SIZE,
        })
    } else if bytes % RECORD_SIZE != 0 {
        Err(Refusal {
            cause: Cause::Cut,
            place: records,
        })
    } else if marks < records {
        Err(Refusal {
            cause: Cause::FewMarks,
            place: 0,
        })
    } else {
        Ok(())
    }
}

// Takes in record after record, up to the first that is bad or out of place.
fn fill(tables: &mut Tables, file: &[u8]) -> Result<(), Stop> {
    for (place, part) in file.chunks_exact(RECORD_SIZE).enumerate() {
        let line = Line::decode(part).map_err(|fault| Refusal {
            cause: Cause::from(fault),
            place,
        })?;
        if !tables.fits(&line) {
            return Err(Stop::Refused(Refusal {
                cause: Cause::OutOfPlace,
                place,
            }));
        }
        tables.take(place, &line)?;
    }
    Ok(())
}

// Who depends on whom: the transactions are numbered in rising order, and a matrix has a row and a column for each.
#[derive(Drop)]
struct Dependence<'a> {
    tables: &'a Tables,
    numbers: BTreeMap<TxNo, usize>,
    matrix: Matrix,
}

impl<'a> Dependence<'a> {
    fn of(heap: Global, tables: &'a Tables) -> Result<Dependence<'a>, AllocError> {
        let mut numbers = BTreeMap::new(heap);
        for (number, transaction) in tables.firsts.keys().enumerate() {
            numbers.insert(*transaction, number)?;
        }
        let matrix = Matrix::blank(heap, numbers.len())?;
        let mut dependence = Dependence {
            tables,
            numbers,
            matrix,
        };
        for (reader, writer) in tables.reads.iter() {
            dependence.step(reader.transaction, *writer);
        }
        dependence.matrix.close()?;
        Ok(dependence)
    }

    // Notes that one transaction reads from the other; a writer that is none of the file's leaves no note.
    fn step(&mut self, reader: TxNo, writer: TxNo) {
        if let (Some(row), Some(column)) = (self.number(reader), self.number(writer)) {
            self.matrix.set(row, column);
        }
    }

    fn number(&self, transaction: TxNo) -> Option<usize> {
        self.numbers.get(&transaction).copied()
    }

    // Whether one or more steps lead from the first transaction to the second.
    fn leads(&self, from: TxNo, to: TxNo) -> bool {
        match (self.number(from), self.number(to)) {
            (Some(row), Some(column)) => self.matrix.has(row, column),
            _ => false,
        }
    }

    // Where the WRIT of a version stands that this writer wrote; none for version 0.
    fn source(&self, writer: TxNo, card: CardNo) -> Option<usize> {
        self.tables
            .writs
            .get(&Use {
                transaction: writer,
                card,
            })
            .copied()
    }

    // No transaction depends on the writer of a newer version of a card than it read.
    fn snapshots_are_consistent(&self) -> bool {
        self.tables.reads.iter().all(|(read, writer)| {
            let version = self.source(*writer, read.card);
            self.tables.writs.iter().all(|(written, place)| {
                written.card != read.card
                    || version.is_some_and(|other| *place <= other)
                    || !self.leads(read.transaction, written.transaction)
            })
        })
    }

    // Of every two done writers of one card one depends on the other.
    fn no_writers_conflict(&self) -> bool {
        self.tables.writs.keys().all(|one| {
            self.tables.writs.keys().all(|other| {
                one.card != other.card
                    || one.transaction >= other.transaction
                    || !self.conflict(one.transaction, other.transaction)
            })
        })
    }

    // Both are done, and neither depends on the other.
    fn conflict(&self, one: TxNo, other: TxNo) -> bool {
        self.tables.is_done(one)
            && self.tables.is_done(other)
            && !self.leads(one, other)
            && !self.leads(other, one)
    }
}
