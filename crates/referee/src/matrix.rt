use std::alloc::{AllocError, Global};

const WORD_BITS: usize = 64;

// A square table of yes and no, a bit for each: each row is a line of words.
#[derive(Drop)]
pub struct Matrix {
    rows: Vec<Vec<u64>>,
}

impl Matrix {
    // A table of this many rows and columns, all no.
    pub fn blank(heap: Global, side: usize) -> Result<Matrix, AllocError> {
        let rows = (0..side)
            .map(|_| vec![in heap; 0; side / WORD_BITS + 1])
            .try_collect(heap)?;
        Ok(Matrix { rows })
    }

    pub fn has(&self, row: usize, column: usize) -> bool {
        self.rows
            .get(row)
            .is_some_and(|words| has_bit(words, column))
    }

    // Says yes at this row and column; outside of the table nothing is done.
    pub fn set(&mut self, row: usize, column: usize) {
        if let Some(words) = self.rows.get_mut(row) {
            if let Some(word) = words.get_mut(column / WORD_BITS) {
                *word |= 1 << (column % WORD_BITS);
            }
        }
    }

    // Warshall's closure: yes wherever steps of one yes after another lead.
    pub fn close(&mut self) -> Result<(), AllocError> {
        // Each row is named by its number, since all rows change while it is read.
        for through in 0..self.rows.len() {
            self.close_through(through)?;
        }
        Ok(())
    }

    // Whoever leads to `through` leads wherever that leads.
    fn close_through(&mut self, through: usize) -> Result<(), AllocError> {
        let Some(words) = self.rows.get(through) else {
            return Ok(());
        };
        let onward = words.clone()?;
        for words in self.rows.iter_mut() {
            if has_bit(words, through) {
                join(words, &onward);
            }
        }
        Ok(())
    }
}

// Whether a row says yes in this column.
fn has_bit(words: &[u64], column: usize) -> bool {
    let word = words.get(column / WORD_BITS).copied().unwrap_or(0);
    (word >> (column % WORD_BITS)) % 2 == 1
}

// Says yes in a row wherever `other` does.
fn join(words: &mut [u64], other: &[u64]) {
    for (word, more) in words.iter_mut().zip(other) {
        *word |= *more;
    }
}
