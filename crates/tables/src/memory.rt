// The memory of books.
ghost use Rattle.std.specs.Prelude.{◌≡◌, ◌*◌, min, IfOk, vec_len};

use crate::table::{DRAFTS, PLACES};
use entries::{DraftEntry, OpenPlace, ReadEntry};
use records::{Kind, Line};
use stamps::{CardNo, TxNo, Value, VersionNo};
use std::alloc::{AllocError, Global};

// The open list, the cards read, the drafts and the journal's lines, of any length and with anything in them: set-up tests the lengths and
// makes them empty.
#[derive(Drop)]
pub struct BooksMemory {
    pub places: Vec<OpenPlace>,
    pub reads: Vec<ReadEntry>,
    pub drafts: Vec<DraftEntry>,
    pub lines: Vec<Line>,
}

impl BooksMemory {
    // Memory for so many open places, on a shelf of so many cards, and for so many journal lines; or that it is wanting.
    pub fn reserve(
        heap: Global,
        places: usize,
        cards: u32,
        lines: usize,
    ) -> Result<BooksMemory, AllocError>
        ensures { IfOk result (λ m. (vec_len m.places ≡ places) × (vec_len m.reads ≡ min 16 places * cards) × (vec_len m.drafts ≡ min 16 places * 32) × (vec_len m.lines ≡ lines)) }
    {
        let used = places.min(PLACES);
        let read = ReadEntry {
            card: CardNo(0),
            version: VersionNo(0),
        };
        let draft = DraftEntry {
            card: CardNo(0),
            value: Value::BLANK,
        };
        let line = Line {
            kind: Kind::Done,
            transaction: TxNo(0),
            card: CardNo(0),
            writer: TxNo(0),
            value: Value::BLANK,
        };
        Ok(BooksMemory {
            places: vec![in heap; None; places]?,
            reads: vec![in heap; read; used * cards as usize]?,
            drafts: vec![in heap; draft; used * DRAFTS]?,
            lines: vec![in heap; line; lines]?,
        })
    }
}
