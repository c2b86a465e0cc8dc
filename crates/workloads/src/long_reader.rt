// Reading while others commit.
use super::desk::Desk;
use books::Slip;
use shelf::Shelf;

// A reader that goes through the cards, one now and then.
pub struct LongReader {
    slip: Option<Slip>,
    next: u32,
}

impl LongReader {
    pub fn begin<S: Shelf>(desk: &mut Desk<'_, S>) -> LongReader {
        LongReader {
            slip: desk.catalogue.open().ok(),
            next: 0,
        }
    }

    // Reads the next card; after the last it commits and begins anew.
    pub fn read_on<S: Shelf>(self, desk: &mut Desk<'_, S>) -> LongReader {
        let LongReader { slip, next } = self;
        if let Some(slip) = &slip {
            desk.read(slip, next);
        }
        if next < desk.cards.count() - 1 {
            return LongReader {
                slip,
                next: next + 1,
            };
        }
        let Some(slip) = slip else {
            return LongReader {
                slip: None,
                next: 0,
            };
        };
        desk.commit(slip);
        LongReader::begin(desk)
    }

    pub fn end<S: Shelf>(self, desk: &mut Desk<'_, S>) {
        let LongReader { slip, next: _ } = self;
        if let Some(slip) = slip {
            let _ = desk.catalogue.abandon(slip);
        }
    }
}
