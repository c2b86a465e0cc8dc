// The places in which a shelf keeps versions above 0.
ghost use Rattle.std.specs.Prelude.{◌≡◌, ℕ, IfOk, vec_len};
ghost use Rattle.std.specs.Option.{option_map};

use stamps::{Stamp, TxNo, Value};
use std::alloc::{AllocError, Global};

// What a place holds.
#[derive(Clone, Copy)]
pub struct Written {
    pub value: Value,
    pub writer: TxNo,
    pub stamp: Stamp,
}

// All places of a shelf's memory, each with what it holds.
#[derive(Drop)]
pub struct Places {
    pub written: Vec<Written>,
}

impl Places {
    ghost use Rattle.drawers.specs.Places.{version_in, version_kept, Wrote};

    // Memory for this many places, or that it is wanting.
    pub fn reserve(heap: Global, places: usize) -> Result<Places, AllocError>
        ensures { IfOk result (λ p. vec_len p.written ≡ places) }
    {
        let unused = Written {
            value: Value::BLANK,
            writer: TxNo(0),
            stamp: Stamp::zero(),
        };
        let written = vec![in heap; unused; places]?;
        Ok(Places { written })
    }

    /// No place: no memory is asked for.
    pub fn empty(alloc: Global) -> Places
        ensures { vec_len result.written ≡ 0 }
    {
        Places {
            written: Vec::new(alloc),
        }
    }

    /// What is written at a place; none where there is no such place, which reads as version 0.
    pub fn at(&self, place: usize) -> Option<&Written>
        ensures { (w : ℕ) → version_in self.now w place ≡ version_kept w (option_map (λ t. t.now) result) }
    {
        self.written.get(place)
    }

    // Writes a version into a place; nothing is written where there is no such place.
    pub fn write(&mut self, place: usize, written: Written)
        ensures { Wrote self.old self.new place written }
    {
        if let Some(here) = self.written.get_mut(place) {
            *here = written;
        }
    }
}
