// Holds the judge against the second judge on many made histories, and prints how often each answer came.
#![tactic(auto)]

mod answer;
mod comparison;
mod first;

use comparison::Comparison;
use std::io;
use trials::{Edge, Large, Trial};

const SMALL_HISTORIES: u64 = 10_000;

fn main(rt: HostRuntime) -> io::Result<()> {
    let heap = rt.alloc();
    let mut comparison = Comparison::new(heap);
    for seed in 0..SMALL_HISTORIES {
        comparison.add(&Trial::small(heap, seed)?)?;
    }
    for form in Large::ALL {
        for edge in Edge::ALL {
            comparison.add(&Trial::large(heap, form, edge)?)?;
        }
    }
    println!(rt; "{comparison}")
}
