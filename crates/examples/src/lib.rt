// Worked examples of history files and of days in the catalogue, each shown from the definitions alone.
#![tactic(auto)]

ghost use Rattle.std.specs.Prelude.{◌≡◌, length};
ghost use Rattle.examples.specs.Examples.{Holds, examples};
ghost use Rattle.std.specs.List.{AllByRecursion};

/// How many worked examples there are. Every one of them holds: each file is accepted and has the
/// verdict expected, or is refused as expected; program `judge` prints what is expected of it; and the
/// calls of each day are answered as expected.
pub fn examples_shown() -> usize
    ensures hold { AllByRecursion Holds examples }
    ensures count { result ≡ length examples }
{
    9
}
