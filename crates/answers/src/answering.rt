ghost use Rattle.std.specs.Prelude.{◌≡◌, ◌≤◌, List, length, replicate, Ok};
ghost use Rattle.records.specs.declared.line.Line.{Line};
ghost use Rattle.records.specs.Parts.{records_in};
ghost use Rattle.rules.specs.Rules.{accepted, scanned};
ghost use Rattle.digest.specs.Entries.{Sound};
ghost use Rattle.digest.specs.Told.{Told};
ghost use Rattle.verdicts.specs.Verdicts.{Judged};

use super::dependences::Dependences;
use super::listed::{Listed, list_all};
use digest::{Entry, Listing, index};
use verdicts::Verdict;

// What the judge says of a file that is accepted with these marks, or whose records, no more than there are marks for, are good and in place;
// what it says of any other means nothing. No mark is left set. Entries are come by in any listing.
pub fn judged_by<W: Listing>(file: &[u8], marks: &mut [u32]) -> Verdict
    ensures verdict { (ls : List Line) → accepted file.now (length marks.old) ≡ Ok ls → Judged ls result }
    ensures good { records_in file.now ≤ 2048 → records_in file.now ≤ length marks.old → (ls : List Line) → scanned file.now (records_in file.now) ≡ Ok ls → Judged ls result }
    ensures clear { marks.new ≡ replicate (length marks.old) 0 }
{
    let entries = index::<W>(file);
    // With more entries than marks this stays: a verdict that means nothing is still a verdict, and no file that is judged gets it.
    let mut verdict = Verdict {
        aca: false,
        cons: false,
        wcf: false,
    };
    if entries.len() <= marks.len() {
        verdict = of_entries::<W>(entries.as_slice(), marks);
    }
    marks.fill(0);
    verdict
}

// What the judge says of the lines whose entries these are. That they fit one another and are few enough is asked here and of the listing alone:
// `Listed` keeps it for all questions.
fn of_entries<W: Listing>(entries: &[Entry], marks: &mut [u32]) -> Verdict
    requires { (Sound entries.now) × ((length entries.now ≤ 2048) × (length entries.now ≤ length marks.old)) }
    ensures { (ls : List Line) → Told ls entries.now → Judged ls result }
{
    let mut own = W::empty();
    let mut writs = W::empty();
    list_all(entries, &mut own, &mut writs);
    let listed = Listed {
        entries,
        own: &own,
        writs: &writs,
    };
    let dones = listed.dones();
    let mut dependences = Dependences::new();
    listed.depend(&mut dependences);
    listed.verdict(&dones, &dependences, marks)
}
