// The rules of a file, record by record.
ghost use Rattle.std.specs.Prelude.{◌≡◌, suc, ◌<◌, ◌≤◌, OnOk, MatchResult, Err};
ghost use Rattle.records.specs.declared.kind.Kind.TheVariants.{Read, Writ};
ghost use Rattle.records.specs.Format.{decoded};
ghost use Rattle.records.specs.Parts.{records_in, part};
ghost use Rattle.rules.specs.Rules.{after_record, kind_in_place, in_place, scanned};
ghost use Rattle.scan.specs.Scanning.{lines_of, Scanned, answered};

use super::Told;
use crate::deed::Deed;
use reach::{Graph, node_of};
use records::{Kind, Line, RecordReader};
use rules::JudgeFault;

impl<'a> Told<'a> {
    // None of a file's records yet.
    pub(crate) fn new(file: &'a [u8]) -> Told<'a>
        requires { records_in file.now ≤ 2048 }
        ensures { (result.file.now ≡ file.now) × (result.count ≡ 0) }
    {
        Told {
            file,
            count: 0,
            links: Graph::new(),
        }
    }

    // Tests the records of the file, in their order, and takes them in.
    pub(crate) fn scan(&mut self) -> Result<(), JudgeFault>
        requires { self.old.count ≡ 0 }
        ensures { MatchResult result (λ _. (self.new.file.now ≡ self.old.file.now) × (self.new.count ≡ records_in self.old.file.now) × Scanned self.old.file.now (records_in self.old.file.now))
            (λ fault. answered (scanned self.old.file.now (records_in self.old.file.now)) ≡ Err fault) }
    {
        for bytes in RecordReader::new(self.file) {
            self.take(bytes)?;
        }
        Ok(())
    }

    // Tests one more record, first its fields, then whether it is in place, and takes it in.
    fn take(&mut self, bytes: &[u8]) -> Result<(), JudgeFault>
        requires within { self.old.count < records_in self.old.file.now }
        requires next { bytes.now ≡ part self.old.file.now self.old.count }
        ensures answer { result ≡ answered (after_record self.old.count (lines_of self.old.file.now self.old.count) (decoded bytes.now)) }
        ensures onward { OnOk result (self.new.count ≡ suc self.old.count) }
        ensures same { self.new.file.now ≡ self.old.file.now }
    {
        let place = self.count;
        let line = Line::decode_at(bytes, place)?;
        if !self.is_in_place(&line) {
            return Err(JudgeFault::OutOfPlace(place));
        }
        let _ = self.links.add(node_of(line.transaction.0), place);
        self.count = place + 1;
        Ok(())
    }

    // Whether a line may stand behind the records that were taken in.
    fn is_in_place(&self, line: &Line) -> bool
        ensures { result ≡ in_place (lines_of self.now.file.now self.now.count) line.now }
    {
        !self.tells(line.transaction, Deed::Ended)
            && match line.kind {
                Kind::Read => self.is_read_in_place(line),
                Kind::Writ => self.is_writ_in_place(line),
                Kind::Done | Kind::Gone => true,
            }
    }

    // Whether a READ may stand there, as far as its transaction has not ended.
    fn is_read_in_place(&self, line: &Line) -> bool
        ensures { result ≡ kind_in_place Read (lines_of self.now.file.now self.now.count) line.now }
    {
        !self.tells(line.transaction, Deed::Read(line.card))
            && line.writer != line.transaction
            && (line.writer.0 == 0 || self.tells(line.writer, Deed::Written(line.card)))
    }

    // The same of a WRIT.
    fn is_writ_in_place(&self, line: &Line) -> bool
        ensures { result ≡ kind_in_place Writ (lines_of self.now.file.now self.now.count) line.now }
    {
        self.tells(line.transaction, Deed::Read(line.card))
            && !self.tells(line.transaction, Deed::Written(line.card))
    }
}
