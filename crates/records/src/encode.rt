ghost use Rattle.std.specs.Prelude.{◌≡◌, true, length, is_ok, if◌then◌else◌, Ok};
ghost use Rattle.records.specs.Format.{decoded, encoded, fields_of, line_behind, writes};

use super::RECORD_SIZE;
use super::fault::RecordFault;
use super::line::Line;
use stamps::{CardNo, TxNo, Value};

impl Line {
    // Writes the line's record: `Length` at another length than a record's, else the first bad field, and nothing
    // is written then. What is written is read back as the same line.
    pub fn encode(&self, out: &mut [u8]) -> Result<(), RecordFault>
        ensures value { result ≡ writes self.now (length out.old) }
        ensures bytes { out.new ≡ (if is_ok result then encoded self.now else out.old) }
        ensures back { is_ok result ≡ true → decoded out.new ≡ Ok self.now }
    {
        if out.len() != RECORD_SIZE {
            return Err(RecordFault::Length);
        }
        self.checked()?;
        let record = self.to_record();
        out.copy_from_slice(&record);
        Ok(())
    }

    // The record that the line's fields make, good or bad.
    fn to_record(&self) -> [u8; RECORD_SIZE]
        ensures value { result ≡ encoded self.now }
        ensures back { line_behind self.now.kind (fields_of self.now) ≡ self.now }
    {
        let Line {
            kind,
            transaction: TxNo(transaction),
            card: CardNo(card),
            writer: TxNo(writer),
            value: Value { first, second },
        } = *self;
        let mut record = [0; RECORD_SIZE];
        record[0..4].copy_from_slice(&kind.letters());
        record[4..8].copy_from_slice(&transaction.to_be_bytes());
        record[8..12].copy_from_slice(&card.to_be_bytes());
        record[12..16].copy_from_slice(&writer.to_be_bytes());
        record[16..24].copy_from_slice(&first.to_be_bytes());
        record[24..32].copy_from_slice(&second.to_be_bytes());
        record
    }
}
