// Rows of entries in memory that was given.
ghost use Rattle.std.specs.Prelude.{◌≡◌, ◌+◌, ◌*◌, ◌<◌, ◌≤◌, vec_len, slice_set};
ghost use Rattle.tables.specs.Rows.{row as row_in};

// A list of entries, cut into rows of one width, a row for each place.
#[derive(Drop)]
pub(super) struct Rows<T> {
    pub(super) items: Vec<T>,
    // How many entries a row has.
    pub(super) width: usize,
}

impl<T: Copy> Rows<T> {
    // The first entries of a row.
    pub(super) fn first(&self, row: usize, count: usize) -> &[T]
        requires { row * self.now.width + count ≤ vec_len self.now.items }
        ensures { result.now ≡ row_in self.now.width row count self.now.items.items }
    {
        let from = row * self.width;
        &self.items[from..from + count]
    }

    // Puts an entry into a row.
    pub(super) fn enter(&mut self, row: usize, nth: usize, entry: T)
        requires { row * self.old.width + nth < vec_len self.old.items }
        ensures items { self.new.items.items ≡ slice_set self.old.items.items (row * self.old.width + nth) entry }
        ensures size { vec_len self.new.items ≡ vec_len self.old.items }
        ensures width { self.new.width ≡ self.old.width }
    {
        self.items[row * self.width + nth] = entry;
    }
}
