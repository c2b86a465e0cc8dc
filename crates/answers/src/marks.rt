ghost use Rattle.std.specs.Prelude.{◌≡◌};
ghost use Rattle.answers.specs.Questions.{marked};

// Whether the mark of a transaction is set. Marks are counts that the caller lends, so a mark is set where its count is not 0.
pub(crate) fn is_marked(marks: &[u32], owner: u16) -> bool
    ensures { result ≡ marked marks.now owner }
{
    marks.get(owner as usize).copied().unwrap_or(0) > 0
}
