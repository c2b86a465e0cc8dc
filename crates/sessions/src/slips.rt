// The slips that a session holds.
ghost use Rattle.std.specs.Prelude.{◌≡◌, ◌<◌, true, false, vec_len, vec_capacity, MatchOption, OnSome};
ghost use Rattle.catalogue.specs.Kept.{decision};
ghost use Rattle.sessions.specs.Slips.{holds, without, with_returned};

use books::{NotCommitted, Slip};
use entries::{last_entry, last_with};
use stamps::TxNo;
use transactions::Refusal;

// The slip of a transaction, to show; of several with its number, the one that came last.
pub(crate) fn slip_of(slips: &[Slip], number: TxNo) -> Option<&Slip>
    ensures { MatchOption result (holds slips.now number.0 ≡ false) (λ s. (holds slips.now number.0 ≡ true) × (s.now.number ≡ number)) }
{
    last_entry(slips, number)
}

// The slip of a transaction, to hand in; of several with its number, the one that came last.
pub(crate) fn take_slip(slips: &mut Vec<Slip>, number: TxNo) -> Option<Slip>
    ensures taken { MatchOption result (holds slips.old.items number.0 ≡ false) (λ s. (holds slips.old.items number.0 ≡ true) × (s.number ≡ number)) }
    ensures rest { slips.new.items ≡ without slips.old.items number.0 }
    ensures room { OnSome result (vec_len slips.new < vec_capacity slips.new) }
    ensures capacity { vec_capacity slips.new ≡ vec_capacity slips.old }
{
    let place = last_with(slips.as_slice(), number)?;
    Some(slips.remove(place))
}

// What was decided on a commit; a slip that came back is kept.
pub(crate) fn keep_returned(
    slips: &mut Vec<Slip>,
    committed: Result<(), NotCommitted>,
) -> Result<(), Refusal>
    requires { vec_len slips.old < vec_capacity slips.old }
    ensures decided { result ≡ decision committed }
    ensures kept { slips.new.items ≡ with_returned slips.old.items committed }
    ensures capacity { vec_capacity slips.new ≡ vec_capacity slips.old }
{
    match committed {
        Ok(()) => Ok(()),
        Err(NotCommitted::Conflict) => Err(Refusal::Conflict),
        Err(NotCommitted::HandedBack(slip, refusal)) => {
            slips.push_reserved(slip);
            Err(refusal)
        }
    }
}
