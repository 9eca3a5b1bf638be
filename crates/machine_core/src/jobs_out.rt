//! The copies of pages that are out to be written.

ghost use Rattle.std.specs.Prelude.{◌≡◌, None, true, is_some, position, vec_capacity, IfSome, IfNone};
ghost use Rattle.machine_core.specs.SavingOut.{is_save_of, MakesSave};

use clock_policy::Key;
use page_store::{WriteJob, WrittenJob};
use swap_slots::SwapSlot;

/// Takes the copy of a page from those that are out, and writes it.
pub(crate) fn write_out<S: SwapSlot, P>(
    jobs: &mut Vec<WriteJob<S, P>>,
    key: Key,
) -> Option<WrittenJob<S, P>>
    ensures makes { IfSome result (MakesSave S.content S.honest S.failures key jobs.old.items
        jobs.new.items) }
    ensures found { IfSome result (λ _. is_some (position (is_save_of key) jobs.old.items) ≡
        true) }
    ensures none { IfNone result (position (is_save_of key) jobs.old.items ≡ None) }
    ensures stays { IfNone result (jobs.new ≡ jobs.old) }
    ensures capacity { vec_capacity jobs.new ≡ vec_capacity jobs.old }
{
    let place = place_of(jobs.as_slice(), key)?;
    Some(jobs.swap_remove(place).run())
}

/// The position of a page's copy among those that are out.
fn place_of<S: SwapSlot, P>(jobs: &[WriteJob<S, P>], key: Key) -> Option<usize>
    ensures { result ≡ position (is_save_of key) jobs.now }
{
    jobs.iter().position(|job| is_of_page(job, key))
}

/// Whether a copy is of a page.
fn is_of_page<S: SwapSlot, P>(job: &WriteJob<S, P>, key: Key) -> bool
    ensures { result ≡ is_save_of key job.now }
{
    job.key() == key
}
