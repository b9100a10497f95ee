ghost use Rattle.agreement.specs.Handing.{handed_on, tidy_due};
ghost use Rattle.entries.specs.Readings.{bookings, reply_of};
ghost use Rattle.ledger.specs.Runs.{granted_of};
ghost use Rattle.std.specs.Prelude.{◌≡◌, IfOk, map};

use entries::{Entry, Reply};
use std::alloc::{AllocError, Global};

/// Whether a tidy stands behind so many bookings, where one stands behind every so many.
fn is_tidy_due(every: usize, bookings: usize) -> bool
    ensures { result ≡ tidy_due every bookings }
{
    bookings.checked_rem(every) == Some(0)
}

/// What is handed on of a list to which a keeper gave these replies: the bookings that it granted, in order, with a tidy behind each so
/// many of them, and with none for 0.
pub fn hand_on<'a>(
    alloc: Global,
    list: &[Entry<'a>],
    replies: &[Reply],
    tidy_every: usize,
) -> Result<Vec<Entry<'a>>, AllocError>
    ensures list { IfOk result (λ v. v.items ≡ handed_on tidy_every 0 list.now replies.now) }
    ensures bookings { IfOk result (λ v. bookings v.items ≡ granted_of (bookings list.now) (map reply_of replies.now)) }
{
    let mut handed_on = Vec::new(alloc);
    let mut replies = replies.iter();
    let mut granted = 0usize;
    for entry in list {
        let Entry::Book(_) = entry else {
            continue;
        };
        let Some(reply) = replies.next() else {
            break;
        };
        if reply.is_err() {
            continue;
        }
        handed_on.push(*entry)?;
        granted += 1;
        if is_tidy_due(tidy_every, granted) {
            handed_on.push(Entry::Tidy)?;
        }
    }
    Ok(handed_on)
}
