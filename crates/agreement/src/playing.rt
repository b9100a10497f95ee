ghost use Rattle.agreement.specs.Playing.{Plays};
ghost use Rattle.layout.specs.Holds.{Holds};
ghost use Rattle.std.specs.Prelude.{◌≡◌, ◌≤◌, length, vec_capacity, vec_len};

use crate::settlement::Played;
use entries::{Entry, Reply};
use keeper::Keeper;
use posting::post;
use std::alloc::Global;
use store::Store;

/// Plays a list to a keeper, in order, to its end or up to a row for which there is no memory. The replies come into an empty list, which
/// has room for them.
pub fn play<S: Store>(
    alloc: Global,
    keeper: &mut Keeper<S>,
    list: &[Entry<'_>],
    replies: Vec<Reply>,
) -> Played
    requires empty { vec_len replies ≡ 0 }
    requires room { length list.now ≤ vec_capacity replies }
    ensures plays { Holds (S.Store.words keeper.old.store) → Plays (S.Store.words keeper.old.store) list.now result (S.Store.words keeper.new.store) }
    ensures rest { S.Store.rest keeper.new.store ≡ S.Store.rest keeper.old.store }
{
    let mut played = Played {
        entries: 0,
        replies,
    };
    for entry in list {
        match entry {
            Entry::Book(booking) => {
                let Ok(reply) = post(alloc, keeper, booking) else {
                    break;
                };
                played.replies.push_reserved(reply);
            }
            Entry::Tidy => keeper.tidy(),
        }
        played.entries += 1;
    }
    played
}
