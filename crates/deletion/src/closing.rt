ghost use Rattle.codeword.specs.Codeword.{InWidth};
ghost use Rattle.deletion.specs.Closing.{shut};
ghost use Rattle.std.specs.Prelude.{◌≡◌, ◌+◌, ◌≤◌, length};

use codeword::Codeword;
use placement::renew;
use store::{Store, copy_down, put};

/// The elements behind `n` that leave go down, the first first, and the codeword at `at` says that the block has `n` fewer. The last
/// `n` words stay as they are.
pub fn close_up<S: Store>(store: &mut S, at: u64, label: Codeword, element: u64, n: u64)
    requires { InWidth label × (element + n ≤ label.length) }
    ensures words { S.Store.words store.new ≡ shut at label element n (S.Store.words store.old) }
    ensures count { length (S.Store.words store.new) ≡ length (S.Store.words store.old) }
    ensures rest { S.Store.rest store.new ≡ S.Store.rest store.old }
{
    let from = label.first + element;
    let past = label.first + label.length;
    copy_down(store, from + n, from, label.length - element - n);
    if label.r {
        renew(store, from..past - n);
    }
    let label = Codeword {
        length: label.length - n,
        ..label
    };
    if let Some(code) = label.pack() {
        put(store, at, code);
    }
}
