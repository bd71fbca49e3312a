//! Room for more in the vectors of a book.

ghost use Rattle.std.specs.Prelude.{◌≡◌, ◌≤◌, ◌+◌, vec_len, vec_capacity, true};

use crate::levels::Half;

// Makes room for `n` more items of a vector, and tells whether there is.
fn make_room<T: Drop>(items: &mut Vec<T>, n: usize) -> bool
    ensures items { items.new.items ≡ items.old.items }
    ensures len { vec_len items.new ≡ vec_len items.old }
    ensures never_falls { vec_capacity items.old ≤ vec_capacity items.new }
    ensures room { result ≡ true → vec_len items.new + n ≤ vec_capacity items.new }
{
    match items.reserve(n) {
        Ok(()) => true,
        Err(_) => false,
    }
}

// Makes room for `n` more items of two vectors, and tells whether there is.
pub fn make_room_in_two<A: Drop, B: Drop>(first: &mut Vec<A>, second: &mut Vec<B>, n: usize) -> bool
    ensures first { first.new.items ≡ first.old.items }
    ensures second { second.new.items ≡ second.old.items }
    ensures first_len { vec_len first.new ≡ vec_len first.old }
    ensures second_len { vec_len second.new ≡ vec_len second.old }
    ensures first_never_falls { vec_capacity first.old ≤ vec_capacity first.new }
    ensures second_never_falls { vec_capacity second.old ≤ vec_capacity second.new }
    ensures first_room { result ≡ true → vec_len first.new + n ≤ vec_capacity first.new }
    ensures second_room { result ≡ true → vec_len second.new + n ≤ vec_capacity second.new }
{
    let one = make_room(first, n);
    let two = make_room(second, n);
    one & two
}

// Makes room for `n` more levels of both queues of a side, and tells whether there is.
pub fn make_room_in_half(half: &mut Half, n: usize) -> bool
    ensures shown { half.new.shown.items ≡ half.old.shown.items }
    ensures hidden { half.new.hidden.items ≡ half.old.hidden.items }
    ensures count { half.new.count ≡ half.old.count }
    ensures shown_len { vec_len half.new.shown ≡ vec_len half.old.shown }
    ensures hidden_len { vec_len half.new.hidden ≡ vec_len half.old.hidden }
    ensures shown_never_falls { vec_capacity half.old.shown ≤ vec_capacity half.new.shown }
    ensures hidden_never_falls { vec_capacity half.old.hidden ≤ vec_capacity half.new.hidden }
    ensures shown_room { result ≡ true → vec_len half.new.shown + n ≤ vec_capacity half.new.shown }
    ensures hidden_room { result ≡ true → vec_len half.new.hidden + n ≤ vec_capacity half.new.hidden }
{
    make_room_in_two(&mut half.shown, &mut half.hidden, n)
}
