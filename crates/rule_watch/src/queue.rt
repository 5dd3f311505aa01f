//! A queue of the values of a window that are not above a later one: the least of the window stands at its front.
ghost use Rattle.std.specs.Prelude.{◌≡◌, ◌<◌, ◌≤◌, ℤ, List as Sequence, ◌∷◌, [], ◌++◌};
ghost use Rattle.std.specs.VecDeque.{deque_len, deque_capacity};
ghost use Rattle.rule_watch.specs.Queues.{ends_above, first_is, first_of, last_of, minima, trimmed};

use std::collections::VecDeque;

/// The number at the front, or 0.
pub fn first_of(queue: &VecDeque<i128>) -> i128
    ensures { result ≡ first_of queue.now.items }
{
    match queue.front() {
        Some(first) => *first,
        None => 0,
    }
}

/// The number at the end, or 0.
pub fn last_of(queue: &VecDeque<i128>) -> i128
    ensures { result ≡ last_of queue.now.items }
{
    match queue.back() {
        Some(last) => *last,
        None => 0,
    }
}

fn first_is(queue: &VecDeque<i128>, number: i128) -> bool
    ensures { result ≡ first_is number queue.now.items }
{
    match queue.front() {
        Some(first) => *first == number,
        None => false,
    }
}

fn ends_above(queue: &VecDeque<i128>, number: i128) -> bool
    ensures { result ≡ ends_above number queue.now.items }
{
    match queue.back() {
        Some(last) => *last > number,
        None => false,
    }
}

/// The queue of a window without its oldest value.
pub fn leave(queue: &mut VecDeque<i128>, oldest: i128)
    ensures queue { (rest : Sequence ℤ) → queue.old.items ≡ minima (oldest ∷ rest) → queue.new.items ≡ minima rest }
    ensures room { deque_capacity queue.new ≡ deque_capacity queue.old }
{
    if first_is(queue, oldest) {
        queue.pop_front();
    }
}

// Takes the numbers away from the end that are above.
fn trim(queue: &mut VecDeque<i128>, number: i128)
    ensures queue { queue.new.items ≡ trimmed number queue.old.items }
    ensures room { deque_capacity queue.new ≡ deque_capacity queue.old }
    ensures len { deque_len queue.new ≤ deque_len queue.old }
{
    while ends_above(queue, number) {
        queue.pop_back();
    }
}

/// The queue of a window with a newer value.
pub fn enter(queue: &mut VecDeque<i128>, number: i128)
    requires { deque_len queue.old < deque_capacity queue.old }
    ensures queue { (values : Sequence ℤ) → queue.old.items ≡ minima values → queue.new.items ≡ minima (values ++ number ∷ []) }
    ensures room { deque_capacity queue.new ≡ deque_capacity queue.old }
{
    trim(queue, number);
    queue.push_back_reserved(number);
}
