// Piles over any store. Each is exercised and taken apart again.
use crate::exercise::exercise;
use std::fmt::Display;
use std::io;
use store::{Store, WearGuard, Window};

// All piles, one after another, over the same store.
pub fn exercise_piles<S: Store + Drop>(rt: &HostRuntime, mut store: S) -> io::Result<S> {
    for (first, most) in [(1, 3), (4, 9), (60000, 9)] {
        let title = format_args!("window {first} {most}");
        let pile = Window::new(store, first, most);
        store = exercise_pile(rt, title, pile, 5, 12, Window::into_below)?;
    }
    for allowance in [1, 0] {
        let title = format_args!("guard {allowance}");
        let pile = WearGuard::new(store, allowance);
        store = exercise_pile(rt, title, pile, 8, 12, WearGuard::into_below)?;
    }
    let title = "window 1 4, guard 2, window 1 40";
    let pile = Window::new(WearGuard::new(Window::new(store, 1, 40), 2), 1, 4);
    let store = exercise_pile(rt, title, pile, 5, 40, |pile| {
        pile.into_below().into_below().into_below()
    })?;
    let store = four_windows(rt, store)?;
    guard_below(rt, store)
}

// A pile under its title, which is then taken apart.
fn exercise_pile<T: Display + Drop, P: Store + Drop, S, F: FnOnce(P) -> S + Drop>(
    rt: &HostRuntime,
    title: T,
    pile: P,
    last: u16,
    turns: usize,
    apart: F,
) -> io::Result<S>
    requires { F.IsAlwaysCallable apart }
{
    println!(rt; "{title}")?;
    Ok(apart(exercise(rt, pile, last, turns)?))
}

// The layer that a refusal names, at each depth.
fn four_windows<S: Store + Drop>(rt: &HostRuntime, store: S) -> io::Result<S> {
    println!(rt; "windows 0 9, 0 8, 0 7, 1 6, from below")?;
    let one = exercise(rt, Window::new(store, 0, 9), 7, 12)?;
    let two = exercise(rt, Window::new(one, 0, 8), 7, 12)?;
    let three = exercise(rt, Window::new(two, 0, 7), 7, 12)?;
    let four = exercise(rt, Window::new(three, 1, 6), 7, 20)?;
    Ok(four.into_below().into_below().into_below().into_below())
}

// A guard two layers down, and one that is used up before the one below it.
fn guard_below<S: Store + Drop>(rt: &HostRuntime, store: S) -> io::Result<S> {
    let title = "window 0 9, guard 1, guard 3, window 0 9";
    let guards = WearGuard::new(WearGuard::new(Window::new(store, 0, 9), 3), 1);
    let pile = Window::new(guards, 0, 9);
    exercise_pile(rt, title, pile, 8, 30, |pile| {
        pile.into_below().into_below().into_below().into_below()
    })
}
