// Printing an answer: numbers with a space between them, a case a line.
use crate::cases::{Lent, Number};

// The numbers of an answer, which begin the line. A failed write is not told: what it should have written is missing.
pub(crate) fn answer(rt: &impl Print, numbers: &[u64]) {
    if let Some((first, rest)) = numbers.split_first() {
        let _ = rt.print(*first);
        list(rt, rest);
    }
}

fn next(rt: &impl Print, x: u64) {
    let _ = print!(rt; " {x}");
}

pub(crate) fn list<T: Number>(rt: &impl Print, xs: &[T]) {
    for x in xs {
        next(rt, (*x).into());
    }
}

// What has changed in a lent list: how many elements, and of each its index and itself.
pub(crate) fn changes<T: Number>(rt: &impl Print, xs: &[T], lent: Lent) {
    let has_changed = |(i, x): &(usize, &T)| (**x).into() != lent.element(*i);
    next(rt, xs.iter().enumerate().filter(has_changed).count() as u64);
    for (i, x) in xs.iter().enumerate().filter(has_changed) {
        next(rt, i as u64);
        next(rt, (*x).into());
    }
}

pub(crate) fn end(rt: &impl Print) {
    let _ = println!(rt);
}
