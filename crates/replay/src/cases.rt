// Reading a case: decimal numbers with a space between them, and lists as their length and elements.
ghost use Rattle.std.specs.Prelude.{◌≤◌, length};

use std::slice::Iter;

// 2 ^ 64 / 10, rounded up: ten times a number below it fits 64 bits.
const TENTH: u64 = u64::MAX / 10 + 1;

// A number that a case gives, or a call answers with, in its width.
pub(crate) trait Number: Copy + Into<u64> {
    // What is past the width is lost.
    fn truncate(value: u64) -> Self;
}

impl Number for u8 {
    fn truncate(value: u64) -> u8 {
        (value & 0xff) as u8
    }
}

impl Number for u32 {
    fn truncate(value: u64) -> u32 {
        (value & 0xffff_ffff) as u32
    }
}

impl Number for u64 {
    fn truncate(value: u64) -> u64 {
        value
    }
}

// What is left of a case's line.
#[derive(Drop)]
pub(crate) struct Case<'a> {
    bytes: Iter<'a, u8>,
}

impl<'a> Case<'a> {
    pub(crate) fn new(line: &'a [u8]) -> Case<'a> {
        Case { bytes: line.iter() }
    }

    // The next number, and 0 where the line has ended. Digits past 64 bits are lost.
    pub(crate) fn number<T: Number>(&mut self) -> T {
        let mut value: u64 = 0;
        for b in self.bytes.by_ref() {
            if *b < b'0' {
                break;
            }
            value = (value % TENTH * 10).wrapping_add(u64::from(*b - b'0'));
        }
        T::truncate(value)
    }

    // A list of numbers, as many as there is room for.
    pub(crate) fn list<'b, T: Number>(&mut self, room: &'b mut [T]) -> &'b mut [T]
        ensures { length result.now ≤ length room.old }
    {
        let count = at_most(self.number(), room.len());
        let list = &mut room[..count];
        for x in list.iter_mut() {
            *x = self.number();
        }
        list
    }

    // A part, `r n bytes..`: its n bytes r times over, as many as there is room for. What r has past 32 bits is lost.
    fn part(&mut self, room: &mut [u8]) -> usize
        ensures { result ≤ length room.new }
    {
        let times: u32 = self.number();
        let n = self.list(room).len();
        let count = at_most(u64::from(times).saturating_mul(n as u64), room.len());
        for i in n..count {
            room[i] = room[i - n];
        }
        count
    }

    // Joined parts, `k` and k parts, as many bytes as there is room for.
    pub(crate) fn parts<'b>(&mut self, room: &'b mut [u8]) -> &'b mut [u8]
        ensures { length result.now ≤ length room.old }
    {
        let parts: u64 = self.number();
        let mut count = 0;
        for _ in 0..parts {
            count += self.part(&mut room[count..]);
        }
        &mut room[..count]
    }

    pub(crate) fn lent(&mut self) -> Lent {
        Lent {
            count: self.number(),
            first: self.number(),
        }
    }
}

// A lent list, `m f`: m elements, f, f + 1, and so on.
#[derive(Clone, Copy)]
pub(crate) struct Lent {
    count: u64,
    first: u64,
}

impl Lent {
    // The element at index i as it was lent.
    pub(crate) fn element(self, i: usize) -> u64 {
        self.first.wrapping_add(i as u64)
    }

    // The list, as many elements as there is room for.
    pub(crate) fn fill<'b, T: Number>(self, room: &'b mut [T]) -> &'b mut [T]
        ensures { length result.now ≤ length room.old }
    {
        let count = at_most(self.count, room.len());
        let list = &mut room[..count];
        for (i, x) in list.iter_mut().enumerate() {
            *x = T::truncate(self.element(i));
        }
        list
    }
}

// A count, or the room where that is less.
fn at_most(value: u64, most: usize) -> usize
    ensures { result ≤ most }
{
    value.min(most as u64) as usize
}
