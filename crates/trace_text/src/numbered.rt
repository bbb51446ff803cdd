// Items with their numbers, taken one by one.
ghost use Rattle.std.specs.Prelude.{◌≡◌, ◌≤◌, [], length, drop};
ghost use Rattle.std.specs.Option.{option_map, unwrap_or};
ghost use Rattle.trace_text.specs.Numbered.{Left, TakesNumbered};

use segmented_list::SegmentedList;
use std::marker::Model;

// A contract sees the items that are left, and the number of the first of them.
#[derive(Drop)]
pub struct Numbered<'a, T> {
    items: &'a [T],
    number: usize,
}

impl<'a, T> Model for Numbered<'a, T> {
    ghost Value = { Left T };

    ghost view = { λ s. record { number = s.number; items = drop s.number s.items.now } };

    ghost invariant = { λ s. s.number ≤ length s.items.now };
}

impl<'a, T> Numbered<'a, T> {
    pub fn of(items: &'a [T]) -> Numbered<'a, T>
        ensures { result ≡ record { number = 0; items = items.now } }
    {
        Numbered { items, number: 0 }
    }

    pub fn next(&mut self) -> Option<(usize, &'a T)>
        ensures { TakesNumbered self.old (option_map (λ x. (x.0, x.1.now)) result) self.new }
    {
        let items = self.items;
        let number = self.number;
        match items.get(number) {
            None => None,
            Some(item) => {
                self.number = number + 1;
                Some((number, item))
            }
        }
    }
}

/// The items of a list in segments that are left, with their numbers; none of no list.
#[derive(Drop)]
pub struct NumberedIn<'a, T> {
    list: Option<&'a SegmentedList<T>>,
    number: usize,
}

impl<'a, T> Model for NumberedIn<'a, T> {
    ghost Value = { Left T };

    ghost view = { λ s. record { number = s.number; items = drop s.number (unwrap_or (option_map (λ l. l.now) s.list) []) } };
}

impl<'a, T> NumberedIn<'a, T> {
    pub fn none() -> NumberedIn<'a, T>
        ensures { result ≡ record { number = 0; items = [] } }
    {
        NumberedIn {
            list: None,
            number: 0,
        }
    }

    pub fn of(list: &'a SegmentedList<T>) -> NumberedIn<'a, T>
        ensures { result ≡ record { number = 0; items = list.now } }
    {
        NumberedIn {
            list: Some(list),
            number: 0,
        }
    }

    pub fn next(&mut self) -> Option<(usize, &'a T)>
        ensures { TakesNumbered self.old (option_map (λ x. (x.0, x.1.now)) result) self.new }
    {
        let number = self.number;
        let list = self.list?;
        if number >= list.len() {
            return None;
        }
        match list.get(number) {
            None => None,
            Some(item) => {
                self.number = number + 1;
                Some((number, item))
            }
        }
    }
}
