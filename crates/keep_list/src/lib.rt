// A keep-list: a list of records over a table that its user lends. It appends while the table lasts,
// and counts all that it is given, also what found no place.
#![tactic(auto)]

use std::marker::Model;

// The questions take it for writing, as it holds its table, and promise no change.
#[derive(Drop)]
pub struct KeepList<'a, T> {
    table: &'a mut [T],
    total: u32,
}

impl<'a, T> Model for KeepList<'a, T> {
    ghost use Rattle.keep_list.specs.Kept.{Kept};

    ghost Value = { Kept T };

    ghost view = { λ k. record { table = k.table.now; total = k.total } };
}

impl<'a, T: Copy> KeepList<'a, T> {
    ghost use Rattle.std.specs.Prelude.{◌≡◌, length};
    ghost use Rattle.std.specs.List.{slice_get};
    ghost use Rattle.keep_list.specs.Kept.{empty, added, records};

    // A keep-list that was given nothing yet; the table stays as it is lent.
    pub fn new(table: &'a mut [T]) -> KeepList<'a, T>
        ensures { result ≡ empty table.old }
    {
        KeepList { table, total: 0 }
    }

    // Counts one record more, and stores it where the table has a place for it.
    pub fn add(&mut self, item: T)
        ensures { self.new ≡ added self.old item }
    {
        if self.total == u32::MAX {
            return;
        }
        let place = self.total as usize;
        if place < self.table.len() {
            self.table[place] = item;
        }
        self.total += 1;
    }

    // How many records it was given.
    pub fn total(&mut self) -> u32
        ensures same { self.new ≡ self.old }
        ensures value { result ≡ self.old.total }
    {
        self.total // also those that found no place
    }

    // How many of them the table holds.
    pub fn held(&mut self) -> u32
        ensures same { self.new ≡ self.old }
        ensures value { result ≡ length (records self.old) }
    {
        // at most the total, so that 32 bits hold it
        self.table.len().min(self.total as usize) as u32
    }

    // How many records the table has places for.
    pub fn places(&mut self) -> usize
        ensures same { self.new ≡ self.old }
        ensures value { result ≡ length self.old.table }
    {
        self.table.len() // also those that are free
    }

    // The record at an index, or none.
    pub fn get(&mut self, index: u32) -> Option<T>
        ensures same { self.new ≡ self.old }
        ensures value { result ≡ slice_get (records self.old) index }
    {
        if index < self.held() {
            Some(self.table[index as usize])
        } else {
            None
        }
    }
}
