//! A shelf of files in memory, with calls that are to fail.
ghost use Rattle.std.specs.Prelude.{◌≡◌, ◌+◌, ◌<◌, ◌≤◌, ℕ, List, [], None, Some, length, min, take, drop, IfSome, IfNone, option_map, option_copied, is_some, is_none, ◌&&◌, false};
ghost use Rattle.yew_io.specs.Shelf.{bytes_of};
ghost use Rattle.yew_io.specs.MemoryShelf.{ShelfState, files_of, bytes_at, IsPlace};

use crate::calls::is_listed;
use crate::shelf::{Failed, Shelf};
use std::marker::Model;

// How far the open file was read: the file's index, and the bytes that were given.
#[derive(Clone, Copy)]
struct Place {
    file: usize,
    at: usize,
}

/// Files in memory. The calls of `open` and `read` are numbered together from 1; the numbers stay at 2^64-1.
#[derive(Drop)]
pub struct MemoryShelf<'a> {
    files: Vec<(String, Vec<u8>)>,
    fails: Vec<u64>,
    calls: u64,
    faults: u64,
    name: Option<&'a str>,
    // None before the first call and after one that failed.
    place: Option<Place>,
}

impl<'a> Model for MemoryShelf<'a> {
    ghost Value = { ShelfState };

    ghost view = { λ s. record {
      files = files_of s.files.items;
      fails = s.fails.items;
      calls = s.calls;
      faults = s.faults;
      name = option_copied s.name;
      left = option_map (λ place. drop place.at (bytes_at (files_of s.files.items) place.file)) s.place;
      failed = is_some s.name && is_none s.place;
    } };

    ghost invariant = { λ s. IfSome s.place (λ place. IsPlace (files_of s.files.items) place.file place.at) };
}

impl<'a> MemoryShelf<'a> {
    /// A shelf of these files, each a name and its bytes; of two with one name the first counts. A call fails exactly
    /// where its number is in `fails` or it opens a name that is not there. It takes no memory.
    pub fn new(files: Vec<(String, Vec<u8>)>, fails: Vec<u64>) -> MemoryShelf<'a>
        ensures { result ≡ record { files = files_of files.items; fails = fails.items; calls = 0; faults = 0; name = None; left = None; failed = false } }
    {
        MemoryShelf {
            files,
            fails,
            calls: 0,
            faults: 0,
            name: None,
            place: None,
        }
    }
}

impl<'a> Shelf<'a> for MemoryShelf<'a> {
    ghost use Rattle.std.specs.Prelude.{◌⊎◌, ◌↔◌, true, IsSome, IsErr, IfOk, OnOk, OnErr, Contains};
    ghost use Rattle.yew_io.specs.Faults.{one_more};

    ghost files = { λ s. Some s.files };

    ghost left = { λ s. s.left };

    ghost faults = { λ s. s.faults };

    ghost name = { λ s. s.name };

    ghost failed = { λ s. s.failed };

    fn open(&mut self, file_name: &'a str) -> Result<(), Failed>
        ensures fails { IsErr result ↔ (Contains self.old.fails (one_more self.old.calls) ⊎ (bytes_of self.old.files file_name.now ≡ None)) }
        ensures counted { self.old.faults ≤ self.new.faults }
        ensures ok { OnOk result (self.new ≡ record self.old { calls = one_more self.old.calls; name = Some file_name.now; left = bytes_of self.old.files file_name.now; failed = false }) }
        ensures err { OnErr result (self.new ≡ record self.old { calls = one_more self.old.calls; faults = one_more self.old.faults; name = Some file_name.now; left = None; failed = true }) }
    {
        self.calls = self.calls.saturating_add(1);
        self.name = Some(file_name);
        self.place = None;
        if !is_listed(&self.fails, self.calls) {
            if let Some(file) = index_of(&self.files, file_name) {
                self.place = Some(Place { file, at: 0 });
                return Ok(());
            }
        }
        self.faults = self.faults.saturating_add(1);
        Err(Failed)
    }

    fn read(&mut self, buf: &mut [u8]) -> Result<usize, Failed>
        requires opened { IsSome self.old.name }
        requires whole { self.old.failed ≡ false }
        ensures fails { IsErr result ↔ Contains self.old.fails (one_more self.old.calls) }
        ensures given { IfOk result (λ count. IfSome self.old.left (λ rest. (count ≡ min (length buf.new) (length rest)) × (take count buf.new ≡ take count rest))) }
        ensures told { IsSome self.old.left }
        ensures counted { self.old.faults ≤ self.new.faults }
        ensures ok { IfOk result (λ count. self.new ≡ record self.old { calls = one_more self.old.calls; left = option_map (drop count) self.old.left; failed = false }) }
        ensures err { OnErr result (self.new ≡ record self.old { calls = one_more self.old.calls; faults = one_more self.old.faults; left = None; failed = true }) }
    {
        self.calls = self.calls.saturating_add(1);
        let fails = is_listed(&self.fails, self.calls);
        match self.place {
            Some(place) if !fails => {
                let count = copy_front(&self.files[place.file].1[place.at..], buf);
                let at = place.at + count;
                self.place = Some(Place {
                    file: place.file,
                    at,
                });
                Ok(count)
            }
            _ => {
                self.place = None;
                self.faults = self.faults.saturating_add(1);
                Err(Failed)
            }
        }
    }
}

// The index of the first file of that name.
fn index_of(files: &[(String, Vec<u8>)], name: &str) -> Option<usize>
    ensures there { IfSome result (λ index. (index < length files.now) × (bytes_of (files_of files.now) name.now ≡ Some (bytes_at (files_of files.now) index))) }
    ensures missing { IfNone result (bytes_of (files_of files.now) name.now ≡ None) }
{
    for (index, file) in files.iter().enumerate() {
        if file.0.as_str() == name {
            return Some(index);
        }
    }
    None
}

// Copies as many bytes as both have, from the first on, and gives their number.
fn copy_front(from: &[u8], into: &mut [u8]) -> usize
    ensures count { result ≡ min (length into.old) (length from.now) }
    ensures copied { take result into.new ≡ take result from.now }
{
    let count = into.len().min(from.len());
    into[..count].copy_from_slice(&from[..count]);
    count
}
