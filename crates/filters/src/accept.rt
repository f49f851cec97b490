// The accept list (Core Vol 4 Part E sections 7.8.15 to 7.8.17): entries of a type and an address, oldest first.
ghost use Rattle.std.specs.Prelude.{◌≡◌, [], ◌≤◌, length, true, false, MatchOption};
ghost use Rattle.filters.specs.Filters.{accept_entries, accept_entry, contains_entry, added, is_full, removed, entries_differ};

use crate::differ::entries_differ;
use crate::keys::{cut, place_of};

#[repr(C)]
#[derive(Clone, Copy)]
pub struct AcceptList {
    pub octets: [u8; 224],
    pub count: usize,
}

impl AcceptList {
    // The empty list.
    #[tactic(auto, unfolding(lists::specs::Lists::chunks))]
    pub fn new() -> AcceptList
        ensures { accept_entries result ≡ [] }
    {
        AcceptList {
            octets: [0u8; 224],
            count: 0,
        }
    }

    // The entries, oldest first.
    pub fn entries(&self) -> &[[u8; 7]]
        requires { self.now.count ≤ 32 }
        ensures list { result.now ≡ accept_entries self.now }
        ensures count { length result.now ≡ self.now.count }
    {
        &self.octets.as_chunks().0[..self.count]
    }

    // Whether the entry is on the list.
    pub fn contains(self, entry: [u8; 7]) -> bool
        requires { self.count ≤ 32 }
        ensures { result ≡ contains_entry entry (accept_entries self) }
    {
        place_of(self.entries(), entry).is_some()
    }

    // Adds an entry: one that is present stays as it is, also where the list is full. None where it is full without it.
    pub fn add(self, entry: [u8; 7], size: usize) -> Option<AcceptList>
        requires { (self.count ≤ 32) × (size ≤ 32) }
        ensures { MatchOption result (is_full size entry (accept_entries self) ≡ true)
            (λ list. (is_full size entry (accept_entries self) ≡ false)
            × (accept_entries list ≡ added size entry (accept_entries self))) }
    {
        let n = self.count;
        if self.contains(entry) {
            return Some(self);
        }
        if size <= n {
            return None;
        }
        let mut octets = self.octets;
        octets::put(&mut octets, n * 7, &entry);
        Some(AcceptList {
            octets,
            count: n + 1,
        })
    }

    // Removes an entry; one that is absent changes nothing.
    pub fn remove(self, entry: [u8; 7]) -> AcceptList
        requires { self.count ≤ 32 }
        ensures { accept_entries result ≡ removed entry (accept_entries self) }
    {
        let mut list = self;
        // The source takes out every equal entry, so a search follows each cut, over what is left.
        while let Some(place) = place_of(list.entries(), entry) {
            let n = list.count;
            cut(&mut list.octets, 7, n, place);
            list.count = n - 1;
        }
        list
    }
}

// The entry that a command's seven parameter octets name: for type 0xFF the address is zero.
#[tactic(auto, unfolding(crate::specs::Filters::accept_entry))]
pub fn accept_entry(p: &[u8; 7]) -> [u8; 7]
    ensures { result ≡ accept_entry p.now }
{
    if p[0] == 0xFF {
        return [0xFF, 0, 0, 0, 0, 0, 0];
    }
    *p
}

// Whether all entries differ (question 3).
pub fn accept_entries_differ(list: AcceptList) -> bool
    requires { list.count ≤ 32 }
    ensures { result ≡ entries_differ (accept_entries list) }
{
    list.count < 2 || entries_differ(list.entries())
}
