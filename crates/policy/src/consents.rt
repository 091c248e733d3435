ghost use Rattle.std.specs.Prelude.{◌≡◌, true, false, [], Some, ◌==◌, position, slice_index_or};
ghost use Rattle.semantics.specs.Outcomes.{Steps};
ghost use Rattle.semantics.specs.Policies.{consent_of, consent_mark, keys_apart, consents_mean, consented, consented_mean, Means};

use crate::number::number_at;
use crate::policy::Policy;
use bounded::Bounded;
use cells::Cell;
use semantics::{Consent, Mark, Refusal};
use std::marker::Model;

/// A register of at most 64 entries, in the order in which their keys were first set. No two have the same key.
#[derive(Drop)]
pub struct Consents {
    entries: Bounded<Consent, 64>,
}

impl Model for Consents {
    ghost use Rattle.std.specs.Prelude.{◌≡◌, true, List};
    ghost use Rattle.semantics.specs.declared.rule.Consent.{Consent};
    ghost use Rattle.semantics.specs.Policies.{keys_apart};
    ghost use Rattle.bounded.specs.Bounded.{items};

    ghost Value = { List Consent };

    ghost view = { λ register. items register.entries };

    ghost invariant = { λ register. keys_apart (items register.entries) ≡ true };
}

/// Whether a column is among these.
fn has(columns: &[bool], column: usize) -> bool
    ensures { result ≡ slice_index_or columns.now column false }
{
    columns.get(column).copied().unwrap_or(false)
}

/// The mark that an entry gives a column.
fn entry_mark(entry: Consent, column: usize) -> Mark
    ensures { result ≡ consent_mark (Some entry) column }
{
    let Consent {
        key: _,
        shown,
        linked,
    } = entry;
    if has(&shown, column) {
        Mark::Shown
    } else if has(&linked, column) {
        Mark::Linked
    } else {
        Mark::Hidden
    }
}

impl Consents {
    /// A register without entries.
    pub fn new() -> Consents
        ensures { result ≡ [] }
    {
        let entry = Consent {
            key: 0,
            shown: [false; 8],
            linked: [false; 8],
        };
        Consents {
            entries: Bounded::new(entry),
        }
    }

    /// The entries.
    pub fn entries(&self) -> &[Consent]
        ensures value { result.now ≡ self.now }
        ensures apart { keys_apart result.now ≡ true }
    {
        self.entries.as_slice()
    }

    /// The position of the entry of a key, if it has one.
    fn position(&self, key: u32) -> Option<usize>
        ensures { result ≡ position (λ e. e.key == key) self.now }
    {
        self.entries().iter().position(|entry| entry.key == key)
    }

    /// The entry of a key, if it has one.
    fn look_up(&self, key: u32) -> Option<Consent>
        ensures { result ≡ consent_of self.now key }
    {
        self.entries()
            .iter()
            .find(|entry| entry.key == key)
            .copied()
    }

    /// Sets the entry of a key: a known key's is replaced, a new key's is added.
    pub fn set(&mut self, consent: Consent) -> Result<(), Refusal>
        ensures step { Steps result (consented self.old consent) self.old self.new }
        ensures meaning { Means result (consents_mean self.old) (consented_mean self.old consent) (consents_mean self.new) }
    {
        match self.position(consent.key) {
            Some(position) => {
                self.entries.set(position, consent);
                Ok(())
            }
            None => self.entries.push(consent).or(Err(Refusal::RegisterFull)),
        }
    }
}

impl Policy for Consents {
    ghost meaning = { consents_mean };

    fn mark(&self, _broker: u16, table: usize, row: &[Cell], column: usize) -> Mark {
        if table != 3 {
            return Mark::Shown;
        }
        match number_at(row, 0) {
            None => Mark::Hidden,
            Some(key) => match self.look_up(key) {
                None => Mark::Hidden,
                Some(entry) => entry_mark(entry, column),
            },
        }
    }
}
