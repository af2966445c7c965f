ghost use Rattle.std.specs.Prelude.{◌≡◌, List, [], MatchResult};
ghost use Rattle.libraries.specs.declared.binding.Binding.{Binding};
ghost use Rattle.libraries.specs.Index.{lookup, index_rule, find_key, enter_key, strike_key};
ghost use Rattle.libraries.specs.IndexLaws.{Canonical};
ghost use Rattle.libraries.specs.Places.{StandsAt, GoesAt};

use crate::binding::Binding;
use crate::raises::{NO_METHOD, WRONG_COUNT};
use arrayvec::ArrayVec;
use interface::answers::LibraryAnswer;
use interface::parties::Library;
use interface::value::Value;
use std::marker::Model;

// What an index raises: the key has no value, and a new key meets 32 others.
const NO_KEY: i32 = 1;

const FULL: i32 = 2;

// A map from up to 32 keys to values. Its bindings stand in the order of their keys, so that the
// same keys and values always stand the same way. A call takes no heap, which a BTreeMap would.
#[derive(Drop)]
pub struct Index {
    bindings: ArrayVec<Binding, 32>,
}

impl Model for Index {
    ghost Value = { List Binding };

    ghost view = { λ x. x.bindings.items };

    ghost invariant = { λ x. Canonical x.bindings.items };
}

impl Index {
    pub fn new() -> Index
        ensures { result ≡ [] }
    {
        Index {
            bindings: ArrayVec::new(),
        }
    }

    // The place where a key stands, or else the one where it would.
    fn position(&self, key: i32) -> Result<usize, usize>
        ensures { MatchResult result (StandsAt self.now key) (GoesAt self.now key) }
    {
        self.bindings
            .binary_search_by_key(&key, |binding| binding.key)
    }

    // Looks for the value of a key without a call.
    pub fn value(&self, key: i32) -> Option<i32>
        ensures value { result ≡ lookup self.now key }
        ensures canonical { Canonical self.now }
    {
        match self.position(key) {
            Ok(place) => Some(self.bindings[place].value),
            Err(_) => None,
        }
    }

    fn find(&self, key: i32) -> LibraryAnswer
        ensures { (result, self.now) ≡ find_key self.now key }
    {
        match self.value(key) {
            Some(value) => LibraryAnswer::Return(value),
            None => LibraryAnswer::Raise(NO_KEY),
        }
    }

    fn enter(&mut self, key: i32, value: i32) -> LibraryAnswer
        ensures { (result, self.new) ≡ enter_key self.old key value }
    {
        let binding = Binding { key, value };
        match self.position(key) {
            Ok(place) => self.bindings[place] = binding,
            Err(place) => {
                if self.bindings.try_insert(place, binding).is_err() {
                    return LibraryAnswer::Raise(FULL);
                }
            }
        }
        LibraryAnswer::Return(0)
    }

    fn strike(&mut self, key: i32) -> LibraryAnswer
        ensures { (result, self.new) ≡ strike_key self.old key }
    {
        match self.position(key) {
            Ok(place) => {
                self.bindings.remove(place);
                LibraryAnswer::Return(0)
            }
            Err(_) => LibraryAnswer::Raise(NO_KEY),
        }
    }
}

impl Library for Index {
    ghost State = { List Binding };

    ghost state = { λ bindings. bindings };

    ghost rule = { λ _. index_rule };

    fn call(&mut self, method: u8, values: &[Value]) -> LibraryAnswer {
        match (method, values) {
            (0, [key]) => self.find(key.number()),
            (1, [key, value]) => self.enter(key.number(), value.number()),
            (2, [key]) => self.strike(key.number()),
            (0..=2, _) => LibraryAnswer::Raise(WRONG_COUNT),
            _ => LibraryAnswer::Raise(NO_METHOD),
        }
    }
}
