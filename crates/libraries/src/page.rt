ghost use Rattle.std.specs.Prelude.{◌≡◌, ◌<◌, length, List, ℤ};
ghost use Rattle.libraries.specs.Page.{blank, code_at, read_at, put_at, joined, join_at, page_rule};

use crate::raises::{NO_METHOD, WRONG_COUNT};
use interface::answers::LibraryAnswer;
use interface::parties::Library;
use interface::value::Value;
use std::marker::Model;

// What a page raises: it has no such place, no character has this code, and no hyphen and line
// feed stand at the place.
const NO_PLACE: i32 = 1;

const NO_CODE: i32 = 2;

const NO_HYPHEN: i32 = 3;

// Codes of characters.
const HYPHEN: i32 = 45;

const LINE_FEED: i32 = 10;

const LAST: i32 = 1114111;

// The text of a register page: 256 codes of characters.
#[derive(Drop)]
pub struct Page {
    codes: [i32; 256],
}

impl Model for Page {
    ghost Value = { List ℤ };

    ghost view = { λ p. p.codes };
}

impl Page {
    pub fn new() -> Page
        ensures { result ≡ blank }
    {
        Page { codes: [0; 256] }
    }

    // Looks at a place without a call.
    pub fn code(&self, place: u8) -> i32
        ensures code { result ≡ code_at self.now place }
        ensures whole { length self.now ≡ 256 }
    {
        self.codes[usize::from(place)]
    }

    fn read(&self, place: i32) -> LibraryAnswer
        ensures { (result, self.now) ≡ read_at self.now place }
    {
        match u8::try_from(place) {
            Ok(at) => LibraryAnswer::Return(self.code(at)),
            Err(_) => LibraryAnswer::Raise(NO_PLACE),
        }
    }

    fn put(&mut self, place: i32, code: i32) -> LibraryAnswer
        ensures { (result, self.new) ≡ put_at self.old place code }
    {
        let Ok(at) = u8::try_from(place) else {
            return LibraryAnswer::Raise(NO_PLACE);
        };
        if !(0..=LAST).contains(&code) {
            return LibraryAnswer::Raise(NO_CODE);
        }
        self.codes[usize::from(at)] = code;
        LibraryAnswer::Return(0)
    }

    // Takes out the two codes at a place, moves the rest up and ends in two zeros.
    fn take_two(&mut self, place: usize)
        requires { place < 255 }
        ensures { self.new ≡ joined self.old place }
    {
        self.codes.copy_within(place + 2.., place);
        self.codes[254..].fill(0);
    }

    fn join(&mut self, place: i32) -> LibraryAnswer
        ensures { (result, self.new) ≡ join_at self.old place }
    {
        let Ok(at @ 0..=254) = u8::try_from(place) else {
            return LibraryAnswer::Raise(NO_PLACE);
        };
        if self.code(at) != HYPHEN || self.code(at + 1) != LINE_FEED {
            return LibraryAnswer::Raise(NO_HYPHEN);
        }
        self.take_two(usize::from(at));
        LibraryAnswer::Return(0)
    }
}

impl Library for Page {
    ghost State = { List ℤ };

    ghost state = { λ codes. codes };

    ghost rule = { λ _. page_rule };

    fn call(&mut self, method: u8, values: &[Value]) -> LibraryAnswer {
        match (method, values) {
            (0, [place]) => self.read(place.number()),
            (1, [place, code]) => self.put(place.number(), code.number()),
            (2, [place]) => self.join(place.number()),
            (0..=2, _) => LibraryAnswer::Raise(WRONG_COUNT),
            _ => LibraryAnswer::Raise(NO_METHOD),
        }
    }
}
