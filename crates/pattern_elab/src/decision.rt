//! Decision tests.
use mo_num::{Bytes, Sequence};
use mo_types::Datum;

/// A part of the value that a `switch` is on. Each place but that of the value lies directly in another one, whose number is smaller.
#[derive(Drop)]
pub enum Place {
    /// The value itself.
    Whole,
    /// What the option at the place holds.
    Inside(usize),
    /// What stands under the tag at the place.
    Payload(usize),
    /// The part with a number, from 0, of the tuple at the place.
    Part(usize, usize),
    /// The field with a label of the object at the place.
    Field(usize, Bytes),
}

/// What is asked of a part of the value.
#[derive(Drop)]
pub enum Question {
    /// Whether it is this value, which has no parts.
    Equals(Datum),
    /// Whether it is an option that holds a value.
    Present,
    /// Whether it has this tag.
    Tag(Bytes),
}

/// What comes next.
#[derive(Clone, Copy, Debug, PartialEq, Eq)]
pub enum Target {
    /// The test with this number.
    Test(usize),
    /// The pattern with this number, from 0, is the first one that matches.
    Chosen(usize),
    /// No pattern matches.
    Nothing,
}

/// A question at a place, and what comes next where its answer is yes and where it is no.
#[derive(Drop)]
pub struct Test {
    pub place: usize,
    pub question: Question,
    pub holds: Target,
    pub fails: Target,
}

/// The tests of a `switch`: Motoko language manual, section "Switch". A test names tests with smaller numbers alone.
pub struct Tests {
    pub places: Sequence<Place>,
    pub tests: Sequence<Test>,
    pub start: Target,
}

// Written here, so that it is proved here, and not again in each crate that lets tests go.
impl Drop for Tests {
    fn drop(self) {
        let Tests {
            places: _places,
            tests: _tests,
            start: _start,
        } = self;
    }
}
