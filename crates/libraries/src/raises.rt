// What both libraries raise for a call that none of their methods answers.

// There is no such method.
pub(crate) const NO_METHOD: i32 = 7;

// The method takes another count of values.
pub(crate) const WRONG_COUNT: i32 = 8;
