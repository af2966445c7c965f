// A key of an index with its value.
#[derive(Clone, Copy, Debug, Default, PartialEq, Eq)]
pub struct Binding {
    pub key: i32,
    pub value: i32,
}
