use interface::answers::{LibraryAnswer, PolicyAnswer, QuestionKind};
use interface::parties::{Library, Policy};
use interface::value::Value;
use std::fmt::Debug;
use std::test::Fail;

pub fn number(n: i32) -> Value {
    Value::Number(n)
}

// What was found is what was wanted.
pub fn same<T: PartialEq + Debug + Drop>(found: T, wanted: T) -> Result<(), Fail> {
    if found == wanted {
        return Ok(());
    }
    Err(Fail::new(format_args!("{found:?}, and not {wanted:?}")))
}

// The library returns this number.
pub fn returns<L: Library>(
    library: &mut L,
    method: u8,
    values: &[Value],
    n: i32,
) -> Result<(), Fail> {
    let answer = library.call(method, values);
    same(answer, LibraryAnswer::Return(n))?;
    same((answer.flag(), answer.number(true)), (0, n))
}

// The library raises this code.
pub fn raises<L: Library>(
    library: &mut L,
    method: u8,
    values: &[Value],
    code: i32,
) -> Result<(), Fail> {
    let answer = library.call(method, values);
    same(answer, LibraryAnswer::Raise(code))?;
    same((answer.flag(), answer.number(true)), (1, code))
}

// The policy passes.
pub fn passes<P: Policy>(policy: &mut P, kind: QuestionKind, method: u8) -> Result<(), Fail> {
    let answer = policy.ask(kind, method, &[]);
    same(answer, PolicyAnswer::Pass)?;
    same((answer.flag(), answer.number()), (0, 0))
}

// The policy stops with this code.
pub fn stops<P: Policy>(
    policy: &mut P,
    kind: QuestionKind,
    method: u8,
    code: i32,
) -> Result<(), Fail> {
    let answer = policy.ask(kind, method, &[]);
    same(answer, PolicyAnswer::Stop(code))?;
    same((answer.flag(), answer.number()), (1, code))
}
