use crate::asking::{number, raises, returns};
use interface::value::Value;
use libraries::index::Index;
use std::test::Fail;

#[test]
fn finds_what_was_entered(rt: HostRuntime) -> Result<(), Fail> {
    let mut index = Index::new();
    raises(&mut index, 0, &[number(0)], 1)?;
    raises(&mut index, 2, &[number(0)], 1)?;
    returns(&mut index, 1, &[number(2147483647), number(1)], 0)?;
    returns(&mut index, 1, &[number(-2147483648), number(2)], 0)?;
    returns(&mut index, 1, &[Value::Exception(0), number(3)], 0)?;
    returns(&mut index, 0, &[number(2147483647)], 1)?;
    returns(&mut index, 0, &[number(-2147483648)], 2)?;
    returns(&mut index, 0, &[number(0)], 3)?;
    returns(&mut index, 1, &[number(0), number(4)], 0)?;
    returns(&mut index, 0, &[number(0)], 4)?;
    returns(&mut index, 2, &[number(0)], 0)?;
    raises(&mut index, 0, &[number(0)], 1)?;
    assert_eq!(rt; index.value(-2147483648), Some(2));
    assert_eq!(rt; index.value(0), None);
    Ok(())
}

#[test]
fn methods_and_counts() -> Result<(), Fail> {
    let mut index = Index::new();
    raises(&mut index, 3, &[], 7)?;
    raises(&mut index, 255, &[], 7)?;
    raises(&mut index, 0, &[], 8)?;
    raises(&mut index, 1, &[number(0)], 8)?;
    raises(&mut index, 1, &[number(0), number(0), number(0)], 8)?;
    raises(&mut index, 2, &[number(0), number(0)], 8)
}

#[test]
fn holds_32_keys() -> Result<(), Fail> {
    let mut index = Index::new();
    for key in 0..32 {
        returns(&mut index, 1, &[number(key), number(key)], 0)?;
    }
    raises(&mut index, 1, &[number(32), number(0)], 2)?;
    returns(&mut index, 1, &[number(31), number(0)], 0)?;
    returns(&mut index, 2, &[number(5)], 0)?;
    returns(&mut index, 1, &[number(32), number(7)], 0)?;
    returns(&mut index, 0, &[number(32)], 7)?;
    raises(&mut index, 1, &[number(5), number(0)], 2)
}
