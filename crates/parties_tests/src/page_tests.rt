use crate::asking::{number, raises, returns};
use interface::value::Value;
use libraries::page::Page;
use std::test::Fail;

#[test]
fn places_and_codes(rt: HostRuntime) -> Result<(), Fail> {
    let mut page = Page::new();
    raises(&mut page, 0, &[number(-1)], 1)?;
    returns(&mut page, 0, &[number(0)], 0)?;
    returns(&mut page, 0, &[number(255)], 0)?;
    raises(&mut page, 0, &[number(256)], 1)?;
    raises(&mut page, 1, &[number(256), number(-1)], 1)?;
    raises(&mut page, 1, &[number(255), number(-1)], 2)?;
    raises(&mut page, 1, &[number(255), number(1114112)], 2)?;
    returns(&mut page, 1, &[number(255), number(1114111)], 0)?;
    returns(&mut page, 0, &[Value::SecurityException(255)], 1114111)?;
    assert_eq!(rt; page.code(255), 1114111);
    Ok(())
}

#[test]
fn methods_and_counts() -> Result<(), Fail> {
    let mut page = Page::new();
    raises(&mut page, 3, &[], 7)?;
    raises(&mut page, 255, &[number(300)], 7)?;
    raises(&mut page, 0, &[], 8)?;
    raises(&mut page, 0, &[number(300), number(0)], 8)?;
    raises(&mut page, 1, &[number(300)], 8)?;
    raises(&mut page, 1, &[number(300), number(0), number(0)], 8)?;
    raises(&mut page, 2, &[], 8)
}

#[test]
fn joins(rt: HostRuntime) -> Result<(), Fail> {
    let mut page = Page::new();
    raises(&mut page, 2, &[number(-1)], 1)?;
    raises(&mut page, 2, &[number(255)], 1)?;
    raises(&mut page, 2, &[number(254)], 3)?;
    returns(&mut page, 1, &[number(253), number(97)], 0)?;
    returns(&mut page, 1, &[number(254), number(45)], 0)?;
    raises(&mut page, 2, &[number(254)], 3)?;
    returns(&mut page, 1, &[number(255), number(10)], 0)?;
    returns(&mut page, 2, &[number(254)], 0)?;
    assert_eq!(rt;
        (page.code(253), page.code(254), page.code(255)),
        (97, 0, 0)
    );
    Ok(())
}

#[test]
fn join_moves_the_rest(rt: HostRuntime) -> Result<(), Fail> {
    let mut page = Page::new();
    returns(&mut page, 1, &[number(0), number(45)], 0)?;
    returns(&mut page, 1, &[number(1), number(10)], 0)?;
    returns(&mut page, 1, &[number(2), number(98)], 0)?;
    returns(&mut page, 1, &[number(255), number(99)], 0)?;
    returns(&mut page, 2, &[number(0)], 0)?;
    assert_eq!(rt; (page.code(0), page.code(1)), (98, 0));
    assert_eq!(rt;
        (page.code(253), page.code(254), page.code(255)),
        (99, 0, 0)
    );
    Ok(())
}
