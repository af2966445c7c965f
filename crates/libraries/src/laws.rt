// The functions of this file carry the laws of the page and the index: each law is a contract.
ghost use Rattle.libraries.specs.IndexLaws.{FindAfterEnter, FindAfterStrike, StaysCanonical};
ghost use Rattle.libraries.specs.IndexLaws.{SameValuesSameState};
ghost use Rattle.libraries.specs.PageLaws.{PutIsRead, JoinKeepsTheRest};

// What was put at a place is read there until something may write there.
pub fn put_stands()
    ensures { PutIsRead }
{}

// A join takes out its two codes and keeps every other one, in order.
pub fn join_stands()
    ensures { JoinKeepsTheRest }
{}

// An entered key is found with its value, and every other key as before.
pub fn enter_stands()
    ensures { FindAfterEnter }
{}

// A struck key is absent, and every other key is found as before.
pub fn strike_stands()
    ensures { FindAfterStrike }
{}

// There are never more than 32 keys, and that they stay in order.
pub fn canonical_states_stand()
    ensures { StaysCanonical }
{}

// Two indices with the same keys and values are equal.
pub fn equal_states_stand()
    ensures { SameValuesSameState }
{}
