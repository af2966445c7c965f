use crate::asking::{passes, same, stops};
use interface::answers::QuestionKind;
use policies::allowance::Allowance;
use policies::chart::Chart;
use policies::pair::Pair;
use refusal::Refusal;
use std::test::Fail;

// Drawing this arrow is refused with 17.
fn refused(chart: &mut Chart, from: u8, kind: u8, method: u8, to: u8) -> Result<(), Fail> {
    let wanted = Refusal {
        number: 17,
        first: 0,
        second: 0,
    };
    same(
        chart.draw(from, kind, method, to).map_err(Refusal::from),
        Err(wanted),
    )
}

fn drawn(chart: &mut Chart, from: u8, kind: u8, method: u8, to: u8) -> Result<(), Fail> {
    same(chart.draw(from, kind, method, to), Ok(()))
}

fn allowance(method_31: u32) -> Allowance {
    let mut left = [0; 32];
    left[31] = method_31;
    Allowance::new(left)
}

#[test]
fn arrows_are_drawn() -> Result<(), Fail> {
    let mut chart = Chart::new();
    refused(&mut chart, 16, 2, 0, 0)?;
    refused(&mut chart, 0, 2, 0, 16)?;
    refused(&mut chart, 0, 1, 0, 0)?;
    refused(&mut chart, 0, 5, 0, 0)?;
    refused(&mut chart, 0, 2, 32, 0)?;
    drawn(&mut chart, 0, 2, 31, 15)?;
    refused(&mut chart, 0, 2, 31, 15)?;
    refused(&mut chart, 0, 2, 31, 14)?;
    drawn(&mut chart, 15, 4, 31, 0)
}

#[test]
fn chart_moves_and_stops() -> Result<(), Fail> {
    let mut chart = Chart::new();
    drawn(&mut chart, 0, 2, 31, 15)?;
    drawn(&mut chart, 15, 4, 0, 7)?;
    stops(&mut chart, QuestionKind::Before, 0, 0)?;
    passes(&mut chart, QuestionKind::After, 31)?;
    passes(&mut chart, QuestionKind::Before, 31)?;
    stops(&mut chart, QuestionKind::Before, 31, 15)?;
    stops(&mut chart, QuestionKind::Before, 255, 15)?;
    passes(&mut chart, QuestionKind::Except, 0)?;
    stops(&mut chart, QuestionKind::Before, 31, 7)
}

#[test]
fn allowance_counts_down() -> Result<(), Fail> {
    let mut policy = allowance(2);
    stops(&mut policy, QuestionKind::Before, 0, 1)?;
    stops(&mut policy, QuestionKind::Before, 32, 1)?;
    passes(&mut policy, QuestionKind::After, 32)?;
    passes(&mut policy, QuestionKind::Before, 31)?;
    passes(&mut policy, QuestionKind::After, 31)?;
    passes(&mut policy, QuestionKind::Before, 31)?;
    stops(&mut policy, QuestionKind::Before, 31, 1)?;
    passes(&mut policy, QuestionKind::Except, 31)
}

#[test]
fn pair_of_pairs() -> Result<(), Fail> {
    let mut chart = Chart::new();
    drawn(&mut chart, 0, 2, 31, 9)?;
    let mut policy = Pair::new(chart, Pair::new(allowance(1), allowance(5)));
    stops(&mut policy, QuestionKind::Before, 0, 0)?;
    passes(&mut policy, QuestionKind::Before, 31)?;
    stops(&mut policy, QuestionKind::Before, 31, 9)?;
    passes(&mut policy, QuestionKind::After, 31)
}
