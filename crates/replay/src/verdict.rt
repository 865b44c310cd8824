use answers::Answer;
use lines::{Broken, Line};

// What came of a line.
#[derive(Clone, Copy, PartialEq, Eq, Debug)]
pub enum Verdict {
    Same,
    Differ,
    // a kind that is not here, or numbers that a part under the public calls does not take
    Skipped,
}

// Why a line's call was not made, or not compared to its end.
#[derive(Clone, Copy, PartialEq, Eq, Debug)]
pub enum Stop {
    // the line has something else than was expected
    Broken,
    // a kind that is not here, or numbers that a part under the public calls does not take
    Outside,
}

impl From<Broken> for Stop {
    fn from(_broken: Broken) -> Self {
        Stop::Broken
    }
}

impl Verdict {
    // On a line of which this is left: all of it was as expected if its end was reached.
    pub fn of(outcome: Result<(), Stop>, line: &Line) -> Self {
        match outcome {
            Ok(()) if line.is_empty() => Verdict::Same,
            Ok(()) | Err(Stop::Broken) => Verdict::Differ,
            Err(Stop::Outside) => Verdict::Skipped,
        }
    }
}

// The answer and the list are what the line has next.
pub fn answered(line: &mut Line, answer: Answer, lent: Line, list: &[i64]) -> Result<(), Stop> {
    line.same_integer(answers::code(answer))?;
    Ok(line.same_lent(lent, list)?)
}
