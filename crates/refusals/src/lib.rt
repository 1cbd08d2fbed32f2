// A no as an error: the question at the gate that is answered by it ("Questions at the gate", documents 01 and 02), and the place of the
// first thing that fails. Calls return `Result`, and `?` hands a no on. C gets structs by value (`grid`): each is made of a result here,
// once. `specs/Answers` says which struct a result is, so that a call's promise speaks of what C gets.
#![tactic(auto)]

ghost use Rattle.std.specs.Prelude.{◌≡◌};
ghost use Rattle.refusals.specs.Answers.{number_of, placed, without_place, refused, refused_counted, refused_located, refused_dimensions, refused_collected};
ghost use Rattle.refusals.specs.Answers.{answer_of, counted_of, located_of, dimensions_of, collected_of};

use grid::{Answer, Collected, Counted, Dimensions, Located};

// The questions, each with the number of its no.
#[derive(Clone, Copy, Debug, PartialEq, Eq)]
pub enum Question {
    TextLength = 1,
    TextBytes = 2,
    TextForm = 3,
    TextCells = 4,
    Rows = 5,
    Cols = 6,
    Inputs = 7,
    Results = 8,
    WorkBuffer = 9,
    Levels = 10,
    Codes = 11,
    Routes = 12,
    Starts = 13,
    Columns = 14,
    CulvertCell = 15,
    CulvertLevel = 16,
    Sides = 17,
    Chains = 18,
    ListedCells = 19,
    CellShape = 20,
    Crew = 21,
    Uncollected = 22,
    TraceCell = 23,
    StartLabels = 24,
}

impl From<Question> for u32 {
    ghost from_gives = { λ question n. n ≡ number_of question };

    fn from(question: Question) -> u32 {
        question as u32
    }
}

// A no: the question, and the place of the first thing that fails.
#[derive(Clone, Copy, Debug, PartialEq, Eq)]
pub struct Refusal<P> {
    pub question: Question,
    pub place: P,
}

impl Question {
    // Its no, with a place.
    pub fn at<P>(self, place: P) -> Refusal<P>
        ensures { result ≡ placed self place }
    {
        Refusal {
            question: self,
            place,
        }
    }
}

// A no without a place has place 0.
impl From<Question> for Refusal<u32> {
    ghost from_gives = { λ question no. no ≡ without_place question };

    fn from(question: Question) -> Refusal<u32> {
        question.at(0)
    }
}

// Places in a list may be above 2^32.
impl From<Refusal<u32>> for Refusal<usize> {
    ghost from_gives = { λ cell place. place ≡ cell };

    fn from(no: Refusal<u32>) -> Refusal<usize> {
        Refusal {
            question: no.question,
            place: no.place as usize,
        }
    }
}

impl From<Refusal<u32>> for Answer {
    ghost from_gives = { λ refusal a. a ≡ refused refusal };

    fn from(no: Refusal<u32>) -> Answer {
        Answer {
            number: no.question.into(),
            place: no.place,
        }
    }
}

impl From<Refusal<u32>> for Counted {
    ghost from_gives = { λ refusal a. a ≡ refused_counted refusal };

    fn from(no: Refusal<u32>) -> Counted {
        Counted {
            number: no.question.into(),
            place: no.place,
            count: 0,
        }
    }
}

impl From<Refusal<usize>> for Located {
    ghost from_gives = { λ refusal a. a ≡ refused_located refusal };

    fn from(no: Refusal<usize>) -> Located {
        Located {
            number: no.question.into(),
            place: no.place,
        }
    }
}

impl From<Refusal<u32>> for Dimensions {
    ghost from_gives = { λ refusal a. a ≡ refused_dimensions refusal };

    fn from(no: Refusal<u32>) -> Dimensions {
        Dimensions {
            number: no.question.into(),
            place: no.place,
            rows: 0,
            cols: 0,
        }
    }
}

impl From<Refusal<u32>> for Collected {
    ghost from_gives = { λ refusal a. a ≡ refused_collected refusal };

    fn from(no: Refusal<u32>) -> Collected {
        Collected {
            number: no.question.into(),
            place: no.place,
            status: 0,
            cell: 0,
        }
    }
}

// The rows and columns of a text that is read.
#[derive(Clone, Copy, Debug, PartialEq, Eq)]
pub struct Size {
    pub rows: u32,
    pub cols: u32,
}

// A crew's trace, when it is asked for: none, on its way, or finished at a cell.
#[derive(Clone, Copy, Debug, PartialEq, Eq)]
pub enum Trace {
    Absent,
    Waiting,
    Finished(u32),
}

// What C gets of each kind of result.
pub fn answer(res: Result<(), Refusal<u32>>) -> Answer
    ensures { result ≡ answer_of res }
{
    match res {
        Ok(()) => Answer {
            number: 0,
            place: 0,
        },
        Err(no) => Answer::from(no),
    }
}

pub fn counted(res: Result<u32, Refusal<u32>>) -> Counted
    ensures { result ≡ counted_of res }
{
    match res {
        Ok(count) => Counted {
            number: 0,
            place: 0,
            count,
        },
        Err(no) => Counted::from(no),
    }
}

pub fn located(res: Result<(), Refusal<usize>>) -> Located
    ensures { result ≡ located_of res }
{
    match res {
        Ok(()) => Located {
            number: 0,
            place: 0,
        },
        Err(no) => Located::from(no),
    }
}

pub fn dimensions(res: Result<Size, Refusal<u32>>) -> Dimensions
    ensures { result ≡ dimensions_of res }
{
    match res {
        Ok(size) => Dimensions {
            number: 0,
            place: 0,
            rows: size.rows,
            cols: size.cols,
        },
        Err(no) => Dimensions::from(no),
    }
}

pub fn collected(res: Result<Trace, Refusal<u32>>) -> Collected
    ensures { result ≡ collected_of res }
{
    let (status, cell) = match res {
        Ok(Trace::Absent) => (0, 0),
        Ok(Trace::Waiting) => (1, 0),
        Ok(Trace::Finished(cell)) => (2, cell),
        Err(no) => return Collected::from(no),
    };
    Collected {
        number: 0,
        place: 0,
        status,
        cell,
    }
}
