// The calls `hand_in`, `run` and `collect` (document 02, Wish 8): "Thirty-two crews, numbered 0 to 31, hand in a cell each and later
// collect the outlet it drains to." The state is an array that the caller lends, and every content of it is a state: no call relies on
// another one having made it. The questions come first, and nothing is stored before the last of them is answered.
#![tactic(auto)]

ghost use Rattle.std.specs.Prelude.{◌≡◌, not, ◌&&◌, Ok, IfOk, MatchOption};
ghost use Rattle.grid.specs.Routes.{has_code};
ghost use Rattle.grid.specs.Checks.{accepted};
ghost use Rattle.grid.specs.Crews.{is_on_way, has_trace, stands_on, ask_trace, handed_in, first_lost, collected, freed};
ghost use Rattle.grid.specs.Promises.{HandInPromise, RunPromise, CollectPromise};
ghost use Rattle.route_laws.specs.Receivers.{AllCodes};
ghost use Rattle.refusals.specs.Answers.{answer_of, collected_of};

use grid::Grid;
use refusals::{Question, Refusal, Trace};
use turning::{Crew, FINISHED, NO_TRACE, WAITING};

// Whether a crew has a trace that is not yet collected, finished or not.
#[tactic(auto, unfolding(grid::specs::Crews::has_trace))]
fn has_trace(crews: &[u64; 66], crew: Crew) -> bool
    ensures { result ≡ has_trace crews.now crew.k }
{
    turning::is_on_way(crews, crew) || turning::is_finished(crews, crew)
}

// "21 for a crew above 31, 22 if that crew's trace is not yet collected, 23 for a cell outside the sheet or with code 0".
// After the last yes, the crew.
#[tactic(auto, unfolding(grid::specs::Crews::ask_trace))]
fn ask_trace(codes: &[u8], k: u32, cell: u32, crews: &[u64; 66]) -> Result<Crew, Refusal<u32>>
    requires { AllCodes codes.now }
    ensures answer { answer_of result ≡ ask_trace codes.now k cell crews.now accepted }
    ensures crew { IfOk result (λ crew. crew.k ≡ k) }
{
    let crew = Crew::new(k).ok_or(Question::Crew)?;
    if has_trace(crews, crew) {
        return Err(Question::Uncollected.into());
    }
    if !turning::has_code(codes, cell as usize) {
        return Err(Question::TraceCell.into());
    }
    Ok(crew)
}

// Puts the crew's trace on a cell, on its way.
#[tactic(auto, unfolding(grid::specs::Crews::handed_in))]
fn put_trace(crews: &mut [u64; 66], crew: Crew, cell: u32)
    ensures { crews.new ≡ handed_in crews.old crew.k cell }
{
    crews[32 + crew.k] = cell as u64;
    crews[crew.k] = WAITING;
}

// A crew hands in a cell.
pub fn hand_in(
    g: Grid,
    codes: &[u8],
    crew: u32,
    cell: u32,
    crews: &mut [u64; 66],
    work: &mut [u32],
) -> Result<(), Refusal<u32>>
    ensures { HandInPromise g codes.now crew cell crews.old crews.new work.old
        work.new (answer_of result) }
{
    code_check::check(g, codes, work)?;
    let crew = ask_trace(codes, crew, cell, crews)?;
    put_trace(crews, crew, cell);
    Ok(())
}

// Whether the crew's trace is on its way and stands outside the sheet or on a cell with code 0.
fn is_lost(codes: &[u8], crews: &[u64; 66], crew: Crew) -> bool
    requires { AllCodes codes.now }
    ensures { result
        ≡ (is_on_way crews.now crew.k && not (has_code codes.now (stands_on crews.now crew.k))) }
{
    turning::is_on_way(crews, crew) && !turning::has_code(codes, turning::cell_of(crews, crew))
}

// "23 if an unfinished trace stands on such a cell, place the lowest such crew": that crew, if there is one.
#[tactic(auto, using(crate::proofs::Traces::lost_here, crate::proofs::Traces::lost_nowhere))]
fn first_lost(codes: &[u8], crews: &[u64; 66]) -> Option<Crew>
    requires { AllCodes codes.now }
    ensures { MatchOption result (first_lost codes.now crews.now ≡ 32)
        (λ crew. crew.k ≡ first_lost codes.now crews.now) }
{
    for k in 0..32 {
        let crew = Crew { k };
        if is_lost(codes, crews, crew) {
            return Some(crew);
        }
    }
    None
}

// Takes `n` turns. 23 is asked once, before the first of them.
pub fn run(
    g: Grid,
    codes: &[u8],
    n: u16,
    crews: &mut [u64; 66],
    work: &mut [u32],
) -> Result<(), Refusal<u32>>
    ensures { RunPromise g codes.now n crews.old crews.new work.old work.new
        (answer_of result) }
{
    code_check::check(g, codes, work)?;
    if let Some(lost) = first_lost(codes, crews) {
        return Err(Question::TraceCell.at(lost.k as u32));
    }
    turning::take_turns(g, codes, crews, n);
    Ok(())
}

// What is answered to a crew.
#[tactic(auto, unfolding(grid::specs::Crews::collected, grid::specs::Crews::is_on_way, grid::specs::Crews::is_finished))]
fn answer_to(crews: &[u64; 66], crew: Crew) -> Trace
    ensures { collected_of (Ok result) ≡ collected crews.now crew.k }
{
    match crews[crew.k] {
        WAITING => Trace::Waiting,
        FINISHED => Trace::Finished(turning::cell_of(crews, crew) as u32),
        _ => Trace::Absent,
    }
}

// Frees a crew whose trace is finished.
#[tactic(auto, unfolding(grid::specs::Crews::freed))]
fn free(crews: &mut [u64; 66], crew: Crew)
    ensures { crews.new ≡ freed crews.old crew.k }
{
    if turning::is_finished(crews, crew) {
        crews[crew.k] = NO_TRACE;
    }
}

// A crew asks for its trace.
#[tactic(auto, unfolding(grid::specs::Crews::collected, grid::specs::Crews::freed))]
pub fn collect(crew: u32, crews: &mut [u64; 66]) -> Result<Trace, Refusal<u32>>
    ensures { CollectPromise crew crews.old crews.new (collected_of result) }
{
    let crew = Crew::new(crew).ok_or(Question::Crew)?;
    let trace = answer_to(crews, crew);
    free(crews, crew);
    Ok(trace)
}
