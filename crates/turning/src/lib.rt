// Turns of the crews' traces (document 02, Wish 8), on a sheet of codes that is accepted. "A turn moves that crew's trace one cell down, or
// finishes it at its last cell; with no trace, or a finished one, it does nothing." The state is the array that the caller lends, and each
// function stores what the definition of its step says. An array that is lent has no length that a proof could use, so that the contracts
// are equations of lists of any length.
#![tactic(auto)]

ghost use Rattle.std.specs.Prelude.{◌≡◌, true, ◌+◌, ◌<◌, set, MatchOption};
ghost use Rattle.grid.specs.Routes.{has_code, receiver};
ghost use Rattle.grid.specs.Crews.{finished, is_on_way as is_on_way', is_finished as is_finished', stands_on, counted, stepped, turn_of, turn, turns};
ghost use Rattle.route_laws.specs.Receivers.{AllCodes};
ghost use Rattle.crew_laws.specs.Standing.{Standing, OnSheet};

use cells::Direction;
use grid::Grid;

// What the state says of a crew: "no trace" (and so any other number), "waiting", and a finished trace.
pub const NO_TRACE: u64 = 0;

pub const WAITING: u64 = 1;

pub const FINISHED: u64 = 2;

// A crew's number, "numbered 0 to 31".
#[derive(Clone, Copy)]
pub struct Crew {
    pub k: usize,
    pub ghost in_range: { k < 32 },
}

impl Crew {
    // The crew of a number, where there is one.
    pub fn new(k: u32) -> Option<Crew>
        ensures { MatchOption result (31 < k) (λ crew. crew.k ≡ k) }
    {
        if k > 31 {
            return None;
        }
        Some(Crew { k: k as usize })
    }
}

// Whether a cell lies on the sheet and has a code above 0.
#[tactic(auto, using(crate::proofs::Stepping::off_sheet, crate::proofs::Stepping::code_above))]
pub fn has_code(codes: &[u8], cell: usize) -> bool
    requires { AllCodes codes.now }
    ensures { result ≡ has_code codes.now cell }
{
    if cell >= codes.len() {
        return false;
    }
    codes[cell] != 0
}

// The cell that a cell with a code flows into, or rows * cols.
#[tactic(auto, using(route_laws::proofs::Receivers::code_on, crate::proofs::Stepping::position_small), unfolding(grid::specs::Routes::receiver))]
fn next_cell(g: Grid, codes: &[u8], cell: usize) -> usize
    requires on_sheet { OnSheet g codes.now }
    requires cell_value { has_code codes.now cell ≡ true }
    ensures { result ≡ receiver g codes.now cell }
{
    let code = codes[cell];
    let p = Direction::position(code);
    cells::neighbour(g, cell, p)
}

// The turn is counted in the total, which stays at the largest number once there.
#[tactic(auto, unfolding(grid::specs::Crews::counted))]
fn count_turn(crews: &mut [u64; 66])
    ensures { crews.new ≡ counted crews.old }
{
    crews[65] = crews[65].saturating_add(1);
}

// The crew's trace is finished where it stands.
fn finish(crews: &mut [u64; 66], crew: Crew)
    ensures { crews.new ≡ counted (set crews.old crew.k finished) }
{
    crews[crew.k] = FINISHED;
    count_turn(crews);
}

// It stands on the next cell.
fn move_to(crews: &mut [u64; 66], crew: Crew, next: usize)
    ensures { crews.new ≡ counted (set crews.old (32 + crew.k) next) }
{
    crews[32 + crew.k] = next as u64;
    count_turn(crews);
}

// Whether the crew's trace is on its way.
#[tactic(auto, unfolding(grid::specs::Crews::is_on_way))]
pub fn is_on_way(crews: &[u64; 66], crew: Crew) -> bool
    ensures { result ≡ is_on_way' crews.now crew.k }
{
    crews[crew.k] == WAITING
}

// Whether it is finished and not yet collected.
#[tactic(auto, unfolding(grid::specs::Crews::is_finished))]
pub fn is_finished(crews: &[u64; 66], crew: Crew) -> bool
    ensures { result ≡ is_finished' crews.now crew.k }
{
    crews[crew.k] == FINISHED
}

// The cell that the crew's trace stands on.
pub fn cell_of(crews: &[u64; 66], crew: Crew) -> usize
    ensures { result ≡ stands_on crews.now crew.k }
{
    (crews[32 + crew.k] % 4294967296) as usize
}

// The turn of a crew whose trace is on its way.
#[tactic(auto, unfolding(grid::specs::Crews::stepped))]
fn step(g: Grid, codes: &[u8], crews: &mut [u64; 66], crew: Crew)
    requires on_sheet { OnSheet g codes.now }
    requires cell_value { has_code codes.now (stands_on crews.old crew.k) ≡ true }
    ensures { crews.new ≡ counted (stepped g codes.now crews.old crew.k) }
{
    let cell = cell_of(crews, crew);
    let next = next_cell(g, codes, cell);
    if has_code(codes, next) {
        move_to(crews, crew, next);
    } else {
        finish(crews, crew);
    }
}

// The turn of a crew: nothing, unless its trace is on its way.
#[tactic(auto, unfolding(grid::specs::Crews::turn_of, grid::specs::Crews::is_on_way))]
fn turn_of(g: Grid, codes: &[u8], crews: &mut [u64; 66], crew: Crew)
    requires on_sheet { OnSheet g codes.now }
    requires standing { Standing codes.now crews.old }
    ensures { crews.new ≡ turn_of g codes.now crews.old crew.k }
{
    if is_on_way(crews, crew) {
        step(g, codes, crews, crew);
    }
}

// The turn of the crew whose turn it is, and on to the next.
#[tactic(auto, unfolding(grid::specs::Crews::turn))]
fn take_turn(g: Grid, codes: &[u8], crews: &mut [u64; 66])
    requires on_sheet { OnSheet g codes.now }
    requires standing { Standing codes.now crews.old }
    ensures { crews.new ≡ turn g codes.now crews.old }
{
    let k = (crews[64] % 32) as usize;
    turn_of(g, codes, crews, Crew { k });
    crews[64] = ((k + 1) % 32) as u64;
}

// `n` turns.
pub fn take_turns(g: Grid, codes: &[u8], crews: &mut [u64; 66], n: u16)
    requires on_sheet { OnSheet g codes.now }
    requires standing { Standing codes.now crews.old }
    ensures { crews.new ≡ turns g codes.now n crews.old }
{
    for _taken in 0..n {
        take_turn(g, codes, crews);
    }
}
