// The table that chooses one code for each sum of codes ("Directions"). Its rule is computed once, for all 256 entries, and carried to each
// sum by a law.
#![tactic(auto)]

ghost use Rattle.std.specs.Prelude.{◌≡◌, ◌<◌};
ghost use Rattle.grid.specs.Directions.{choice};
ghost use Rattle.choice_table.specs.Choices.{choices as choices'};

// "one table of 256 entries gives the choice for every sum"
pub const CHOICE: [u8; 256] = [
    0, 1, 2, 1, 4, 1, 2, 2, // 7
    8, 1, 2, 2, 4, 4, 4, 2, 16, 1, 2, 1, 4, 4, 4, 2, 8, // 24
    8, 8, 2, 8, 4, 4, 4, 32, 1, 2, // 34: east and west tie, and the lower position is taken
    1, 4, 1, 2, 2, 8, 8, 8, 2, 8, 4, 4, 2, 16, 16, 16, 1, 16, 16, 4, 2, 16, 16, 8, 8, 8, 8, 8, 4,
    64, 1, 2, 1, 4, 1, 2, 1, 8, 1, 2, 1, 4, 4, 4, 2, 16, 64, 16, 1, 16, 1, 4, 1, 16, 16, 8, 1, 8,
    4, 4, 4, 32, 64, 32, 1, 32, 64, 2, 1, 32, 32, 32, 1, 8, 4, 4, 2, 32, 32, 32, 32, 16, 16, 16, 1,
    16, 16, 16, 16, 16, 16, 8, 4, 128, 1, 2, 1, 4, 1, 2, 1, 8, 1, 2, // 138
    1, 4, 1, 2, 2, 16, 1, 2, 1, 4, 1, 2, 1, 8, 1, 8, 1, 8, 4, 4, 2, 32, 128, 128, 1, 32, 1, 2, 1,
    32, // 168
    128, 2, 1, 8, 1, 2, 2, 32, 32, 32, 1, 16, 1, 2, 1, 16, 16, 8, 1, 8, 8, 8, 2, 64, 128, 128, 1,
    64, 1, 2, 1, 64, 128, 128, 1, 4, 1, 2, 1, 64, 64, 64, 1, 64, 1, 2, 1, 16, 64, 8, 1, 8, 1, 4, 1,
    64, 64, 64, 128, 64, 64, 64, 1, 32, 64, 32, 128, 32, 64, 2, 1, 32, 64, 32, 64, 32, 64, 32, 1,
    32, 32, 32, 32, 16, 16, 8, 1, // 255: all tie
];

// The table, to be bound once outside a loop and lent to `choose`.
#[tactic(auto, using(crate::proofs::Entries::entries_are), unfolding(crate::proofs::Entries::entries))]
pub fn choices() -> [u8; 256]
    ensures { result ≡ choices' }
{
    CHOICE
}

// The choice for a sum of codes.
#[tactic(auto, using(crate::proofs::Entries::choice_at))]
pub fn choose(table: &[u8; 256], sum: usize) -> u8
    requires table_value { table.now ≡ choices' }
    requires sum_bound { sum < 256 }
    ensures { result ≡ choice sum }
{
    table[sum]
}
