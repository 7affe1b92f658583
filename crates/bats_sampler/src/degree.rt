ghost use Rattle.std.specs.Prelude.{◌≡◌, ◌<◌, ◌≤◌};
ghost use Rattle.bats_model.specs.DegreeTable.{degree_table, degree_at};

// The rows of the two tables: a degree and its weight.
const TABLE_0: [(u8, u16); 8] = [
    (12, 100),
    (16, 250),
    (20, 200),
    (26, 150),
    (36, 120),
    (52, 90),
    (80, 60),
    (128, 30),
];

const TABLE_1: [(u8, u16); 8] = [
    (1, 20),
    (2, 480),
    (3, 170),
    (4, 90),
    (6, 80),
    (10, 70),
    (20, 50),
    (40, 40),
];

// The degree of the first row at which the running sum of the weights is greater than `number`, or 0.
fn first_degree_above(rows: [(u8, u16); 8], number: u32) -> u32
    ensures { result ≡ degree_at rows number }
{
    let mut sum = 0;
    for (degree, weight) in rows {
        sum += u32::from(weight);
        if number < sum {
            return u32::from(degree);
        }
    }
    0
}

/// The degree that the table of this number, 0 or 1, gives a number below 1,000.
pub fn degree_of(table: u8, number: u32) -> u32
    ensures value { result ≡ degree_at (degree_table table) number }
    ensures few { result ≤ 128 }
    ensures some { number < 1000 → 1 ≤ result }
{
    first_degree_above(if table == 0 { TABLE_0 } else { TABLE_1 }, number)
}
