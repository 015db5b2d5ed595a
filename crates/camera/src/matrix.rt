// Matrices of three rows and columns: product, determinant, cofactor inverse. Each function equals its formula, rounded
// operation by operation, for every input. The three elements of a row and the inverse's three rows are written out,
// since a closure for `map` would need its own proof that the index is below 3. An index is a plain number below 3,
// since a type of its own would be made of a literal at each call and taken apart at each read.

ghost use Rattle.std.specs.Prelude.{◌≡◌, ◌<◌};
ghost use Rattle.float.specs.Binary64.{◌*₆₄◌};
ghost use Rattle.camera.specs.Matrix.{at, row_product, product_of, first_other, second_other, determinant2_of, minor_of, cofactor_of, determinant_of, inverse_element, inverse_of, row_of};

// The element at row i and column j.
pub fn element(m: [[f64; 3]; 3], i: usize, j: usize) -> f64
    requires { (i < 3) × (j < 3) }
    ensures { result ≡ at m i j }
{
    m[i][j]
}

// A row times column j of b.
fn product_element(row: [f64; 3], b: [[f64; 3]; 3], j: usize) -> f64
    requires { j < 3 }
    ensures { result ≡ row_product row b j }
{
    row[0] * element(b, 0, j) + row[1] * element(b, 1, j) + row[2] * element(b, 2, j)
}

fn product_row(row: [f64; 3], b: [[f64; 3]; 3]) -> [f64; 3]
    ensures { result ≡ row_of (row_product row b) }
{
    [
        product_element(row, b, 0),
        product_element(row, b, 1),
        product_element(row, b, 2),
    ]
}

// The three rows are written out, since a proof with `map` would need that each row of the array has length 3.
#[tactic(auto, unfolding(crate::specs::Matrix::product_of))]
pub fn product(a: [[f64; 3]; 3], b: [[f64; 3]; 3]) -> [[f64; 3]; 3]
    ensures { result ≡ product_of a b }
{
    let [top, middle, bottom] = a;
    [
        product_row(top, b),
        product_row(middle, b),
        product_row(bottom, b),
    ]
}

#[tactic(auto, unfolding(crate::specs::Matrix::first_other))]
fn first_other(i: usize) -> usize
    ensures { (result ≡ first_other i) × (result < 3) }
{
    if i == 0 { 1 } else { 0 }
}

#[tactic(auto, unfolding(crate::specs::Matrix::second_other))]
fn second_other(i: usize) -> usize
    ensures { (result ≡ second_other i) × (result < 3) }
{
    if i == 2 { 1 } else { 2 }
}

// The determinant of two rows and two columns.
fn determinant2(m: [[f64; 3]; 3], r0: usize, r1: usize, c0: usize, c1: usize) -> f64
    requires { (r0 < 3) × ((r1 < 3) × ((c0 < 3) × (c1 < 3))) }
    ensures { result ≡ determinant2_of m r0 r1 c0 c1 }
{
    element(m, r0, c0) * element(m, r1, c1) - element(m, r0, c1) * element(m, r1, c0)
}

#[tactic(auto, unfolding(crate::specs::Matrix::minor_of))]
fn minor(m: [[f64; 3]; 3], i: usize, j: usize) -> f64
    ensures { result ≡ minor_of m i j }
{
    determinant2(
        m,
        first_other(i),
        second_other(i),
        first_other(j),
        second_other(j),
    )
}

#[tactic(auto, unfolding(crate::specs::Matrix::cofactor_of))]
fn cofactor(m: [[f64; 3]; 3], i: usize, j: usize) -> f64
    requires { (i < 3) × (j < 3) }
    ensures { result ≡ cofactor_of m i j }
{
    let value = minor(m, i, j);
    if (i + j) % 2 == 0 { value } else { -value }
}

// The element of the first row in column j, times its minor.
fn expansion_term(m: [[f64; 3]; 3], j: usize) -> f64
    requires { j < 3 }
    ensures { result ≡ at m 0 j *₆₄ minor_of m 0 j }
{
    element(m, 0, j) * minor(m, 0, j)
}

#[tactic(auto, unfolding(crate::specs::Matrix::determinant_of))]
pub fn determinant(m: [[f64; 3]; 3]) -> f64
    ensures { result ≡ determinant_of m }
{
    expansion_term(m, 0) - expansion_term(m, 1) + expansion_term(m, 2)
}

fn inverse_row(m: [[f64; 3]; 3], i: usize) -> [f64; 3]
    requires { i < 3 }
    ensures { result ≡ row_of (inverse_element m i) }
{
    let det = determinant(m);
    [
        cofactor(m, 0, i) / det,
        cofactor(m, 1, i) / det,
        cofactor(m, 2, i) / det,
    ]
}

#[tactic(auto, unfolding(crate::specs::Matrix::inverse_of))]
pub fn inverse(m: [[f64; 3]; 3]) -> [[f64; 3]; 3]
    ensures { result ≡ inverse_of m }
{
    [inverse_row(m, 0), inverse_row(m, 1), inverse_row(m, 2)]
}
