// Pairs and two by two matrices of floats, by value, with the operations of population_focei_2d.rs in that
// file's order. Each function is defined for all floats.
#![tactic(auto)]

ghost use Rattle.std.specs.Prelude.{◌≡◌};
ghost use Rattle.matrix.specs.Matrix.{answer, determinant, array_of, matrix_of, sum, has_nonfinite_entry, inverse, inverse_positive};
ghost use Rattle.matrix.specs.Matrix.{product, dot, pair, at};
ghost use Rattle.matrix.specs.declared.Pair.{Pair};

// The source's Vector: a value for each effect. It is used where a struct or an enum holds one; elsewhere a
// vector is an array. Two are equal where their floats are, so that -0 is 0 and a NaN is unlike itself.
#[derive(Clone, Copy, PartialEq)]
pub struct Pair {
    pub first: f64,
    pub second: f64,
}

impl Pair {
    pub const ZERO: Pair = Pair {
        first: 0.0,
        second: 0.0,
    };
}

// A held vector as an array.
impl From<Pair> for [f64; 2] {
    ghost from_gives = { λ p v. v ≡ pair p.first p.second };

    fn from(p: Pair) -> [f64; 2] {
        [p.first, p.second]
    }
}

// An array as a vector to be held.
impl From<[f64; 2]> for Pair {
    ghost from_gives = { λ v p. p ≡ record { first = at v 0; second = at v 1 } };

    fn from([first, second]: [f64; 2]) -> Pair {
        Pair { first, second }
    }
}

// The source's Matrix, where a struct holds one: its entries by row and column, which the claims name. Wherever a
// matrix is summed, inverted or multiplied it is an array.
#[derive(Clone, Copy)]
pub struct Matrix {
    pub m00: f64,
    pub m01: f64,
    pub m10: f64,
    pub m11: f64,
}

// A held matrix as an array.
pub fn array_of(matrix: Matrix) -> [[f64; 2]; 2]
    ensures { result ≡ array_of matrix }
{
    [[matrix.m00, matrix.m01], [matrix.m10, matrix.m11]]
}

// An array as a matrix to be held.
pub fn matrix_of(array: [[f64; 2]; 2]) -> Matrix
    ensures { result ≡ matrix_of array }
{
    let [[m00, m01], [m10, m11]] = array;
    Matrix { m00, m01, m10, m11 }
}

// The sum of two matrices, entry by entry.
#[tactic(auto, unfolding(crate::specs::Matrix::sum))]
pub fn sum(left: [[f64; 2]; 2], right: [[f64; 2]; 2]) -> [[f64; 2]; 2]
    ensures { result ≡ sum left right }
{
    [
        [left[0][0] + right[0][0], left[0][1] + right[0][1]],
        [left[1][0] + right[1][0], left[1][1] + right[1][1]],
    ]
}

// The determinant of a matrix, the source's `determinant`.
#[tactic(auto, unfolding(crate::specs::Matrix::determinant))]
pub fn determinant(matrix: [[f64; 2]; 2]) -> f64
    ensures { result ≡ determinant matrix }
{
    matrix[0][0] * matrix[1][1] - matrix[0][1] * matrix[1][0]
}

// Whether some entry of a matrix is a NaN or an infinity.
#[tactic(auto, using(float64::specs::Pick::picks), unfolding(crate::specs::Matrix::has_nonfinite_entry))]
pub fn has_nonfinite_entry(matrix: [[f64; 2]; 2]) -> bool
    ensures { result ≡ has_nonfinite_entry matrix }
{
    float64::is_nonfinite(matrix[0][0])
        || float64::is_nonfinite(matrix[0][1])
        || float64::is_nonfinite(matrix[1][0])
        || float64::is_nonfinite(matrix[1][1])
}

// The source's `inverse_positive`: the determinant of a matrix whose diagonal is positive and which has an
// inverse, or none. The source answers with the inverse too, which is `inverse(matrix, det)` here, so that the
// answer holds no array. The last test refuses a matrix whose determinant is so small that it may be rounding
// alone.
#[tactic(auto, using(float64::specs::Pick::picks), unfolding(crate::specs::Matrix::inverse_positive, crate::specs::Matrix::answer))]
pub fn inverse_positive(matrix: [[f64; 2]; 2]) -> Option<f64>
    ensures { answer matrix result ≡ inverse_positive matrix }
{
    let det = determinant(matrix);
    if has_nonfinite_entry(matrix)
        || matrix[0][0] <= 0.0
        || matrix[1][1] <= 0.0
        || float64::is_nonfinite(det)
        || det <= 1e-12 * matrix[0][0] * matrix[1][1]
    {
        return None;
    }
    Some(det)
}

// The inverse of a matrix whose determinant is `det`, as `inverse_positive` of the source computes it.
#[tactic(auto, unfolding(crate::specs::Matrix::inverse))]
pub fn inverse(matrix: [[f64; 2]; 2], det: f64) -> [[f64; 2]; 2]
    ensures { result ≡ inverse matrix det }
{
    [
        [matrix[1][1] / det, -matrix[0][1] / det],
        [-matrix[1][0] / det, matrix[0][0] / det],
    ]
}

// A matrix times a vector, the source's `product`.
#[tactic(auto, unfolding(crate::specs::Matrix::product))]
pub fn product(matrix: [[f64; 2]; 2], vector: [f64; 2]) -> [f64; 2]
    ensures { result ≡ product matrix vector }
{
    [
        matrix[0][0] * vector[0] + matrix[0][1] * vector[1],
        matrix[1][0] * vector[0] + matrix[1][1] * vector[1],
    ]
}

// The sum of the products of two vectors' entries, the source's `dot`.
#[tactic(auto, unfolding(crate::specs::Matrix::dot))]
pub fn dot(left: [f64; 2], right: [f64; 2]) -> f64
    ensures { result ≡ dot left right }
{
    left[0] * right[0] + left[1] * right[1]
}
