use ch_affine::List;

/// A condition on the loop values of levels 1, 2 and so on: it holds where the sum of each
/// coefficient times its level's value, plus the constant, is at least 0.
#[derive(Debug, Drop)]
pub struct Condition {
    pub coefs: List<i64>,
    pub constant: i64,
}
