// How closely a net file is checked.
#[derive(Clone, Copy, Debug, PartialEq, Eq)]
pub enum Strictness {
    // By the rules on its layout and its records.
    Plain,
    // By these, and for a clash of its net.
    Strict,
}
