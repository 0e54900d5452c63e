/// What the weights of a problem count, and so what plans of it cost.
#[derive(Clone, Copy, Debug)]
pub enum Weights {
    /// One number a CPU, whatever it stands for: a distance, a price, a preference.
    Plain,
    /// The distance, and one move or none, as a [`Cost`](crate::Cost) packs them.
    WithMoves,
}
