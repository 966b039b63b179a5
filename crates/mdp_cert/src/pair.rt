/// What several words of a line say: the value of the first one, and what the others say.
#[derive(Clone, Copy)]
pub struct Pair<V, E> {
    pub first: V,
    pub others: E,
}
