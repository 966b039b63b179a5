use mdp_num::Frac;

/// What the line `keep N Z RANK MARK` says for the claim `min witness`: a kept state, its value and rank, and whether it stays because without it
/// a number is past width.
#[derive(Clone, Copy)]
pub(crate) struct FloorLine {
    pub state: u32,
    pub value: Frac,
    pub rank: u32,
    pub wide: bool,
}
