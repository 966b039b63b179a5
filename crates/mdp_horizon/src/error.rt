use mdp_wide::Unfinished;

/// Where a written term is past width: with how many steps left, at which state, and for which choice.
#[derive(Clone, Copy)]
pub struct HorizonPlace {
    pub depth: u32,
    pub state: u32,
    pub choice: u32,
}

/// Why there are no values.
pub type HorizonError = Unfinished<HorizonPlace>;
